// The lines of a map file, record by record.
ghost use Rattle.std.specs.Prelude.{◌≡◌, ◌≤◌, [], OnOk};
ghost use Rattle.rfc4180.specs.Views.{left, pieces};
ghost use Rattle.maps.specs.Lines.{line_in, lines_in, map_lines};
ghost use Rattle.maps.specs.Reading.{items_in};

use crate::columns::{KEPT, read_map_header};
use crate::entries::{read_next, read_parent, read_resistance};
use arrayvec::ArrayVec;
use feeder::{Line, MOST_METERED};
use files::FileFault;
use printing::MAP_COLUMNS;
use rfc4180::{Reader, Record};

// The line of a record: first the field count, then the fields from the left.
fn read_line(row: &Record<'_, KEPT>, buses: usize, next: usize) -> Result<Line, FileFault>
    ensures value { result ≡ line_in buses next (pieces row.now) }
    ensures few { OnOk result (next ≤ 64) }
{
    let miscounted = FileFault::FieldCount { at: row.start() };
    if row.count() != MAP_COLUMNS.len() {
        return Err(miscounted);
    }
    let [bus, parent, resistance] = row.fields() else {
        return Err(miscounted);
    };
    read_next(*bus, next)?;
    let parent = read_parent(*parent, buses)?;
    let resistance = read_resistance(*resistance)?;
    Ok(Line { parent, resistance })
}

// The lines of the records that are still to be read.
fn read_lines(
    reader: Reader<'_, KEPT>,
    buses: usize,
) -> Result<ArrayVec<Line, MOST_METERED>, FileFault>
    ensures { items_in result ≡ lines_in buses [] (left reader.entry) }
{
    let mut lines = ArrayVec::new();
    for row in reader {
        lines.push(read_line(&row, buses, lines.len() + 1)?);
    }
    Ok(lines)
}

// The lines of a map file of so many bytes: first its header, then that there is a record behind it, then the records.
pub(crate) fn read_map_lines(
    mut reader: Reader<'_, KEPT>,
    bytes: usize,
) -> Result<ArrayVec<Line, MOST_METERED>, FileFault>
    ensures { items_in result ≡ map_lines bytes (left reader.entry) }
{
    let header = reader.next().ok_or(FileFault::Header { at: 0 })?;
    read_map_header(&header)?;
    let buses = reader.records();
    if buses == 0 {
        return Err(FileFault::MapEntry { at: bytes });
    }
    read_lines(reader, buses)
}
