// The text of a map.
ghost use Rattle.std.specs.Prelude.{◌≡◌, ◌+◌, ◌<◌, ◌≤◌, ◌++◌};
ghost use Rattle.arrayvec.specs.ArrayVec.{array_vec_len};
ghost use Rattle.feeder.specs.View.{lines_of};
ghost use Rattle.printing.specs.MapTexts.{per_unit, line_text, map_text};
ghost use Rattle.printing.specs.MapTexts.{MapsAreShort, NumbersReadBack, HeaderNamesColumns};
ghost use Rattle.printing.specs.Texts.{Writing};

use crate::texts::{COMMA, NEW_LINE, Text};
use feeder::{Line, Map};
use files::FileFault;

/// The header of a map file: the names of its columns, a comma between them, without the line end.
pub const MAP_HEADER: &[u8] = b"bus,parent,r";

/// The names in [`MAP_HEADER`], from the left.
pub const MAP_COLUMNS: [&[u8]; 3] = [b"bus", b"parent", b"r"];

/// How many bytes are enough for the text of any map: 14 of header, and at most 18 for each of 127
/// buses.
pub const MOST_MAP_BYTES: usize = 2_300;

type MapText = Text<MOST_MAP_BYTES>;

// What each of the six digits behind a point counts, where the digit before it counts 1,000,000.
const PARTS: [u32; 6] = [100_000, 10_000, 1_000, 100, 10, 1];

// Appends a resistance in per unit: a digit, a point and six digits.
fn push_per_unit(text: &mut MapText, resistance: u32)
    requires { array_vec_len text.old.bytes + 8 ≤ 2300 }
    ensures bytes { text.new.bytes.items ≡ text.old.bytes.items ++ per_unit resistance }
    ensures len { array_vec_len text.new.bytes ≡ array_vec_len text.old.bytes + 8 }
{
    text.push_number(resistance / 1_000_000 % 10);
    text.push(b".");
    for unit in PARTS {
        text.push_number(resistance / unit % 10);
    }
}

// Appends the record of a bus.
fn push_line(text: &mut MapText, bus: usize, line: Line)
    requires short { (bus < 1000) × (line.parent < 1000) }
    requires room { array_vec_len text.old.bytes + 18 ≤ 2300 }
    ensures bytes { text.new.bytes.items ≡ text.old.bytes.items ++ line_text bus line }
    ensures len { array_vec_len text.new.bytes ≤ array_vec_len text.old.bytes + 18 }
{
    text.push_number(bus);
    text.push(COMMA);
    text.push_number(line.parent);
    text.push(COMMA);
    push_per_unit(text, line.resistance);
    text.push(NEW_LINE);
}

// The text of a map.
fn map_text(map: &Map) -> MapText
    ensures { result.bytes.items ≡ map_text (lines_of map.now) }
{
    let lines = map.lines();
    let mut text = Text::new();
    text.push(MAP_HEADER);
    text.push(NEW_LINE);
    for (i, line) in lines.iter().enumerate() {
        push_line(&mut text, i + 1, *line);
    }
    text
}

/// Writes a map file to the front of a buffer and gives its length in bytes, which is never above
/// [`MOST_MAP_BYTES`]; the bytes behind stay.
///
/// Below [`MAP_HEADER`] each bus has a record, from bus 1 on: the bus, its parent, and the
/// resistance of its line in per unit with six digits behind the point. CR LF ends every line.
///
/// A buffer that is too short is refused with the length that the file needs, and stays as it was.
pub fn write_map(map: &Map, out: &mut [u8]) -> Result<usize, FileFault>
    ensures writes { Writing (map_text (lines_of map.now)) out.old out.new result }
    ensures short { MapsAreShort }
    ensures numbers { NumbersReadBack }
    ensures header { HeaderNamesColumns }
{
    map_text(map).write_to(out)
}
