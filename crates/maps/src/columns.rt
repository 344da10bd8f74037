// The header of a map file, checked field by field.
ghost use Rattle.std.specs.Prelude.{◌≡◌, ◌&&◌, nat_lt};
ghost use Rattle.std.specs.Str.{bytes_eq};
ghost use Rattle.rfc4180.specs.Views.{piece, pieces};
ghost use Rattle.files.specs.Columns.{columns_of};
ghost use Rattle.maps.specs.Columns.{map_column, right_map_column, map_header_of};

use files::{Columns, FileFault, read_columns};
use printing::MAP_COLUMNS;
use rfc4180::{Field, Record};

// The columns of a map file.
struct MapColumns;

impl Columns for MapColumns {
    ghost right = { right_map_column };

    fn is_right(k: usize, field: Field<'_>) -> bool {
        field.text().is_some_and(|text| is_map_column(text, k))
    }
}

// Whether a text is the name of column k.
fn is_map_column(text: &[u8], k: usize) -> bool
    ensures { result ≡ nat_lt k 3 && bytes_eq text.now (map_column k) }
{
    MAP_COLUMNS.get(k).is_some_and(|name| text == *name)
}

// How many fields of a record are kept: one more than there are columns, since a header of more is wrong there.
pub(crate) const KEPT: usize = MAP_COLUMNS.len() + 1;

// How many columns a header has, where each of them is right.
fn read_map_columns(header: &Record<'_, KEPT>) -> Result<usize, FileFault>
    ensures { result ≡ columns_of right_map_column (pieces header.now) }
{
    read_columns::<MapColumns>(header.fields())
}

// Checks a header.
pub(crate) fn read_map_header(header: &Record<'_, KEPT>) -> Result<(), FileFault>
    ensures { result ≡ map_header_of (pieces header.now) }
{
    if read_map_columns(header)? != MAP_COLUMNS.len() {
        return Err(FileFault::Header { at: header.end() });
    }
    Ok(())
}
