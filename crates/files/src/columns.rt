// The header of a file, checked field by field.
ghost use Rattle.std.specs.Prelude.{◌≡◌, ℕ, ◌<◌, ◌≤◌, Bool, ◌&&◌, IfOk, map, nat_lt};
ghost use Rattle.std.specs.Str.{bytes_eq};
ghost use Rattle.rfc4180.specs.Places.{Content};
ghost use Rattle.rfc4180.specs.Views.{piece, pieces};
ghost use Rattle.files.specs.Columns.{bus_name, column_name, right_column, columns_of, header_of};

use crate::FileFault;
use feeder::MOST_METERED;
use itoa::Buffer;
use rfc4180::{Field, Record};

/// Which columns the files of a kind have.
pub trait Columns {
    // Whether field k of a header, counted from 0, is right.
    ghost right: { ℕ → Content → Bool };

    /// Whether field k of a header, counted from 0, is right.
    fn is_right(k: usize, field: Field<'_>) -> bool
        ensures { result ≡ right k (piece field.entry).content };
}

/// How many fields a header has, where each of them is right; refused with 3 at the first that is not.
pub fn read_columns<C: Columns>(header: &[Field<'_>]) -> Result<usize, FileFault>
    ensures { result ≡ columns_of C.right (map piece header.now) }
{
    for (k, field) in header.iter().enumerate() {
        if !C::is_right(k, *field) {
            return Err(FileFault::Header { at: field.start() });
        }
    }
    Ok(header.len())
}

// The columns of a response file: the first have names of their own, and those of the buses follow.
struct ResponseColumns;

// The names of the first columns.
pub(crate) const FIRST_COLUMNS: [&[u8]; 2] = [b"probe", b"step"];

// The most columns.
const MOST_COLUMNS: usize = FIRST_COLUMNS.len() + MOST_METERED;

// How many fields of a record are kept: one more than there are columns, since a header of more is wrong there.
pub(crate) const KEPT: usize = MOST_COLUMNS + 1;

impl Columns for ResponseColumns {
    ghost right = { right_column };

    fn is_right(k: usize, field: Field<'_>) -> bool {
        field.text().is_some_and(|text| is_column_name(text, k))
    }
}

// Whether a text is the name of column k.
fn is_column_name(text: &[u8], k: usize) -> bool
    ensures { result ≡ nat_lt k 66 && bytes_eq text.now (column_name k) }
{
    match FIRST_COLUMNS.get(k) {
        Some(name) => text == *name,
        None => k < MOST_COLUMNS && is_bus_name(text, k - 1),
    }
}

// Whether a text is the number of a bus, below 100 and without leading zeros.
fn is_bus_name(text: &[u8], bus: usize) -> bool
    requires { bus < 100 }
    ensures { result ≡ bytes_eq text.now (bus_name bus) }
{
    text == Buffer::new().format(bus).as_bytes()
}

// How many columns a header has, where each of them is right.
fn read_response_columns(header: &Record<'_, KEPT>) -> Result<usize, FileFault>
    ensures { result ≡ columns_of right_column (pieces header.now) }
{
    read_columns::<ResponseColumns>(header.fields())
}

// The number of buses that a header names.
pub(crate) fn read_header(header: &Record<'_, KEPT>) -> Result<usize, FileFault>
    ensures value { result ≡ header_of (pieces header.now) }
    ensures buses { IfOk result (λ n. (1 ≤ n) × (n ≤ 64)) }
{
    let columns = read_response_columns(header)?;
    if columns <= FIRST_COLUMNS.len() {
        return Err(FileFault::Header { at: header.end() });
    }
    Ok(columns - FIRST_COLUMNS.len())
}
