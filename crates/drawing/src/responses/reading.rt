// Responses read from columns, where none is negative or larger than a feeder may have.
ghost use Rattle.std.specs.Prelude.{◌≡◌, ℕ, ◌<◌, ◌≤◌, pos, MatchOption, slice_index, slice_index_or};
ghost use Rattle.drawing.specs.Columns.{table_of, Wrong};
ghost use Rattle.drawing.specs.Responses.{entries_of, Reads, WrongColumns, WrongEntry, ReadTo};

use crate::columns::Columns;
use crate::responses::Responses;
use feeder::MOST_METERED;

// The largest response of a feeder.
const LARGEST: u32 = 1_000_000;

// The responses of the columns.
pub(crate) fn read_columns(columns: &Columns) -> Option<Responses>
    ensures { MatchOption result (WrongColumns (table_of columns.now)) (λ s. Reads (table_of columns.now) (entries_of s)) }
{
    let buses = columns.buses;
    if !(1..=MOST_METERED).contains(&buses) {
        return None;
    }
    let columns = unsigned_columns(columns)?;
    Some(Responses { buses, columns })
}

// The columns of the metered buses.
fn unsigned_columns(columns: &Columns) -> Option<[Option<[u32; MOST_METERED]>; MOST_METERED]>
    requires { columns.now.buses ≤ 64 }
    ensures { MatchOption result (WrongEntry columns.now) (λ u. ReadTo columns.now columns.now.buses u) }
{
    let mut unsigned = [None; MOST_METERED];
    for (m, column) in columns.columns[..columns.buses].iter().enumerate() {
        if let Some(column) = column {
            unsigned[m] = Some(unsigned_column(column, columns.buses)?);
        }
    }
    Some(unsigned)
}

// The first entries of a column.
fn unsigned_column(column: &[i64; MOST_METERED], buses: usize) -> Option<[u32; MOST_METERED]>
    requires { buses ≤ 64 }
    ensures { MatchOption result ((n : ℕ) × (n < buses) × Wrong (slice_index_or column.now n (pos 0))) (λ u. ((n : ℕ) → n < buses → slice_index_or column.now n (pos 0) ≡ pos (slice_index u n)) × ((n : ℕ) → n < buses → slice_index u n ≤ 1000000)) }
{
    let mut unsigned = [0; MOST_METERED];
    for (n, entry) in column[..buses].iter().enumerate() {
        unsigned[n] = magnitude(*entry)?;
    }
    Some(unsigned)
}

// An entry that a feeder may have.
fn magnitude(entry: i64) -> Option<u32>
    ensures { MatchOption result (Wrong entry) (λ u. (entry ≡ pos u) × (u ≤ 1000000)) }
{
    u32::try_from(entry).ok().filter(|entry| *entry <= LARGEST)
}
