// The records of a response file, one after the other.
ghost use Rattle.std.specs.Prelude.{◌≡◌, ◌≤◌, length, map, MatchResult, Ok, Err};
ghost use Rattle.rfc4180.specs.Views.{left, piece, pieces};
ghost use Rattle.files.specs.Rows.{changes_from, no_changes, row_of, table_of};

use crate::columns::{FIRST_COLUMNS, KEPT, read_header};
use crate::numbers::{read_change, read_inverter, read_step};
use crate::{FileFault, Probe, Table};
use feeder::MOST_METERED;
use rfc4180::{Field, Reader, Record};

// The changes of a record, bus by bus.
fn read_changes(fields: &[Field<'_>], step: i64) -> Result<[Option<i64>; MOST_METERED], FileFault>
    requires { length fields.now ≤ 64 }
    ensures { result ≡ changes_from step 0 no_changes (map piece fields.now) }
{
    let mut changes = [None; MOST_METERED];
    for (n, field) in fields.iter().enumerate() {
        changes[n] = read_change(*field, step)?;
    }
    Ok(changes)
}

// Adds a record to a table: first the field count, then the fields from the left.
fn read_row(row: &Record<'_, KEPT>, table: &mut Table) -> Result<(), FileFault>
    requires { table.old.buses ≤ 64 }
    ensures value { MatchResult result (λ _. row_of table.old (pieces row.now) ≡ Ok table.new)
        (λ e. row_of table.old (pieces row.now) ≡ Err e) }
    ensures buses { table.new.buses ≡ table.old.buses }
{
    let miscounted = FileFault::FieldCount { at: row.start() };
    if row.count() != FIRST_COLUMNS.len() + table.buses {
        return Err(miscounted);
    }
    let [inverter, step, changes @ ..] = row.fields() else {
        return Err(miscounted);
    };
    let inverter = read_inverter(*inverter, table)?;
    let step = read_step(*step)?;
    let changes = read_changes(changes, step)?;
    table.probes[inverter - 1] = Some(Probe { step, changes });
    Ok(())
}

// Fills a table, whatever it held, with what a response file's records hold: first its header, then record by record. After
// a fault it is of no use.
pub(crate) fn read_table(mut reader: Reader<'_, KEPT>, table: &mut Table) -> Result<(), FileFault>
    ensures { MatchResult result (λ _. table_of (left reader.entry) ≡ Ok table.new)
        (λ e. table_of (left reader.entry) ≡ Err e) }
{
    let header = reader.next().ok_or(FileFault::Header { at: 0 })?;
    *table = Table::of_buses(read_header(&header)?);
    for row in reader {
        read_row(&row, table)?;
    }
    Ok(())
}
