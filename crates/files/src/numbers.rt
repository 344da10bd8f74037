// The numbers of a record, each from its field.
ghost use Rattle.std.specs.Prelude.{◌≡◌, ◌≤◌, IfOk};
ghost use Rattle.rfc4180.specs.Places.{held};
ghost use Rattle.rfc4180.specs.Views.{piece};
ghost use Rattle.units.specs.Decimals.{bus_of, decimal_of, places_of};
ghost use Rattle.files.specs.Numbers.{inverter_of, step_of, change_of};

use crate::{FileFault, Table};
use rfc4180::Field;
use units::{Scale, bus_number, decimal, response};

// The largest step either way, in thousandths.
const MOST_STEP: u64 = 1_000;

/// The bus number that a field holds: one to four digits; none where it holds no such number.
pub fn bus_field(field: Field<'_>) -> Option<usize>
    ensures { result ≡ bus_of (held (piece field.entry).content) }
{
    bus_number(field.text()?)
}

/// The decimal that a field holds, in the scale's units; none where it holds no such decimal.
pub fn decimal_field(field: Field<'_>, scale: Scale) -> Option<i64>
    ensures { result ≡ decimal_of (places_of scale) (held (piece field.entry).content) }
{
    decimal(field.text()?, scale)
}

// A record's inverter: one of the table's buses that has no record yet.
pub(crate) fn read_inverter(field: Field<'_>, table: &Table) -> Result<usize, FileFault>
    requires { table.now.buses ≤ 64 }
    ensures value { result ≡ inverter_of table.now (piece field.entry) }
    ensures bus { IfOk result (λ m. (1 ≤ m) × (m ≤ 64)) }
{
    let at = field.start();
    let inverter = bus_field(field).ok_or(FileFault::Form { at })?;
    if !(1..=table.buses).contains(&inverter) || table.probes[inverter - 1].is_some() {
        return Err(FileFault::Inverter { at });
    }
    Ok(inverter)
}

// A record's step: not 0, and at most 1,000 either way.
pub(crate) fn read_step(field: Field<'_>) -> Result<i64, FileFault>
    ensures { result ≡ step_of (piece field.entry) }
{
    let at = field.start();
    let step = decimal_field(field, Scale::Thousandths).ok_or(FileFault::Form { at })?;
    if !(1..=MOST_STEP).contains(&step.unsigned_abs()) {
        return Err(FileFault::Step { at });
    }
    Ok(step)
}

// A record's change, which with its step has to give a response; none for a blank.
pub(crate) fn read_change(field: Field<'_>, step: i64) -> Result<Option<i64>, FileFault>
    ensures { result ≡ change_of step (piece field.entry) }
{
    if matches!(field, Field::Blank { .. }) {
        return Ok(None);
    }
    let at = field.start();
    let change = decimal_field(field, Scale::Billionths).ok_or(FileFault::Form { at })?;
    if response(change, step).is_none() {
        return Err(FileFault::Change { at });
    }
    Ok(Some(change))
}
