// The numbers of a map file's record: its bus, its parent and its resistance.
ghost use Rattle.std.specs.Prelude.{◌≡◌, ◌≤◌, OnOk};
ghost use Rattle.rfc4180.specs.Views.{piece};
ghost use Rattle.maps.specs.Lines.{next_of, upper_of, resistance_in};

use feeder::MOST_METERED;
use files::{FileFault, bus_field, decimal_field};
use rfc4180::Field;
use units::Scale;

// The largest resistance, in millionths.
const MOST_RESISTANCE: u32 = 1_000_000;

// A record's bus, which has to be the next one.
pub(crate) fn read_next(field: Field<'_>, next: usize) -> Result<usize, FileFault>
    ensures value { result ≡ next_of next (piece field.entry) }
    ensures few { OnOk result (next ≤ 64) }
{
    let at = field.start();
    let bus = bus_field(field).ok_or(FileFault::Form { at })?;
    if bus != next || bus > MOST_METERED {
        return Err(FileFault::MapEntry { at });
    }
    Ok(bus)
}

// A record's parent, in a file of so many buses.
pub(crate) fn read_parent(field: Field<'_>, buses: usize) -> Result<usize, FileFault>
    ensures { result ≡ upper_of buses (piece field.entry) }
{
    let at = field.start();
    let bus = bus_field(field).ok_or(FileFault::Form { at })?;
    if bus > buses {
        return Err(FileFault::MapEntry { at });
    }
    Ok(bus)
}

// A record's resistance.
pub(crate) fn read_resistance(field: Field<'_>) -> Result<u32, FileFault>
    ensures { result ≡ resistance_in (piece field.entry) }
{
    let at = field.start();
    let value = decimal_field(field, Scale::Millionths).ok_or(FileFault::Form { at })?;
    let resistance = u32::try_from(value).map_err(|_| FileFault::MapEntry { at })?;
    if !(1..=MOST_RESISTANCE).contains(&resistance) {
        return Err(FileFault::MapEntry { at });
    }
    Ok(resistance)
}
