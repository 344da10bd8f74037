ghost use Rattle.std.specs.Prelude.{◌≡◌};
ghost use Rattle.probing.specs.Refusals.{refusal_of};

use refusals::{Layer, Refusal};

/// Why a source turns a call down.
#[derive(Clone, Copy, PartialEq, Eq, Debug)]
pub enum SourceFault {
    /// No inverter stands at the bus.
    NoInverter { bus: usize },
    /// The step is 0, or beyond 1,000 either way.
    BadStep { inverter: usize },
    /// The bus is not metered, or its meter is mute.
    Unreadable { bus: usize },
    /// The inverter's setting is not 0.
    OffSchedule { inverter: usize },
    /// The map has no bus, or more than 64.
    MapSize { buses: usize },
    /// The inverter at the index of the list is no bus of the map, or is listed before.
    InverterEntry { index: usize },
    /// There are not as many standing voltages as buses.
    StandingCount { length: usize },
    /// The standing voltage at the index of the list is beyond 1,000,000,000 either way.
    StandingEntry { index: usize },
}

// The fault's number, layer and place.
impl From<SourceFault> for Refusal {
    ghost from_gives = { λ fault r. r ≡ refusal_of fault };

    fn from(fault: SourceFault) -> Refusal {
        let (number, place) = match fault {
            SourceFault::NoInverter { bus } => (9, bus),
            SourceFault::BadStep { inverter } => (10, inverter),
            SourceFault::Unreadable { bus } => (12, bus),
            SourceFault::OffSchedule { inverter } => (13, inverter),
            SourceFault::MapSize { buses } => (21, buses),
            SourceFault::InverterEntry { index } => (21, index),
            SourceFault::StandingCount { length } => (21, length),
            SourceFault::StandingEntry { index } => (21, index),
        };
        Refusal {
            number,
            layer: Layer::Source,
            place,
        }
    }
}
