ghost use Rattle.std.specs.Prelude.{◌≡◌};
ghost use Rattle.campaign.specs.Drawings.{drawing_refusal};

use refusals::{Layer, Refusal};

/// Why a drawing of a campaign is turned down.
#[derive(Clone, Copy, PartialEq, Eq, Debug)]
pub enum DrawingFault {
    /// The column of an inverter is missing; the lowest such inverter.
    ColumnMissing { inverter: usize },
    /// A reduced drawing wants an inverter at every metered bus; the lowest without one.
    InverterMissing { bus: usize },
    /// No feeder of the kind yields the columns.
    NoFeeder,
}

// The fault's number, layer and place.
impl From<DrawingFault> for Refusal {
    ghost from_gives = { λ fault r. r ≡ drawing_refusal fault };

    fn from(fault: DrawingFault) -> Refusal {
        let (number, place) = match fault {
            DrawingFault::ColumnMissing { inverter } => (16, inverter),
            DrawingFault::InverterMissing { bus } => (17, bus),
            DrawingFault::NoFeeder => (18, 0),
        };
        Refusal {
            number,
            layer: Layer::Drawing,
            place,
        }
    }
}
