ghost use Rattle.std.specs.Prelude.{◌≡◌};
ghost use Rattle.files.specs.Faults.{refusal_of};
ghost use Rattle.files.specs.declared.fault.FileFault.TheVariants.{Bytes};

use refusals::{Layer, Refusal};
use rfc4180::{Fault, MOST_BYTES};

/// Why a file is turned down. `at` is a byte's place from 0.
#[derive(Clone, Copy, PartialEq, Eq, Debug)]
pub enum FileFault {
    /// The bytes are no file: too many, or against the grammar.
    Bytes { fault: Fault },
    /// A header field is wrong or missing.
    Header { at: usize },
    /// A record has another number of fields than the header.
    FieldCount { at: usize },
    /// A field is not of its number form.
    Form { at: usize },
    /// An inverter is no bus of the header, or has a record already.
    Inverter { at: usize },
    /// A step is 0 or beyond 1,000 either way.
    Step { at: usize },
    /// A change is no whole multiple of the step, or the response is beyond 1,000,000 either way.
    Change { at: usize },
    /// In a map file, a bus is not the next, a parent is neither 0 nor a bus of the file, a resistance is not 1 to 1,000,000,
    /// or there is no record.
    MapEntry { at: usize },
    /// In a map file, a bus does not reach the substation, or lies beyond distance 1,000,000.
    Unreached { bus: usize },
    /// A buffer is too short for a text of this length.
    ShortBuffer { needed: usize },
}

impl From<Fault> for FileFault {
    ghost from_gives = { λ fault r. r ≡ Bytes fault };

    fn from(fault: Fault) -> FileFault {
        FileFault::Bytes { fault }
    }
}

// The fault's number, layer and place.
impl From<FileFault> for Refusal {
    ghost from_gives = { λ fault r. r ≡ refusal_of fault };

    fn from(fault: FileFault) -> Refusal {
        let (number, place) = match fault {
            FileFault::Bytes {
                fault: Fault::Syntax { at },
            } => (1, at),
            FileFault::Bytes {
                fault: Fault::TooLong,
            } => (2, MOST_BYTES),
            FileFault::Header { at } => (3, at),
            FileFault::FieldCount { at } => (4, at),
            FileFault::Form { at } => (5, at),
            FileFault::Inverter { at } => (6, at),
            FileFault::Step { at } => (7, at),
            FileFault::Change { at } => (8, at),
            FileFault::MapEntry { at } => (19, at),
            FileFault::Unreached { bus } => (20, bus),
            FileFault::ShortBuffer { needed } => (22, needed),
        };
        Refusal {
            number,
            layer: Layer::File,
            place,
        }
    }
}
