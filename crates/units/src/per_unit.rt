ghost use Rattle.std.specs.Prelude.{◌≡◌, ◌*◌, ◌^◌, ◌<◌, Some, unsigned_abs};
ghost use Rattle.units.specs.Decimals.{places_of, Reads};
ghost use Rattle.units.specs.PerUnits.{per_unit_text};
ghost use Rattle.units.specs.Views.{told};

use crate::Scale;
use std::fmt;

/// A value in whole units of a scale, which prints in per unit: a minus where the value is below 0, the whole part without
/// leading zeros, a point, and as many digits as the scale has places. -250 thousandths print as `-0.250`, and 300
/// millionths as `0.000300`.
#[derive(Clone, Copy, PartialEq, Eq, Debug)]
pub struct PerUnit {
    value: i64,
    scale: Scale,
}

impl PerUnit {
    /// The value, of any size, in units of the scale. What it prints reads as that value where the value is smaller than
    /// 10,000 per unit either way; a larger one prints with more digits than a decimal may have.
    #[tactic(auto, using(crate::proofs::PerUnits::per_unit_reads))]
    pub fn new(value: i64, scale: Scale) -> PerUnit
        ensures text { told result ≡ per_unit_text scale value }
        ensures reads { unsigned_abs value < 10000 * 10 ^ places_of scale
            → Reads (places_of scale) (per_unit_text scale value) (Some value) }
    {
        PerUnit { value, scale }
    }
}

impl fmt::Display for PerUnit {
    ghost output = { λ p. Some (told p) };

    #[tactic(auto, using(crate::proofs::PerUnits::filled))]
    fn fmt<W: fmt::Write>(&self, f: &mut fmt::Formatter<W>) -> fmt::Result {
        let places = self.scale.places();
        let unit = self.scale.denominator();
        let sign = if self.value < 0 { "-" } else { "" };
        let size = self.value.unsigned_abs();
        let whole = size / unit;
        let part = size % unit;
        write!(f, "{sign}{whole}.{part:0places$}")
    }
}
