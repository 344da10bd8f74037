ghost use Rattle.std.specs.Prelude.{◌≡◌, ◌^◌, ◌≤◌};
ghost use Rattle.units.specs.Decimals.{places_of};

/// The unit that a value is counted in.
#[derive(Clone, Copy, PartialEq, Eq, Debug)]
pub enum Scale {
    /// Steps.
    Thousandths,
    /// Resistances.
    Millionths,
    /// Voltage changes.
    Billionths,
}

impl Scale {
    /// How many digits may stand behind the point: 3, 6 or 9.
    pub fn places(self) -> usize
        ensures value { result ≡ places_of self }
        ensures few { result ≤ 9 }
    {
        match self {
            Scale::Thousandths => 3,
            Scale::Millionths => 6,
            Scale::Billionths => 9,
        }
    }

    // How many units make one.
    pub(crate) fn denominator(self) -> u64
        ensures value { result ≡ 10 ^ places_of self }
        ensures few { result ≤ 10 ^ 9 }
    {
        match self {
            Scale::Thousandths => 1_000,
            Scale::Millionths => 1_000_000,
            Scale::Billionths => 1_000_000_000,
        }
    }
}
