ghost use Rattle.std.specs.Prelude.{◌≡◌};
ghost use Rattle.probing.specs.Facts.{Plant, PlantIsBounded, metered};
ghost use Rattle.sources.specs.GridFacts.{standing_heard};

/// What a source of this crate answers from. It means a plant.
pub trait Grid {
    ghost plant: { Self → Plant };

    /// How many metered buses there are.
    fn buses(&self) -> usize
        ensures { result ≡ (plant self.now).buses };

    /// Whether a number is that of a metered bus.
    fn is_metered(&self, bus: usize) -> bool
        ensures { result ≡ metered (plant self.now) bus }
    {
        (1..=self.buses()).contains(&bus)
    }

    /// Whether a bus has an inverter.
    fn has_inverter(&self, bus: usize) -> bool
        ensures { result ≡ (plant self.now).inverter bus };

    /// The standing voltage of a bus that can be read, in billionths of per unit.
    fn standing(&self, bus: usize) -> Option<i64>
        ensures { result ≡ standing_heard (plant self.now) bus };

    /// The response of a bus to an inverter in millionths of per unit, 0 where one of them is none.
    fn response(&self, bus: usize, inverter: usize) -> i64
        ensures { result ≡ (plant self.now).response bus inverter };

    ghost bounded: { (grid : Self) → PlantIsBounded (plant grid) };
}
