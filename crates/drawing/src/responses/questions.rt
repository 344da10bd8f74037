// Questions about the responses, by the numbers of buses.
ghost use Rattle.std.specs.Prelude.{◌≡◌, ◌<◌, ◌≤◌};
ghost use Rattle.drawing.specs.Responses.{entries_of};

use crate::responses::Responses;

impl Responses {
    // The metered buses are 1 to this.
    pub(crate) fn buses(&self) -> usize
        ensures value { result ≡ (entries_of self.now).metered }
        ensures few { result ≤ 64 }
    {
        self.buses
    }

    // Whether a bus has an inverter.
    pub(crate) fn has_inverter(&self, bus: usize) -> bool
        requires some { 0 < bus }
        requires few { bus ≤ 64 }
        ensures { result ≡ (entries_of self.now).has bus }
    {
        self.columns[bus - 1].is_some()
    }

    // The response of a bus to an inverter, 0 to a bus that has none.
    pub(crate) fn entry(&self, bus: usize, inverter: usize) -> u32
        requires row { (0 < bus) × (bus ≤ 64) }
        requires column { (0 < inverter) × (inverter ≤ 64) }
        ensures { result ≡ (entries_of self.now).entry bus inverter }
    {
        self.columns[inverter - 1]
            .as_ref()
            .map_or(0, |column| column[bus - 1])
    }
}
