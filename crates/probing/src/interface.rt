ghost use Rattle.std.specs.Prelude.{◌≡◌};
ghost use Rattle.probing.specs.Facts.{Facts, IsBounded};
ghost use Rattle.probing.specs.Answers.{read_of, command_of, commanded, withdraw_of, withdrawn};

use crate::fault::SourceFault;

/// A source of probes: 1 to 64 metered buses, numbered from 1, some with inverters that can be set off their schedules. An
/// inverter goes by its bus. What a source means is a record of facts, a plant that none of these calls changes and the settings,
/// and each method is what those facts say.
pub trait Source {
    ghost facts: { Self → Facts };

    /// The number of metered buses.
    fn buses(&self) -> usize
        ensures { result ≡ (facts self.now).plant.buses };

    /// Whether a bus has an inverter.
    fn has_inverter(&self, bus: usize) -> bool
        ensures { result ≡ (facts self.now).plant.inverter bus };

    /// How far the inverter at a bus is off its schedule, in thousandths of per unit; 0 where no inverter is.
    fn setting(&self, bus: usize) -> i32
        ensures { result ≡ (facts self.now).state.setting bus };

    /// The voltage of a bus in billionths of per unit: its standing voltage, and response times setting over all inverters.
    /// Refused with 12 where no meter can be read.
    fn read(&self, bus: usize) -> Result<i64, SourceFault>
        ensures { result ≡ read_of (facts self.now) bus };

    /// Sets an inverter that is on its schedule off it, by the step in thousandths of per unit. Refused, in this order, with 9
    /// where no inverter is, with 10 for a step of 0 or beyond 1,000 either way, and with 13 for an inverter off its schedule.
    fn command(&mut self, inverter: usize, step: i32) -> Result<(), SourceFault>
        ensures answer { result ≡ command_of (facts self.old) inverter step }
        ensures effect { facts self.new ≡ commanded (facts self.old) inverter step };

    /// Sets an inverter back on its schedule. Refused with 9 where no inverter is.
    fn withdraw(&mut self, inverter: usize) -> Result<(), SourceFault>
        ensures answer { result ≡ withdraw_of (facts self.old) inverter }
        ensures effect { facts self.new ≡ withdrawn (facts self.old) inverter };

    ghost bounded: { (s : Self) → IsBounded (facts s) };
}
