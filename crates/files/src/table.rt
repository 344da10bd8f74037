ghost use Rattle.std.specs.Prelude.{◌≡◌};
ghost use Rattle.std.specs.List.{list_any};
ghost use Rattle.refusals.specs.Checks.{Fills};
ghost use Rattle.files.specs.Responses.{Reading, OutcomesAreUnique, RightFilesAreRead, TablesTell};
ghost use Rattle.files.specs.Tables.{change_at, response_at, response_to, blank_at, mute_of, empty_table};

use crate::FileFault;
use crate::rows::read_table;
use feeder::MOST_METERED;
use rfc4180::Reader;
use units::response;

/// What a response file gives for one inverter.
#[derive(Clone, Copy, PartialEq, Eq, Debug)]
pub struct Probe {
    /// The step, in thousandths of per unit.
    pub step: i64,
    /// The voltage change of bus n, in billionths of per unit, at place n - 1: none where the file has a blank, and none
    /// past the last bus.
    pub changes: [Option<i64>; MOST_METERED],
}

/// What a response file holds.
#[derive(Clone, Copy, PartialEq, Eq, Debug)]
pub struct Table {
    /// How many buses are metered, 1 to 64 in every table that was read.
    pub buses: usize,
    /// What was probed, inverter m at place m - 1: none where no inverter is.
    pub probes: [Option<Probe>; MOST_METERED],
}

impl Probe {
    // The change of a bus, counted from 1.
    fn change(&self, bus: usize) -> Option<i64>
        ensures { result ≡ change_at self.now bus }
    {
        self.changes.get(bus.saturating_sub(1)).copied().flatten()
    }

    // The response of a bus, counted from 1: its change divided by the step, and 0 for a blank.
    fn response(&self, bus: usize) -> i64
        ensures { result ≡ response_at self.now bus }
    {
        self.change(bus)
            .and_then(|change| response(change, self.step))
            .unwrap_or(0)
    }
}

// Whether something was probed that is blank at a bus.
fn is_blank(probe: &Option<Probe>, bus: usize) -> bool
    ensures { result ≡ blank_at bus probe.now }
{
    probe
        .as_ref()
        .is_some_and(|probe| probe.change(bus).is_none())
}

impl Table {
    /// A new place: one metered bus and no inverter.
    pub fn new() -> Table
        ensures { result ≡ empty_table 1 }
    {
        Table::of_buses(1)
    }

    // A table of so many buses with no inverter.
    pub(crate) fn of_buses(buses: usize) -> Table
        ensures { result ≡ empty_table buses }
    {
        Table {
            buses,
            probes: [None; MOST_METERED],
        }
    }

    /// The response of a bus to an inverter, both counted from 1, in millionths of per unit: the change divided by the step,
    /// and 0 where the file has a blank or no record of the inverter, and for a number 0.
    pub fn response(&self, bus: usize, inverter: usize) -> i64
        ensures { result ≡ response_to self.now bus inverter }
    {
        if bus == 0 || inverter == 0 {
            return 0;
        }
        match self.probes.get(inverter - 1) {
            Some(Some(probe)) => probe.response(bus),
            _ => 0,
        }
    }

    // Whether some record is blank at a bus.
    fn has_blank(&self, bus: usize) -> bool
        ensures { result ≡ list_any (blank_at bus) self.now.probes }
    {
        self.probes.iter().any(|probe| is_blank(probe, bus))
    }

    /// Whether the meter of a bus is mute: some record is blank there.
    pub fn is_mute(&self, bus: usize) -> bool
        ensures { result ≡ mute_of self.now bus }
    {
        (1..=self.buses).contains(&bus) && self.has_blank(bus)
    }

    /// Fills the place with what a response file holds, whatever it held; a refused file leaves it as it was.
    ///
    /// The first fault of the file is its refusal: 2, 1 and 3, then record by record 4 and, from the left, 5 to 8.
    pub fn read(&mut self, file: &[u8]) -> Result<(), FileFault>
        ensures reads { Fills (Reading file.now) self.old self.new result }
        ensures one { OutcomesAreUnique }
        ensures right { RightFilesAreRead }
        ensures tells { TablesTell }
    {
        let mut table = *self;
        read_table(Reader::open(file)?, &mut table)?;
        *self = table;
        Ok(())
    }
}
