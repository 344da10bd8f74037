ghost use Rattle.std.specs.Prelude.{◌≡◌, None, option_copied, if◌then◌else◌};
ghost use Rattle.campaign.specs.Columns.{numbered, has_inverter, column_of, present, response_in};

use crate::steps::Command;
use feeder::MOST_METERED;

/// What was collected for an inverter: the response of each bus in millionths of per unit, bus n at n - 1.
#[derive(Clone, Copy, PartialEq, Eq, Debug)]
pub struct Column {
    pub(crate) responses: [i64; MOST_METERED],
}

/// A campaign on one source: its buses and inverters at the opening, the step that is outstanding, the readings before
/// that step, and the columns that were collected. What is of bus n stands at n - 1.
#[derive(Drop)]
pub struct Campaign {
    // How many of the places of each array are used.
    pub(crate) buses: usize,
    // Not in the columns: a source's inverters are compared with these as a whole.
    pub(crate) inverters: [bool; MOST_METERED],
    // The step that was handed out and not taken back.
    pub(crate) outstanding: Option<Command>,
    // The readings at the commencing of the outstanding step.
    pub(crate) before: [i64; MOST_METERED],
    pub(crate) columns: [Option<Column>; MOST_METERED],
}

impl Campaign {
    /// The number of metered buses.
    pub fn buses(&self) -> usize
        ensures { result ≡ self.now.buses }
    {
        self.buses
    }

    /// Whether the source had an inverter at a bus.
    pub fn has_inverter(&self, bus: usize) -> bool
        ensures { result ≡ has_inverter self.now bus }
    {
        (1..=MOST_METERED).contains(&bus) && self.inverters[bus - 1]
    }

    // The column of an inverter, if it is present.
    fn column(&self, inverter: usize) -> Option<&Column>
        ensures { option_copied result ≡
            (if numbered inverter then column_of self.now inverter else None) }
    {
        self.columns.get(inverter.checked_sub(1)?)?.as_ref()
    }

    /// Whether the column of an inverter is present.
    pub fn has_column(&self, inverter: usize) -> bool
        ensures { result ≡ present self.now inverter }
    {
        self.column(inverter).is_some()
    }

    /// The response of a bus to an inverter in millionths of per unit, if that inverter's column is present.
    pub fn response(&self, bus: usize, inverter: usize) -> Option<i64>
        ensures { result ≡ response_in self.now bus inverter }
    {
        let column = self.column(inverter)?;
        column.responses.get(bus.checked_sub(1)?).copied()
    }
}
