ghost use Rattle.std.specs.Prelude.{◌≡◌, ◌+◌, ◌<◌, ◌≤◌, is_some};
ghost use Rattle.files.specs.Tables.{probe_of};
ghost use Rattle.probing.specs.Facts.{PlantIsBounded};
ghost use Rattle.sources.specs.GridFacts.{IsBusCount};
ghost use Rattle.sources.specs.TableFacts.{AreInvertersOf, AreResponsesTo, AreResponsesOf};
ghost use Rattle.sources.specs.TableFacts.{AreMuteMetersOf, worked_plant, table_plant};

use crate::grid::Grid;
use crate::grid_source::GridSource;
use feeder::MOST_METERED;
use files::Table;
use std::array;

mod making;

/// A source that answers from the table of a response file. Standing voltages are 0.
pub type TableSource = GridSource<TableGrid>;

/// What follows from the table of a response file, worked out once. The table itself, twice as large, is not kept.
#[derive(Drop)]
pub struct TableGrid {
    buses: usize,
    // Whether bus n has an inverter stands at n - 1, and so does whether its meter is mute. The response of bus n to the
    // inverter at bus m stands at place n - 1 of row m - 1.
    inverters: [bool; MOST_METERED],
    responses: [[i64; MOST_METERED]; MOST_METERED],
    mute: [bool; MOST_METERED],
    ghost bounds: { PlantIsBounded (worked_plant buses inverters responses mute) },
}

// Which buses have inverters.
fn inverters(table: &Table) -> [bool; MOST_METERED]
    ensures { AreInvertersOf table.now result }
{
    array::from_fn(
        |i: usize| -> bool
            requires { i < 64 }
            ensures { result ≡ is_some (probe_of table.entry.now (i + 1)) }
        { table.probes[i].is_some() },
    )
}

// The response of each bus to one inverter.
fn responses_to(table: &Table, inverter: usize) -> [i64; MOST_METERED]
    requires { (1 ≤ inverter) × (inverter ≤ 64) }
    ensures { AreResponsesTo table.now inverter result }
{
    if table.probes[inverter - 1].is_none() {
        return [0; MOST_METERED];
    }
    array::from_fn(|i| table.response(i + 1, inverter))
}

// The responses to each inverter.
fn all_responses(table: &Table) -> [[i64; MOST_METERED]; MOST_METERED]
    ensures { AreResponsesOf table.now result }
{
    array::from_fn(
        |i: usize| -> [i64; MOST_METERED]
            requires { i < 64 }
            ensures { AreResponsesTo table.entry.now (i + 1) result }
        { responses_to(table, i + 1) },
    )
}

// Which meters are mute.
fn mute_meters(table: &Table) -> [bool; MOST_METERED]
    ensures { AreMuteMetersOf table.now result }
{
    array::from_fn(|i| table.is_mute(i + 1))
}

impl TableGrid {
    // What follows from a table.
    fn of(table: &Table) -> TableGrid
        requires { IsBusCount table.now.buses }
        ensures { ⟦<TableGrid as Grid>⟧.plant result ≡ table_plant table.now }
    {
        TableGrid {
            buses: table.buses,
            inverters: inverters(table),
            responses: all_responses(table),
            mute: mute_meters(table),
        }
    }
}

impl Grid for TableGrid {
    ghost plant = { λ g. worked_plant g.buses g.inverters g.responses g.mute };

    ghost bounded = { λ g. g.bounds };

    fn buses(&self) -> usize {
        self.buses
    }

    fn has_inverter(&self, bus: usize) -> bool {
        self.is_metered(bus) && self.inverters[bus - 1]
    }

    fn standing(&self, bus: usize) -> Option<i64> {
        (self.is_metered(bus) && !self.mute[bus - 1]).then_some(0)
    }

    fn response(&self, bus: usize, inverter: usize) -> i64 {
        if !self.has_inverter(inverter) || !self.is_metered(bus) {
            return 0;
        }
        self.responses[inverter - 1][bus - 1]
    }
}
