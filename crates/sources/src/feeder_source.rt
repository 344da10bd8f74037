ghost use Rattle.std.specs.Prelude.{length};
ghost use Rattle.feeder.specs.View.{lines_of};
ghost use Rattle.sources.specs.Bounds.{feeder_is_bounded};
ghost use Rattle.sources.specs.GridFacts.{IsBusCount};
ghost use Rattle.sources.specs.LineFacts.{feeder_plant, AreStandings};

use crate::grid::Grid;
use crate::grid_source::GridSource;
use feeder::{MOST_METERED, Map};

mod making;

/// A source that walks the lines of a map. Every bus is metered, and no meter is mute.
pub type FeederSource = GridSource<FeederGrid>;

/// A map with what stands at its buses: inverters and standing voltages.
#[derive(Drop)]
pub struct FeederGrid {
    map: Map,
    // What bus n has stands at n - 1: whether it has an inverter, and its standing voltage in billionths.
    inverters: [bool; MOST_METERED],
    standing: [i64; MOST_METERED],
    ghost few: { IsBusCount (length (lines_of map)) },
    ghost near: { AreStandings standing },
}

impl Grid for FeederGrid {
    ghost plant = { λ g. feeder_plant (lines_of g.map) g.inverters g.standing };

    ghost bounded = { λ g. feeder_is_bounded g.map g.inverters g.standing g.few g.near };

    fn buses(&self) -> usize {
        self.map.buses()
    }

    fn has_inverter(&self, bus: usize) -> bool {
        self.is_metered(bus) && self.inverters[bus - 1]
    }

    fn standing(&self, bus: usize) -> Option<i64> {
        self.is_metered(bus).then(|| self.standing[bus - 1])
    }

    fn response(&self, bus: usize, inverter: usize) -> i64 {
        if !self.has_inverter(inverter) || !self.is_metered(bus) {
            return 0;
        }
        self.map.response(bus, inverter).map_or(0, i64::from)
    }
}
