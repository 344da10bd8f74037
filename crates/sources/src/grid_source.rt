ghost use Rattle.std.specs.Prelude.{◌≡◌, ◌-◌, ◌≤◌, cond, Some, None, ◌*ℤ◌, pos, slice_index_or, unsigned_abs};
ghost use Rattle.probing.specs.Answers.{admissible};
ghost use Rattle.probing.specs.Facts.{share, sum_to};
ghost use Rattle.probing.specs.Settings.{with_kept};
ghost use Rattle.probing.proofs.Settings.{kept_is_bounded};

use crate::grid::Grid;
use crate::settings::Settings;
use probing::{Source, SourceFault};

/// A source over a grid, with a setting for each of its inverters.
#[derive(Drop)]
pub struct GridSource<G> {
    pub(crate) grid: G,
    pub(crate) settings: Settings,
}

impl<G: Grid> GridSource<G> {
    // The setting of an inverter, if there is one at the bus.
    fn setting_at(&self, bus: usize) -> Option<i32>
        ensures { result ≡ cond ((G.plant self.now.grid).inverter bus)
            (Some (slice_index_or self.now.settings.thousandths (bus - 1) (pos 0))) None }
    {
        self.grid.has_inverter(bus).then(|| self.settings.of(bus))
    }

    // What an inverter adds to the voltage of a bus.
    fn share(&self, bus: usize, inverter: usize) -> i64
        ensures { result ≡
            share (with_kept (G.plant self.now.grid) self.now.settings.thousandths) bus inverter }
    {
        product(self.grid.response(bus, inverter), self.setting(inverter))
    }

    // What all inverters add to the voltage of a bus.
    fn shares(&self, bus: usize) -> i64
        ensures { result ≡ sum_to (G.plant self.now.grid).buses
            (share (with_kept (G.plant self.now.grid) self.now.settings.thousandths) bus) }
    {
        let mut sum = 0;
        for inverter in 1..=self.grid.buses() {
            sum += self.share(bus, inverter);
        }
        sum
    }
}

// A response times a setting.
fn product(response: i64, setting: i32) -> i64
    requires { (unsigned_abs response ≤ 1000000) × (unsigned_abs setting ≤ 1000) }
    ensures { result ≡ response *ℤ setting }
{
    response * i64::from(setting)
}

// The furthest that a step is from 0.
const FURTHEST_STEP: u32 = 1_000;

fn is_admissible(step: i32) -> bool
    ensures { result ≡ admissible step }
{
    (1..=FURTHEST_STEP).contains(&step.unsigned_abs())
}

impl<G: Grid> Source for GridSource<G> {
    ghost facts = { λ s. with_kept (G.plant s.grid) s.settings.thousandths };

    ghost bounded = { λ s. kept_is_bounded (G.plant s.grid) (G.bounded s.grid)
        s.settings.thousandths s.settings.kept };

    fn buses(&self) -> usize {
        self.grid.buses()
    }

    fn has_inverter(&self, bus: usize) -> bool {
        self.grid.has_inverter(bus)
    }

    fn setting(&self, bus: usize) -> i32 {
        self.setting_at(bus).unwrap_or(0)
    }

    fn read(&self, bus: usize) -> Result<i64, SourceFault> {
        let standing = self
            .grid
            .standing(bus)
            .ok_or(SourceFault::Unreadable { bus })?;
        Ok(standing + self.shares(bus))
    }

    fn command(&mut self, inverter: usize, step: i32) -> Result<(), SourceFault> {
        let setting = self
            .setting_at(inverter)
            .ok_or(SourceFault::NoInverter { bus: inverter })?;
        if !is_admissible(step) {
            return Err(SourceFault::BadStep { inverter });
        }
        if setting != 0 {
            return Err(SourceFault::OffSchedule { inverter });
        }
        self.settings.put(inverter, step);
        Ok(())
    }

    fn withdraw(&mut self, inverter: usize) -> Result<(), SourceFault> {
        if !self.grid.has_inverter(inverter) {
            return Err(SourceFault::NoInverter { bus: inverter });
        }
        self.settings.put(inverter, 0);
        Ok(())
    }
}
