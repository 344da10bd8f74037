ghost use Rattle.std.specs.Prelude.{◌≡◌, ◌-◌, ◌≤◌, pos, replicate, slice_index_or, slice_set, unsigned_abs};
ghost use Rattle.probing.specs.Settings.{AreSettings};

use feeder::MOST_METERED;

/// How far each inverter is off its schedule, in thousandths of per unit: that of the inverter at bus m stands at m - 1, and
/// 0 where no inverter is.
#[derive(Clone, Copy)]
pub struct Settings {
    thousandths: [i32; MOST_METERED],
    ghost kept: { AreSettings thousandths },
}

impl Settings {
    // Every inverter on its schedule.
    pub(crate) fn new() -> Settings
        ensures { result.thousandths ≡ replicate 64 (pos 0) }
    {
        Settings {
            thousandths: [0; MOST_METERED],
        }
    }

    pub(crate) fn of(&self, inverter: usize) -> i32
        requires { (1 ≤ inverter) × (inverter ≤ 64) }
        ensures { result ≡ slice_index_or self.now.thousandths (inverter - 1) (pos 0) }
    {
        self.thousandths[inverter - 1]
    }

    pub(crate) fn put(&mut self, inverter: usize, step: i32)
        requires bus { (1 ≤ inverter) × (inverter ≤ 64) }
        requires near { unsigned_abs step ≤ 1000 }
        ensures { self.new.thousandths ≡ slice_set self.old.thousandths (inverter - 1) step }
    {
        self.thousandths[inverter - 1] = step;
    }
}
