// How many buses a map has, and how many of them are metered.
ghost use Rattle.std.specs.Prelude.{◌≡◌, length};
ghost use Rattle.feeder.specs.View.{lines_of, metered_of};

use crate::map::Map;

impl Map {
    /// How many buses are metered: these are the buses from 1.
    pub fn metered(&self) -> usize
        ensures { result ≡ metered_of self.now }
    {
        self.metered
    }

    /// How many buses there are, the substation not counted.
    pub fn buses(&self) -> usize
        ensures { result ≡ length (lines_of self.now) }
    {
        self.lines.len()
    }
}
