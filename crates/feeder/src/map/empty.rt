// The map of no bus.
ghost use Rattle.std.specs.Prelude.{◌≡◌, []};
ghost use Rattle.feeder.specs.View.{lines_of, metered_of};

use crate::map::Map;
use arrayvec::ArrayVec;

impl Map {
    /// A map of no bus.
    pub fn new() -> Map
        ensures metered { metered_of result ≡ 0 }
        ensures lines { lines_of result ≡ [] }
    {
        let mut distances = ArrayVec::new();
        distances.push(0);
        Map {
            metered: 0,
            lines: ArrayVec::new(),
            distances,
        }
    }
}
