// Questions about a map, each answered for every bus number.
ghost use Rattle.std.specs.Prelude.{◌≡◌, length, nat_le, MatchOption};
ghost use Rattle.feeder.specs.Feeder.{Bus, line_of, parent_of, resistance_of, distance};
ghost use Rattle.feeder.specs.View.{lines_of, is_bus, asked, Stands};
ghost use Rattle.feeder.specs.Laws.{WaysAreClimbed, WaysHaveNoRepeats, DistancesAddUp};

use crate::line::Line;
use crate::map::Map;

impl Map {
    /// The lines, that of bus 1 first.
    pub fn lines(&self) -> &[Line]
        ensures { result.now ≡ lines_of self.now }
    {
        self.lines.as_slice()
    }

    // The line of a bus.
    pub(super) fn line(&self, bus: usize) -> Option<Line>
        ensures { MatchOption result (Bus (lines_of self.now) bus → ⊥) (λ l. Bus (lines_of self.now) bus × (l ≡ line_of (lines_of self.now) bus)) }
    {
        self.lines.get(bus.checked_sub(1)?).copied()
    }

    /// The bus at the upper end of a bus's line, 0 for the substation.
    pub fn parent(&self, bus: usize) -> Option<usize>
        ensures { result ≡ asked (is_bus (lines_of self.now) bus) (parent_of (lines_of self.now) bus) }
    {
        Some(self.line(bus)?.parent)
    }

    /// The resistance of a bus's line.
    pub fn resistance(&self, bus: usize) -> Option<u32>
        ensures { result ≡ asked (is_bus (lines_of self.now) bus) (resistance_of (lines_of self.now) bus) }
    {
        Some(self.line(bus)?.resistance)
    }

    /// How far a bus is from the substation, which is at distance 0.
    #[tactic(auto, using(crate::proofs::Maps::map_stands, crate::proofs::Laws::ways_are_climbed, crate::proofs::Laws::ways_have_no_repeats, crate::proofs::Laws::distances_add_up))]
    pub fn distance(&self, bus: usize) -> Option<u32>
        ensures value { result ≡ asked (nat_le bus (length (lines_of self.now))) (distance (lines_of self.now) bus) }
        ensures stands { Stands self.now }
        ensures ways { WaysAreClimbed × WaysHaveNoRepeats }
        ensures sums { DistancesAddUp }
    {
        self.distances.get(bus).copied()
    }
}
