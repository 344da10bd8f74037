// The ends of a map's feeder.
ghost use Rattle.std.specs.Prelude.{◌≡◌, ◌↔◌, IsTrue};
ghost use Rattle.std.specs.List.{Any};
ghost use Rattle.feeder.specs.View.{lines_of, TellsEnd};
ghost use Rattle.feeder.specs.Laws.{InvertersStandBelow};

use crate::line::Line;
use crate::map::Map;

impl Map {
    /// Whether a bus is an end: it is nobody's parent.
    #[tactic(auto, using(crate::proofs::Laws::inverters_stand_below))]
    pub fn is_end(&self, bus: usize) -> Option<bool>
        ensures value { TellsEnd (lines_of self.now) bus result }
        ensures below { InvertersStandBelow }
    {
        self.line(bus)?;
        Some(!has_child(self.lines(), bus))
    }
}

// Whether some line goes up to the bus.
fn has_child(lines: &[Line], bus: usize) -> bool
    ensures { IsTrue result ↔ Any (λ line. line.parent ≡ bus) lines.now }
{
    lines.iter().any(|line| line.parent == bus)
}
