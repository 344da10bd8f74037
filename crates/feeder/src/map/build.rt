// A map from a list of lines, bus 1 first.
ghost use Rattle.std.specs.Prelude.{◌≡◌, ℕ, ◌≤◌, length, MatchOption, MatchResult};
ghost use Rattle.feeder.specs.Feeder.{Bus};
ghost use Rattle.feeder.specs.Build.{Reaches, IsBeyond, IsFlawed, Lowest, Tabled, Refused, FeedersMakeMaps};
ghost use Rattle.feeder.specs.Laws.{Pigeonhole, WaysAreShort};
ghost use Rattle.feeder.specs.Table.{AnswersAreAlone};
ghost use Rattle.feeder.specs.View.{lines_of, metered_of, MapsAreTheirLines};

use crate::fault::Fault;
use crate::line::Line;
use crate::map::{Map, PLACES};
use arrayvec::ArrayVec;

// The farthest that a bus of a map is from the substation.
const FARTHEST: u32 = 1_000_000;

impl Map {
    /// The map of these lines, bus 1 first, of which the first buses are metered.
    #[tactic(auto, using(crate::proofs::Builds::feeders_make_maps, crate::proofs::SameMaps::maps_are_their_lines, crate::proofs::Pigeonhole::at_most, crate::proofs::Pigeonhole::has_all, crate::proofs::Laws::ways_are_short, crate::proofs::Alone::answers_are_alone))]
    pub fn from_lines(metered: usize, lines: &[Line]) -> Result<Map, Fault>
        ensures value { MatchResult result (λ m. (metered_of m ≡ metered) × (lines_of m ≡ lines.now)) (λ e. Refused metered lines.now e) }
        ensures accepts { FeedersMakeMaps }
        ensures alone { MapsAreTheirLines }
        ensures counting { Pigeonhole × WaysAreShort }
        ensures drawn { AnswersAreAlone }
    {
        let Ok(own_lines) = ArrayVec::try_from(lines) else {
            return Err(Fault::TooMany);
        };
        if metered > lines.len() {
            return Err(Fault::Overmetered);
        }
        if let Some(bus) = flawed(lines) {
            return Err(Fault::Flawed(bus));
        }
        let distances = SoundLines { lines }.measured()?;
        Ok(Map {
            metered,
            lines: own_lines,
            distances,
        })
    }
}

// The lowest bus whose parent is no bus or whose line has no resistance.
fn flawed(lines: &[Line]) -> Option<usize>
    ensures { MatchOption result ((b : ℕ) → Bus lines.now b → IsFlawed lines.now b → ⊥) (λ b. Lowest lines.now (IsFlawed lines.now) b) }
{
    lines
        .iter()
        .position(|line| line.parent > lines.len() || line.resistance == 0)
        .map(|place| place + 1)
}

// Lines of which none is flawed.
#[derive(Clone, Copy)]
struct SoundLines<'a> {
    lines: &'a [Line],
    ghost sound: { (b : ℕ) → Bus lines.now b → IsFlawed lines.now b → ⊥ },
}

impl SoundLines<'_> {
    // The sum of the resistances on the way of a bus, where it is at most the farthest.
    // Each line adds at least 1, so a loop of parents passes that limit.
    fn reach(self, bus: usize) -> Option<u32>
        requires { bus ≤ length self.lines.now }
        ensures { MatchOption result (IsBeyond self.entry.lines.now bus) (λ d. (d ≤ 1000000) × Reaches self.entry.lines.now bus d) }
    {
        let mut at = bus;
        let mut sum = 0;
        while at != 0 {
            let line = self.lines[at - 1];
            if line.resistance > FARTHEST - sum {
                return None;
            }
            sum += line.resistance;
            at = line.parent;
        }
        Some(sum)
    }

    // The distances of the substation and of every bus, or the lowest bus that lies beyond.
    fn measured(self) -> Result<ArrayVec<u32, PLACES>, Fault>
        requires { length self.lines.now ≤ 127 }
        ensures { MatchResult result (λ ds. Tabled self.entry.lines.now ds.items) (λ e. (b : ℕ) × (e ≡ Fault.Beyond b) × Lowest self.entry.lines.now (IsBeyond self.entry.lines.now) b) }
    {
        let mut distances = ArrayVec::new();
        for bus in 0..=self.lines.len() {
            distances.push(self.reach(bus).ok_or(Fault::Beyond(bus))?);
        }
        Ok(distances)
    }
}
