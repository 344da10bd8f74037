ghost use Rattle.feeder.specs.Sound.{Counted, Placed, Wired, Started, Near, Measured};

use crate::line::Line;
use arrayvec::ArrayVec;

mod build;
mod counts;
mod empty;
mod ends;
mod questions;
mod response;

/// The most buses that a map has, the substation not counted.
pub const MOST_BUSES: usize = 127;

/// The most buses that are metered where a feeder is probed. What is kept of each has a fixed place: these crates take no memory
/// beyond their own.
pub const MOST_METERED: usize = 64;

/// The most places of a list that has one for the substation and one for each bus.
pub const PLACES: usize = MOST_BUSES + 1;

/// The map of a feeder: how many buses are metered, and each bus's line and distance. It has at most 127 buses, none of them farther
/// than 1,000,000 millionths of per unit from the substation, or no bus at all.
// Bus b has its line at place b - 1 and its distance at place b.
// `Map::lines` lends the lines alone as one slice, so no distance stands beside its line.
#[derive(Drop)]
pub struct Map {
    metered: usize,
    lines: ArrayVec<Line, MOST_BUSES>,
    distances: ArrayVec<u32, PLACES>,
    ghost counted: { Counted metered lines.items },
    ghost placed: { Placed lines.items distances.items },
    ghost wired: { Wired lines.items },
    ghost started: { Started distances.items },
    ghost near: { Near lines.items distances.items },
    ghost measured: { Measured lines.items distances.items },
}
