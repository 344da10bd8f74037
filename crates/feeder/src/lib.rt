//! Radial feeders: their lines, distances and responses, and the map of a feeder.

#![tactic(auto)]

mod fault;
mod kind;
mod line;
mod map;

pub use fault::Fault;
pub use kind::Kind;
pub use line::Line;
pub use map::{MOST_BUSES, MOST_METERED, Map, PLACES};
