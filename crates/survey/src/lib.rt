//! From a response file or a feeder to the map that its probing gives, or to the first refusal.

#![tactic(auto)]

mod fault;
mod prints;
mod returning;
mod surveying;

pub use fault::ProgramFault;
pub use prints::{fullmap, reducedmap};
pub use returning::survey_feeder;
pub use surveying::survey_file;
