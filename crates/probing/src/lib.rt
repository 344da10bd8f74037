//! Probing: what a source means, answers and refuses, and the reading of all its meters.

#![tactic(auto)]

mod fault;
mod interface;
mod reading;

pub use fault::SourceFault;
pub use interface::Source;
pub use reading::read_all;
