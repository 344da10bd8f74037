//! Probing sources: one that answers from a response table, and one that walks the lines of a feeder.

#![tactic(auto)]

mod feeder_source;
mod grid;
mod grid_source;
mod settings;
mod table_source;

pub use feeder_source::FeederSource;
pub use table_source::TableSource;
