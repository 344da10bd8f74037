//! Map files: a header, then one record for each bus with its parent and the resistance of its line.

#![tactic(auto)]

mod columns;
mod entries;
mod lines;
mod reading;

pub use reading::read_map;
