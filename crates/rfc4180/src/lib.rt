//! Which bytes are a file of RFC 4180, and its records and fields.
//!
//! A file has at most 65,536 bytes. `check` says whether bytes are one. `Reader::open` does too, and
//! its reader gives the records from the top. Each keeps the first of its fields as they were cut
//! out of the file, and knows how many it has in all.

#![tactic(auto)]

mod automaton;
mod fault;
mod field;
mod input;
mod place;
mod reader;
mod scan;

pub use automaton::{MOST_BYTES, check};
pub use fault::Fault;
pub use field::Field;
pub use input::read_input;
pub use reader::{Reader, Record};
