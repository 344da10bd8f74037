//! Response files: what they hold, read exactly, or the refusal that names the place.

#![tactic(auto)]

mod columns;
mod fault;
mod numbers;
mod rows;
mod table;

pub use columns::{Columns, read_columns};
pub use fault::FileFault;
pub use numbers::{bus_field, decimal_field};
pub use table::{Probe, Table};
