//! A source of three buses that is told what it answers, and keeps a log of the commands and withdrawals that it accepts: it
//! stands in for a feeder where a caller of sources is tried.

#![tactic(auto)]

mod buses;
mod log;

pub use buses::{BUSES, ThreeBuses};
pub use log::{Entry, LOG_ROOM};
