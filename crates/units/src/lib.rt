//! Exact numbers of voltage probing: decimals as whole numbers of a scale's unit and back as text, bus numbers, and the
//! response that a voltage change and a step give.

#![tactic(auto)]

mod decimals;
mod numbers;
mod per_unit;
mod quotients;
mod scale;

pub use decimals::Decimal;
pub use numbers::{bus_number, decimal};
pub use per_unit::PerUnit;
pub use quotients::response;
pub use scale::Scale;
