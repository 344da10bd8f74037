//! Cases worked by hand for files: what is read, and which refusal is given at which place.

#![tactic(auto)]

#[cfg(test)]
mod decimals;
#[cfg(test)]
mod grammar;
#[cfg(test)]
mod inputs;
#[cfg(test)]
mod responses;
