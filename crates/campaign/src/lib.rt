//! A probing campaign: steps that must be withdrawn, the columns that are collected, and the law that every list of calls keeps.

#![tactic(auto)]

mod calls;
mod drawing_fault;
mod fault;
mod opening;
mod state;
mod steps;
mod survey;

pub use drawing_fault::DrawingFault;
pub use fault::{CampaignFault, CampaignRefusal};
pub use opening::open_campaign;
pub use state::{Campaign, Column};
pub use steps::{Collected, CollectedStep, Command, Fresh, FreshStep, Step};
pub use survey::probe_all;
