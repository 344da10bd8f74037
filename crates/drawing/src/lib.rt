//! Drawings of feeders from columns of responses.

#![tactic(auto)]

mod campaigns;
mod checks;
mod columns;
mod drawing;
mod responses;
mod seat;
mod seats;
mod wiring;
mod worked;

pub use campaigns::draw_campaign;
pub use columns::Columns;
pub use drawing::draw;
pub use worked::worked_cases_stand;
