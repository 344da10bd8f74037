//! What is printed: the text of a map and the text of a refusal, put into a caller's buffer.

#![tactic(auto)]

mod map_text;
mod refusal_text;
mod texts;

pub use map_text::{MAP_COLUMNS, MAP_HEADER, MOST_MAP_BYTES, write_map};
pub use refusal_text::write_refusal;
