//! What one line of a scene says: a locked section, or something of a train.
#![tactic(auto)]

mod first_word;
mod laws;
mod legs;
mod scene_line;
mod spelling;

pub use laws::scene_lines_are_parsed_back;
pub use scene_line::{SceneLine, parse};
