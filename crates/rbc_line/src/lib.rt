//! Lines: the legs that a train runs along, the metres of its places, and the speeds and gradients along them.
#![tactic(auto)]

mod along;
mod legs;
mod line;
mod section_set;
mod track_level;

pub use legs::is_same_leg;
pub use line::Line;
pub use section_set::SectionSet;
