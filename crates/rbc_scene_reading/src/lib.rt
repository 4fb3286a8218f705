//! The strict reading of a scene: from the lines in which it was written, and from no others.
#![tactic(auto)]

mod apart;
mod fault;
mod held;
mod laws;
mod line_test;
mod reading;
mod rows;
mod stage;
mod standing;
mod text;
mod texts;

pub use fault::{FaultyLine, SceneFault};
pub use laws::{one_text_is_read, read_scenes_are_good, written_scenes_are_read};
pub use rbc_scene::Scene;
pub use text::read;
pub use texts::explain;
