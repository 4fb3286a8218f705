//! Levels, track functions and step profiles.
//!
//! A level is a speed or a gradient. A track gives one for each metre, as runs; a profile gives one in few steps that
//! the radio message can hold (ERA SUBSET-026 3.6.0, section 3.11).
#![tactic(auto)]

mod grade;
mod level;
mod profile;
mod rows;
mod runs;
mod speed;

pub use grade::Grade;
pub use level::Level;
pub use profile::Profile;
pub use runs::{Runs, one_spelling};
pub use speed::Speed;
