//! Tracks and scenes as lines of text.
#![tactic(auto)]

mod inquiry;
mod next;
mod scene;
mod track;
mod train;

pub use inquiry::{print_shown, print_state};
pub use rbc_scene::Scene;
pub use scene::{LinesFault, print_scene};
pub use track::{lines_known, print_track, track_lines_are_read_back};
