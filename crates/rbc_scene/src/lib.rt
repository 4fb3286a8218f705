//! The scene: the locks and the trains at one moment, what may happen to them, and how far trains may run.
#![tactic(auto)]

mod granting;
mod scene;

pub use rbc_search::{Along, Book, Line, Locks, Places, Reach, Train, reach};
pub use scene::Scene;
