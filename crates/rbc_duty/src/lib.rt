//! A centre that stays up: each of its seats is on duty in a thread of its own, and serves clients one after the other, until
//! the end is asked for.
#![tactic(auto)]

mod duty;
mod post;
mod standing;
mod staying;

pub use duty::{Duty, serve_in_turn};
pub use post::Post;
pub use rbc_server as server;
pub use standing::{Stood, stand_all};
pub use staying::{Company, Stayed, Unstayed, stay};
