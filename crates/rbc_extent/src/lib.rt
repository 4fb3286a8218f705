//! Where reports put trains.
//!
//! A report tells how far a train stands from a balise group. The line that it ran along is continued along the
//! locked routes as far as it needs to be, legs that the train has left are dropped, and of its authority it gives up
//! what lies behind its rear.
#![tactic(auto)]

mod counting;
mod course;
mod covering;
mod finding;
mod judge;
mod placed;
mod placing;
mod reporting;
mod situation;
mod through;
mod train;
mod walk;

pub use course::Course;
pub use placed::Placed;
pub use placing::place;
pub use rbc_line::Line;
pub use rbc_locks::Locks;
pub use reporting::reported;
pub use train::{Places, Train};
