//! How far a train's way is clear: the search along its line, and along the locks ahead of it, for the first obstacle.
//!
//! The search walks legs, and of other trains it looks at those that have a metre of the leg's section.
#![tactic(auto)]

mod bounds;
mod found;
mod leg_search;
mod search;
mod stretches;

pub use found::Reach;
pub use rbc_book::{Along, Book, Line, Locks, Places, Train, reported};
pub use search::reach;
