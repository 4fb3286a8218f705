//! The book: the trains of a track in order of arrival, each found by its number, and which of them has a metre.
#![tactic(auto)]

mod book;
mod places;
mod presence;

pub use book::{Along, Book};
pub use rbc_extent::{Course, Line, Locks, Places, Train, reported};
