//! Locks: which sections the interlocking has locked, in which direction and behind which leg.
//!
//! Each question about a section or a leg is answered without a search, however many sections are locked.
#![tactic(auto)]

mod locks;
mod next_table;

pub use locks::Locks;
