//! What is told of a track: its counts, and where it may be other than was meant, which is no refusal.
#![tactic(auto)]

mod counts;
mod printing;
mod warnings;

pub use printing::report;
