//! Reduces a track to the profile of few steps that loses least.
//!
//! A packet has room for few steps, and a step holds one value that a message can express. Of the profiles that are
//! above the track at no metre this finds the chosen one: it loses least, with cuts at any metre that a message can
//! give. It fills a table of the prices of each number of steps up to each break of the track, break by break, and
//! reads the profile off the table from its last column backwards. The breaks are the starts of the track's runs,
//! rounded down and up to what the message can give, and its end.
#![tactic(auto)]

mod fill;
mod parts;
mod reduction;
mod table;
mod tiles;
mod traceback;

pub use rbc_costs::Priced;
pub use reduction::{Reduced, reduce};
