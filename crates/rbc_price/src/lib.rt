//! Checks tables of prices.
//!
//! A table of prices, as the reduction gives it with each profile, shows that no profile loses less. This reads such
//! a table with the track and the profile, and tells whether it does, or the first reason why not. It trusts neither
//! who wrote the table nor who wrote the profile.
#![tactic(auto)]

mod above;
mod checking;
mod columns;
mod inequalities;
mod places;
mod shape;
mod sound;

pub use checking::{Prices, check};
pub use columns::column_count;
pub use rbc_costs::Priced;
