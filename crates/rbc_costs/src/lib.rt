//! What one step costs from each break of a track up to another.
//!
//! The breaks are the starts of the track's runs, rounded down and up to what a message can give, and its end. Costs are
//! found break by break: those up to the next one from those up to the one before. They are kept in numbers of 32 bits
//! where the prices of a kind of level allow it, so that a processor adds and compares several at once.
#![tactic(auto)]

mod costs;
mod next;
mod priced;
mod stretches;
mod sums;
mod table;
mod total;

pub use costs::{costs_to, further, least_of};
pub use next::{costs_behind, firsts_of, low_from, next_costs};
pub use priced::Priced;
pub use rbc_stretches::{Stretch, is_at_most};
pub use stretches::stretches_of;
pub use sums::{Four, cheapest, cheapest_four, cheapest_from};
pub use table::price_at;
pub use total::Total;
