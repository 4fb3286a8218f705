//! Stretches of a track: from one break to the next, where a profile is cut at multiples of a unit. What the reduction
//! of a track and the check of its prices both walk along. Nothing here takes memory.
#![tactic(auto)]

mod backwards;
mod breaks;
mod prices;
mod stretch;

pub use backwards::stretch_before;
pub use prices::{is_at_most, least_on, price_on};
pub use stretch::{Stretch, first_stretch, stretch_behind};
