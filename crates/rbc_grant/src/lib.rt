//! What a train may be granted: from the view that it is shown, the authority that is best for it, with its message 3
//! and the tables of prices that show that no profiles lose less.
#![tactic(auto)]

mod candidates;
mod certificates;
mod offer;

pub use candidates::Candidate;
pub use candidates::of_view::candidate;
pub use certificates::{Losses, PriceTables};
pub use offer::Offer;
pub use rbc_reach::{Scene, View, view};
