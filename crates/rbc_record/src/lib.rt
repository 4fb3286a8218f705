//! The record of a track: all that was told and granted, entry by entry, and the scene that it leads to. Each authority
//! in it was the best for its train at its moment, and at no moment did a metre stand in two.
#![tactic(auto)]

mod entry;
mod entry_limit;
mod faults;
mod grant;
mod history;
mod laws;
mod receipt;
mod sameness;

pub use entry::Entry;
pub use entry_limit::EntryLimit;
pub use faults::{ApplyFault, CommitFault};
pub use grant::Grant;
pub use history::Record;
pub use laws::legal_histories_are_best;
pub use rbc_grant::{Candidate, Scene, View, candidate, view};
pub use receipt::Receipt;
