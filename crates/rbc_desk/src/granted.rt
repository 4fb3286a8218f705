//! What a train that asks is answered.

use rbc_snap::{Candidate, Receipt};

/// What was granted to a train that asked: the receipt for the entry, and the candidate that was entered, with its
/// message.
#[derive(Drop)]
pub struct Granted {
    /// The receipt.
    pub receipt: Receipt,
    /// The candidate.
    pub candidate: Candidate,
}
