//! Why an entry is refused.

use rbc_model::Refusal;
use thiserror::Error;

/// Why what is told is not entered.
#[derive(Clone, Copy, Debug, PartialEq, Eq, Error)]
pub enum ApplyFault {
    /// The record has as many entries as it may have.
    #[error("the record is full")]
    Full,
    /// The scene refuses it.
    #[error("the scene refuses it")]
    Refused(Refusal),
}

/// Why what a candidate would grant is not entered.
#[derive(Clone, Copy, Debug, PartialEq, Eq, Error)]
pub enum CommitFault {
    /// The record has as many entries as it may have.
    #[error("the record is full")]
    Full,
    /// The record, which is at this version, shows the candidate's train another view, or none.
    #[error("the record is at version {0}")]
    Stale(u64),
}
