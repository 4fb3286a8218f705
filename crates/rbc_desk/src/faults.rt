//! Why a desk refuses.

use rbc_model::Obstacle;
use rbc_snap::Receipt;
use std::fmt;
use thiserror::Error;

/// Why a train that asks is granted nothing.
#[derive(Clone, Copy, Debug, PartialEq, Eq, Error)]
pub enum AskFault {
    /// There is no such train.
    #[error("unknown train")]
    UnknownTrain,
    /// This stands in its way, this number of metres from its group (negative: before the group), at this version of
    /// the history.
    #[error("blocked")]
    Blocked(Obstacle, i64, u64),
    /// The record has as many entries as it may have.
    #[error("the record is full")]
    Full,
}

/// Why a desk gives no record back.
#[derive(Drop, Error)]
pub enum CloseFault {
    /// This number of its seats was not handed back.
    #[error("{0} seats are missing")]
    Missing(usize),
    /// This receipt is not at its place in the history.
    #[error("a receipt is not at its place")]
    Unmatched(Receipt),
}

impl fmt::Debug for CloseFault {
    fn fmt<W: fmt::Write>(&self, f: &mut fmt::Formatter<W>) -> fmt::Result {
        match self {
            CloseFault::Missing(count) => write!(f, "Missing({count})"),
            CloseFault::Unmatched(receipt) => write!(f, "Unmatched({})", receipt.place()),
        }
    }
}
