//! Published scenes: a press shows finished scenes of a record, and eyes view trains in them, or share them, without a lock.
//! What is seen goes on from all that was told before.
#![tactic(auto)]

mod events;
mod eye;
mod faults;
mod law;
mod moments;
mod name;
mod press;
mod published;
mod rule;
mod sight;

pub use eye::Eye;
pub use faults::{Behind, EyeFault};
pub use law::Law;
pub use moments::NewHistory;
pub use name::HistoryName;
pub use press::Press;
pub use published::{Issue, Published};
pub use rbc_record::{
    ApplyFault, Candidate, CommitFault, Entry, EntryLimit, Grant, Receipt, Record, Scene, View,
    candidate,
};
pub use rule::{Known, Names, OneHistory, Sees};
pub use sight::Sight;
