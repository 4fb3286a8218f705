//! A file of the operating system as the device of a journal: opened, locked and synced, and a record of its calls, which
//! says what a crash may leave of it.
#![tactic(auto)]

mod asked;
mod calls;
mod opening;
mod past;
mod paths;
mod recorded;
mod timed;

pub use asked::{Call, CallFailed, Role};
pub use calls::{Calls, SystemFile};
pub use opening::{FoundFile, OpenFault, create, open};
pub use past::{Bytes, Past};
pub use paths::JournalPaths;
pub use recorded::Recorded;
pub use timed::Timed;
