//! A journal: lines of text in a file, each on the disk before it is acknowledged.
#![tactic(auto)]

mod beginning;
mod device;
mod fault;
mod header;
mod journal;
mod laws;
mod lines;
mod reading;
mod seal;
mod told;

pub use beginning::{beginning_in, begun_file};
pub use device::{Device, DeviceFailed};
pub use fault::JournalFault;
pub use header::{new_file, track_digest};
pub use journal::Journal;
pub use laws::{
    beginnings_stay, changes_are_told, crashes_are_read, cuts_are_told, files_at_rest_are_sessions,
    last_seals_vouch, lines_are_one,
};
pub use lines::{is_told, next_line};
pub use reading::{ReadFault, Readable, read};
pub use seal::is_comment;
pub use told::next_told;
