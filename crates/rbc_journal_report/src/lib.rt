//! What a journal file tells: a report of it, its lines, also as they come to be kept, and new journals with lines of an old one.
#![tactic(auto)]

mod copying;
mod counting;
mod follower;
mod following;
mod printing;
mod telling;

pub use copying::{CopyFault, copy_first, renew};
pub use following::{Doubt, FollowFault, LookFailed, Watched, follow};
pub use printing::{print_lines, print_report};
pub use telling::{FileContent, FileState, check, digest_of, named, tell, tell_beside};
