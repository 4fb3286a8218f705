//! How many connections, lines, replies and commits a centre has had, counted as they pass.
#![tactic(auto)]

mod counts;
mod refusal;
mod replies;
mod tally;

pub use counts::Counts;
pub use refusal::{KINDS, RefusalKind};
pub use replies::{Replies, Reply};
pub use tally::{Reader, Tally};
