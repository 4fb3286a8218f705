//! The replies of a session, printed.
#![tactic(auto)]

mod certificates;
mod printing;
mod replies;

pub use printing::{emit_stopped, print};
pub use rbc_words as words;
pub use rbc_words::Basis;
pub use replies::{SessionRefusal, SessionReply, ToldGrant};
