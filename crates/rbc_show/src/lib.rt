//! A session that is shown: its track, and the scenes that its lines lead to, as lines.
#![tactic(auto)]

mod each;
mod last;
mod listing;
mod page;
mod scene;

pub use each::show_each;
pub use last::show;
pub use listing::list;
pub use page::{show_each_page, show_page};
pub use rbc_journaled as journaled;
pub use rbc_sessions as sessions;
