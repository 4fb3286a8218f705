//! A journal that many seats write to: each lays the line of its entry, and one writes for all that wait.
#![tactic(auto)]

mod blank;
mod committer;
mod group_commit;
mod line;
mod marks;
mod name;
mod page;
mod stamp;
mod told;
mod waiting_lines;

pub use blank::BlankStamps;
pub use committer::Committer;
pub use group_commit::{GroupCommit, NotKept, Start};
pub use line::{EntryLine, LONGEST_NOTE};
pub use name::CommitName;
pub use page::Page;
pub use stamp::{Law, Stamp};
pub use told::ToldHistory;
