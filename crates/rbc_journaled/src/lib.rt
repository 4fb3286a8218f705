//! A centre whose record is kept in a journal, so that each entry is on the disk before the reply that tells of it is written: a
//! session alone, or a desk with the seats of its connections.
#![tactic(auto)]

mod answering;
mod closing;
mod entry_line;
mod fault;
mod following;
mod journaled_record;
mod keeping;
mod laws;
mod note;
mod opening;
mod replaying;
mod request_line;
mod saying;
mod sessions;
mod told;

pub use closing::close;
pub use entry_line::line_text;
pub use fault::{OpeningFault, RunFault};
pub use following::follow;
pub use journaled_record::JournaledRecord;
pub use keeping::DeskJournal;
pub use laws::{files_tell_one_history, kept_lines_last, lines_tell_first_entries};
pub use opening::{Opened, open};
pub use replaying::replay;
pub use request_line::RequestLine;
pub use sessions::run;
pub use told::{SeatTold, line_of};
