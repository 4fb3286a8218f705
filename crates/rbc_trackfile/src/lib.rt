//! Track files: their tables read to a track, or the first fault told.
#![tactic(auto)]

mod entry;
mod faults;
mod file;
mod forms;
mod items;
mod levels;
mod loading;
mod parts;
mod values;

pub use faults::{MOST_FAULTS, entry_faults};
pub use file::{parse, read, read_parts};
pub use loading::{LoadFault, load};
pub use parts::keys_of;
pub use rbc_model::FileFault;
pub use rbc_track::Track;
