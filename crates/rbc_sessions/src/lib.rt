//! Sessions of the centre, over a record or from a seat of a desk: each line is answered after all that was told and granted
//! before it.
#![tactic(auto)]

mod asking;
mod batch;
mod centre;
mod command;
mod context;
mod dues;
mod grants;
mod hearing;
mod histories;
mod keeping;
mod null_sink;
mod sessions;
mod showing;
mod sitting;
mod telling;

pub use asking::{commit, stopped, told_of};
pub use batch::MOST_RESTING;
pub use centre::Centre;
pub use command::{command_in, resolve};
pub use context::SessionContext;
pub use histories::print_history;
pub use keeping::{KeepFault, Keeper, NoJournal, NotKept};
pub use null_sink::NullSink;
pub use rbc_replies as replies;
pub use rbc_replies::words;
pub use rbc_sweep::{
    Answer, Blank, CloseFault, Desk, DeskName, Entry, EntryLimit, Granted, Onlooker, OpenGate,
    Outcome, Receipt, Record, Seat, Sight, Track, View, candidate, sweep,
};
pub use sessions::{SessionEnd, run, session};
pub use showing::show;
pub use sitting::Sitting;
pub use telling::{in_vain, tell};
