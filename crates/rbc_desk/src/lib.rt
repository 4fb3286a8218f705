//! The desk: one record that many workers share. Each worker has a seat with the receipts of what it entered, and when
//! the desk is closed the receipts of all seats are exactly the history. What a seat is answered goes on from all that
//! it was told before.
#![tactic(auto)]

mod blank;
mod closing;
mod desk;
mod faults;
mod gate;
mod granted;
mod hold;
mod name;
mod onlooker;
mod seat;
mod shared;
mod state;

pub use blank::Blank;
pub use desk::Desk;
pub use faults::{AskFault, CloseFault};
pub use gate::{Gate, OpenGate};
pub use granted::Granted;
pub use hold::Hold;
pub use name::DeskName;
pub use onlooker::Onlooker;
pub use rbc_snap::{
    ApplyFault, Candidate, CommitFault, Entry, EntryLimit, Receipt, Record, Sight, View, candidate,
};
pub use rbc_track::Track;
pub use seat::Seat;
pub use state::State;
