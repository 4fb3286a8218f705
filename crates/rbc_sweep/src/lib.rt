//! The sweep: the trains of a desk's scene are served once each, by one worker for each seat.
#![tactic(auto)]

mod crew;
mod jobs;
mod order;
mod outcome;
mod post;
mod room;
mod sweeping;
mod worker;

pub use outcome::{Answer, Outcome};
pub use rbc_desk::{
    ApplyFault, AskFault, Blank, Candidate, CloseFault, CommitFault, Desk, DeskName, Entry,
    EntryLimit, Gate, Granted, Hold, Onlooker, OpenGate, Receipt, Record, Seat, Sight, State,
    Track, View, candidate,
};
pub use sweeping::sweep;
