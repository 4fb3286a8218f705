//! A centre that serves connections: each is a session with a thread and a seat of its own, and behind them all trains are
//! served once more.
#![tactic(auto)]

mod bringing;
mod connections;
mod outcomes;
mod serving;
mod staff;

pub use connections::{Visit, connection};
pub use rbc_sessions::{
    Desk, DeskName, Keeper, Onlooker, OpenGate, Record, Seat, SessionContext, Sight, Sitting,
};
pub use serving::{ServeFault, Served, Unserved, close_desk, serve};
pub use staff::{Staff, no_committers};
