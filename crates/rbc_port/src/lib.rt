//! A port that clients connect to: how they are accepted, waited for and let go, and what a log tells of them.
#![tactic(auto)]

mod clients;
mod closing;
mod connection;
mod ends;
mod log;
mod minutes;
mod place;
mod port;
mod watch;

pub use clients::{Client, Clients, Closed, Ends};
pub use closing::{Closing, PortEnd};
pub use connection::{Connection, Gone};
pub use minutes::Minutes;
pub use place::{Place, PlaceStream, open_places};
pub use port::{Port, PortFailed, Terms};
pub use watch::Watch;
