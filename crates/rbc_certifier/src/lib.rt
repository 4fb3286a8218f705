//! Requests for steps, each answered by the chosen profile with its certificate and its packet: the sessions of `rbc steps`.
#![tactic(auto)]

mod answers;
mod session;

pub use session::steps;
