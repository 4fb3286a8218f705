//! A third kind of level, and tests of the generic crates at all three kinds.
//!
//! Speeds and gradients are the levels of the railway. What is generic over levels has to serve any kind that obeys
//! their laws, so it is tried here at one more: a message can express few of its values.
#![tactic(auto)]

mod power;
#[cfg(test)]
mod tests;

pub use power::Power;
