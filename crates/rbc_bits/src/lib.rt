//! Fields, each a number of bits, written in a row and read from one.
#![tactic(auto)]

mod reader;
mod writer;

pub use reader::{BitReader, Short};
pub use writer::BitWriter;
