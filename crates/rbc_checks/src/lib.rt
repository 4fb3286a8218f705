//! Certificates in a text: its lines, the blocks that they make, and what is said of each block.
#![tactic(auto)]

mod block;
mod certify;
mod checking;
mod lines;
mod rows;
mod spare;
mod table;
mod verdict;

pub use block::{Block, is_head, part_read};
pub use checking::check;
pub use lines::{CheckLine, ToldProfile, parse_check};
pub use rows::Rows;
pub use spare::Spare;
pub use verdict::{Verdict, judge, print_said};
