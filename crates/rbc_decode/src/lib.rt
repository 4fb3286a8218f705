//! The fields of message 3 and of its packets 21 and 27, one by one: their names, widths and values, what they say in
//! words, and the place of the first one that is at fault.
#![tactic(auto)]

ghost use Rattle.rbc_decode.specs.Laws.{FaultsAgree, FieldsAreThose, WordsAreThose};

mod decoding;
mod fields;
mod granted;
mod granted_member;
mod json_line;
mod line;
mod listing;
mod meaning;
mod names;
mod out_buffer;
mod parts;
mod row;
mod said;
mod spelling;
mod text;
mod walk;

pub use decoding::{Form, Heading, Json, Plain, Progress, decode};
pub use fields::{FieldPlace, Found, Item};
pub use granted::{Ahead, GrantedLine};
pub use row::Row;
pub use said::Said;
pub use spelling::Wrong;
pub use walk::FieldWalk;

/// The walk over the fields of a message and [`rbc_packet::read_message`] come to the same: no fault is found exactly
/// where it is read, and else the fault that reading answers; the fields of a message that is read are the fields of its
/// authority's message; and what they say is what its authority says.
pub fn messages_are_read_alike()
    ensures faults { FaultsAgree }
    ensures fields { FieldsAreThose }
    ensures words { WordsAreThose }
{}
