//! The radio message 3, a movement authority (ERA SUBSET-026 3.6.0, chapter 8), written and read; and two of its
//! packets (chapter 7) alone, the gradient profile and the static speed profile.
#![tactic(auto)]

mod authority;
mod encoded;
mod field_reader;
mod fields;
mod header;
mod message;
mod packet_15;
mod packet_21;
mod packet_27;
mod profile;

pub use authority::Authority;
pub use encoded::Encoded;
pub use fields::width_of;
pub use message::{read_message, write_message};
pub use packet_21::write_grade;
pub use packet_27::write_speed;
pub use profile::write_profile;
pub use rbc_model::{Fault, FieldName};
