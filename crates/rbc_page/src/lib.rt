//! The page of a centre that stays: what is asked of it over HTTP, and what is answered, to the letter. It is told of the centre
//! by what is published, and never takes the desk's lock.
#![tactic(auto)]

mod answering;
mod asked;
mod exchange;
mod fields;
mod guest;
mod head;
mod hearing;
mod history;
mod lookout;
mod numbers;
mod reception;
mod text;

pub use answering::{Bodies, refuse, write_answer};
pub use asked::{Asked, Resource};
pub use exchange::{Exchange, MOST_HEAD, Stage};
pub use head::{Head, Kind, Status};
pub use hearing::{Heard, MOST_FIELDS, hear};
pub use lookout::{Fixed, Lookout};
pub use numbers::{Numbers, Refused};
pub use reception::{Opening, Reception};
pub use text::{scene_text, track_text};
