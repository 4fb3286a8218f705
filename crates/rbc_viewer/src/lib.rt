//! The page that draws texts of the centre: the viewer, as the program has it, with a text and verdicts inside.
#![tactic(auto)]

mod drawing;
mod escaping;
mod given;
mod inside;
mod judging;
mod page;
mod viewer;

pub use drawing::draw;
pub use escaping::{escapes_are_plain, escapes_are_read_back, write_escaped};
pub use given::Given;
pub use inside::Escaping;
pub use page::{begin_page, end_page};
