//! What is said at a terminal beside a session of the centre: a prompt before each line, a line behind each refusal that says
//! what was wrong and what is expected, and the requests, where help is asked for. No contract pins these texts. What passes
//! through to the session, and from it, is pinned.
#![tactic(auto)]

mod forms;
mod locks;
mod names;
mod overheard;
mod passing;
mod prompted;
mod refused;
mod refused_lines;
mod refused_reports;
mod talk;
mod terminal;

pub use overheard::Overheard;
pub use prompted::Prompted;
pub use terminal::Terminal;
