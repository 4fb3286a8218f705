//! Readers and writers of bytes, the lines of what is read, and sessions: line handlers, which answer the lines, and the one
//! loop over them.
#![tactic(auto)]

mod line_handler;
mod line_reader;
mod retried;
mod session;
mod stream;
mod streams;
mod text;
mod whole;

pub use line_handler::LineHandler;
pub use line_reader::{Advance, LineReader};
pub use rbc_model::SessionFault;
pub use retried::{LastCall, Retried};
pub use session::{next_line, serve_lines, serve_lines_with};
pub use stream::{Buffered, Stream};
pub use streams::{ReadFailed, Sink, Source, WriteFailed, emit, outcome, put};
pub use text::Text;
pub use whole::{WholeFault, read_whole};
