//! What the lines of `rbc steps` and of a session say, and how replies are printed.
#![tactic(auto)]

mod line_words;
mod price_table;
mod printing;
mod session_line;
mod session_request;
mod spelled;
mod steps_reply;
mod steps_request;
mod tail_buffer;
mod words;

pub use line_words::{
    Word, emit_joined, emit_line, emit_words, leg_word, print_line, section_word,
};
pub use printing::{emit_hex_between, emit_number};
pub use rbc_streams::{SessionFault, Sink, WriteFailed};
pub use session_line::{emit_report, emit_request, print_request, told_request};
pub use session_request::{Request, parse, report_in};
pub use spelled::Spelled;
pub use steps_reply::{
    Basis, emit_certificate, emit_certified, emit_last, emit_refusal, emit_runs,
};
pub use steps_request::{StepsLine, StepsRequest, parse_steps, request_in};
pub use tail_buffer::TailBuffer;
pub use words::{
    around, integer, is_blank, is_text, next_word, number, number_at, number_from_to, only_word,
    request_text, take_word, without_return,
};
