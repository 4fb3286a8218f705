//! The line by which a journal tells an entry.

ghost use Rattle.std.specs.Prelude.{◌≡◌, IfOk};
ghost use Rattle.rbc_model.specs.SessionText.{said_line};
ghost use Rattle.rbc_words.specs.SessionLines.{request_view};

use rbc_model::Memory;
use rbc_streams::Text;
use rbc_words::{Request, print_request};
use std::alloc::Global;

/// The line of a request, one space between its words, without a line feed.
///
/// # Errors
///
/// `Memory`, where there is none for it.
pub fn line_text(alloc: Global, request: &Request) -> Result<Vec<u8>, Memory>
    ensures { IfOk result (λ text. text.items ≡ said_line (request_view request.now)) }
{
    let mut text = Text::new(alloc);
    if print_request(request, &mut text).is_err() {
        return Err(Memory);
    }
    let Text { mut bytes, .. } = text;
    bytes.pop();
    Ok(bytes)
}
