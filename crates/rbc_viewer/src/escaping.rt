//! Text that is written into a page of HTML.

ghost use Rattle.std.specs.Prelude.{◌≡◌, ◌≤◌, ◌<◌, ◌∷◌, [], true, false, take, length};
ghost use Rattle.rbc_model.specs.Sessions.{Prints};
ghost use Rattle.rbc_streams.specs.Emitting.{Emits};
ghost use Rattle.rbc_viewer.specs.Escapes.{escape, escaped, EscapesArePlain, EscapesAreReadBack};

use rbc_streams::{Sink, WriteFailed, emit, outcome};

/// Whether a byte of text stands for itself in a page.
fn stands_for_itself(byte: u8) -> bool
    ensures { result ≡ true → escape byte ≡ byte ∷ [] }
{
    !matches!(byte, b'&' | b'<' | b'>' | b'\r')
}

/// How many of the bytes stand for themselves, up to the first that does not.
fn plain_ahead(bytes: &[u8]) -> usize
    ensures within { result ≤ length bytes.now }
    ensures plain { escaped (take result bytes.now) ≡ take result bytes.now }
{
    let mut count = 0;
    while count < bytes.len() && stands_for_itself(bytes[count]) {
        count += 1;
    }
    count
}

/// Writes a byte of text into a page.
fn emit_byte<W: Sink>(byte: u8, writer: &mut W)
    ensures { Emits W.written W.failed writer.old writer.new (escape byte) }
{
    match byte {
        b'&' => emit(writer, b"&amp;"),
        b'<' => emit(writer, b"&lt;"),
        b'>' => emit(writer, b"&gt;"),
        b'\r' => emit(writer, b"&#13;"),
        byte => emit(writer, &[byte]),
    }
}

/// Writes the first bytes of a text that is not empty into a page: those that stand for themselves, and the next one. Answers
/// how many.
fn emit_run<W: Sink>(text: &[u8], writer: &mut W) -> usize
    requires { 0 < length text.now }
    ensures some { 0 < result }
    ensures within { result ≤ length text.now }
    ensures text { Emits W.written W.failed writer.old writer.new (escaped (take result text.now)) }
{
    let plain = plain_ahead(text);
    emit(writer, &text[..plain]);
    if plain == text.len() {
        return plain;
    }
    emit_byte(text[plain], writer);
    plain + 1
}

/// Writes a text into a page, escaped: `&`, `<`, `>` and the carriage return are named. Takes no memory.
fn emit_escaped<W: Sink>(text: &[u8], writer: &mut W)
    ensures { Emits W.written W.failed writer.old writer.new (escaped text.now) }
{
    let mut rest = text;
    while !rest.is_empty() {
        let count = emit_run(rest, writer);
        rest = &rest[count..];
    }
}

/// Writes a text into a page, escaped: `&`, `<`, `>` and the carriage return are named. Takes no memory.
///
/// # Errors
///
/// `WriteFailed`, where the writer fails. Then a part of what is to be written stands, from its start.
pub fn write_escaped<W: Sink>(text: &[u8], writer: &mut W) -> Result<(), WriteFailed>
    requires { W.failed writer.old ≡ false }
    ensures { Prints (W.written writer.old) (W.written writer.new) (W.failed writer.new) (escaped text.now) result }
{
    emit_escaped(text, writer);
    outcome(writer)
}

/// No escaped text has a `<`, a `>` or a carriage return: none ends the place that it stands in, and none begins a line of
/// its own.
pub fn escapes_are_plain()
    ensures { EscapesArePlain }
{}

/// What was escaped is read as it was.
pub fn escapes_are_read_back()
    ensures { EscapesAreReadBack }
{}
