//! What is written of a journal file.

ghost use Rattle.std.specs.Prelude.{◌≡◌, ◌∷◌, ◌++◌, [], false, codes, OnOk};
ghost use Rattle.rbc_model.specs.Sessions.{Prints};
ghost use Rattle.rbc_model.specs.Words.{line_of};
ghost use Rattle.rbc_streams.specs.Emitting.{Emits};
ghost use Rattle.rbc_journal.specs.Gates.{counted};
ghost use Rattle.rbc_journal.specs.Journal.{told_of};
ghost use Rattle.rbc_journal_report.specs.Telling.{telling, text_of, told_lines, kind_text, digest_word, given_text, state_text, head_text, first_begun, begins_text, total_text, counts_text, told_text, report_text};

use crate::counting::{count, count_of};
use crate::telling::{FileContent, FileState, first_begun, named, tell};
use rbc_journal::next_told;
use rbc_streams::{emit, outcome};
use rbc_words::{Sink, Word, WriteFailed, emit_line};

/// Writes a report of a file, beside the digest of a track, if one is given, and hands it on. Nothing is written where the
/// file is no journal of format 2.
///
/// # Errors
/// `WriteFailed`, where the writer fails. Then a part of the report was written, from its start.
pub fn print_report<W: Sink>(
    bytes: &[u8],
    given: Option<[u8; 64]>,
    writer: &mut W,
) -> Result<(), WriteFailed>
    requires { W.failed writer.old ≡ false }
    ensures text { Prints (W.written writer.old) (W.written writer.new) (W.failed writer.new)
        (report_text given (telling bytes.now)) result }
    ensures handed_on { OnOk result (W.held_back writer.new ≡ []) }
{
    emit_report(bytes, given, writer);
    outcome(writer)?;
    writer.flush()
}

/// Writes a report of a file, if it is a journal of format 2.
fn emit_report<W: Sink>(bytes: &[u8], given: Option<[u8; 64]>, writer: &mut W)
    ensures { Emits W.written W.failed writer.old writer.new
        (report_text given (telling bytes.now)) }
{
    if let Ok(told) = tell(bytes) {
        emit_told(&told, given, writer);
    }
}

/// Writes the lines that a file tells, each with a line feed, and hands them on: those before the damage, where it is
/// damaged, and none where it is no journal of format 2.
///
/// # Errors
/// `WriteFailed`, where the writer fails. Then a part of the lines was written, from their start.
pub fn print_lines<W: Sink>(bytes: &[u8], writer: &mut W) -> Result<(), WriteFailed>
    requires { W.failed writer.old ≡ false }
    ensures text { Prints (W.written writer.old) (W.written writer.new) (W.failed writer.new)
        (text_of (told_lines (telling bytes.now))) result }
    ensures handed_on { OnOk result (W.held_back writer.new ≡ []) }
{
    emit_lines(bytes, writer);
    outcome(writer)?;
    writer.flush()
}

/// Writes the lines that a file tells.
fn emit_lines<W: Sink>(bytes: &[u8], writer: &mut W)
    ensures { Emits W.written W.failed writer.old writer.new
        (text_of (told_lines (telling bytes.now))) }
{
    if let Ok(told) = tell(bytes) {
        emit_text(told.text, writer);
    }
}

/// Writes the lines that a text tells.
pub(crate) fn emit_text<W: Sink>(text: &[u8], writer: &mut W)
    ensures { Emits W.written W.failed writer.old writer.new
        (text_of (told_of (counted text.now))) }
{
    let mut rest = text;
    while let Some((_, line, after)) = next_told(rest) {
        emit_one(line, writer);
        rest = after;
    }
}

/// Writes a line.
fn emit_one<W: Sink>(line: &[u8], writer: &mut W)
    ensures { Emits W.written W.failed writer.old writer.new
        (line.now ++ 10 ∷ []) }
{
    emit(writer, line);
    emit(writer, b"\n");
}

/// Writes a report.
fn emit_told<W: Sink>(told: &FileContent, given: Option<[u8; 64]>, writer: &mut W)
    ensures { Emits W.written W.failed writer.old writer.new
        (told_text given (record { lines = counted told.now.text.now; state = told.now.state })) }
{
    emit_head(given, named(told.text), writer);
    emit_begins(told.text, writer);
    emit_counts(told.text, writer);
    emit_state(told.state, writer);
    emit(writer, b"done\n");
}

/// Writes the format, and the track.
fn emit_head<W: Sink>(given: Option<[u8; 64]>, own: Option<[u8; 64]>, writer: &mut W)
    ensures { Emits W.written W.failed writer.old writer.new (head_text given own) }
{
    emit(writer, b"format 2\n");
    emit_digest(own, writer);
    emit(writer, given_text(given, own));
}

/// Writes the line of the track.
fn emit_digest<W: Sink>(own: Option<[u8; 64]>, writer: &mut W)
    ensures { Emits W.written W.failed writer.old writer.new
        (line_of (codes "track" ∷ digest_word own ∷ [])) }
{
    match own {
        Some(digest) => emit_line(b"track", &[Word::Text(&digest)], writer),
        None => emit_line(b"track", &[Word::Text(b"-")], writer),
    }
}

/// Writes the first line of what a text begins with, if it begins with anything.
fn emit_begins<W: Sink>(text: &[u8], writer: &mut W)
    ensures { Emits W.written W.failed writer.old writer.new
        (begins_text (first_begun (counted text.now))) }
{
    if let Some(line) = first_begun(text) {
        emit_line(b"begins", &[Word::Text(line)], writer);
    }
}

/// The line that tells whether the track that is given is the file's.
fn given_text(given: Option<[u8; 64]>, own: Option<[u8; 64]>) -> &'static [u8]
    ensures { result.now ≡ given_text given own }
{
    let (Some(given), Some(own)) = (given, own) else {
        return b"";
    };
    if given == own {
        b"same track\n"
    } else {
        b"other track\n"
    }
}

/// Writes how many lines a text tells, and how many of each kind.
fn emit_counts<W: Sink>(text: &[u8], writer: &mut W)
    ensures { Emits W.written W.failed writer.old writer.new
        (counts_text (told_of (counted text.now))) }
{
    emit_total(text, writer);
    emit_kind(text, b"report", writer);
    emit_kind(text, b"lock", writer);
    emit_kind(text, b"free", writer);
    emit_kind(text, b"leave", writer);
    emit_kind(text, b"yield", writer);
    emit_kind(text, b"ask", writer);
}

/// Writes how many lines a text tells.
fn emit_total<W: Sink>(text: &[u8], writer: &mut W)
    ensures { Emits W.written W.failed writer.old writer.new
        (total_text (told_of (counted text.now))) }
{
    emit_line(b"lines", &[Word::Count(count(text))], writer);
}

/// Writes a kind, and how many of the lines that a text tells are of it.
fn emit_kind<W: Sink>(text: &[u8], kind: &[u8], writer: &mut W)
    ensures { Emits W.written W.failed writer.old writer.new
        (kind_text (told_of (counted text.now)) kind.now) }
{
    emit_line(kind, &[Word::Count(count_of(text, kind))], writer);
}

/// Writes how a file ends.
fn emit_state<W: Sink>(state: FileState, writer: &mut W)
    ensures { Emits W.written W.failed writer.old writer.new (state_text state) }
{
    match state {
        FileState::Whole => emit(writer, b"whole\n"),
        FileState::Cut(bytes) => emit_line(b"cut", &[Word::Count(bytes)], writer),
        FileState::Damaged(line) => emit_line(b"damaged", &[Word::Count(line)], writer),
    }
}
