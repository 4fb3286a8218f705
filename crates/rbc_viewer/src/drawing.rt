//! The page of a text with certificates: what was read, to the byte, and what the check says of it.

ghost use Rattle.std.specs.Prelude.{◌≡◌, ◌↔◌, ℕ, List, [], true, false, IsTrue, OnOk, IfOk, Err};
ghost use Rattle.std.specs.Io.KnownBytes.{Appends, Consumes, IsAtEnd};
ghost use Rattle.rbc_model.specs.declared.limits.TheConstants.{LONGEST_CHECK_LINE};
ghost use Rattle.rbc_model.specs.declared.sessions.SessionFault.TheVariants.{Read, Write};
ghost use Rattle.rbc_model.specs.Sessions.{lines_of};
ghost use Rattle.rbc_streams.specs.LineReading.{at_start};
ghost use Rattle.rbc_viewer.specs.Escapes.{escaped};
ghost use Rattle.rbc_viewer.specs.Judged.{behind_lines};
ghost use Rattle.rbc_viewer.specs.Pages.{DrawsAll};

use crate::escaping::write_escaped;
use crate::judging::Judging;
use crate::page::{begin_page, end_page};
use rbc_model::limits::{LONGEST_CHECK_LINE, MOST_LINES};
use rbc_streams::{Advance, LineReader, SessionFault, Sink, Source, next_line};
use std::alloc::Global;

/// Writes each line of the reader, with its line feed, as text of a page, and judges the blocks that the lines end. Before each
/// read of the reader what was written so far is handed on.
///
/// # Errors
///
/// The errors of [`draw`], but for want of memory before anything is read.
fn draw_lines<R: Source, W: Sink>(
    lines: &mut LineReader,
    reader: &mut R,
    writer: &mut W,
    judging: &mut Judging,
) -> Result<(), SessionFault>
    requires lines { lines.old ≡ at_start LONGEST_CHECK_LINE }
    requires reader { R.failed reader.old ≡ false }
    requires writer { W.failed writer.old ≡ false }
    ensures read { (result ≡ Err Read) ↔ IsTrue (R.failed reader.new) }
    ensures write { (result ≡ Err Write) ↔ IsTrue (W.failed writer.new) }
    ensures end { OnOk result (IsAtEnd (R.left reader.new)) }
    ensures ended { OnOk result (R.ended reader.new ≡ true) }
    // What was read was written, to the byte, and its lines were judged.
    ensures drawn { OnOk result ((input : List ℕ) × Consumes (R.left reader.old) (R.left reader.new) input
        × Appends (W.written writer.old) (W.written writer.new) (escaped input)
        × (judging.new ≡ behind_lines judging.old (lines_of input))) }
{
    for count in 0..MOST_LINES {
        match next_line(lines, reader, writer, true)? {
            Advance::Line => {
                write_escaped(lines.taken(), writer)?;
                judging.take(lines.line())?;
            }
            Advance::Overlong => {
                writer.flush()?;
                return Err(SessionFault::Overlong);
            }
            Advance::End => return Ok(()),
        }
    }
    writer.flush()?;
    if lines.has_more(reader)? {
        return Err(SessionFault::Lines);
    }
    Ok(())
}

/// Writes the viewer with what is read in it, and behind that what [`rbc_checks::check`] answers to it: for each block of
/// certificates whether it is certified, or the first reason why not. Answers whether each was certified.
///
/// # Errors
/// `Memory` where it is refused: before anything is read or written, or the page is not written to its end. `Read` where the
/// reader fails, `Write` where the writer does, `Overlong` at a line that is too long; `Lines` where a further byte comes after
/// the last line that a session treats. Then the page is not written to its end either.
pub fn draw<R: Source, W: Sink>(
    alloc: Global,
    reader: &mut R,
    writer: &mut W,
) -> Result<bool, SessionFault>
    requires reader { R.failed reader.old ≡ false }
    requires writer { W.failed writer.old ≡ false }

    // A read or write fault is answered exactly where the reader or the writer failed.
    ensures read { (result ≡ Err Read) ↔ IsTrue (R.failed reader.new) }
    ensures write { (result ≡ Err Write) ↔ IsTrue (W.failed writer.new) }

    // Ok is answered at the end of the input, which the last read found, and all was written and handed on.
    ensures end { OnOk result (IsAtEnd (R.left reader.new)) }
    ensures ended { OnOk result (R.ended reader.new ≡ true) }
    ensures handed_on { OnOk result (W.held_back writer.new ≡ []) }

    // What was written is the page of what was read, and Ok tells whether each block of it was certified.
    ensures page { IfOk result (λ all. DrawsAll all (R.left reader.old) (W.written writer.old) (W.written writer.new)) }
{
    let mut lines = LineReader::new(alloc, LONGEST_CHECK_LINE)?;
    let mut judging = Judging::new(alloc);
    begin_page(writer)?;
    draw_lines(&mut lines, reader, writer, &mut judging)?;
    judging.close()?;
    end_page(judging.verdicts(), writer)?;
    Ok(!judging.has_refused())
}
