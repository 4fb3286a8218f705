//! The loop of a session: lines are read, answered and handed on, up to the end of the input or the first fault.

ghost use Rattle.std.specs.Prelude.{◌≡◌, ◌≢◌, ◌↔◌, ◌<◌, ◌++◌, ◌⊎◌, ◌||◌, ℕ, List, [], length, true, false, IsTrue, OnOk, Ok, Err};
ghost use Rattle.std.specs.Io.KnownBytes.{Consumes, Keeps, IsAtEnd};
ghost use Rattle.rbc_model.specs.Sessions.{Prints};
ghost use Rattle.rbc_model.specs.Talks.{IsTalk};
ghost use Rattle.rbc_streams.specs.LineReading.{at_start, Goes, HasLine, KnowsEnd};

use crate::{Advance, LineHandler, LineReader, Sink, Source, WriteFailed};
use rbc_model::SessionFault;
use rbc_model::limits::MOST_LINES;
use std::alloc::Global;
use std::thread::Threads;

/// Answers each line of the reader, in order, up to the end of the input or the first fault. Before each read of the
/// reader all replies so far are handed on. The line handler is told of each line whether a further one has been read, so
/// that the reply may rest: none rests where the reader is read, nor at the end.
///
/// # Errors
/// `Memory` before anything is read or written. Then, for each line in order: `Read` where the reader fails, `Write`
/// where the writer does, or the line handler, `Overlong` behind the reply to a line that is too long; `Lines` where a further byte comes
/// after the last line that a session treats.
pub fn serve_lines<C, A: LineHandler<C>, R: Source, W: Sink>(
    rt: &(impl Threads + Sync),
    alloc: Global,
    reader: &mut R,
    writer: &mut W,
    handler: &mut A,
    help: &C,
) -> Result<(), SessionFault>
    requires reader { R.failed reader.old ≡ false }
    requires writer { W.failed writer.old ≡ false }
    requires ready { A.ready (A.state handler.old) }
    requires none_rests { A.rests (A.state handler.old) ≡ 0 }

    // A read or write fault is answered exactly where the reader failed, or the writer or the line handler.
    ensures read { (result ≡ Err SessionFault.Read) ↔ IsTrue (R.failed reader.new) }
    ensures write { (result ≡ Err SessionFault.Write) ↔ IsTrue (A.broken (A.state handler.new) || W.failed writer.new) }

    // Without memory nothing begins.
    ensures memory { result ≡ Err SessionFault.Memory
        → (reader.new ≡ reader.old) × (writer.new ≡ writer.old) × (handler.new ≡ handler.old) }

    // Ok is answered at the end of the input, which the last read found.
    ensures end { OnOk result (IsAtEnd (R.left reader.new)) }
    ensures ended { OnOk result (R.ended reader.new ≡ true) }

    // No reply rests.
    ensures none_rests { A.rests (A.state handler.new) ≡ 0 }

    // What was written answers the lines of what was read.
    ensures talk { (input : List ℕ) × Consumes (R.left reader.old) (R.left reader.new) input
        × IsTalk A.longest A.answers (A.state handler.old) (A.state handler.new) input
        (W.written writer.old) (W.written writer.new) result }

    // And it was handed on, unless the writer failed, or the line handler.
    ensures handed_on { (A.broken (A.state handler.new) || W.failed writer.new) ≡ false → W.held_back writer.old ≡ [] → W.held_back writer.new ≡ [] }
{
    let lines = LineReader::new(alloc, A::longest_line())?;
    serve_lines_with(rt, alloc, lines, reader, writer, handler, help)
}

/// Serves lines as [`serve_lines`] does, where there is room for them: a reader of lines that was not begun. Memory for these is
/// not refused.
///
/// # Errors
/// The errors of [`serve_lines`], but for `Memory`.
pub fn serve_lines_with<C, A: LineHandler<C>, R: Source, W: Sink>(
    rt: &(impl Threads + Sync),
    alloc: Global,
    mut lines: LineReader,
    reader: &mut R,
    writer: &mut W,
    handler: &mut A,
    help: &C,
) -> Result<(), SessionFault>
    requires lines { lines ≡ at_start A.longest }
    requires reader { R.failed reader.old ≡ false }
    requires writer { W.failed writer.old ≡ false }
    requires ready { A.ready (A.state handler.old) }
    requires none_rests { A.rests (A.state handler.old) ≡ 0 }

    // Memory is refused to none that begins.
    ensures begins { result ≢ Err SessionFault.Memory }

    // A read or write fault is answered exactly where the reader failed, or the writer or the line handler.
    ensures read { (result ≡ Err SessionFault.Read) ↔ IsTrue (R.failed reader.new) }
    ensures write { (result ≡ Err SessionFault.Write) ↔ IsTrue (A.broken (A.state handler.new) || W.failed writer.new) }

    // Ok is answered at the end of the input, which the last read found.
    ensures end { OnOk result (IsAtEnd (R.left reader.new)) }
    ensures ended { OnOk result (R.ended reader.new ≡ true) }

    // No reply rests.
    ensures none_rests { A.rests (A.state handler.new) ≡ 0 }

    // What was written answers the lines of what was read.
    ensures talk { (input : List ℕ) × Consumes (R.left reader.old) (R.left reader.new) input
        × IsTalk A.longest A.answers (A.state handler.old) (A.state handler.new) input
        (W.written writer.old) (W.written writer.new) result }

    // And it was handed on, unless the writer failed, or the line handler.
    ensures handed_on { (A.broken (A.state handler.new) || W.failed writer.new) ≡ false → W.held_back writer.old ≡ [] → W.held_back writer.new ≡ [] }
{
    for count in 0..MOST_LINES {
        match next_line(&mut lines, reader, writer, count > 0)? {
            Advance::Line => {
                let more = count + 1 < MOST_LINES && lines.has_line();
                handler.answer(rt, alloc, help, lines.line(), more, writer)?;
            }
            Advance::Overlong => {
                refuse(writer, handler, help)?;
                return Err(SessionFault::Overlong);
            }
            Advance::End => return Ok(()),
        }
    }
    writer.flush()?;
    if lines.has_more(reader)? {
        return Err(SessionFault::Lines);
    }
    Ok(())
}

/// Goes on to the next line. Where the bytes that came don't tell it, the replies to the lines before it are handed on,
/// if there are any, and then the reader is read.
///
/// # Errors
/// `Write` where that can't be handed on, and then nothing is read; `Read` where the reader fails.
pub fn next_line<R: Source, W: Sink>(
    lines: &mut LineReader,
    reader: &mut R,
    writer: &mut W,
    answered: bool,
) -> Result<Advance, SessionFault>
    requires reader { R.failed reader.old ≡ false }
    requires writer { W.failed writer.old ≡ false }
    ensures read { (result ≡ Err SessionFault.Read) ↔ IsTrue (R.failed reader.new) }
    ensures write { (result ≡ Err SessionFault.Write) ↔ IsTrue (W.failed writer.new) }
    ensures memory { result ≢ Err SessionFault.Memory }
    ensures next { (taken : List ℕ) × Consumes (R.left reader.old) (R.left reader.new) taken
        × (lines.old.ended ≡ true → taken ≡ []) × Goes (lines.old.pending ++ taken) lines.new result }
    ensures end { KnowsEnd lines.old (R.left reader.old) (R.ended reader.old) → KnowsEnd lines.new (R.left reader.new) (R.ended reader.new) }
    ensures ended { lines.old.ended ≡ true → lines.new.ended ≡ true }
    ensures longest { lines.new.longest ≡ lines.old.longest }
    ensures written { Keeps (W.written writer.old) (W.written writer.new) }
    // A line that has been read is next, and nothing happens but that.
    ensures there { HasLine lines.old.pending lines.old.longest → (result ≡ Ok Advance.Line) × (reader.new ≡ reader.old) × (writer.new ≡ writer.old) }
    // Where no line was answered yet nothing is handed on, and that can't fail.
    ensures unanswered { answered ≡ false → writer.new ≡ writer.old }
    ensures answered { result ≡ Err SessionFault.Write → answered ≡ true }
    // The reader is read only where nothing is held back.
    ensures handed_on { (reader.new ≡ reader.old) ⊎ (answered ≡ true → W.held_back writer.new ≡ []) }
    ensures handed_on_at_end { result ≡ Ok Advance.End → answered ≡ true → W.held_back writer.new ≡ [] }
{
    if let Some(step) = lines.step() {
        return Ok(step);
    }
    if answered {
        writer.flush()?;
    }
    Ok(lines.advance(reader)?)
}

/// Answers a line that is too long, and hands the reply on.
fn refuse<C, A: LineHandler<C>, W: Sink>(
    writer: &mut W,
    handler: &mut A,
    help: &C,
) -> Result<(), WriteFailed>
    requires going { W.failed writer.old ≡ false }
    requires ready { A.ready (A.state handler.old) }
    requires none_rests { A.rests (A.state handler.old) ≡ 0 }
    ensures reply { (reply : List ℕ)
        × ((line : List ℕ) → A.longest < length line
        → A.answers (A.state handler.old) line reply (A.state handler.new))
        × Prints (W.written writer.old) (W.written writer.new) (A.broken (A.state handler.new) || W.failed writer.new) reply result }
    ensures none_rests { A.rests (A.state handler.new) ≡ 0 }
    ensures handed_on { OnOk result (W.held_back writer.new ≡ []) }
{
    handler.refuse(help, writer)?;
    writer.flush()
}
