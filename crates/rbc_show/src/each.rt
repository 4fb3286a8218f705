//! Each line of a session, with its reply and the scene that it leads to.

ghost use Rattle.std.specs.Prelude.{◌≡◌, ◌↔◌, ℕ, List, ◌++◌, Ok, [], true, false, IsTrue, OnOk, Err, Option};
ghost use Rattle.std.specs.Io.KnownBytes.{Appends, Consumes, IsAtEnd};
ghost use Rattle.rbc_sessions.specs.Records.{begin_of};
ghost use Rattle.rbc_model.specs.declared.limits.TheConstants.{LONGEST_LINE};
ghost use Rattle.rbc_model.specs.declared.sessions.SessionFault.TheVariants.{Read, Write};
ghost use Rattle.rbc_model.specs.Histories.{Entry};
ghost use Rattle.rbc_model.specs.Sessions.{Prints, WritesText};
ghost use Rattle.rbc_model.specs.Talks.{IsTalk};
ghost use Rattle.rbc_model.specs.TrackLines.{track_lines};
ghost use Rattle.rbc_session_laws.specs.Commands.{command_in};
ghost use Rattle.rbc_session_laws.specs.SessionRuns.{entries_of};
ghost use Rattle.rbc_session_laws.specs.Turns.{AnswersLine};
ghost use Rattle.rbc_lines.specs.declared.scene.LinesFault.TheVariants.{Memory as NoMemory, Write as NoWrite};
ghost use Rattle.rbc_show.specs.Showing.{ShowsEach, TellsLine, change_text, each_text, has_reply, next_number, request_text, scene_text, told_text};

use crate::scene::print_now;
use rbc_lines::{LinesFault, print_track};
use rbc_model::limits::LONGEST_LINE;
use rbc_session_laws::Command;
use rbc_sessions::words::{Word, print_line, without_return};
use rbc_sessions::{Centre, NullSink, Record, command_in};
use rbc_streams::{LineHandler, SessionFault, Sink, Source, WriteFailed, serve_lines};
use rbc_track::Track;
use std::alloc::Global;
use std::thread::Threads;

/// A record that answers lines, and tells each with its reply and the scene that it leads to.
#[derive(Drop)]
pub(crate) struct Telling {
    /// The record.
    pub(crate) history: Record,
    /// The number of the next line, counted from 1.
    pub(crate) number: u32,
    /// Whether memory was refused for a scene.
    pub(crate) lost: bool,
}

impl Telling {
    /// Whether memory was refused for a scene.
    fn has_lost(&self) -> bool
        ensures { result ≡ self.now.lost }
    {
        self.lost
    }
}

/// Whether a line has a reply.
fn has_reply(track: &Track, line: &[u8]) -> bool
    ensures { result ≡ has_reply (command_in track.now line.now) }
{
    !matches!(command_in(track, line), Ok(Command::Nothing))
}

/// Writes a line as it was read, with its number.
fn print_request<W: Sink>(number: u32, line: &[u8], writer: &mut W) -> Result<(), WriteFailed>
    requires { W.failed writer.old ≡ false }
    ensures { Prints (W.written writer.old) (W.written writer.new) (W.failed writer.new) (request_text number line.now) result }
{
    let text = without_return(line);
    print_line(
        b"request",
        &[Word::Number(number), Word::Text(text)],
        writer,
    )
}

/// Answers a line, and writes the reply; and behind it the scene that the line leads to, if it adds an entry.
///
/// # Errors
///
/// `Memory` where it was refused for the scene, `Write` where the writer failed. The line is answered nevertheless.
fn answer_line<W: Sink>(
    rt: &(impl Threads + Sync),
    alloc: Global,
    history: &mut Record,
    line: &[u8],
    writer: &mut W,
) -> Result<(), LinesFault>
    requires { W.failed writer.old ≡ false }
    ensures answered { (reply : List ℕ) × (added : Option Entry)
        × AnswersLine (begin_of history.old) history.old.entries line.now reply added
        × (begin_of history.new ≡ begin_of history.old) × (history.new.entries ≡ history.old.entries ++ entries_of added)
        × WritesText (W.written writer.old) (W.written writer.new)
        (reply ++ change_text (begin_of history.old) history.old.entries added) result }
    ensures memory { result ≡ Err NoMemory → W.failed writer.new ≡ false }
    ensures write { result ≡ Err NoWrite → W.failed writer.new ≡ true }
    ensures going { OnOk result (W.failed writer.new ≡ false) }
{
    let before = history.version();
    history.answer(rt, alloc, &Centre, line, false, writer)?;
    if history.version() > before {
        print_now(alloc, history, writer)?;
    }
    Ok(())
}

/// Tells a line with this number: the line, its reply, and the scene that it leads to. One without a reply is not told.
///
/// # Errors
///
/// `Memory` where it was refused for the scene, `Write` where the writer failed. The line is answered nevertheless.
fn tell_line<W: Sink>(
    rt: &(impl Threads + Sync),
    alloc: Global,
    number: u32,
    history: &mut Record,
    line: &[u8],
    writer: &mut W,
) -> Result<(), LinesFault>
    requires { W.failed writer.old ≡ false }
    ensures told { (reply : List ℕ) × (added : Option Entry)
        × AnswersLine (begin_of history.old) history.old.entries line.now reply added
        × (begin_of history.new ≡ begin_of history.old) × (history.new.entries ≡ history.old.entries ++ entries_of added)
        × WritesText (W.written writer.old) (W.written writer.new)
        (told_text number (begin_of history.old) history.old.entries line.now reply added) result }
    ensures memory { result ≡ Err NoMemory → W.failed writer.new ≡ false }
    ensures write { result ≡ Err NoWrite → W.failed writer.new ≡ true }
    ensures going { OnOk result (W.failed writer.new ≡ false) }
{
    if !has_reply(history.track(), line) {
        return Ok(());
    }
    if print_request(number, line, writer).is_err() {
        let _ = history.answer(rt, alloc, &Centre, line, false, &mut NullSink);
        return Err(LinesFault::Write);
    }
    answer_line(rt, alloc, history, line, writer)
}

impl LineHandler<()> for Telling {
    type State = Telling;

    ghost use Rattle.std.specs.Prelude.{◌≡◌, ◌≤◌, false};
    ghost use Rattle.rbc_model.specs.declared.limits.TheConstants.{LONGEST_LINE};
    ghost use Rattle.rbc_show.specs.Showing.{TellsLine};

    ghost longest = { LONGEST_LINE };

    ghost state = { λ s. s };

    ghost answers = { TellsLine };

    ghost ready = { λ s. s.lost ≡ false };

    ghost broken = { λ s. s.lost };

    ghost works = { λ _ ready. ready };

    ghost goes_on = { λ _ _ _ _ _ whole. whole };

    ghost rests = { λ _. 0 };

    fn longest_line() -> usize {
        LONGEST_LINE
    }

    fn answer<T: Threads + Sync, W: Sink>(
        &mut self,
        rt: &T,
        alloc: Global,
        _help: &(),
        line: &[u8],
        _more: bool,
        writer: &mut W,
    ) -> Result<(), WriteFailed> {
        let number = self.number;
        self.number = number.saturating_add(1);
        match tell_line(rt, alloc, number, &mut self.history, line, writer) {
            Ok(()) => Ok(()),
            Err(LinesFault::Memory) => {
                self.lost = true;
                Err(WriteFailed)
            }
            Err(LinesFault::Write) => Err(WriteFailed),
        }
    }

    fn refuse<W: Sink>(&mut self, _help: &(), writer: &mut W) -> Result<(), WriteFailed> {
        print_request(self.number, b"", writer)?;
        self.history.refuse(&Centre, writer)
    }
}

/// Answers the lines of the reader, and tells each.
///
/// # Errors
///
/// `Memory` where it was refused for a scene, and else whatever [`serve_lines`] answers.
fn tell_lines<R: Source, W: Sink>(
    rt: &(impl Threads + Sync),
    alloc: Global,
    reader: &mut R,
    writer: &mut W,
    telling: &mut Telling,
) -> Result<(), SessionFault>
    requires reader { R.failed reader.old ≡ false }
    requires writer { W.failed writer.old ≡ false }
    requires whole { telling.old.lost ≡ false }
    ensures read { (result ≡ Err Read) ↔ IsTrue (R.failed reader.new) }
    ensures write { result ≡ Err Write → IsTrue (W.failed writer.new) }
    ensures going { OnOk result (W.failed writer.new ≡ false) }
    ensures whole { OnOk result (telling.new.lost ≡ false) }
    ensures end { OnOk result (IsAtEnd (R.left reader.new)) }
    ensures ended { OnOk result (R.ended reader.new ≡ true) }
    ensures talk { (input : List ℕ) × Consumes (R.left reader.old) (R.left reader.new) input
        × OnOk result (IsTalk LONGEST_LINE TellsLine telling.old telling.new input (W.written writer.old) (W.written writer.new) (Ok tt)) }
{
    let ended = serve_lines(rt, alloc, reader, writer, telling, &());
    if telling.has_lost() {
        return Err(SessionFault::Memory);
    }
    ended
}

/// Writes the track of a record as lines, and the scene that it leads to.
fn begin<W: Sink>(alloc: Global, history: &Record, writer: &mut W) -> Result<(), SessionFault>
    requires { W.failed writer.old ≡ false }
    ensures text { OnOk result (Appends (W.written writer.old) (W.written writer.new)
        (track_lines history.now.track ++ scene_text (begin_of history.now) history.now.entries)) }
    ensures going { OnOk result (W.failed writer.new ≡ false) }
    ensures write { result ≡ Err Write → IsTrue (W.failed writer.new) }
    ensures read { result ≡ Err Read → ⊥ }
{
    print_track(history.track(), writer)?;
    print_now(alloc, history, writer)?;
    Ok(())
}

/// Writes the track of a record as lines, and its scene; then answers the lines that are read, as [`rbc_sessions::run`]
/// does, and writes each with its number, its reply and, where it adds an entry, the scene that it leads to. A line without a
/// reply is not written.
///
/// # Errors
///
/// `Memory` where it is refused for a scene: what is written is no whole scene then. `Read` where the reader fails, `Write`
/// where the writer does, `Overlong` behind the reply to a line that is too long; `Lines` where a further byte comes after
/// the last line that a session treats.
pub fn show_each<R: Source, W: Sink>(
    rt: &(impl Threads + Sync),
    alloc: Global,
    history: Record,
    reader: &mut R,
    writer: &mut W,
) -> Result<(), SessionFault>
    requires reader { R.failed reader.old ≡ false }
    requires writer { W.failed writer.old ≡ false }

    // A read fault is answered exactly where the reader failed, and a write fault only where the writer did.
    ensures read { (result ≡ Err Read) ↔ IsTrue (R.failed reader.new) }
    ensures write { result ≡ Err Write → IsTrue (W.failed writer.new) }

    // Ok is answered at the end of the input, which the last read found, and all was written and handed on.
    ensures end { OnOk result (IsAtEnd (R.left reader.new)) }
    ensures ended { OnOk result (R.ended reader.new ≡ true) }
    ensures handed_on { OnOk result (W.held_back writer.new ≡ []) }
    ensures going { OnOk result (W.failed writer.new ≡ false) }

    // What was written is the track, the scene before, and what was read, line by line, where memory was never refused.
    ensures shown { OnOk result (ShowsEach (each_text (begin_of history) history.entries) (R.left reader.old)
        (W.written writer.old) (W.written writer.new)) }
{
    // The record's track is in form.
    history.known();
    let mut telling = Telling {
        history,
        number: 1,
        lost: false,
    };
    begin(alloc, &telling.history, writer)?;
    tell_lines(rt, alloc, reader, writer, &mut telling)?;
    writer.flush()?;
    Ok(())
}
