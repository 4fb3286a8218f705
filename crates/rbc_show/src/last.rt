//! The scene that a session leads to.

ghost use Rattle.std.specs.Prelude.{◌≡◌, ◌≤◌, ◌↔◌, ℕ, List, Ok, [], true, false, IsTrue, OnOk, Err};
ghost use Rattle.std.specs.Io.KnownBytes.{Appends, Consumes, IsAtEnd};
ghost use Rattle.rbc_sessions.specs.Records.{begin_of};
ghost use Rattle.rbc_model.specs.declared.limits.TheConstants.{LONGEST_LINE};
ghost use Rattle.rbc_model.specs.declared.sessions.SessionFault.TheVariants.{Read, Write};
ghost use Rattle.rbc_model.specs.Talks.{IsTalk};
ghost use Rattle.rbc_show.specs.Showing.{FollowsLine, Shows, scene_text, shown_text};

use crate::scene::print_now;
use rbc_journaled::follow;
use rbc_lines::print_track;
use rbc_model::Memory;
use rbc_model::limits::LONGEST_LINE;
use rbc_sessions::Record;
use rbc_streams::{LineHandler, SessionFault, Sink, Source, WriteFailed, serve_lines};
use std::alloc::Global;
use std::thread::Threads;

/// A record that follows lines, and says no reply.
#[derive(Drop)]
pub(crate) struct Following {
    /// The record.
    pub(crate) history: Record,
    /// Whether memory was refused.
    pub(crate) lost: bool,
}

impl Following {
    /// Whether memory was refused.
    fn has_lost(&self) -> bool
        ensures { result ≡ self.now.lost }
    {
        self.lost
    }
}

impl LineHandler<()> for Following {
    type State = Following;

    ghost use Rattle.std.specs.Prelude.{◌≡◌, ◌≤◌, false};
    ghost use Rattle.rbc_model.specs.declared.limits.TheConstants.{LONGEST_LINE};
    ghost use Rattle.rbc_show.specs.Showing.{FollowsLine};

    ghost longest = { LONGEST_LINE };

    ghost state = { λ s. s };

    ghost answers = { FollowsLine };

    ghost ready = { λ s. s.lost ≡ false };

    ghost broken = { λ s. s.lost };

    ghost works = { λ _ ready. ready };

    ghost goes_on = { λ _ _ _ _ _ whole. whole };

    ghost rests = { λ _. 0 };

    fn longest_line() -> usize {
        LONGEST_LINE
    }

    fn answer<T: Threads + Sync, W: Sink>(
        &mut self,
        rt: &T,
        alloc: Global,
        _help: &(),
        line: &[u8],
        _more: bool,
        _writer: &mut W,
    ) -> Result<(), WriteFailed> {
        match follow(rt, alloc, &mut self.history, line) {
            Ok(_is_added) => Ok(()),
            Err(Memory) => {
                self.lost = true;
                Err(WriteFailed)
            }
        }
    }

    fn refuse<W: Sink>(&mut self, _help: &(), _writer: &mut W) -> Result<(), WriteFailed> {
        Ok(())
    }
}

/// Follows the lines of the reader.
///
/// # Errors
///
/// `Memory` where it was refused, and else whatever [`serve_lines`] answers.
fn follow_lines<R: Source, W: Sink>(
    rt: &(impl Threads + Sync),
    alloc: Global,
    reader: &mut R,
    writer: &mut W,
    following: &mut Following,
) -> Result<(), SessionFault>
    requires reader { R.failed reader.old ≡ false }
    requires writer { W.failed writer.old ≡ false }
    requires whole { following.old.lost ≡ false }
    ensures read { (result ≡ Err Read) ↔ IsTrue (R.failed reader.new) }
    ensures write { result ≡ Err Write → IsTrue (W.failed writer.new) }
    ensures going { OnOk result (W.failed writer.new ≡ false) }
    ensures whole { OnOk result (following.new.lost ≡ false) }
    ensures end { OnOk result (IsAtEnd (R.left reader.new)) }
    ensures ended { OnOk result (R.ended reader.new ≡ true) }
    ensures talk { (input : List ℕ) × Consumes (R.left reader.old) (R.left reader.new) input
        × OnOk result (IsTalk LONGEST_LINE FollowsLine following.old following.new input (W.written writer.old) (W.written writer.new) (Ok tt)) }
{
    let ended = serve_lines(rt, alloc, reader, writer, following, &());
    if following.has_lost() {
        return Err(SessionFault::Memory);
    }
    ended
}

/// Writes the scene that a record leads to, and hands on all that was written.
fn finish<W: Sink>(alloc: Global, history: &Record, writer: &mut W) -> Result<(), SessionFault>
    requires { W.failed writer.old ≡ false }
    ensures text { OnOk result (Appends (W.written writer.old) (W.written writer.new)
        (scene_text (begin_of history.now) history.now.entries)) }
    ensures handed_on { OnOk result (W.held_back writer.new ≡ []) }
    ensures going { OnOk result (W.failed writer.new ≡ false) }
    ensures write { result ≡ Err Write → IsTrue (W.failed writer.new) }
    ensures read { result ≡ Err Read → ⊥ }
{
    print_now(alloc, history, writer)?;
    writer.flush()?;
    Ok(())
}

/// Writes the track of a record as lines; then follows the lines that are read, as [`rbc_sessions::run`] does, but says
/// no reply; and writes the scene that they lead to.
///
/// # Errors
///
/// `Memory` where it is refused: the scene is not written to its end. `Read` where the reader fails, `Write` where the
/// writer does, `Overlong` behind a line that is too long; `Lines` where a further byte comes after the last line that a
/// session treats.
pub fn show<R: Source, W: Sink>(
    rt: &(impl Threads + Sync),
    alloc: Global,
    history: Record,
    reader: &mut R,
    writer: &mut W,
) -> Result<(), SessionFault>
    requires reader { R.failed reader.old ≡ false }
    requires writer { W.failed writer.old ≡ false }

    // A read fault is answered exactly where the reader failed, and a write fault only where the writer did.
    ensures read { (result ≡ Err Read) ↔ IsTrue (R.failed reader.new) }
    ensures write { result ≡ Err Write → IsTrue (W.failed writer.new) }

    // Ok is answered at the end of the input, which the last read found, and all was written and handed on.
    ensures end { OnOk result (IsAtEnd (R.left reader.new)) }
    ensures ended { OnOk result (R.ended reader.new ≡ true) }
    ensures handed_on { OnOk result (W.held_back writer.new ≡ []) }
    ensures going { OnOk result (W.failed writer.new ≡ false) }

    // What was written is the track, and the scene that what was read leads to.
    ensures shown { OnOk result (Shows (shown_text (begin_of history) history.entries) (R.left reader.old)
        (W.written writer.old) (W.written writer.new)) }
{
    let mut following = Following {
        history,
        lost: false,
    };
    print_track(following.history.track(), writer)?;
    follow_lines(rt, alloc, reader, writer, &mut following)?;
    finish(alloc, &following.history, writer)
}
