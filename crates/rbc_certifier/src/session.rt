//! The session `rbc steps`: each line is answered by itself, in certified packets.

ghost use Rattle.std.specs.Prelude.{◌≡◌, ◌↔◌, ℕ, List, [], true, false, IsTrue, OnOk, Err};
ghost use Rattle.std.specs.Io.KnownBytes.{Consumes, IsAtEnd};
ghost use Rattle.rbc_model.specs.declared.places.Format.TheVariants.{Far};
ghost use Rattle.rbc_model.specs.StepsReply.{AnswersLine};
ghost use Rattle.rbc_model.specs.Talks.{IsTalk, EachByItself};
ghost use Rattle.rbc_certifier.specs.Answered.{AnswersAllSteps};

use crate::answers::answer_line;
use rbc_model::limits::LONGEST_LINE;
use rbc_model::{LineFault, SessionFault, StepsRefusal};
use rbc_streams::{LineHandler, Sink, Source, WriteFailed, outcome, serve_lines};
use rbc_words::emit_refusal;
use std::alloc::Global;
use std::thread::Threads;

/// Answers each line by itself: it keeps nothing.
#[derive(Drop)]
struct Certifier;

impl LineHandler<()> for Certifier {
    type State = ();

    ghost use Rattle.std.specs.Prelude.{⊤, false, refl};
    ghost use Rattle.rbc_model.specs.declared.limits.TheConstants.{LONGEST_LINE};
    ghost use Rattle.rbc_model.specs.declared.places.Format.TheVariants.{Far};
    ghost use Rattle.rbc_model.specs.StepsReply.{AnswersLine};
    ghost use Rattle.rbc_model.specs.Talks.{EachByItself};

    ghost longest = { LONGEST_LINE };

    ghost state = { λ _. tt };

    ghost answers = { EachByItself (AnswersLine Far) };

    // It never fails.
    ghost ready = { λ _. ⊤ };

    ghost broken = { λ _. false };

    ghost works = { λ _ _. refl };

    ghost goes_on = { λ _ _ _ _ _ _. tt };

    ghost rests = { λ _. 0 };

    fn longest_line() -> usize {
        LONGEST_LINE
    }

    fn answer<T: Threads + Sync, W: Sink>(
        &mut self,
        rt: &T,
        alloc: Global,
        _help: &(),
        line: &[u8],
        _more: bool,
        writer: &mut W,
    ) -> Result<(), WriteFailed> {
        answer_line(rt, alloc, line, writer);
        outcome(writer)
    }

    fn refuse<W: Sink>(&mut self, _help: &(), writer: &mut W) -> Result<(), WriteFailed> {
        emit_refusal(StepsRefusal::BadLine(LineFault::Overlong), writer);
        outcome(writer)
    }
}

/// Answers each line of the reader, in order, up to the end of the input or the first fault. Before each read of
/// the reader all replies so far are handed on.
///
/// # Errors
/// `Memory` before anything is read or written. Then, for each line in order: `Read` where the reader fails, `Write`
/// where the writer does, `Overlong` behind the reply to a line that is too long; `Lines` where a further byte comes
/// after the last line that a session treats.
pub fn steps<R: Source, W: Sink>(
    rt: &(impl Threads + Sync),
    alloc: Global,
    reader: &mut R,
    writer: &mut W,
) -> Result<(), SessionFault>
    requires reader { R.failed reader.old ≡ false }
    requires writer { W.failed writer.old ≡ false }

    // A read or write fault is answered exactly where the reader or the writer failed.
    ensures read { (result ≡ Err SessionFault.Read) ↔ IsTrue (R.failed reader.new) }
    ensures write { (result ≡ Err SessionFault.Write) ↔ IsTrue (W.failed writer.new) }

    // Without memory nothing begins.
    ensures memory { result ≡ Err SessionFault.Memory → (reader.new ≡ reader.old) × (writer.new ≡ writer.old) }

    // Ok is answered at the end of the input, which the last read found.
    ensures end { OnOk result (IsAtEnd (R.left reader.new)) }
    ensures ended { OnOk result (R.ended reader.new ≡ true) }

    // What was written answers the lines of what was read.
    ensures talk { (input : List ℕ) × Consumes (R.left reader.old) (R.left reader.new) input
        × IsTalk LONGEST_LINE (EachByItself (AnswersLine Far)) tt tt input (W.written writer.old) (W.written writer.new) result }

    // At the end of the input, where memory was never refused, what was written is one function of what was read.
    ensures answers { OnOk result (AnswersAllSteps (R.left reader.old) (W.written writer.old) (W.written writer.new)) }

    // And it was handed on, unless the writer failed.
    ensures handed_on { W.failed writer.new ≡ false → W.held_back writer.old ≡ [] → W.held_back writer.new ≡ [] }
{
    serve_lines(rt, alloc, reader, writer, &mut Certifier, &())
}
