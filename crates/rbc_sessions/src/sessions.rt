//! Sessions over a record, and at a desk.

ghost use Rattle.std.specs.Prelude.{◌≡◌, ◌≢◌, ◌↔◌, ◌||◌, ℕ, List, [], true, false, IsTrue, OnOk, Err};
ghost use Rattle.std.specs.Io.KnownBytes.{Consumes, IsAtEnd};
ghost use Rattle.rbc_sweep.specs.Records.{begin_of};
ghost use Rattle.rbc_model.specs.declared.limits.TheConstants.{LONGEST_LINE};
ghost use Rattle.rbc_streams.specs.LineReading.{at_start};
ghost use Rattle.rbc_sweep.specs.Outcomes.{AreFirst};
ghost use Rattle.rbc_sessions.specs.SeatAnswers.{AreLineAnswers};
ghost use Rattle.rbc_sessions.specs.SeatSessions.{IsSeatSession};
ghost use Rattle.rbc_sessions.specs.Sittings.{AreToldKept, StaysKept};
ghost use Rattle.rbc_session_laws.specs.Retelling.{IsRetold};
ghost use Rattle.rbc_session_laws.specs.SessionRuns.{IsSession};
ghost use Rattle.rbc_sessions.specs.Answered.{AnswersAll};

use crate::centre::Centre;
use crate::hearing::Hearing;
use crate::{Keeper, SessionContext, Sitting};
use rbc_streams::{LineReader, SessionFault, Sink, Source, serve_lines, serve_lines_with};
use rbc_sweep::{DeskName, Gate, Record};
use std::alloc::Global;
use std::sync::Wait;
use std::thread::Threads;

/// Answers each line of the reader, in order, up to the end of the input or the first fault: each after what the record
/// has by then. The record gains an entry for each line that is accepted. Before each read of the reader all replies so
/// far are handed on.
///
/// # Errors
///
/// `Memory` before anything is read or written. Then, for each line in order: `Read` where the reader fails, `Write`
/// where the writer does, `Overlong` behind the reply to a line that is too long; `Lines` where a further byte comes
/// after the last line that a session treats. The record keeps the entries of all lines that were treated.
pub fn run<R: Source, W: Sink>(
    rt: &(impl Threads + Sync),
    alloc: Global,
    reader: &mut R,
    writer: &mut W,
    history: &mut Record,
) -> Result<(), SessionFault>
    requires reader { R.failed reader.old ≡ false }
    requires writer { W.failed writer.old ≡ false }

    // A read or write fault is answered exactly where the reader or the writer failed.
    ensures read { (result ≡ Err SessionFault.Read) ↔ IsTrue (R.failed reader.new) }
    ensures write { (result ≡ Err SessionFault.Write) ↔ IsTrue (W.failed writer.new) }

    // Without memory nothing begins.
    ensures memory { result ≡ Err SessionFault.Memory
        → (reader.new ≡ reader.old) × (writer.new ≡ writer.old) × (history.new ≡ history.old) }

    // Ok is answered at the end of the input, which the last read found.
    ensures end { OnOk result (IsAtEnd (R.left reader.new)) }
    ensures ended { OnOk result (R.ended reader.new ≡ true) }

    // The record is of the same track and begins with the same scene, and each line of what was read was answered after the entries of those before
    // it.
    ensures track { history.new.track ≡ history.old.track }
    ensures begin { begin_of history.new ≡ begin_of history.old }
    ensures session { (input : List ℕ) × Consumes (R.left reader.old) (R.left reader.new) input
        × IsSession (begin_of history.old) history.old.entries history.new.entries input
        (W.written writer.old) (W.written writer.new) result }

    // At the end of the input, where memory was never refused, what was written and the history are one function of the
    // track, of the history before and of what was read.
    ensures answers { OnOk result (AnswersAll history.old history.new (R.left reader.old)
        (W.written writer.old) (W.written writer.new)) }

    // The history is a session: the lines of its entries lead to them again, if the lines of the history before did.
    ensures retold { IsRetold (begin_of history.old) history.old.entries
        → IsRetold (begin_of history.new) history.new.entries }

    // What was written was handed on, unless the writer failed.
    ensures handed_on { W.failed writer.new ≡ false → W.held_back writer.old ≡ [] → W.held_back writer.new ≡ [] }
{
    // The record's track is in form.
    history.known();
    serve_lines(rt, alloc, reader, writer, history, &Centre)
}

/// What a session at a desk leaves.
#[derive(Drop)]
pub struct SessionEnd<L: DeskName, P> {
    /// The sitting that it was from, after it.
    pub sitting: Sitting<L, P>,
    /// How it ended.
    pub ended: Result<(), SessionFault>,
}

/// Answers each line of the reader at a desk, in order, up to the end of the input or the first fault. The seat gains a
/// receipt for each line that is accepted, and none for any other; the reply to such a line is written once the request that
/// it says is kept. Each line is answered as after a history that goes on from all that the seat had been told, and the seat
/// is told that history: other seats may enter what they are told and asked meanwhile. Before each read of the reader all
/// replies so far are handed on. Trains that ask pass the context's gate, outside the desk's lock. There is room for the
/// lines: a reader of lines that was not begun.
///
/// # Errors
///
/// For each line in order: `Read` where the reader fails; `Write` where the writer does, or where a request could not be kept:
/// then the sitting has failed, and the last lines that were treated have no reply: 64 of them at most
/// ([`MOST_RESTING`](crate::MOST_RESTING)), and no line is treated behind them; `Overlong` behind the reply to a line that is too
/// long; `Lines` where a further byte comes after the last line that a session treats. The seat keeps the receipts for all lines
/// that were treated.
pub fn session<
    'a,
    I: Source,
    W: Sink,
    L: DeskName,
    K: Keeper<L>,
    G: Gate,
    R: Wait,
    T: Threads + Sync,
>(
    rt: &T,
    alloc: Global,
    lines: LineReader,
    reader: &mut I,
    writer: &mut W,
    context: &SessionContext<'a, L, K, G, R>,
    sitting: Sitting<L, K::Committer>,
) -> SessionEnd<L, K::Committer>
    requires lines { lines ≡ at_start LONGEST_LINE }
    requires reader { I.failed reader.old ≡ false }
    requires writer { W.failed writer.old ≡ false }
    requires whole { sitting.has_failed ≡ false }

    // A read fault is answered exactly where the reader failed; a write fault where the writer did, or keeping.
    ensures read { (result.ended ≡ Err SessionFault.Read) ↔ IsTrue (I.failed reader.new) }
    ensures write { (result.ended ≡ Err SessionFault.Write) ↔ IsTrue (result.sitting.has_failed || W.failed writer.new) }

    // None that begins ends for want of memory.
    ensures begins { result.ended ≢ Err SessionFault.Memory }

    // Ok is answered at the end of the input, which the last read found.
    ensures end { OnOk result.ended (IsAtEnd (I.left reader.new)) }
    ensures ended { OnOk result.ended (I.ended reader.new ≡ true) }

    // The seat loses no receipt, and nothing that it was told. Each line of what was read was answered after all that the
    // seat had been told by then, and what was gained for it is told in its reply. What was written is made of the replies
    // to the first lines, and what these led to is kept: so it is with all lines, unless keeping failed.
    ensures grown { AreFirst sitting.seat result.sitting.seat }
    ensures session { (input : List ℕ) × Consumes (I.left reader.old) (I.left reader.new) input
        × (session : IsSeatSession sitting.seat result.sitting.seat input (W.written writer.old) (W.written writer.new) result.ended)
        × AreToldKept (K.kept result.sitting.committer) result.sitting.has_failed session.turns (W.written writer.old) (W.written writer.new) }

    // Keeping failed only where the committer knows so.
    ensures failed { result.sitting.has_failed ≡ true → K.failed result.sitting.committer }

    // What was kept before still is.
    ensures stays { StaysKept K.kept sitting.committer result.sitting.committer }

    // Each reply is the one that is computed for its line, after the history that the seat was told with it, but where
    // memory was refused.
    ensures answers { (input : List ℕ)
        (session : IsSeatSession sitting.seat result.sitting.seat input (W.written writer.old) (W.written writer.new) result.ended)
        → AreLineAnswers sitting.seat.told session.turns }

    // What was written was handed on, unless the writer failed, or keeping.
    ensures handed_on { (result.sitting.has_failed || W.failed writer.new) ≡ false
        → W.held_back writer.old ≡ [] → W.held_back writer.new ≡ [] }
{
    // The desk's track is in form, and what the seat was told is on it.
    context.track.known();
    sitting.seat.known();
    let mut hearing: Hearing<L, K::Committer, K::Text> = Hearing::new(alloc, sitting);
    let ended = serve_lines_with(rt, alloc, lines, reader, writer, &mut hearing, context);
    let Hearing { sitting, .. } = hearing;
    SessionEnd { sitting, ended }
}
