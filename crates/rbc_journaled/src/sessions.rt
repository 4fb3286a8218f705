//! Sessions over a record that is kept in a journal.

ghost use Rattle.std.specs.Prelude.{◌≡◌, ◌↔◌, ◌<◌, ℕ, List, [], true, false, IsTrue, OnOk, IfErr, Err};
ghost use Rattle.std.specs.Io.KnownBytes.{Consumes, IsAtEnd};
ghost use Rattle.rbc_sessions.specs.Records.{begin_of};
ghost use Rattle.rbc_journal.specs.Device.{LeavesOnly};
ghost use Rattle.rbc_model.specs.declared.sessions.SessionFault.TheVariants.{Read as ReadFault, Write as WriteFault, Memory as NoMemory};
ghost use Rattle.rbc_sessions.specs.Answered.{AnswersAll};
ghost use Rattle.rbc_session_laws.specs.Retelling.{IsRetold};
ghost use Rattle.rbc_journaled.specs.Advances.{Leaves};
ghost use Rattle.rbc_journaled.specs.declared.fault.RunFault.TheVariants.{Session as Ended, Journal as JournalFailed};
ghost use Rattle.rbc_journaled.specs.Ends.{run_end};
ghost use Rattle.rbc_journaled.specs.Journaled.{IsReady};
ghost use Rattle.rbc_journaled.specs.Sessions.{IsKeptSession};

use crate::answering::JournaledCentre;
use crate::{JournaledRecord, RunFault};
use rbc_journal::Device;
use rbc_model::SessionFault;
use rbc_streams::{Sink, Source, serve_lines};
use std::alloc::Global;
use std::thread::Threads;

/// Answers each line of the reader, in order, up to the end of the input or the first fault, as
/// [`rbc_sessions::run`] does; but a reply that tells of an entry is written once the journal has the entry on the disk.
///
/// # Errors
///
/// `Session` with whatever [`rbc_sessions::run`] answers; `Journal`, where the journal failed: the line that was treated last has
/// no reply, and whether the journal has its entry is not known. The replies before it are handed on, if the writer takes them.
pub fn run<R: Source, W: Sink, D: Device>(
    rt: &(impl Threads + Sync),
    alloc: Global,
    reader: &mut R,
    writer: &mut W,
    journaled: &mut JournaledRecord<D>,
) -> Result<(), RunFault>
    requires reader { R.failed reader.old ≡ false }
    requires writer { W.failed writer.old ≡ false }
    requires ready { IsReady D.seen D.may_leave journaled.old }

    // A fault is answered exactly where the reader or the writer failed, or the journal: this only where its file did.
    ensures read { (result ≡ Err (Ended ReadFault)) ↔ IsTrue (R.failed reader.new) }
    ensures write { result ≡ Err (Ended WriteFault) → IsTrue (W.failed writer.new) }
    ensures journal { (result ≡ Err JournalFailed) ↔ IsTrue journaled.new.has_failed }
    ensures failed { result ≡ Err JournalFailed → D.faults journaled.old.journal.device < D.faults journaled.new.journal.device }

    // Without memory nothing begins.
    ensures memory { result ≡ Err (Ended NoMemory)
        → (reader.new ≡ reader.old) × (writer.new ≡ writer.old) × (journaled.new ≡ journaled.old) }

    // Ok is answered at the end of the input, which the last read found.
    ensures end { OnOk result (IsAtEnd (R.left reader.new)) }
    ensures ended { OnOk result (R.ended reader.new ≡ true) }

    // The journal tells the record, unless it failed.
    ensures ready { journaled.new.has_failed ≡ false → IsReady D.seen D.may_leave journaled.new }

    // A crash at any moment leaves a file that tells the first entries of the record: those from before at least.
    ensures any_moment { Leaves D.seen D.may_leave D.moment D.left_since D.faults journaled.old journaled.new }

    // The record is of the same track, and each line of what was read was answered after the entries of those before
    // it. Where the journal failed, all entries that were told of are on the disk, and of no other a byte was written.
    ensures track { journaled.new.history.track ≡ journaled.old.history.track }
    ensures begin { begin_of journaled.new.history ≡ begin_of journaled.old.history }
    ensures session { (input : List ℕ) × Consumes (R.left reader.old) (R.left reader.new) input
        × IsKeptSession (begin_of journaled.old.history) journaled.old.history.entries journaled.new.history.entries input
        (W.written writer.old) (W.written writer.new) (D.may_leave journaled.new.journal.device) result }

    // At the end of the input, where memory was never refused, what was written and the history are one function of the
    // track, of the history before and of what was read.
    ensures answers { OnOk result (AnswersAll journaled.old.history journaled.new.history (R.left reader.old)
        (W.written writer.old) (W.written writer.new)) }

    // What was written was handed on, unless the writer or the journal failed.
    ensures handed_on { OnOk result (W.held_back writer.old ≡ [] → W.held_back writer.new ≡ []) }
{
    // The record's track is in form.
    journaled.history.known();
    let ended = serve_lines(rt, alloc, reader, writer, journaled, &JournaledCentre);
    run_end(ended, journaled.has_failed)
}

/// How a session ended, by how the one over the record did, and whether the journal has failed.
fn run_end(ended: Result<(), SessionFault>, has_failed: bool) -> Result<(), RunFault>
    ensures { result ≡ run_end has_failed ended }
{
    match ended {
        _ if has_failed => Err(RunFault::Journal),
        Ok(()) => Ok(()),
        Err(fault) => Err(RunFault::Session(fault)),
    }
}
