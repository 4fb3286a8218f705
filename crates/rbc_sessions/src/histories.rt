//! A history as the session that leads to it again.

ghost use Rattle.std.specs.Prelude.{◌≡◌, ℕ, [], false, map, slice_get, Some, OnOk};
ghost use Rattle.rbc_model.specs.Histories.{Entry as EntryTold};
ghost use Rattle.rbc_sweep.specs.Records.{begin_of};
ghost use Rattle.rbc_model.specs.HistoryText.{entry_request, history_text};
ghost use Rattle.rbc_model.specs.SessionText.{said_words};
ghost use Rattle.rbc_model.specs.Sessions.{Prints};
ghost use Rattle.rbc_model.specs.Words.{line_of};
ghost use Rattle.rbc_streams.specs.Emitting.{Emits};
ghost use Rattle.rbc_sweep.specs.Entries.{entry_of};
ghost use Rattle.rbc_session_laws.specs.Retelling.{IsEntryOfTrack, IsItsSession, IsRetold};

use rbc_replies::words::{Request, emit_request, told_request};
use rbc_streams::{Sink, WriteFailed, outcome};
use rbc_sweep::{Entry, Record, Track};

/// Writes the history of a record as lines: what was told as it is told, and for what was granted the request for it.
/// [`run`](crate::run) over these lines, on a new record of the track, leads to the same history. It takes no memory.
///
/// # Errors
///
/// `WriteFailed`, where the writer fails. Then a part of the lines stands, from their start.
pub fn print_history<W: Sink>(history: &Record, writer: &mut W) -> Result<(), WriteFailed>
    requires going { W.failed writer.old ≡ false }
    requires retold { IsRetold (begin_of history.now) history.now.entries }
    ensures text { Prints (W.written writer.old) (W.written writer.new) (W.failed writer.new)
        (history_text history.now.track history.now.entries) result }
    ensures again { IsItsSession (begin_of history.now) history.now.entries }
    ensures handed_on { OnOk result (W.held_back writer.new ≡ []) }
{
    emit_entries(history.track(), history.entries(), writer);
    outcome(writer)?;
    writer.flush()
}

/// Writes the lines of entries, in order.
fn emit_entries<W: Sink>(track: &Track, entries: &[Entry], writer: &mut W)
    requires of_track { (place : ℕ) (entry : EntryTold) → slice_get (map entry_of entries.now) place ≡ Some entry
        → IsEntryOfTrack track.now entry }
    ensures { Emits W.written W.failed writer.old writer.new
        (history_text track.now (map entry_of entries.now)) }
{
    for entry in entries {
        emit_entry(track, entry, writer);
    }
}

/// Writes the line that leads to an entry.
fn emit_entry<W: Sink>(track: &Track, entry: &Entry, writer: &mut W)
    requires of_track { IsEntryOfTrack track.now (entry_of entry.now) }
    ensures { Emits W.written W.failed writer.old writer.new
        (line_of (said_words (entry_request track.now (entry_of entry.now)))) }
{
    match entry {
        Entry::Heard(told) => emit_request(&told_request(track, told), writer),
        Entry::Granted(grant) => emit_request(&Request::Ask(grant.train()), writer),
    }
}
