//! What a journal notes of grants, each behind the line for which it was granted.

ghost use Rattle.std.specs.Prelude.{◌≡◌, ◌↔◌, ◌+◌, ◌<◌, ◌≤◌, ◌^◌, length, None, Some, IsTrue, IfSome, MatchOption, vec_len, vec_capacity};
ghost use Rattle.rbc_group_commit.specs.declared.line.TheConstants.{LONGEST_NOTE};
ghost use Rattle.rbc_journal.specs.Journal.{IsNote};
ghost use Rattle.rbc_journaled.specs.Notes.{is_note, grant_note, note_of, note_behind};
ghost use Rattle.rbc_sessions.specs.Entries.{entry_of};

use rbc_group_commit::LONGEST_NOTE;
use rbc_sessions::{Entry, Receipt, Record};
use rbc_words::TailBuffer;

/// Whether a line is a note.
pub(crate) fn is_note(line: &[u8]) -> bool
    ensures { result ≡ is_note line.now }
{
    line.starts_with(b"# granted ")
}

/// The note of a grant to this train, with which a history has so many entries, up to this end.
fn grant_note(train: u32, version: u64, end: u32) -> TailBuffer
    ensures text { result ≡ grant_note train version end }
    ensures form { IsNote result }
    ensures short { length result ≤ LONGEST_NOTE }
{
    let mut note = TailBuffer::new();
    note.number(u64::from(end));
    note.byte(b' ');
    note.number(version);
    note.byte(b' ');
    note.number(u64::from(train));
    note.text(b"# granted ");
    note
}

/// What is noted of an entry, with which a history has so many: of a grant, its train, the version and its end.
pub(crate) fn note_of(version: u64, entry: &Entry) -> Option<TailBuffer>
    ensures note { MatchOption result (note_of version (entry_of entry.now) ≡ None)
        (λ note. note_of version (entry_of entry.now) ≡ Some note) }
    ensures form { IfSome result (λ note. IsNote note) }
    ensures short { IfSome result (λ note. length note ≤ LONGEST_NOTE) }
{
    match entry {
        Entry::Heard(_) => None,
        Entry::Granted(grant) => {
            let end = grant.authority().end();
            Some(grant_note(grant.train().number(), version, end))
        }
    }
}

/// What is noted of the last entry of a record.
pub(crate) fn note_behind(history: &Record) -> Option<TailBuffer>
    ensures note { MatchOption result (note_behind history.now.entries ≡ None)
        (λ note. note_behind history.now.entries ≡ Some note) }
    ensures form { IfSome result (λ note. IsNote note) }
    ensures short { IfSome result (λ note. length note ≤ LONGEST_NOTE) }
{
    let version = history.version();
    let entry = history.entry(version.saturating_sub(1))?;
    note_of(version, entry)
}

/// Whether a note tells the grant of a record's last entry.
pub(crate) fn is_true(history: &Record, note: &[u8]) -> bool
    ensures { IsTrue result ↔ (note_behind history.now.entries ≡ Some note.now) }
{
    match note_behind(history) {
        Some(noted) => noted.bytes() == note,
        None => false,
    }
}

/// What is noted of the entry of a receipt, in the room that is given for it.
pub(crate) fn note_in(mut room: Vec<u8>, receipt: &Receipt) -> Option<Vec<u8>>
    requires empty { vec_len room ≡ 0 }
    requires room { LONGEST_NOTE ≤ vec_capacity room }
    requires place { receipt.now.place + 1 < 2 ^ 64 }
    ensures note { MatchOption result (note_of (receipt.now.place + 1) receipt.now.entry ≡ None)
        (λ note. note_of (receipt.now.place + 1) receipt.now.entry ≡ Some note.items) }
    ensures form { IfSome result (λ note. IsNote note.items × (vec_len note ≤ LONGEST_NOTE)) }
{
    let note = note_of(receipt.place() + 1, receipt.entry())?;
    let Ok(()) = room.extend_from_slice(note.bytes()) else {
        unreachable!();
    };
    Some(room)
}
