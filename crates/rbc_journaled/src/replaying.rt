//! The lines of a journal, entered in a record, and its notes, compared with that.

ghost use Rattle.std.specs.Prelude.{◌≡◌, ℕ, [], true, length, Some, OnOk, OnErr, IfErr, Err};
ghost use Rattle.rbc_sessions.specs.Records.{begin_of};
ghost use Rattle.rbc_journal.specs.Gates.{counted};
ghost use Rattle.rbc_journal.specs.Journal.{told_of};
ghost use Rattle.rbc_journal.specs.Seals.{is_comment};
ghost use Rattle.rbc_journaled.specs.Adds.{Adds, Gains};
ghost use Rattle.rbc_journaled.specs.Notes.{AreTrue, DiffersFirst, Enters, is_note, note_behind};
ghost use Rattle.rbc_journaled.specs.Tells.{Tells};

use crate::OpeningFault;
use crate::following::follow;
use crate::note::{is_note, is_true};
use rbc_journal::{is_comment, next_line};
use rbc_sessions::Record;
use std::alloc::Global;
use std::thread::Threads;

/// Enters the lines that a journal's text tells in an empty record, and compares each note with the grant of the line before it.
///
/// # Errors
///
/// `Memory`. For the first line that adds nothing: `Entries` with the number of entries that there may be, where there
/// are so many; else `Foreign` with the line's number. For the first note that is not true: `Differs` with the number of
/// the line before it. The record has what the lines before that tell.
pub fn replay(
    rt: &(impl Threads + Sync),
    alloc: Global,
    history: &mut Record,
    text: &[u8],
) -> Result<(), OpeningFault>
    requires { history.old.entries ≡ [] }
    ensures told { OnOk result (Tells (Adds (begin_of history.old)) [] (told_of (counted text.now)) history.new.entries) }
    ensures begin { begin_of history.new ≡ begin_of history.old }
    ensures track { history.new.track ≡ history.old.track }
    ensures fault { result ≡ Err OpeningFault.Device → ⊥ }

    // No grant has come out otherwise than was noted; or it is told where the first did.
    ensures noted { OnOk result (AreTrue (counted text.now) history.new.entries) }
    ensures differs { (count : ℕ) → result ≡ Err (OpeningFault.Differs count)
        → DiffersFirst (begin_of history.old) (counted text.now) count history.new.entries }
{
    let mut rest = text;
    while let Some((line, after)) = next_line(rest) {
        enter(rt, alloc, history, line)?;
        rest = after;
    }
    Ok(())
}

/// Enters a line of a journal, if it is told, and compares it with the record, if it is a note. At an error the record stays.
///
/// # Errors
///
/// As [`add`] and [`compare`] tell them.
fn enter(
    rt: &(impl Threads + Sync),
    alloc: Global,
    history: &mut Record,
    line: &[u8],
) -> Result<(), OpeningFault>
    ensures entered { OnOk result (Enters (is_comment line.now) history.old line.now history.new) }
    ensures refused { OnErr result (history.new ≡ history.old) }
    ensures fault { result ≡ Err OpeningFault.Device → ⊥ }
    ensures noted { (count : ℕ) → result ≡ Err (OpeningFault.Differs count) → is_note line.now ≡ true }
    ensures count { (count : ℕ) → result ≡ Err (OpeningFault.Differs count) → count ≡ length history.old.entries }
    ensures differs { (count : ℕ) → result ≡ Err (OpeningFault.Differs count) → note_behind history.old.entries ≡ Some line.now → ⊥ }
{
    if is_comment(line) {
        compare(history, line)
    } else {
        add(rt, alloc, history, line)
    }
}

/// Enters a line that is told. At an error the record stays.
///
/// # Errors
///
/// `Memory`. Where the line adds nothing, `Entries` with the number of entries that there may be, if there are so many, and
/// else `Foreign` with the line's number.
fn add(
    rt: &(impl Threads + Sync),
    alloc: Global,
    history: &mut Record,
    line: &[u8],
) -> Result<(), OpeningFault>
    ensures added { OnOk result (Gains history.old line.now history.new) }
    ensures refused { OnErr result (history.new ≡ history.old) }
    ensures fault { result ≡ Err OpeningFault.Device → ⊥ }
    ensures same { (count : ℕ) → result ≡ Err (OpeningFault.Differs count) → ⊥ }
{
    if follow(rt, alloc, history, line)? {
        return Ok(());
    }
    history.known();
    history.right();
    let told = history.version();
    Err(match history.is_full() {
        true => OpeningFault::Entries(told),
        false => OpeningFault::Foreign(told + 1),
    })
}

/// Compares a comment with a record, if it is a note.
///
/// # Errors
///
/// `Differs` with the number of the record's last line, where the note does not tell the grant of that.
fn compare(history: &Record, line: &[u8]) -> Result<(), OpeningFault>
    ensures noted { OnOk result (is_note line.now ≡ true → note_behind history.now.entries ≡ Some line.now) }
    ensures told { IfErr result (λ fault. fault ≡ OpeningFault.Differs (length history.now.entries)) }
    ensures one { OnErr result (is_note line.now ≡ true) }
    ensures differs { OnErr result (note_behind history.now.entries ≡ Some line.now → ⊥) }
{
    if !is_note(line) || is_true(history, line) {
        return Ok(());
    }
    Err(OpeningFault::Differs(history.version()))
}
