//! New journals with the beginning and lines of an old one.

ghost use Rattle.std.specs.Prelude.{◌≡◌, ◌≢◌, ◌⊎◌, ◌<◌, ◌≤◌, ◌++◌, ℕ, ◌∷◌, [], length, take, Some, None, Err, IfOk, IfErr, IfSome, IsTrue, OnOk};
ghost use Rattle.rbc_journal.specs.Device.{Only};
ghost use Rattle.rbc_journal.specs.Gates.{IsLine, counted};
ghost use Rattle.rbc_journal.specs.Journal.{told_of, recovered, IsTold};
ghost use Rattle.rbc_journal.specs.Reading.{reading};
ghost use Rattle.rbc_journal.specs.Sessions.{lines_of};
ghost use Rattle.rbc_journal.specs.Settled.{IsSettled, staged};
ghost use Rattle.rbc_journal.specs.declared.fault.JournalFault.{JournalFault};
ghost use Rattle.rbc_journal.specs.declared.reading.ReadFault.{ReadFault};
ghost use Rattle.rbc_journal.specs.declared.reading.ReadFault.TheVariants.{FirstFormat};
ghost use Rattle.rbc_journal_report.specs.Copying.{Tells, all_lines, begins_with, damage_in_front, is_of, refusal_by, refusal};
ghost use Rattle.rbc_journal_report.specs.Telling.{named_in, telling, told_lines, told_digest, told_beginning};
ghost use Rattle.rbc_journal_report.specs.declared.copying.CopyFault.TheVariants.{Read, Few, New};

use crate::counting::count;
use crate::telling::{FileContent, FileState, named, tell};
use rbc_journal::{
    Device, Journal, JournalFault, ReadFault, beginning_in, begun_file, next_told, read,
};
use std::alloc::Global;

/// How many lines a put of a new journal has at most.
const MOST_LINES: u64 = 64;

/// The first line behind a header, counted from 1.
const BEHIND_HEADER: u64 = 4;

/// Why a new journal does not have the lines of an old one.
#[derive(Debug, PartialEq, Eq)]
pub enum CopyFault {
    /// The old file is no journal from which they can be taken.
    Read(ReadFault),
    /// It tells only so many lines.
    Few(u64),
    /// It is of format 2, and need not be renewed.
    Renewed,
    /// The new journal fails.
    New(JournalFault),
}

/// A new journal, in a file that has nothing, with what a file begins with, the first lines that it tells, and the digest of
/// its track, which has to be the one that is given, if one is. Of a damaged file only the lines before the damage are told.
///
/// # Errors
/// In this order: `Read`, where the file is no journal of format 2, its header or the put behind it is damaged, or it is of
/// another track; `Few`; `New`. Before that nothing is asked of the new file.
pub fn copy_first<D: Device>(
    alloc: Global,
    bytes: &[u8],
    lines: u64,
    given: Option<[u8; 64]>,
    device: D,
) -> Result<Journal<D>, (CopyFault, D)>
    requires new { D.seen device ≡ [] }
    requires durable { Only (D.seen device) (D.may_leave device) }
    ensures copied { IfOk result (λ journal. Tells D.seen D.may_leave journal (take lines (told_lines (telling bytes.now)))) }
    ensures begins { IfOk result (λ journal. begins_with D.seen journal ≡ told_beginning (telling bytes.now)) }
    ensures taken { IfOk result (λ journal. refusal given (telling bytes.now) ≡ None) }
    ensures track { IfOk result (λ journal. IfSome given (λ digest. told_digest (telling bytes.now) ≡ Some digest)) }
    ensures enough { IfOk result (λ journal. lines ≤ length (told_lines (telling bytes.now))) }
    ensures read { IfErr result (λ e. (fault : ReadFault) → e.0 ≡ Read fault
        → refusal given (telling bytes.now) ≡ Some fault) }
    ensures few { IfErr result (λ e. (count : ℕ) → e.0 ≡ Few count
        → (count ≡ length (told_lines (telling bytes.now))) × (count < lines)) }
    ensures untouched { IfErr result (λ e. ((fault : JournalFault) → e.0 ≢ New fault) → e.1 ≡ device) }
{
    let told = match tell(bytes) {
        Ok(told) => told,
        Err(fault) => return Err((CopyFault::Read(fault), device)),
    };
    let track = match track_of(&told, given) {
        Ok(track) => track,
        Err(fault) => return Err((CopyFault::Read(fault), device)),
    };
    let count = count(told.text);
    if count < lines {
        return Err((CopyFault::Few(count), device));
    }
    let Ok(beginning) = beginning_in(alloc, told.text) else {
        return Err((CopyFault::New(JournalFault::Memory), device));
    };
    copy_lines(
        alloc,
        &track,
        beginning.as_slice(),
        told.text,
        lines,
        device,
    )
}

/// A new journal of a track, in a file that has nothing, with the lines of a journal of the format before this. It begins
/// with nothing.
///
/// # Errors
/// In this order: `Renewed`, where the file is a journal of this format; `Read`, where it is no journal of the format before
/// it; `New`. Before that nothing is asked of the new file.
pub fn renew<D: Device>(
    alloc: Global,
    bytes: &[u8],
    track: &[u8; 64],
    device: D,
) -> Result<Journal<D>, (CopyFault, D)>
    requires track { IsLine track.now }
    requires new { D.seen device ≡ [] }
    requires durable { Only (D.seen device) (D.may_leave device) }
    ensures renewed { IfOk result (λ journal. Tells D.seen D.may_leave journal (counted bytes.now)) }
    ensures begins { IfOk result (λ journal. begins_with D.seen journal ≡ []) }
    ensures first { IfOk result (λ journal. reading bytes.now track.now ≡ Err FirstFormat) }
    ensures untouched { IfErr result (λ e. ((fault : JournalFault) → e.0 ≢ New fault) → e.1 ≡ device) }
{
    match read(bytes, track) {
        Err(ReadFault::FirstFormat) => copy_lines(alloc, track, b"", bytes, count(bytes), device),
        Ok(_) => Err((CopyFault::Renewed, device)),
        Err(fault) => Err((CopyFault::Read(fault), device)),
    }
}

/// The digest that a file names of its track, if something can be taken over from it beside the one that is given.
///
/// # Errors
/// As `refusal_by` of `specs/Copying.antt` tells them.
fn track_of(told: &FileContent, given: Option<[u8; 64]>) -> Result<[u8; 64], ReadFault>
    ensures ok { IfOk result (λ track. named_in (counted told.now.text.now) ≡ Some track) }
    ensures same { IfOk result (λ track. IfSome given (λ digest. digest ≡ track)) }
    ensures taken { IfOk result (λ track. refusal_by given (named_in (counted told.now.text.now)) (damage_in_front told.now.state)
        ≡ None) }
    ensures err { IfErr result (λ fault. refusal_by given (named_in (counted told.now.text.now)) (damage_in_front told.now.state)
        ≡ Some fault) }
{
    let Some(track) = named(told.text) else {
        return Err(ReadFault::Damaged(1));
    };
    if let Some(line) = damage_in_front(told.state) {
        return Err(ReadFault::Damaged(line));
    }
    if !is_of(&track, given) {
        return Err(ReadFault::OtherTrack(track));
    }
    Ok(track)
}

/// The first damaged line, where it stands in the header or in the put behind it.
fn damage_in_front(state: FileState) -> Option<u64>
    ensures { result ≡ damage_in_front state }
{
    match state {
        FileState::Damaged(line) if line <= BEHIND_HEADER => Some(line),
        _ => None,
    }
}

/// Whether this is the digest that is given, if one is.
fn is_of(track: &[u8; 64], given: Option<[u8; 64]>) -> bool
    ensures same { IsTrue result → IfSome given (λ digest. digest ≡ track.now) }
    ensures test { result ≡ is_of track.now given }
{
    match given {
        Some(digest) => digest == *track,
        None => true,
    }
}

/// A new journal of a track that begins with the lines of one text, with the first lines that another tells.
fn copy_lines<D: Device>(
    alloc: Global,
    track: &[u8; 64],
    beginning: &[u8],
    text: &[u8],
    lines: u64,
    device: D,
) -> Result<Journal<D>, (CopyFault, D)>
    requires track { IsLine track.now }
    requires new { D.seen device ≡ [] }
    requires durable { Only (D.seen device) (D.may_leave device) }
    ensures copied { IfOk result (λ journal. Tells D.seen D.may_leave journal (take lines (told_of (counted text.now)))) }
    ensures begins { IfOk result (λ journal. begins_with D.seen journal ≡ lines_of beginning.now) }
    ensures new { IfErr result (λ e. (fault : JournalFault) × (e.0 ≡ New fault)) }
    ensures fault { IfErr result (λ e. (e.1 ≡ device) ⊎ ((fault : JournalFault) × (e.0 ≡ New fault))) }
{
    let mut journal = match new_journal(alloc, track, beginning, device) {
        Ok(journal) => journal,
        Err((fault, device)) => return Err((CopyFault::New(fault), device)),
    };
    match add_lines(&mut journal, text, lines) {
        Ok(()) => Ok(journal),
        Err(fault) => Err((CopyFault::New(fault), journal.into_device())),
    }
}

/// A new journal of a track, which begins with the lines of a text, and tells no line.
///
/// # Errors
/// `Memory`, `Full` or `Device`.
fn new_journal<D: Device>(
    alloc: Global,
    track: &[u8; 64],
    beginning: &[u8],
    device: D,
) -> Result<Journal<D>, (JournalFault, D)>
    requires track { IsLine track.now }
    requires new { D.seen device ≡ [] }
    requires durable { Only (D.seen device) (D.may_leave device) }
    ensures tells { IfOk result (λ journal. Tells D.seen D.may_leave journal []) }
    ensures begins { IfOk result (λ journal. begins_with D.seen journal ≡ lines_of beginning.now) }
{
    let Ok(file) = begun_file(alloc, track, beginning) else {
        return Err((JournalFault::Memory, device));
    };
    let Ok(start) = read(file.as_slice(), track) else {
        unreachable!();
    };
    Journal::open(alloc, start.text, &start.seal, device)
}

/// Puts the first lines that a text tells into a journal, in puts of at most 64.
fn add_lines<D: Device>(
    journal: &mut Journal<D>,
    text: &[u8],
    lines: u64,
) -> Result<(), JournalFault>
    requires { Tells D.seen D.may_leave journal.old [] }
    ensures tells { OnOk result (Tells D.seen D.may_leave journal.new (take lines (told_of (counted text.now)))) }
    ensures begins { OnOk result (begins_with D.seen journal.new ≡ begins_with D.seen journal.old) }
{
    let mut rest = text;
    let mut count = 0;
    while count < lines {
        let Some((_, line, after)) = next_told(rest) else {
            return finish(journal);
        };
        count += 1;
        add_line(journal, line, count % MOST_LINES == 0)?;
        rest = after;
    }
    finish(journal)
}

/// Puts the lines that are staged.
fn finish<D: Device>(journal: &mut Journal<D>) -> Result<(), JournalFault>
    requires { IsSettled D.seen D.may_leave journal.old }
    ensures tells { OnOk result (Tells D.seen D.may_leave journal.new (all_lines D.seen journal.old)) }
    ensures begins { OnOk result (begins_with D.seen journal.new ≡ begins_with D.seen journal.old) }
{
    journal.commit()?;
    Ok(())
}

/// Stages a line, and puts all that are staged, where it is the last one of its put.
fn add_line<D: Device>(
    journal: &mut Journal<D>,
    line: &[u8],
    is_last: bool,
) -> Result<(), JournalFault>
    requires settled { IsSettled D.seen D.may_leave journal.old }
    requires line { IsTold line.now }
    ensures settled { OnOk result (IsSettled D.seen D.may_leave journal.new) }
    ensures lines { OnOk result (all_lines D.seen journal.new ≡ all_lines D.seen journal.old ++ line.now ∷ []) }
    ensures begins { OnOk result (begins_with D.seen journal.new ≡ begins_with D.seen journal.old) }
{
    journal.reserve(line.len())?;
    journal.stage(line);
    if is_last {
        journal.commit()?;
    }
    Ok(())
}
