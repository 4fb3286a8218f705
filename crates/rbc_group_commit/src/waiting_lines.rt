//! The lines that wait.

ghost use Rattle.std.specs.Prelude.{◌≡◌, ◌≢◌, ◌<◌, ◌≤◌, ◌+◌, ◌%◌, ◌⊎◌, ℕ, length, slice_get, true, false, Some, None, IsTrue, IsFalse, IfOk, OnErr, IfSome, IfNone, vec_len};
ghost use Rattle.rbc_group_commit.specs.Marks.{latest};
ghost use Rattle.rbc_group_commit.specs.Pages.{PageOf};
ghost use Rattle.rbc_group_commit.specs.Waiting.{Lacks, AreInPlace, next_place};
ghost use Rattle.rbc_group_commit.specs.declared.waiting_lines.TheConstants.{MOST_COMMITTERS, MOST_WAITING};

use crate::marks::Mark;
use crate::{CommitName, EntryLine, NotKept, Page, ToldHistory};
use rbc_journal::Device;
use std::sync::Wait;

/// How many committers a group commit has at most.
pub(crate) const MOST_COMMITTERS: usize = 72;

/// How many lines wait at most, where each committer brings at most 64 at a time.
pub(crate) const MOST_WAITING: usize = MOST_COMMITTERS * 64;

/// The lines that wait, each in the slot of its place, and how far the writing is.
#[derive(Drop)]
pub(crate) struct WaitingLines<T: ToldHistory + Drop, N: CommitName> {
    pub(crate) slots: Vec<Option<EntryLine<T>>>,
    pub(crate) latest: Mark<N>,
    pub(crate) is_writing: bool,
    pub(crate) has_failed: bool,
    pub(crate) ghost all: { vec_len slots ≡ MOST_WAITING },
    pub(crate) ghost in_place: { AreInPlace slots.items },
}

/// The slot of a place: the slots are a ring.
fn slot_of(place: u64) -> usize
    ensures { result ≡ place % MOST_WAITING }
{
    (place % MOST_WAITING as u64) as usize
}

/// Whether the line of this place is laid.
fn is_laid<T: ToldHistory + Drop>(slots: &[Option<EntryLine<T>>], place: u64) -> bool
    requires all { length slots.now ≡ MOST_WAITING }
    requires in_place { AreInPlace slots.now }
    ensures laid { IsTrue result → slice_get slots.now (place % MOST_WAITING) ≡ Some (Some place) }
    ensures lacks { IsFalse result → Lacks slots.now place }
{
    match &slots[slot_of(place)] {
        Some(line) => line.place() == place,
        None => false,
    }
}

/// Takes the line of this place.
fn pick<T: ToldHistory + Drop>(
    slots: &mut Vec<Option<EntryLine<T>>>,
    place: u64,
) -> Option<EntryLine<T>>
    requires all { vec_len slots.old ≡ MOST_WAITING }
    requires in_place { AreInPlace slots.old.items }
    ensures place { IfSome result (λ line. line ≡ place) }
    ensures none { IfNone result (Lacks slots.old.items place) }
    ensures same { vec_len slots.new ≡ vec_len slots.old }
    ensures lacks { (other : ℕ) → Lacks slots.old.items other → Lacks slots.new.items other }
    ensures in_place { AreInPlace slots.new.items }
    ensures others { (at : ℕ) → at ≢ place % MOST_WAITING → slice_get slots.new.items at ≡ slice_get slots.old.items at }
{
    if !is_laid(slots.as_slice(), place) {
        return None;
    }
    slots[slot_of(place)].take()
}

/// Puts a line in the slot of its place.
fn put<T: ToldHistory + Drop>(slots: &mut Vec<Option<EntryLine<T>>>, line: EntryLine<T>)
    requires all { vec_len slots.old ≡ MOST_WAITING }
    requires in_place { AreInPlace slots.old.items }
    ensures same { vec_len slots.new ≡ vec_len slots.old }
    ensures in_place { AreInPlace slots.new.items }
    ensures lies { slice_get slots.new.items (line % MOST_WAITING) ≡ Some (Some line) }
    ensures others { (at : ℕ) → at ≢ line % MOST_WAITING → slice_get slots.new.items at ≡ slice_get slots.old.items at }
{
    let slot = slot_of(line.place());
    slots[slot] = Some(line);
}

impl<T: ToldHistory + Drop, N: CommitName> WaitingLines<T, N> {
    /// Whether the line of this place cannot be laid yet: its slot has another.
    pub(crate) fn lacks_room(&self, place: u64) -> bool
        ensures whole { IsTrue result → self.now.has_failed ≡ false }
        ensures taken { IsTrue result → slice_get self.now.slots.items (place % MOST_WAITING) ≢ Some None }
        ensures free { IsFalse result → self.now.has_failed ≡ false → slice_get self.now.slots.items (place % MOST_WAITING) ≡ Some None }
    {
        !self.has_failed && self.slots[slot_of(place)].is_some()
    }

    /// Lays a line in the free slot of its place. Where the journal has failed, it is dropped.
    pub(crate) fn lay(&mut self, line: EntryLine<T>)
        requires free { self.old.has_failed ≡ false → slice_get self.old.slots.items (line % MOST_WAITING) ≡ Some None }
        ensures lies { self.old.has_failed ≡ false → slice_get self.new.slots.items (line % MOST_WAITING) ≡ Some (Some line) }
        ensures others { (at : ℕ) → at ≢ line % MOST_WAITING → slice_get self.new.slots.items at ≡ slice_get self.old.slots.items at }
        ensures dropped { self.old.has_failed ≡ true → self.new.slots.items ≡ self.old.slots.items }
        ensures failed { self.new.has_failed ≡ self.old.has_failed }
        ensures writing { self.new.is_writing ≡ self.old.is_writing }
    {
        if self.has_failed {
            return;
        }
        put(&mut self.slots, line);
    }

    /// Whether there is something to write: the line behind those on the disk is laid.
    fn is_due(&self) -> bool
        ensures laid { IsTrue result → slice_get self.now.slots.items (next_place self.now.latest % MOST_WAITING) ≡ Some (Some (next_place self.now.latest)) }
        ensures lacks { IsFalse result → Lacks self.now.slots.items (next_place self.now.latest) }
    {
        is_laid(self.slots.as_slice(), self.latest.lines())
    }

    /// Whether the seat whose line has this place has nothing to do: it is not on the disk yet, and another seat writes, or
    /// a line before it is not laid yet.
    pub(crate) fn must_wait(&self, place: u64) -> bool
        ensures not_kept { IsTrue result → next_place self.now.latest ≤ place }
        ensures whole { IsTrue result → self.now.has_failed ≡ false }
        ensures for_others { IsTrue result → self.now.is_writing ≡ false → Lacks self.now.slots.items (next_place self.now.latest) }
    {
        !self.has_failed && self.latest.lines() <= place && (self.is_writing || !self.is_due())
    }

    /// The stamp, where it has the line of this place; None where the line is not on the disk yet.
    ///
    /// # Errors
    ///
    /// The journal has failed, and the line is not on the disk.
    fn stamp_with(&self, place: u64) -> Result<Option<Mark<N>>, NotKept>
        ensures has { IfOk result (λ found. IfSome found (λ mark. place < (latest mark).lines)) }
        ensures lost { OnErr result (self.now.has_failed ≡ true) }
    {
        if place < self.latest.lines() {
            return Ok(Some(self.latest.again()));
        }
        if self.has_failed {
            return Err(NotKept);
        }
        Ok(None)
    }

    /// What the seat whose line has this place goes on with: the stamp, where the line is on the disk; or the writing.
    ///
    /// # Errors
    ///
    /// The journal has failed, and the line is not on the disk.
    pub(crate) fn turn(&mut self, place: u64) -> Result<Option<Mark<N>>, NotKept>
        ensures has { IfOk result (λ turn. IfSome turn (λ mark. place < (latest mark).lines)) }
        ensures writes { IfOk result (λ turn. IfNone turn (self.new.is_writing ≡ true)) }
        ensures lost { OnErr result (self.old.has_failed ≡ true) }
    {
        let found = self.stamp_with(place)?;
        if found.is_none() {
            self.is_writing = true;
        }
        Ok(found)
    }

    /// Hands over the lines that follow those on the disk, one after the other, up to the first that is not laid, or as many as
    /// there is room for in one put: 72 at least.
    pub(crate) fn hand_over<R: Wait, D: Device>(&mut self, rt: &R, page: &mut Page<T, D, N>)
        ensures { page.new.has_failed ≡ false → Lacks self.new.slots.items page.new.next ⊎ (page.old.next + MOST_COMMITTERS ≤ page.new.next) }
    {
        page.make_room(rt);
        for _line in 0..MOST_WAITING {
            let Some(place) = page.wanted() else {
                return;
            };
            let Some(line) = pick(&mut self.slots, place) else {
                return;
            };
            page.take(line);
        }
    }

    /// Notes how far the writing has come, None where the journal has failed. Then gives the stamp, where it has the line of this
    /// place.
    ///
    /// # Errors
    ///
    /// The journal has failed, and the line is not on the disk.
    pub(crate) fn note(
        &mut self,
        mark: Option<Mark<N>>,
        place: u64,
    ) -> Result<Option<Mark<N>>, NotKept>
        ensures has { IfOk result (λ found. IfSome found (λ mark. place < (latest mark).lines)) }
        ensures rests { self.new.is_writing ≡ false }
        ensures latest { IfSome mark (λ mark. self.new.latest ≡ mark) }
        ensures failed { IfNone mark (self.new.has_failed ≡ true) }
    {
        self.is_writing = false;
        match mark {
            Some(mark) => self.latest = mark,
            None => self.has_failed = true,
        }
        self.stamp_with(place)
    }
}
