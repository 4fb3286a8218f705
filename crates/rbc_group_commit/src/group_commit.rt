//! The group commit.

ghost use Rattle.std.specs.Prelude.{◌≡◌, ◌<◌, ◌≤◌, ◌∷◌, ℕ, [], length, replicate, vec_len, vec_capacity, IfOk, IfErr, OnOk, OnErr, IfSome};
ghost use mathlib.Core.List.{IsPrefix};
ghost use Rattle.rbc_journal.specs.Journal.{recovered};
ghost use Rattle.rbc_journal.specs.Settled.{staged, IsSettled};
ghost use Rattle.rbc_group_commit.specs.Marks.{latest, HasLine};
ghost use Rattle.rbc_group_commit.specs.Stamps.{stamp_of};
ghost use Rattle.rbc_group_commit.specs.Told.{AreTold};
ghost use Rattle.rbc_group_commit.specs.Waiting.{Lacks};

use crate::marks::Mark;
use crate::page::ROOM;
use crate::waiting_lines::{MOST_WAITING, WaitingLines};
use crate::{BlankStamps, CommitName, Committer, EntryLine, Page, ToldHistory};
use rbc_journal::{Device, Journal, JournalFault};
use std::alloc::{AllocError, Global};
use std::sync::{Condvar, Mutex, MutexGuard, Wait};
use thiserror::Error;

/// The journal has failed: its file did, or takes no more. Whether the entry is on the disk is not known.
#[derive(Clone, Copy, Debug, PartialEq, Eq, Error)]
#[error("journal fault")]
pub struct NotKept;

/// A journal that many seats write to. Each lays the line of its entry, and one writes for all that wait.
#[derive(Drop)]
pub struct GroupCommit<T: ToldHistory + Drop, D: Device, N: CommitName> {
    waiting: Mutex<WaitingLines<T, N>>,
    page: Mutex<Page<T, D, N>>,
    noted: Condvar,
}

/// What a group commit starts with: a journal that is settled, what was told of the history that its lines tell, and how many
/// lines it has.
pub struct Start<T: ToldHistory + Drop, D: Device> {
    /// The journal.
    pub journal: Journal<D>,
    /// What was told of the history.
    pub told: T,
    /// How many lines the journal has.
    pub lines: u64,
}

/// This number of slots, in none of which a line lies.
fn empty_slots<T: ToldHistory + Drop>(
    alloc: Global,
    count: usize,
) -> Result<Vec<Option<EntryLine<T>>>, AllocError>
    ensures count { IfOk result (λ slots. vec_len slots ≡ count) }
    ensures lacks { IfOk result (λ slots. (place : ℕ) → Lacks slots.items place) }
{
    let mut slots = Vec::with_capacity(alloc, count)?;
    for _slot in 0..count {
        slots.push_reserved(None);
    }
    Ok(slots)
}

/// This number of committers, in the room that is there for them.
fn committers_with<N: CommitName>(
    mut committers: Vec<Committer<N>>,
    count: usize,
    mark: &Mark<N>,
) -> Vec<Committer<N>>
    requires empty { vec_len committers ≡ 0 }
    requires room { count ≤ vec_capacity committers }
    ensures { result.items ≡ replicate count mark.now }
{
    for _committer in 0..count {
        committers.push_reserved(Committer::new(mark.again()));
    }
    committers
}

impl<T: ToldHistory + Drop, D: Device, N: CommitName> GroupCommit<T, D, N> {
    /// A group commit over a journal each of whose lines tells the entry at its place, and this number of committers, which have the
    /// first stamp. The file is not asked for anything.
    ///
    /// # Errors
    ///
    /// `Memory`, or `Full`, where the file has no room for a line of each committer. The file comes back.
    pub fn open<R: Wait>(
        rt: &R,
        alloc: Global,
        start: Start<T, D>,
        committers: usize,
        blank: BlankStamps,
    ) -> Result<(GroupCommit<T, D, N>, Vec<Committer<N>>), (JournalFault, D)>
        requires settled { IsSettled D.seen D.may_leave start.journal }
        requires none_staged { staged start.journal ≡ [] }
        requires count { start.lines ≡ length (recovered (D.seen start.journal.device)) }
        requires told { AreTold (T.tells start.told) (recovered (D.seen start.journal.device)) }
        requires few { committers ≤ 72 }
        requires book { blank ≡ N.book }
        ensures committers { IfOk result (λ opened. opened.1.items ≡ replicate committers (stamp_of D.seen D.moment start.journal ∷ [])) }
        ensures refused { IfErr result (λ fault. (fault.1 ≡ start.journal.device) × (fault.0 ≡ JournalFault.Device → ⊥)) }
    {
        let Start {
            mut journal,
            told,
            lines,
        } = start;
        if let Err(fault) = journal.reserve(ROOM) {
            return Err((fault, journal.into_device()));
        }
        let (Ok(slots), Ok(room)) = (
            empty_slots(alloc, MOST_WAITING),
            Vec::with_capacity(alloc, committers),
        ) else {
            return Err((JournalFault::Memory, journal.into_device()));
        };
        let (page, mark) = Page::new(rt, journal, told, lines, blank);
        let committers = committers_with(room, committers, &mark);
        let waiting = WaitingLines {
            slots,
            latest: mark,
            is_writing: false,
            has_failed: false,
        };
        let group_commit = GroupCommit {
            waiting: Mutex::new(waiting),
            page: Mutex::new(page),
            noted: Condvar::new(),
        };
        Ok((group_commit, committers))
    }

    /// Lays the line of an entry, to be written with the next commit that reaches its place. It waits only while a line 4,608 places
    /// before it waits. The seats that wait are not woken: the one that lays a line goes on to keep it, and writes it where no
    /// other does. Where the journal has failed, the line is dropped.
    pub fn lay<R: Wait>(&self, rt: &R, line: EntryLine<T>) {
        let place = line.place();
        let mut waiting = self.noted.wait_while(
            rt,
            self.waiting.lock(rt),
            |waiting| waiting.lacks_room(place),
        );
        (*waiting).lay(line);
    }

    /// Returns once the line of this place is on the disk: at once, without a lock, where the committer was given a stamp that has
    /// it. Else it waits until the lines of all entries up to it are laid, and for at most one write beside those that it has a
    /// part in.
    ///
    /// # Errors
    ///
    /// The journal has failed, now or before, and the line is not on the disk.
    #[tactic(auto, using(crate::proofs::MarkLemmas::has_line))]
    pub fn keep<R: Wait>(
        &self,
        rt: &R,
        committer: &mut Committer<N>,
        place: u64,
    ) -> Result<(), NotKept>
        ensures kept { OnOk result (HasLine committer.new place) }
        ensures stays { IsPrefix committer.old committer.new }
        ensures refused { OnErr result (committer.new ≡ committer.old) }
    {
        if committer.has(place) {
            return Ok(());
        }
        let mark = self.follow(rt, place)?;
        mark.known();
        committer.note(mark);
        Ok(())
    }

    /// Goes on until the line of this place is on the disk. A seat that is alone locks the waiting lines twice.
    ///
    /// # Errors
    ///
    /// The journal has failed, now or before, and the line is not on the disk.
    fn follow<R: Wait>(&self, rt: &R, place: u64) -> Result<Mark<N>, NotKept>
        ensures { IfOk result (λ mark. place < (latest mark).lines) }
    {
        for _ in rt.forever() {
            if let Some(mark) = self.go_on(rt, place)? {
                return Ok(mark);
            }
        }
        unreachable!()
    }

    /// Waits until there is something to do for the seat whose line has this place, and writes, if that is it. Gives the stamp where it
    /// has the line.
    ///
    /// # Errors
    ///
    /// The journal has failed, now or before, and the line is not on the disk.
    fn go_on<R: Wait>(&self, rt: &R, place: u64) -> Result<Option<Mark<N>>, NotKept>
        ensures { IfOk result (λ found. IfSome found (λ mark. place < (latest mark).lines)) }
    {
        let mut waiting = self.noted.wait_while(
            rt,
            self.waiting.lock(rt),
            |waiting| waiting.must_wait(place),
        );
        if let Some(mark) = (*waiting).turn(place)? {
            return Ok(Some(mark));
        }
        self.write(rt, waiting, place)
    }

    /// Writes the lines that wait, tells all that sleep, and gives the stamp where it has the line of this place.
    ///
    /// # Errors
    ///
    /// The journal has failed, now or before, and the line is not on the disk.
    fn write<R: Wait>(
        &self,
        rt: &R,
        waiting: MutexGuard<'_, WaitingLines<T, N>>,
        place: u64,
    ) -> Result<Option<Mark<N>>, NotKept>
        ensures { IfOk result (λ found. IfSome found (λ mark. place < (latest mark).lines)) }
    {
        let mark = self.write_page(rt, waiting);
        let found = self.waiting.lock(rt).note(mark, place);
        self.noted.notify_all();
        found
    }

    /// Writes the lines that wait, while others are laid. The page is locked under the waiting lines, never the other way round; it is
    /// free again before anyone is told, and until then no other seat writes.
    fn write_page<R: Wait>(
        &self,
        rt: &R,
        mut waiting: MutexGuard<'_, WaitingLines<T, N>>,
    ) -> Option<Mark<N>> {
        let mut page = self.page.lock(rt);
        (*waiting).hand_over(rt, &mut *page);
        MutexGuard::unlock(waiting);
        (*page).commit(rt)
    }

    /// The page, once no seat writes any more.
    pub fn close(self) -> Page<T, D, N> {
        let GroupCommit { page, .. } = self;
        page.into_inner()
    }
}
