//! The journal, as one seat at a time writes it.

ghost use Rattle.std.specs.Prelude.{◌≡◌, ◌<◌, ◌≤◌, ◌+◌, ◌∷◌, ◌++◌, ◌⊎◌, ℕ, [], length, option_map, slice_get, true, false, Some, IsTrue, IfSome, IfNone, vec_len};
ghost use Rattle.rbc_journal.specs.Device.{Only};
ghost use Rattle.rbc_journal.specs.Journal.{recovered, IsTold, IsNote};
ghost use Rattle.rbc_journal.specs.Settled.{staged_lines, staged, IsSettled, HasRoom};
ghost use Rattle.rbc_group_commit.specs.Marks.{latest};
ghost use Rattle.rbc_group_commit.specs.Pages.{page_of, with_note};
ghost use Rattle.rbc_group_commit.specs.Stamps.{stamp_of, EachLasts};
ghost use Rattle.rbc_group_commit.specs.Told.{AreTold};
ghost use Rattle.rbc_group_commit.specs.declared.line.TheConstants.{LONGEST_NOTE};
ghost use Rattle.rbc_group_commit.specs.declared.page.TheConstants.{LONGEST_WITH_NOTE, ROOM};

use crate::marks::{Mark, Marks};
use crate::waiting_lines::MOST_COMMITTERS;
use crate::{BlankStamps, CommitName, Committer, EntryLine, LONGEST_NOTE, ToldHistory};
use rbc_journal::{Device, Journal, JournalFault};
use std::marker::Model;
use std::sync::Wait;

/// How many bytes a line and the note behind it have at most, each with its line feed and its gate.
const LONGEST_WITH_NOTE: usize = 4_098 + LONGEST_NOTE + 2;

/// How many bytes there is room for in one put: the longest line of each committer, with the longest note.
pub(crate) const ROOM: usize = MOST_COMMITTERS * LONGEST_WITH_NOTE;

/// A journal, and what is known of its lines: each tells the entry at its place of one history. Contracts see its file,
/// what was told of the history, how many lines are on the disk, how many with those that are staged, whether the journal
/// has failed, and how many bytes there is room for in the put.
#[derive(Drop)]
pub struct Page<T: ToldHistory + Drop, D: Device, N: CommitName> {
    journal: Journal<D>,
    told: T,
    lines: u64,
    next: u64,
    has_failed: bool,
    room: usize,
    marks: Marks<N>,
}

impl<T: ToldHistory + Drop, D: Device, N: CommitName> Model for Page<T, D, N> {
    ghost use Rattle.std.specs.Prelude.{◌≡◌, ◌<◌, ◌≤◌, false};
    ghost use Rattle.rbc_journal.specs.Settled.{HasRoom};
    ghost use Rattle.rbc_group_commit.specs.Pages.{PageOf, page_of, IsWhole, AllLast};

    ghost Value = { PageOf D T };

    ghost view = { λ p. page_of p.journal.device p.told p.lines p.next p.has_failed p.room };

    ghost invariant = { λ p. (p.has_failed ≡ false → IsWhole D.seen D.may_leave (T.tells p.told) p.journal p.lines p.next)
        × AllLast D.moment D.left_since (T.tells p.told) p.journal.device p.lines p.marks
        × (p.lines ≤ p.next)
        × (p.has_failed ≡ false → 0 < p.room → HasRoom p.journal p.room) };
}

/// Makes room to stage this number of bytes. False where the file takes no more.
fn make_room<D: Device, R: Wait>(rt: &R, journal: &mut Journal<D>, bytes: usize) -> bool
    requires { IsSettled D.seen D.may_leave journal.old }
    ensures settled { IsSettled D.seen D.may_leave journal.new }
    ensures device { journal.new.device ≡ journal.old.device }
    ensures staged { staged journal.new ≡ staged journal.old }
    ensures room { IsTrue result → HasRoom journal.new bytes }
{
    // Room for a put was made at the opening, so memory is not refused.
    for _ in rt.forever() {
        match journal.reserve(bytes) {
            Ok(()) => return true,
            Err(JournalFault::Memory) => {}
            Err(_) => return false,
        }
    }
    unreachable!()
}

/// Stages a line, and the note behind it, if there is one. Gives how many bytes they have in the file.
fn stage<D: Device>(journal: &mut Journal<D>, text: &[u8], note: Option<Vec<u8>>) -> usize
    requires settled { IsSettled D.seen D.may_leave journal.old }
    requires room { HasRoom journal.old LONGEST_WITH_NOTE }
    requires line { IsTold text.now }
    requires short { length text.now ≤ 4096 }
    requires note { IfSome note (λ note. IsNote note.items × (vec_len note ≤ LONGEST_NOTE)) }
    ensures settled { IsSettled D.seen D.may_leave journal.new }
    ensures device { journal.new.device ≡ journal.old.device }
    ensures staged { staged journal.new ≡ staged journal.old ++ text.now ∷ [] }
    ensures lines { staged_lines journal.new ≡ staged_lines journal.old ++ with_note text.now (option_map (λ note. note.items) note) }
    ensures bytes { result ≤ LONGEST_WITH_NOTE }
    ensures room { (bytes : ℕ) → HasRoom journal.old (result + bytes) → HasRoom journal.new bytes }
{
    journal.stage(text);
    let Some(note) = note else {
        return text.len() + 2;
    };
    journal.note(note.as_slice());
    text.len() + 2 + note.len() + 2
}

impl<T: ToldHistory + Drop, D: Device, N: CommitName> Page<T, D, N> {
    /// A page over a journal that is settled, with this number of lines, and its first stamp.
    pub(crate) fn new<R: Wait>(
        rt: &R,
        journal: Journal<D>,
        told: T,
        lines: u64,
        blank: BlankStamps,
    ) -> (Page<T, D, N>, Mark<N>)
        requires settled { IsSettled D.seen D.may_leave journal }
        requires none_staged { staged journal ≡ [] }
        requires count { lines ≡ length (recovered (D.seen journal.device)) }
        requires told { AreTold (T.tells told) (recovered (D.seen journal.device)) }
        requires book { blank ≡ N.book }
        ensures page { result.0 ≡ page_of journal.device told lines lines false 0 }
        ensures mark { result.1 ≡ stamp_of D.seen D.moment journal ∷ [] }
    {
        let mut marks = Marks::new(blank);
        let mark = marks.stamp(rt, &journal, lines);
        let page = Page {
            journal,
            told,
            lines,
            next: lines,
            has_failed: false,
            room: 0,
            marks,
        };
        (page, mark)
    }

    /// Makes room for the lines of a put. Where the file takes no more, the journal has failed.
    pub(crate) fn make_room<R: Wait>(&mut self, rt: &R)
        ensures device { self.new.device ≡ self.old.device }
        ensures told { self.new.told ≡ self.old.told }
        ensures lines { self.new.lines ≡ self.old.lines }
        ensures next { self.new.next ≡ self.old.next }
        ensures room { self.new.has_failed ≡ false → self.new.room ≡ ROOM }
    {
        if self.has_failed {
            return;
        }
        if !make_room(rt, &mut self.journal, ROOM) {
            self.has_failed = true;
            return;
        }
        self.room = ROOM;
    }

    /// The place of the next line that it takes; None where the journal has failed, or the put may have no room for the line.
    pub(crate) fn wanted(&self) -> Option<u64>
        ensures next { IfSome result (λ place. place ≡ self.now.next) }
        ensures whole { IfSome result (λ place. self.now.has_failed ≡ false) }
        ensures room { IfSome result (λ place. LONGEST_WITH_NOTE ≤ self.now.room) }
        ensures none { IfNone result ((self.now.has_failed ≡ true) ⊎ (self.now.room < LONGEST_WITH_NOTE)) }
    {
        if self.has_failed || self.room < LONGEST_WITH_NOTE {
            return None;
        }
        Some(self.next)
    }

    /// Stages the next line, without a call of the file.
    pub(crate) fn take(&mut self, line: EntryLine<T>)
        requires place { line ≡ self.old.next }
        requires whole { self.old.has_failed ≡ false }
        requires room { LONGEST_WITH_NOTE ≤ self.old.room }
        ensures whole { self.new.has_failed ≡ false }
        ensures device { self.new.device ≡ self.old.device }
        ensures lines { self.new.lines ≡ self.old.lines }
        ensures next { self.new.next ≡ self.old.next + 1 }
        ensures room { self.old.room ≤ self.new.room + LONGEST_WITH_NOTE }
    {
        let EntryLine {
            told,
            place,
            text,
            note,
        } = line;
        self.told.hear(&told);
        let bytes = stage(&mut self.journal, text.as_slice(), note);
        self.room -= bytes;
        self.next = place + 1;
    }

    /// Makes the staged lines durable, all at once, and gives out the stamps. None where the journal has failed.
    pub(crate) fn commit<R: Wait>(&mut self, rt: &R) -> Option<Mark<N>>
        ensures told { self.new.told ≡ self.old.told }
        ensures lines { IfSome result (λ mark. (latest mark).lines ≡ self.old.next) }
        ensures failed { IfNone result (self.new.has_failed ≡ true) }
    {
        if self.has_failed {
            return None;
        }
        let Ok(()) = self.journal.commit() else {
            self.has_failed = true;
            return None;
        };
        self.lines = self.next;
        self.room = 0;
        Some(self.marks.stamp(rt, &self.journal, self.lines))
    }

    /// A crash at any moment since a stamp that the committer was given left a file with the stamp's lines at least.
    pub fn vouch<R: Wait>(&self, rt: &R, committer: &Committer<N>)
        ensures { EachLasts D.moment D.left_since (T.tells self.now.told) self.now.device committer.now }
    {
        self.marks.has(rt, &committer.mark);
    }

    /// What was told of the history.
    pub fn told(&self) -> &T
        ensures { result.now ≡ self.now.told }
    {
        &self.told
    }

    /// The file, and what was told of the history.
    pub fn into_parts(self) -> (D, T)
        ensures device { result.0 ≡ self.device }
        ensures told { result.1 ≡ self.told }
        ensures whole { self.has_failed ≡ false → AreTold (T.tells self.told) (recovered (D.seen self.device)) }
        ensures count { self.has_failed ≡ false → length (recovered (D.seen self.device)) ≡ self.lines }
        ensures durable { self.has_failed ≡ false → Only (D.seen self.device) (D.may_leave self.device) }
    {
        let Page { journal, told, .. } = self;
        (journal.into_device(), told)
    }
}
