//! The stamps of a journal, in order.

ghost use Rattle.std.specs.Prelude.{◌≡◌, ◌+◌, ◌^◌, ◌<◌, ◌++◌, ◌∷◌, [], length, IfSome};
ghost use mathlib.Core.List.{IsPrefix};
ghost use Rattle.rbc_logbook_laws.specs.Counts.{head_of};
ghost use Rattle.rbc_group_commit.specs.Marks.{latest};
ghost use Rattle.rbc_group_commit.specs.Stamps.{stamp_of};

use crate::stamp::{Add, Law, Nothing};
use crate::{BlankStamps, CommitName, Stamp};
use logbook::{Offer, Seen, Word};
use rbc_journal::{Device, Journal};
use std::marker::{Model, PhantomData};
use std::sync::Wait;

/// The word that counts the stamps.
pub(crate) type Head = Word<Stamp, u64, Law>;

/// Stamps that were seen. It has no bytes.
pub(crate) type Glimpse = Seen<Stamp, u64, Law>;

/// Stamps that were seen, with how many lines the last of them has. Contracts see them in order.
#[derive(Drop)]
pub(crate) struct Mark<N: CommitName> {
    count: u64,
    lines: u64,
    seen: Glimpse,
    of: PhantomData<N>,
}

impl<N: CommitName> Model for Mark<N> {
    ghost use Rattle.std.specs.Prelude.{◌≡◌, ◌<◌, List, length};
    ghost use Rattle.rbc_group_commit.specs.Marks.{latest};
    ghost use Rattle.rbc_group_commit.specs.declared.stamp.Stamp.{Stamp};

    ghost Value = { List Stamp };

    ghost view = { λ m. m.seen.log };

    ghost invariant = { λ m. (m.count ≡ length m.seen.log) × (0 < m.count) × (m.lines ≡ (latest m.seen.log).lines) × (m.seen.book ≡ N.book) };
}

impl<N: CommitName> Mark<N> {
    /// A copy of the mark.
    pub(crate) fn again(&self) -> Mark<N>
        ensures { result ≡ self.now }
    {
        Mark {
            count: self.count,
            lines: self.lines,
            seen: self.seen.again(),
            of: PhantomData,
        }
    }

    /// Some stamp was seen. This does nothing.
    pub(crate) fn known(&self)
        ensures { 0 < length self.now }
    {
        let _ = &self.seen;
    }

    /// How many lines the last stamp has.
    pub(crate) fn lines(&self) -> u64
        ensures { result ≡ (latest self.now).lines }
    {
        self.lines
    }

    /// Goes on to what the other has, if that is not less.
    #[tactic(auto, using(rbc_logbook_laws::proofs::BeginningLemmas::prefix_itself))]
    pub(crate) fn go_on(&mut self, other: Mark<N>)
        ensures stays { IsPrefix self.old self.new }
        ensures heard { IsPrefix other self.new }
    {
        let mut both = self.seen.again();
        both.learn(&other.seen);
        if self.count <= other.count {
            *self = other;
        }
    }
}

/// Adds a stamp of the journal to those that were seen, where there are no others.
fn add<D: Device>(head: &Head, seen: &Glimpse, count: u64, journal: &Journal<D>) -> Option<Glimpse>
    requires head { head.now ≡ head_of seen.now.book }
    requires count { count ≡ length seen.now.log }
    ensures book { IfSome result (λ more. more.book ≡ seen.now.book) }
    ensures added { IfSome result (λ more. more.log ≡ seen.now.log ++ stamp_of D.seen D.moment journal.now ∷ []) }
    ensures fits { IfSome result (λ more. count + 1 < 2 ^ 64) }
{
    if count == u64::MAX {
        return None;
    }
    let mut offer: Offer<Stamp, u64, Law, Nothing> = seen.plain::<Nothing, Journal<D>, Add>(
        journal,
    );
    let mut pen = seen.no_pen();
    let mut more = seen.again();
    let found = head.compare_exchange::<Add, Nothing>(
        count,
        count + 1,
        &mut more,
        &mut offer,
        &mut pen,
    );
    if found != count {
        return None;
    }
    Some(more)
}

/// Adds a stamp of the journal to those that were seen. No one else adds stamps, so the first try succeeds.
fn advance<R: Wait, D: Device>(
    rt: &R,
    head: &Head,
    seen: &Glimpse,
    count: u64,
    journal: &Journal<D>,
) -> Glimpse
    requires head { head.now ≡ head_of seen.now.book }
    requires count { count ≡ length seen.now.log }
    ensures book { result.book ≡ seen.now.book }
    ensures added { result.log ≡ seen.now.log ++ stamp_of D.seen D.moment journal.now ∷ [] }
    ensures fits { count + 1 < 2 ^ 64 }
{
    for _ in rt.forever() {
        if let Some(more) = add(head, seen, count, journal) {
            return more;
        }
    }
    unreachable!()
}

/// All stamps of a journal. Contracts see them in order.
#[derive(Drop)]
pub(crate) struct Marks<N: CommitName> {
    head: Head,
    count: u64,
    seen: Glimpse,
    of: PhantomData<N>,
}

impl<N: CommitName> Model for Marks<N> {
    ghost use Rattle.std.specs.Prelude.{◌≡◌, List, length};
    ghost use Rattle.rbc_logbook_laws.specs.Counts.{head_of};
    ghost use Rattle.rbc_group_commit.specs.declared.stamp.Stamp.{Stamp};

    ghost Value = { List Stamp };

    ghost view = { λ m. m.seen.log };

    ghost invariant = { λ m. (m.head ≡ head_of N.book) × (m.count ≡ length m.seen.log) × (m.seen.book ≡ N.book) };
}

impl<N: CommitName> Marks<N> {
    /// None yet.
    pub(crate) fn new(blank: BlankStamps) -> Marks<N>
        requires { blank ≡ N.book }
        ensures { result ≡ [] }
    {
        let BlankStamps { head, seen } = blank;
        Marks {
            head,
            count: 0,
            seen,
            of: PhantomData,
        }
    }

    /// Adds a stamp of the journal, whose file stands for this number of lines. All stamps are given out too.
    #[tactic(auto, using(crate::proofs::MarkLemmas::latest_added))]
    pub(crate) fn stamp<R: Wait, D: Device>(
        &mut self,
        rt: &R,
        journal: &Journal<D>,
        lines: u64,
    ) -> Mark<N>
        requires { lines ≡ (stamp_of D.seen D.moment journal.now).lines }
        ensures stamps { self.new ≡ self.old ++ stamp_of D.seen D.moment journal.now ∷ [] }
        ensures mark { result ≡ self.new }
        ensures lines { (latest result).lines ≡ lines }
    {
        let seen = advance(rt, &self.head, &self.seen, self.count, journal);
        self.count += 1;
        let mark = Mark {
            count: self.count,
            lines,
            seen: seen.again(),
            of: PhantomData,
        };
        self.seen = seen;
        mark
    }

    /// The stamps of a mark are the first of these.
    pub(crate) fn has<R: Wait>(&self, rt: &R, mark: &Mark<N>)
        ensures { IsPrefix mark.now self.now }
    {
        // No mark has more stamps than there are, so the first try succeeds.
        for _ in rt.forever() {
            let mut both = self.seen.again();
            both.learn(&mark.seen);
            if mark.count <= self.count {
                return;
            }
        }
        unreachable!()
    }
}
