//! Where the moments of a history are counted.

ghost use Rattle.std.specs.Prelude.{◌≡◌, ◌+◌, ◌^◌, ◌<◌, ◌++◌, ◌∷◌, [], length, IfSome};
ghost use Rattle.rbc_logbook_laws.specs.Counts.{head_of};
ghost use Rattle.rbc_snap.specs.Sights.{seen_of};

use crate::Sight;
use crate::law::{Add, Law, Nothing};
use logbook::{Offer, Seen, Start, Word};
use rbc_record::Record;
use std::marker::Model;
use std::sync::Wait;

/// The word that counts the moments.
pub(crate) type Head = Word<Record, u64, Law>;

/// Moments that were seen. It has no bytes.
pub(crate) type Glimpse = Seen<Record, u64, Law>;

/// A history that has no moment yet, and whether its events are put where eyes read them. Contracts see which history it is.
/// It takes no memory.
#[derive(Drop)]
pub struct NewHistory {
    head: Head,
    seen: Glimpse,
    has_events: bool,
}

impl Model for NewHistory {
    ghost use Rattle.std.specs.Prelude.{◌≡◌, []};
    ghost use Rattle.logbook.specs.Pages.{Book};
    ghost use Rattle.rbc_logbook_laws.specs.Counts.{head_of};

    ghost Value = { Book };

    ghost view = { λ j. j.seen.book };

    ghost invariant = { λ j. (j.seen.log ≡ []) × (j.head ≡ head_of j.seen.book) };
}

/// Adds a moment to those that were seen, where there are no others.
pub(crate) fn add(head: &Head, seen: &Glimpse, count: u64, log: &Record) -> Option<Glimpse>
    requires head { head.now ≡ head_of seen.now.book }
    requires count { count ≡ length seen.now.log }
    ensures book { IfSome result (λ more. more.book ≡ seen.now.book) }
    ensures added { IfSome result (λ more. more.log ≡ seen.now.log ++ log.now ∷ []) }
    ensures fits { IfSome result (λ more. count + 1 < 2 ^ 64) }
{
    if count == u64::MAX {
        return None;
    }
    let mut offer: Offer<Record, u64, Law, Nothing> = seen.plain::<Nothing, Record, Add>(log);
    let mut pen = seen.no_pen();
    let mut more = seen.again();
    let found = head.compare_exchange::<Add, Nothing>(
        count,
        count + 1,
        &mut more,
        &mut offer,
        &mut pen,
    );
    if found != count {
        return None;
    }
    Some(more)
}

impl NewHistory {
    /// A history with no moment, whose events no eye reads.
    pub fn new() -> NewHistory {
        NewHistory::of(false)
    }

    /// A history with no moment, whose events eyes read: each takes 64 bytes, and there is room for 100,000 from the beginning on.
    pub fn with_events() -> NewHistory {
        NewHistory::of(true)
    }

    fn of(has_events: bool) -> NewHistory {
        let (seen, mut first, _second) = Seen::open(Start::alone(), 0, 0);
        NewHistory {
            head: Word::tracked(0, &mut first),
            seen,
            has_events,
        }
    }

    /// Whether its events are put where eyes read them.
    pub(crate) fn has_events(&self) -> bool {
        self.has_events
    }

    /// The history, with the record as its first moment.
    pub(crate) fn begin<R: Wait>(self, rt: &R, log: &Record) -> (Head, Sight)
        ensures head { result.0 ≡ head_of self }
        ensures sight { result.1 ≡ seen_of self log.now }
    {
        let NewHistory { head, seen, .. } = self;
        // No one else adds moments, so the first try succeeds.
        for _ in rt.forever() {
            if let Some(first) = add(&head, &seen, 0, log) {
                return (head, Sight::first(first, log));
            }
        }
        unreachable!()
    }
}
