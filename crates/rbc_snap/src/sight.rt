//! What was seen of a history.

ghost use Rattle.std.specs.Prelude.{◌≡◌, ◌<◌, ◌∷◌, ◌⊎◌, [], length, MatchBool};
ghost use Rattle.rbc_record.specs.Records.{IsRight};
ghost use Rattle.rbc_logbook_laws.specs.Counts.{head_of};
ghost use Rattle.rbc_snap.specs.Later.{IsLater};
ghost use Rattle.rbc_snap.specs.Sights.{seen_of, latest, AreMoments};

use crate::moments::{Glimpse, Head, add};
use rbc_record::Record;
use std::marker::Model;

/// A moment of a history that was seen. Contracts see it as which history it is, and all that was entered up to then.
#[derive(Drop)]
pub struct Sight {
    count: u64,
    version: u64,
    seen: Glimpse,
}

impl Model for Sight {
    ghost use Rattle.std.specs.Prelude.{◌≡◌, length};
    ghost use Rattle.rbc_snap.specs.Sights.{SeenOf, seen_of, latest, AreMoments};

    ghost Value = { SeenOf };

    ghost view = { λ s. seen_of s.seen.book (latest s.seen.log) };

    ghost invariant = { λ s. (s.count ≡ length s.seen.log) × (s.version ≡ length (latest s.seen.log).entries) × AreMoments s.seen.log };
}

impl Sight {
    /// The first moment.
    pub(crate) fn first(seen: Glimpse, log: &Record) -> Sight
        requires { seen.log ≡ log.now ∷ [] }
        ensures { result ≡ seen_of seen.book log.now }
    {
        log.right();
        Sight {
            count: 1,
            version: log.version(),
            seen,
        }
    }

    /// A copy of this moment.
    pub fn again(&self) -> Sight
        ensures { result ≡ self.now }
    {
        Sight {
            count: self.count,
            version: self.version,
            seen: self.seen.again(),
        }
    }

    /// Its history is a right one. This does nothing.
    pub fn known(&self)
        ensures { IsRight self.now.history }
    {
        let _ = &self.version;
    }

    /// How many entries it has.
    pub fn version(&self) -> u64
        ensures { result ≡ length self.now.history.entries }
    {
        self.version
    }

    /// Whether it has fewer entries than the other. Then the other goes on from it; if not, it goes on from the other.
    pub fn is_behind(&self, other: &Sight) -> bool
        requires { other.now.book ≡ self.now.book }
        ensures { MatchBool result
            ((length self.now.history.entries < length other.now.history.entries)
            × IsLater self.now.history other.now.history)
            (IsLater other.now.history self.now.history) }
    {
        let mut both = self.seen.again();
        both.learn(&other.seen);
        self.version < other.version
    }

    /// The moments up to this one.
    pub(crate) fn glimpse(&self) -> Glimpse
        ensures moments { AreMoments result.log }
        ensures seen { seen_of result.book (latest result.log) ≡ self.now }
    {
        self.seen.again()
    }

    /// Of this moment and the last of those one goes on from the other. This does nothing.
    pub(crate) fn is_beside(&self, seen: &Glimpse)
        requires book { seen.now.book ≡ self.now.book }
        requires moments { AreMoments seen.now.log }
        ensures { IsLater self.now.history (latest seen.now.log) ⊎ IsLater (latest seen.now.log) self.now.history }
    {
        let mut both = self.seen.again();
        both.learn(seen);
    }

    /// Goes on to the record, as the next moment. False where there are other moments.
    pub(crate) fn grow(&mut self, head: &Head, log: &Record) -> bool
        requires head { head.now ≡ head_of self.old.book }
        requires later { IsLater self.old.history log.now }
        ensures { MatchBool result (self.new ≡ seen_of self.old.book log.now) (self.new ≡ self.old) }
    {
        let Some(seen) = add(head, &self.seen, self.count, log) else {
            return false;
        };
        self.count += 1;
        self.version = log.version();
        self.seen = seen;
        true
    }
}
