//! What a seat knows of the disk.

ghost use Rattle.std.specs.Prelude.{◌≡◌, IsTrue};
ghost use mathlib.Core.List.{IsPrefix};
ghost use Rattle.rbc_group_commit.specs.Marks.{latest, HasLine};

use crate::CommitName;
use crate::marks::Mark;
use std::marker::Model;

/// A seat's committer, with which it waits for its lines. Contracts see the stamps that it was given, in order.
#[derive(Drop)]
pub struct Committer<N: CommitName> {
    pub(crate) mark: Mark<N>,
}

impl<N: CommitName> Model for Committer<N> {
    ghost use Rattle.std.specs.Prelude.{List};
    ghost use Rattle.rbc_group_commit.specs.declared.stamp.Stamp.{Stamp};

    ghost Value = { List Stamp };

    ghost view = { λ p. p.mark };
}

impl<N: CommitName> Committer<N> {
    /// A committer that was given the stamps of a mark.
    pub(crate) fn new(mark: Mark<N>) -> Committer<N>
        ensures { result ≡ mark }
    {
        Committer { mark }
    }

    /// Whether it was given a stamp that has the line of this place.
    pub(crate) fn has(&self, place: u64) -> bool
        ensures { IsTrue result → HasLine self.now place }
    {
        self.mark.known();
        place < self.mark.lines()
    }

    /// Is given what the mark has too.
    pub(crate) fn note(&mut self, mark: Mark<N>)
        ensures stays { IsPrefix self.old self.new }
        ensures heard { IsPrefix mark self.new }
    {
        self.mark.go_on(mark);
    }

    /// How many lines the last stamp has that it was given.
    pub fn lines(&self) -> u64
        ensures { result ≡ (latest self.now).lines }
    {
        self.mark.lines()
    }
}
