//! Stamps: at which moment a file had how many lines.

use logbook::{Gain, Plain, Play, Rule};
use rbc_journal::{Device, Journal};

/// How many lines a journal's file stood for, all of it on the disk, at a moment of its device. No value of it is made.
pub struct Stamp {
    /// The moment.
    pub moment: u64,
    /// The number of lines.
    pub lines: u64,
}

/// The word is the number of stamps.
pub struct Law;

impl Rule<Stamp, u64> for Law {
    ghost use Rattle.std.specs.Prelude.{[]};
    ghost use base.Fml.{ftrue};
    ghost use Rattle.rbc_logbook_laws.specs.Counts.{IsCounted};

    ghost holds = { λ cells stamps. IsCounted cells stamps };

    ghost first = { [] };

    ghost hinted = { λ n stamps. Unit {0} };

    ghost shows = { λ stamps. [] };

    ghost keeps = { λ names stamps. ftrue };

    ghost moves = { λ ask before after answer. Unit {0} };
}

pub(crate) struct Nothing;

impl Gain<Stamp, u64> for Nothing {
    ghost use base.Fml.{ftrue};

    ghost after = { λ names about answer. ftrue };
}

/// A step that adds a stamp.
pub(crate) struct Add;

impl Play<Stamp, u64> for Add {
    ghost use Rattle.rbc_logbook_laws.specs.Counts.{Adds};

    ghost then = { Adds };
}

impl<D: Device> Plain<Journal<D>, Stamp, u64> for Add {
    ghost use Rattle.std.specs.Prelude.{None};
    ghost use Rattle.rbc_group_commit.specs.Stamps.{stamp_of};

    ghost ask = { λ journal. stamp_of D.seen D.moment journal };

    ghost state = { λ journal. None };
}
