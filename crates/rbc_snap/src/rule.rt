//! The rule: whoever knows which history it is knows that of the published value, which never goes back.

use crate::Published;
use atomic_table::{Join, Split};
use crossbeam_utils::rule::{Outcome, Protocol};

/// What an end knows, once it knows: which history it is, and how many of its entries are published at least. No value of
/// it is made.
pub struct Known {
    pub knows: bool,
    pub number: u64,
    pub log_name: u64,
    pub cells_name: u64,
    pub entries: u64,
}

/// Whoever knows which history it is knows that of the published value, and no more entries than that has.
pub struct OneHistory;

impl Protocol<Published, Known> for OneHistory {
    ghost use Rattle.rbc_snap.specs.Knowing.{Agree, stranger};

    ghost holds = { λ x views. Agree x.sight views };

    ghost first = { stranger };
}

/// An end finds what it knew, and knows what is published.
pub struct Sees;

impl Outcome<Published, Known> for Sees {
    ghost use Rattle.std.specs.Prelude.{◌≡◌};
    ghost use Rattle.rbc_snap.specs.Knowing.{Knows, knower_of};

    ghost then = { λ v x y w. Knows y.sight v × (w ≡ knower_of y.sight) };
}

/// What the writer knows goes to a reader.
pub struct Names;

impl Split<Known> for Names {
    ghost left = { λ v. v };

    ghost right = { λ v. v };
}

impl Join<Known> for Names {
    ghost use Rattle.rbc_snap.specs.Knowing.{stranger};

    ghost both = { λ v w. w };

    ghost spent = { stranger };
}
