//! What a group commit is opened with.

use crate::marks::{Glimpse, Head};
use logbook::{Seen, Start, Word};
use std::marker::Model;

/// A book that has no stamp yet. Contracts see which it is. It takes no memory.
#[derive(Drop)]
pub struct BlankStamps {
    pub(crate) head: Head,
    pub(crate) seen: Glimpse,
}

impl Model for BlankStamps {
    ghost use Rattle.std.specs.Prelude.{◌≡◌, []};
    ghost use Rattle.logbook.specs.Pages.{Book};
    ghost use Rattle.rbc_logbook_laws.specs.Counts.{head_of};

    ghost Value = { Book };

    ghost view = { λ b. b.seen.book };

    ghost invariant = { λ b. (b.seen.log ≡ []) × (b.head ≡ head_of b.seen.book) };
}

impl BlankStamps {
    /// A book with no stamp.
    pub fn new() -> BlankStamps {
        let (seen, mut first, _second) = Seen::open(Start::alone(), 0, 0);
        BlankStamps {
            head: Word::tracked(0, &mut first),
            seen,
        }
    }
}
