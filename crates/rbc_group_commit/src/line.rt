//! A line that waits to be written.

ghost use Rattle.std.specs.Prelude.{◌≡◌, ◌+◌, ◌^◌, ◌<◌, ◌≤◌, IfSome, vec_len};
ghost use Rattle.rbc_journal.specs.Journal.{IsTold, IsNote};
ghost use Rattle.rbc_group_commit.specs.declared.line.TheConstants.{LONGEST_NOTE};

use crate::ToldHistory;
use std::marker::Model;

/// How many bytes the note behind a line has at most.
pub const LONGEST_NOTE: usize = 64;

/// The line of an entry, the note behind it, if there is one, and what its seat was told of the history. Contracts see the
/// entry's place.
#[derive(Drop)]
pub struct EntryLine<T: ToldHistory + Drop> {
    pub(crate) told: T,
    pub(crate) place: u64,
    pub(crate) text: Vec<u8>,
    pub(crate) note: Option<Vec<u8>>,
}

impl<T: ToldHistory + Drop> Model for EntryLine<T> {
    ghost use Rattle.std.specs.Prelude.{ℕ, ◌+◌, ◌<◌, ◌≤◌, ◌^◌, IfSome, vec_len};
    ghost use Rattle.rbc_journal.specs.Journal.{IsTold, IsNote};
    ghost use Rattle.rbc_group_commit.specs.declared.line.TheConstants.{LONGEST_NOTE};

    ghost Value = { ℕ };

    ghost view = { λ l. l.place };

    ghost invariant = { λ l. T.tells l.told l.place l.text.items × IsTold l.text.items × (l.place + 1 < 2 ^ 64) × (vec_len l.text ≤ 4096)
        × IfSome l.note (λ note. IsNote note.items × (vec_len note ≤ LONGEST_NOTE)) };
}

impl<T: ToldHistory + Drop> EntryLine<T> {
    /// The line of the entry at this place, counted from 0, of at most 4,096 bytes, and the note behind it, if there is one.
    pub fn new(told: T, place: u64, text: Vec<u8>, note: Option<Vec<u8>>) -> EntryLine<T>
        requires tells { T.tells told place text.items }
        requires line { IsTold text.items }
        requires short { vec_len text ≤ 4096 }
        requires place { place + 1 < 2 ^ 64 }
        requires note { IfSome note (λ note. IsNote note.items × (vec_len note ≤ LONGEST_NOTE)) }
        ensures { result ≡ place }
    {
        EntryLine {
            told,
            place,
            text,
            note,
        }
    }

    /// The entry's place.
    pub fn place(&self) -> u64
        ensures { result ≡ self.now }
    {
        self.place
    }
}
