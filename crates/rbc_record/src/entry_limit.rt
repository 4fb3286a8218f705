//! How many entries a history may have.

ghost use Rattle.std.specs.Prelude.{◌≡◌, ◌≤◌, Some, None, if◌then◌else◌};
ghost use Rattle.rbc_model.specs.Results.{is_from_to};
ghost use Rattle.rbc_model.specs.declared.limits.TheConstants.{MOST_ENTRIES, USUAL_ENTRIES};

use rbc_model::limits::{MOST_ENTRIES, USUAL_ENTRIES};
use std::marker::Model;

/// How many entries a history may have: 1 to 50,000,000.
#[derive(Clone, Copy, Debug, PartialEq, Eq)]
pub struct EntryLimit {
    entries: usize,
}

impl Model for EntryLimit {
    ghost use Rattle.std.specs.Prelude.{ℕ, ◌≤◌};
    ghost use Rattle.rbc_model.specs.declared.limits.TheConstants.{MOST_ENTRIES};

    ghost Value = { ℕ };

    ghost view = { λ limit. limit.entries };

    ghost invariant = { λ limit. (1 ≤ limit.entries) × (limit.entries ≤ MOST_ENTRIES) };

    ghost inverse = { λ entries. record { entries = entries } };
}

impl EntryLimit {
    /// The limit of this number of entries, if that is 1 to 50,000,000.
    pub fn new(entries: usize) -> Option<EntryLimit>
        ensures { result ≡ (if is_from_to 1 MOST_ENTRIES entries then Some entries else None) }
    {
        if entries >= 1 && entries <= MOST_ENTRIES {
            Some(EntryLimit { entries })
        } else {
            None
        }
    }

    /// The limit where nothing else is said: 100,000 entries.
    pub fn usual() -> EntryLimit
        ensures { result ≡ USUAL_ENTRIES }
    {
        EntryLimit {
            entries: USUAL_ENTRIES,
        }
    }

    /// The number of entries.
    pub fn entries(self) -> usize
        ensures value { result ≡ self }
        ensures at_least { 1 ≤ result }
        ensures at_most { result ≤ MOST_ENTRIES }
    {
        self.entries
    }
}
