//! Receipts for entries.

ghost use Rattle.std.specs.Prelude.{◌≡◌, ◌↔◌, IsTrue};
ghost use Rattle.rbc_model.specs.Histories.{Granted, Heard};
ghost use Rattle.rbc_record.specs.Entries.{entry_of};

use crate::{Entry, Grant};
use rbc_model::Told;
use std::marker::Model;

/// A receipt for an entry that a record has: the entry, and how many stand before it.
#[derive(Drop)]
pub struct Receipt {
    place: u64,
    entry: Entry,
}

impl Model for Receipt {
    ghost use Rattle.rbc_model.specs.Histories.{Receipt};
    ghost use Rattle.rbc_record.specs.Entries.{entry_of};

    ghost Value = { Receipt };

    ghost view = { λ r. record { place = r.place; entry = entry_of r.entry } };
}

impl Receipt {
    /// A receipt for what was told, at this place.
    pub fn of_told(place: u64, told: Told) -> Receipt
        ensures { result ≡ record { place = place; entry = Heard told } }
    {
        Receipt {
            place,
            entry: Entry::Heard(told),
        }
    }

    /// A receipt for what was granted, at this place.
    pub fn of_grant(place: u64, grant: Grant) -> Receipt
        ensures { result ≡ record { place = place; entry = Granted grant } }
    {
        Receipt {
            place,
            entry: Entry::Granted(grant),
        }
    }

    /// How many entries stand before it: 0 to 49,999,999.
    pub fn place(&self) -> u64
        ensures { result ≡ self.now.place }
    {
        self.place
    }

    /// The entry.
    pub fn entry(&self) -> &Entry
        ensures { entry_of result.now ≡ self.now.entry }
    {
        &self.entry
    }

    /// Whether it is for an entry that says just this.
    pub fn is_for(&self, entry: &Entry) -> bool
        ensures { IsTrue result ↔ (self.now.entry ≡ entry_of entry.now) }
    {
        self.entry == *entry
    }
}
