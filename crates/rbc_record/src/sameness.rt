//! Two entries are equal where they say the same.

ghost use Rattle.std.specs.Prelude.{◌≡◌, ◌↔◌, IsTrue};
ghost use Rattle.std.specs.Cmp.{partial_equiv_from_equiv};
ghost use Rattle.rbc_record.specs.Entries.{entry_of};
ghost use Rattle.rbc_record.specs.SameEntries.{is_same_authority, is_same_grant, is_same_held, same_entries, same_grants};

use crate::{Entry, Grant};
use rbc_packet::Authority;

impl PartialEq for Entry {
    ghost eq = { is_same_held };

    ghost laws = { partial_equiv_from_equiv same_entries };

    /// Whether the two entries say the same.
    fn eq(&self, other: &Entry) -> bool
        ensures tests { result ≡ is_same_held self.now other.now }
        ensures same { IsTrue result ↔ (entry_of self.now ≡ entry_of other.now) }
    {
        is_same_held(self, other)
    }
}

impl Eq for Entry {
    ghost laws = { same_entries };
}

impl PartialEq for Grant {
    ghost eq = { is_same_grant };

    ghost laws = { partial_equiv_from_equiv same_grants };

    /// Whether the same is granted.
    fn eq(&self, other: &Grant) -> bool
        ensures tests { result ≡ is_same_grant self.now other.now }
        ensures same { IsTrue result ↔ (self.now ≡ other.now) }
    {
        is_same_grant(self, other)
    }
}

impl Eq for Grant {
    ghost laws = { same_grants };
}

/// Whether both were told, or both granted, and the same.
fn is_same_held(one: &Entry, other: &Entry) -> bool
    ensures { result ≡ is_same_held one.now other.now }
{
    match (one, other) {
        (Entry::Heard(one), Entry::Heard(other)) => one == other,
        (Entry::Granted(one), Entry::Granted(other)) => one == other,
        _ => false,
    }
}

/// Whether the same is granted, part by part.
fn is_same_grant(one: &Grant, other: &Grant) -> bool
    ensures { result ≡ is_same_grant one.now other.now }
{
    one.train() == other.train()
        && one.from() == other.from()
        && is_same_authority(one.authority(), other.authority())
        && one.obstacle() == other.obstacle()
}

/// Whether the two authorities say the same, part by part.
fn is_same_authority(one: &Authority, other: &Authority) -> bool
    ensures { result ≡ is_same_authority one.now other.now }
{
    one.time() == other.time()
        && one.group() == other.group()
        && one.nominal() == other.nominal()
        && one.end() == other.end()
        && one.speeds().steps() == other.speeds().steps()
        && one.grades().steps() == other.grades().steps()
}
