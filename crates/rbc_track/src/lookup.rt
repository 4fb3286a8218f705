//! Names and identities, each found by a look-up.

ghost use Rattle.std.specs.Prelude.{◌≡◌, [], ◌∷◌, ◌++◌, not, false, position, bytes_eq, IfOk, OnErr, if◌then◌else◌};
ghost use Rattle.std.specs.List.{list_any};
ghost use Rattle.rbc_model.specs.Tracks.{group_name_eq};

use crate::{Keys, Name};
use rbc_model::{GroupName, Memory};
use std::alloc::Global;
use std::marker::Model;

/// The names of a table's entries in order, each once. A name is found by a look-up.
#[derive(Drop)]
pub(crate) struct Names {
    keys: Keys<Name>,
}

impl Model for Names {
    ghost use Rattle.std.specs.Prelude.{ℕ, List};

    ghost Value = { List (List ℕ) };

    ghost view = { λ names. names.keys };
}

impl Names {
    /// No names.
    pub(crate) fn new(alloc: Global) -> Names
        ensures { result ≡ [] }
    {
        Names {
            keys: Keys::new(alloc),
        }
    }

    /// Puts a name behind the others, unless it is there. Tells whether it is new.
    pub(crate) fn insert(&mut self, name: Name) -> Result<bool, Memory>
        ensures new { IfOk result (λ new. new ≡ not (list_any (λ other. bytes_eq other name) self.old)) }
        ensures names { IfOk result (λ new. self.new ≡ (if new then self.old ++ name ∷ [] else self.old)) }
        ensures memory { OnErr result (list_any (λ other. bytes_eq other name) self.old ≡ false) }
    {
        self.keys.insert(name)
    }

    /// The place of a name.
    pub(crate) fn position(&self, name: Name) -> Option<usize>
        ensures { result ≡ position (λ other. bytes_eq other name) self.now }
    {
        self.keys.place(name)
    }
}

/// The identities of balise groups in order, each once. An identity is found by a look-up.
#[derive(Drop)]
pub(crate) struct GroupNames {
    keys: Keys<(u16, u16)>,
}

impl Model for GroupNames {
    ghost use Rattle.std.specs.Prelude.{List, map};
    ghost use Rattle.rbc_model.specs.GroupNames.{GroupName};
    ghost use Rattle.rbc_track.specs.GroupKeys.{group_name};

    ghost Value = { List GroupName };

    ghost view = { λ names. map group_name names.keys };
}

/// What an identity is looked up by: its country or region, and its number there.
fn group_key(name: GroupName) -> (u16, u16)
    ensures { result ≡ (name.country, name.number) }
{
    (name.country(), name.number())
}

impl GroupNames {
    /// No identities.
    pub(crate) fn new(alloc: Global) -> GroupNames
        ensures { result ≡ [] }
    {
        GroupNames {
            keys: Keys::new(alloc),
        }
    }

    /// Puts an identity behind the others, unless it is there. Tells whether it is new.
    pub(crate) fn insert(&mut self, name: GroupName) -> Result<bool, Memory>
        ensures new { IfOk result (λ new. new ≡ not (list_any (λ other. group_name_eq other name) self.old)) }
        ensures names { IfOk result (λ new. self.new ≡ (if new then self.old ++ name ∷ [] else self.old)) }
        ensures memory { OnErr result (list_any (λ other. group_name_eq other name) self.old ≡ false) }
    {
        self.keys.insert(group_key(name))
    }

    /// The place of an identity.
    pub(crate) fn position(&self, name: GroupName) -> Option<usize>
        ensures { result ≡ position (λ other. group_name_eq other name) self.now }
    {
        self.keys.place(group_key(name))
    }
}
