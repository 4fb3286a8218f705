//! Keys in order, each found by a look-up.

ghost use Rattle.std.specs.Prelude.{◌≡◌, [], ◌∷◌, ◌++◌, not, false, position, IfOk, OnErr, if◌then◌else◌};
ghost use Rattle.std.specs.List.{list_any};

use rbc_model::Memory;
use std::alloc::Global;
use std::collections::HashMap;
use std::hash::Hash;
use std::marker::Model;

/// Keys in the order in which they came, each once. Where one stands, from 0 on, is found by a look-up.
#[derive(Drop)]
pub struct Keys<K: Copy + Eq + Hash> {
    keys: Vec<K>,
    places: HashMap<K, usize>,
}

impl<K: Copy + Eq + Hash> Model for Keys<K> {
    ghost use Rattle.std.specs.Prelude.{List};
    ghost use Rattle.rbc_track.specs.Keys.{AreFound};

    ghost Value = { List K };

    ghost view = { λ k. k.keys.items };

    ghost invariant = { λ k. AreFound K.eq k.keys.items k.places };
}

impl<K: Copy + Eq + Hash + Drop> Keys<K> {
    /// No keys.
    pub fn new(alloc: Global) -> Keys<K>
        ensures { result ≡ [] }
    {
        Keys {
            keys: Vec::new(alloc),
            places: HashMap::new(alloc),
        }
    }

    /// The place of a key.
    pub fn place(&self, key: K) -> Option<usize>
        ensures { result ≡ position (K.eq key) self.now }
    {
        self.places.get(&key).copied()
    }

    /// Puts a key behind the others, unless it is there. Tells whether it is new. Where memory is refused nothing changes.
    ///
    /// # Errors
    ///
    /// `Memory`, where the allocator refuses room for a new key.
    pub fn insert(&mut self, key: K) -> Result<bool, Memory>
        ensures new { IfOk result (λ new. new ≡ not (list_any (K.eq key) self.old)) }
        ensures keys { IfOk result (λ new. self.new ≡ (if new then self.old ++ key ∷ [] else self.old)) }
        ensures absent { OnErr result (list_any (K.eq key) self.old ≡ false) }
        ensures unchanged { OnErr result (self.new ≡ self.old) }
    {
        if self.places.contains_key(&key) {
            return Ok(false);
        }
        self.keys.reserve(1)?;
        self.places.insert(key, self.keys.len())?;
        self.keys.push_reserved(key);
        Ok(true)
    }
}
