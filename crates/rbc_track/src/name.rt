//! Names of sections and routes.

ghost use Rattle.std.specs.Prelude.{◌≡◌, Some, IsTrue, bytes_eq};
ghost use Rattle.std.specs.List.{list_all};
ghost use Rattle.std.specs.Cmp.{partial_equiv_from_equiv};
ghost use Rattle.std.specs.Cmp.Lexicographic.{nat_list_eq_equiv};
ghost use Rattle.std.specs.Cmp.Rules.{hashing};
ghost use Rattle.std.specs.Hash as fed;
ghost use Rattle.std.proofs.Common.{rules};
ghost use Rattle.rbc_model.specs.Names.{is_name_byte, is_name, name_in};

use rbc_model::limits::LONGEST_NAME;
use std::hash::{Hash, Hasher};
use std::marker::Model;
use std::{fmt, str};

/// The name of a section or a route: 1 to 16 bytes of `A` to `Z`, `a` to `z`, `0` to `9` and `_`. It is kept in place
/// and takes no memory.
#[derive(Clone, Copy)]
pub struct Name {
    bytes: [u8; LONGEST_NAME],
    count: usize,
}

impl Model for Name {
    ghost use Rattle.std.specs.Prelude.{ℕ, List, take, length};
    ghost use Rattle.rbc_track.specs.Kept.{filled, IsKept};

    ghost Value = { List ℕ };

    ghost view = { λ n. take n.count n.bytes };

    ghost invariant = { λ n. IsKept n.bytes n.count };

    ghost inverse = { λ text. record { bytes = filled text; count = length text } };

    ghost use Rattle.rbc_track.specs.KeptBack.{kept_back};

    ghost inverse_ok = { kept_back };
}

/// Whether a name may have the byte.
fn may_stand(byte: u8) -> bool
    ensures { result ≡ is_name_byte byte }
{
    matches!(byte, b'A'..=b'Z' | b'a'..=b'z' | b'0'..=b'9' | b'_')
}

/// Whether a name may have each of the bytes.
fn may_all_stand(text: &[u8]) -> bool
    ensures { result ≡ list_all is_name_byte text.now }
{
    text.iter().all(|byte| may_stand(*byte))
}

/// Whether the text is a name.
fn is_name(text: &[u8]) -> bool
    ensures { result ≡ is_name text.now }
{
    text.len() >= 1 && text.len() <= LONGEST_NAME && may_all_stand(text)
}

impl Name {
    /// The name that the text is, if it is one.
    pub fn new(text: &[u8]) -> Option<Name>
        ensures { result ≡ name_in text.now }
    {
        if !is_name(text) {
            return None;
        }
        let mut bytes = [0; LONGEST_NAME];
        bytes[..text.len()].copy_from_slice(text);
        Some(Name {
            bytes,
            count: text.len(),
        })
    }

    /// It has 1 to 16 bytes, each of which may stand in a name. This does nothing.
    pub fn known(&self)
        ensures name { IsTrue (is_name self.now) }
    {
        let _ = &self.bytes;
    }

    /// The name's bytes.
    pub fn text(&self) -> &[u8]
        ensures text { result.now ≡ self.now }
    {
        &self.bytes[..self.count]
    }

    /// The name as text.
    pub fn as_str(&self) -> &str
        ensures { result.now ≡ self.now }
    {
        // The bytes of a name are UTF-8.
        self.known();
        match str::from_utf8(self.text()) {
            Ok(text) => text,
            Err(_) => "",
        }
    }
}

impl PartialEq for Name {
    ghost eq = { bytes_eq };

    ghost laws = { partial_equiv_from_equiv nat_list_eq_equiv };

    fn eq(&self, other: &Name) -> bool {
        self.text() == other.text()
    }
}

impl Eq for Name {
    ghost laws = { nat_list_eq_equiv };
}

impl Hash for Name {
    ghost hash_input = { fed.slice fed.u8 };

    ghost respects_eq = { Prim.search (hashing, rules) };

    fn hash<H: Hasher>(&self, state: &mut H) {
        self.text().hash(state);
    }
}

impl fmt::Display for Name {
    ghost output = { λ name. Some name };

    fn fmt<W: fmt::Write>(&self, f: &mut fmt::Formatter<W>) -> fmt::Result {
        f.write_str(self.as_str())
    }
}

impl fmt::Debug for Name {
    fn fmt<W: fmt::Write>(&self, f: &mut fmt::Formatter<W>) -> fmt::Result {
        f.write_str(self.as_str())
    }
}
