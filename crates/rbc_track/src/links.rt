//! Links, each found by a look-up.

ghost use Rattle.std.specs.Prelude.{◌≡◌, [], ◌∷◌, ◌++◌, length, is_ok, if◌then◌else◌};
ghost use Rattle.std.specs.List.{list_any};
ghost use Rattle.rbc_model.specs.Tracks.{Track, joins};
ghost use Rattle.rbc_model.specs.SoundTracks.{is_good_link};
ghost use Rattle.rbc_track.specs.LinkKeys.{leg_key, link_key, reverse_key, back_key};

use crate::legs::is_leg_of;
use rbc_model::{Direction, Leg, Link, Memory};
use std::alloc::Global;
use std::collections::HashSet;
use std::marker::Model;

/// A leg as links are looked up by it.
#[derive(Clone, Copy, PartialEq, Eq, Hash)]
struct LegKey {
    section: usize,
    rises: bool,
}

/// What a link is looked up by: its two legs, in the order in which it names them.
#[derive(Clone, Copy, PartialEq, Eq, Hash)]
struct LinkKey {
    from: LegKey,
    to: LegKey,
}

/// The links of a track, in order. Beside them stands the set of their keys, so that a link is found by a look-up.
#[derive(Drop)]
pub(crate) struct Links {
    links: Vec<Link>,
    keys: HashSet<LinkKey>,
}

impl Model for Links {
    ghost use Rattle.std.specs.Prelude.{◌≡◌, List};
    ghost use Rattle.rbc_model.specs.declared.tracks.Link.{Link};
    ghost use Rattle.rbc_track.specs.LinkKeys.{AreKeysOf};

    ghost Value = { List Link };

    ghost view = { λ s. s.links.items };

    ghost invariant = { λ s. AreKeysOf s.links.items s.keys.keys };
}

/// The key of the leg.
fn leg_key(leg: &Leg) -> LegKey
    ensures { result ≡ leg_key leg.now }
{
    LegKey {
        section: leg.section.index(),
        rises: matches!(leg.direction, Direction::Rising),
    }
}

/// The key of a link from the one leg to the other.
fn link_key(from: &Leg, to: &Leg) -> LinkKey
    ensures { result ≡ link_key from.now to.now }
{
    LinkKey {
        from: leg_key(from),
        to: leg_key(to),
    }
}

/// The key of the leg's section, run the other way.
fn reverse_key(leg: &LegKey) -> LegKey
    ensures { result ≡ reverse_key leg.now }
{
    LegKey {
        section: leg.section,
        rises: !leg.rises,
    }
}

/// The key of the link that leads back: from the reverse of the second leg to the reverse of the first one.
fn back_key(key: &LinkKey) -> LinkKey
    ensures { result ≡ back_key key.now }
{
    LinkKey {
        from: reverse_key(&key.to),
        to: reverse_key(&key.from),
    }
}

impl Links {
    /// No links.
    pub(crate) fn new(alloc: Global) -> Links
        ensures { result ≡ [] }
    {
        Links {
            links: Vec::new(alloc),
            keys: HashSet::new(alloc),
        }
    }

    /// Whether a train may run from the one leg onto the other: by a link, or by one from the other's reverse to the
    /// first one's reverse.
    pub(crate) fn linked(&self, from: Leg, to: Leg) -> bool
        ensures { result ≡ list_any (joins from to) self.now }
    {
        let key = link_key(&from, &to);
        let back = back_key(&key);
        self.keys.contains(&key) || self.keys.contains(&back)
    }

    /// Puts one more link behind the others, which stay as they are where memory is refused.
    pub(crate) fn push(&mut self, link: Link) -> Result<(), Memory>
        ensures { self.new ≡ (if is_ok result then self.old ++ link ∷ [] else self.old) }
    {
        let key = link_key(&link.from, &link.to);
        self.links.push(link)?;
        match self.keys.insert(key) {
            Ok(_) => Ok(()),
            Err(_) => {
                self.links.pop();
                Err(Memory)
            }
        }
    }

    /// Whether the link may stand behind these in a track with this number of sections: its legs are of two of the
    /// sections, and no link joins them yet.
    pub(crate) fn is_good(&self, sections: usize, link: Link) -> bool
        ensures { (track : Track) → length track.sections ≡ sections → result ≡ is_good_link track self.now link }
    {
        let Link { from, to } = &link;
        is_leg_of(sections, from)
            && is_leg_of(sections, to)
            && from.section != to.section
            && !self.linked(*from, *to)
    }

    /// The links in order.
    pub(crate) fn as_slice(&self) -> &[Link]
        ensures { result.now ≡ self.now }
    {
        self.links.as_slice()
    }
}
