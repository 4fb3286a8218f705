//! Lines that are walked along and not built.

ghost use Rattle.std.specs.Prelude.{◌≡◌, ◌*◌, ◌<◌, ◌≤◌, [], ◌∷◌, length, drop, None, Some, if◌then◌else◌};
ghost use Rattle.rbc_extent.specs.Walks.{IsSameWay, head, legs_ahead, legs_behind};
ghost use Rattle.rbc_model.specs.declared.limits.TheConstants.{LONGEST_TRACK, MOST_SECTIONS};
ghost use Rattle.rbc_model.specs.Lines.{IsLine, first_leg, has_section, last_leg, line_length};
ghost use Rattle.rbc_model.specs.Locks.{longer_ahead, longer_back};
ghost use Rattle.rbc_model.specs.Scales.{farthest};
ghost use Rattle.rbc_model.specs.Tracks.{metres_of};
ghost use Rattle.rbc_model.specs.SoundTracks.{IsSound};
ghost use Rattle.rbc_scene_laws.specs.Good.{IsGoodLocks};

use rbc_line::Line;
use rbc_locks::Locks;
use rbc_model::{Leg, SectionId};
use rbc_track::Track;
use std::marker::Model;

/// A line of which only its known legs stand anywhere. Behind them it has one leg more, and a number of legs that are
/// locked one behind the other from there on; before them, a number of legs that the first one is locked behind. It
/// takes no memory, and is slow: whether a section stands on it is found by walking along it.
#[derive(Drop)]
pub(crate) struct Walk<'a> {
    track: &'a Track,
    locks: &'a Locks,
    known: &'a [Leg],
    /// The leg behind the known ones.
    turn: Leg,
    /// How many legs were gained before the first one of these.
    behind: usize,
    /// How many legs were gained behind the last one.
    ahead: usize,
    first: Leg,
    last: Leg,
    metres: u32,
}

impl<'a> Model for Walk<'a> {
    ghost use Rattle.rbc_extent.specs.Walks.{IsWalk, Walked, walked_legs};

    ghost Value = { Walked };

    ghost view = { λ w. record {
      line = record {
        track = w.track.now;
        legs = walked_legs w.locks.now w.known.now w.turn w.behind w.ahead;
      };
      locks = w.locks.now;
      behind = w.behind;
    } };

    ghost invariant = { λ w.
        IsWalk w.track.now w.locks.now w.known.now w.turn w.behind w.ahead w.first w.last w.metres };
}

/// The first of the known legs and the one behind them.
fn head(known: &[Leg], turn: Leg) -> Leg
    ensures { result ≡ head known.now turn }
{
    match known.first() {
        Some(leg) => *leg,
        None => turn,
    }
}

/// Whether one of the `count` legs behind the leg is of the section.
fn has_ahead(locks: &Locks, leg: Leg, count: usize, section: SectionId) -> bool
    ensures { result ≡ has_section (legs_ahead locks.now leg count) section }
{
    let mut last = leg;
    for _passed in 0..count {
        let Some(next) = locks.next(last) else {
            return false;
        };
        if next.section == section {
            return true;
        }
        last = next;
    }
    false
}

/// Whether one of the `count` legs before the leg is of the section.
fn has_behind(locks: &Locks, leg: Leg, count: usize, section: SectionId) -> bool
    ensures { result ≡ has_section (legs_behind locks.now leg count) section }
{
    let mut first = leg;
    for _passed in 0..count {
        let Some(prev) = locks.prev(first) else {
            return false;
        };
        if prev.section == section {
            return true;
        }
        first = prev;
    }
    false
}

/// Whether one of the legs is of the section.
fn has_known(legs: &[Leg], section: SectionId) -> bool
    ensures { result ≡ has_section legs.now section }
{
    legs.iter().any(|leg| leg.section == section)
}

impl<'a> Walk<'a> {
    /// Along the leg alone.
    pub(crate) fn alone(track: &'a Track, locks: &'a Locks, leg: Leg) -> Walk<'a>
        requires locks { IsGoodLocks track.now locks.now }
        requires leg { leg.section < length track.now.sections }
        ensures { result ≡ record {
          line = record { track = track.now; legs = leg ∷ [] };
          locks = locks.now;
          behind = 0;
        } }
    {
        // A track is sound and in form.
        track.known();
        let none: &[Leg] = &[];
        let metres = track.metres_of(&leg);
        Walk {
            track,
            locks,
            known: none,
            turn: leg,
            behind: 0,
            ahead: 0,
            first: leg,
            last: leg,
            metres,
        }
    }

    /// Along the line.
    pub(crate) fn along(locks: &'a Locks, line: &'a Line) -> Walk<'a>
        requires { IsGoodLocks line.now.track locks.now }
        ensures { result ≡ record { line = line.now; locks = locks.now; behind = 0 } }
    {
        line.known();
        let legs = line.legs();
        let known = legs.len() - 1;
        Walk {
            track: line.track(),
            locks,
            known: &legs[..known],
            turn: line.last(),
            behind: 0,
            ahead: 0,
            first: line.first(),
            last: line.last(),
            metres: line.length(),
        }
    }

    /// The track is sound, and the locks are good for it. Of the legs each is linked to the next, and none has the
    /// section of another. They have at most 409,600,000 metres. This does nothing.
    pub(crate) fn known(&self)
        ensures sound { IsSound self.now.line.track }
        ensures locks { IsGoodLocks self.now.line.track self.now.locks }
        ensures line { IsLine self.now.line.track self.now.line.legs }
        ensures at_most { line_length self.now.line.track self.now.line.legs ≤ MOST_SECTIONS * LONGEST_TRACK }
    {
        let _ = &self.known;
    }

    /// How many sections the track has.
    pub(crate) fn section_count(&self) -> usize
        ensures count { result ≡ length self.now.line.track.sections }
    {
        self.track.section_count()
    }

    /// How many metres from its group on an authority may end.
    pub(crate) fn farthest_end(&self) -> u32
        ensures { result ≡ farthest self.now.line.track.format }
    {
        self.track.farthest_end()
    }

    /// How many metres the legs have.
    pub(crate) fn length(&self) -> u32
        ensures length { result ≡ line_length self.now.line.track self.now.line.legs }
    {
        self.metres
    }

    /// The first leg.
    pub(crate) fn first(&self) -> Leg
        ensures { first_leg self.now.line.legs ≡ Some result }
    {
        self.first
    }

    /// The last leg.
    pub(crate) fn last(&self) -> Leg
        ensures last { last_leg self.now.line.legs ≡ Some result }
    {
        self.last
    }

    /// How many metres the first leg has.
    pub(crate) fn first_metres(&self) -> u32
        ensures { (first : Leg) → first_leg self.now.line.legs ≡ Some first
            → result ≡ metres_of self.now.line.track first.section }
    {
        self.track.metres_of(&self.first)
    }

    /// Whether the section stands on the line.
    fn has_section(&self, section: SectionId) -> bool
        ensures { result ≡ has_section self.now.line.legs section }
    {
        has_behind(
            self.locks,
            head(self.known, self.turn),
            self.behind,
            section,
        ) || has_known(self.known, section)
            || self.turn.section == section
            || has_ahead(self.locks, self.turn, self.ahead, section)
    }

    /// Goes on to the leg that is locked behind the last one. Tells whether there is such a leg, whose section does
    /// not stand on the line yet; where there is none the line stays as it is.
    pub(crate) fn lengthen_ahead(&mut self) -> bool
        ensures way { IsSameWay self.old self.new }
        ensures behind { self.new.behind ≡ self.old.behind }
        ensures longer { (if result then Some self.new.line.legs else None)
            ≡ longer_ahead self.old.locks self.old.line.legs }
    {
        let Some(leg) = self.locks.next(self.last) else {
            return false;
        };
        if self.has_section(leg.section) {
            return false;
        }
        self.metres += self.track.metres_of(&leg);
        self.ahead += 1;
        self.last = leg;
        true
    }

    /// Goes back to the leg that the first one is locked behind. Tells whether there is such a leg, whose section does
    /// not stand on the line yet; where there is none the line stays as it is.
    pub(crate) fn lengthen_back(&mut self) -> bool
        ensures way { IsSameWay self.old self.new }
        ensures longer { (if result then Some self.new.line.legs else None)
            ≡ longer_back self.old.locks self.old.line.legs }
    {
        let Some(leg) = self.locks.prev(self.first) else {
            return false;
        };
        if self.has_section(leg.section) {
            return false;
        }
        self.metres += self.track.metres_of(&leg);
        self.behind += 1;
        self.first = leg;
        true
    }

    /// Drops the first of several legs, where none was gained behind.
    pub(crate) fn drop_first(&mut self)
        requires none_behind { self.old.behind ≡ 0 }
        requires several { 1 < length self.old.line.legs }
        ensures way { IsSameWay self.old self.new }
        ensures none_behind { self.new.behind ≡ 0 }
        ensures legs { self.new.line.legs ≡ drop 1 self.old.line.legs }
    {
        self.metres -= self.track.metres_of(&self.first);
        if let Some((_, later)) = self.known.split_first() {
            self.known = later;
            self.first = head(later, self.turn);
            return;
        }
        self.turn = self.locks.next(self.turn).unwrap();
        self.ahead -= 1;
        self.first = self.turn;
    }
}
