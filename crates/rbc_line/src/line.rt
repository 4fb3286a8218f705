//! A line of a track.

ghost use Rattle.std.specs.Prelude.{◌≡◌, ℕ, ◌*◌, ◌-◌, ◌<◌, ◌≤◌, [], ◌∷◌, ◌++◌, length, take, drop, Some, false, IsTrue, IfOk, IfSome, is_ok, if◌then◌else◌};
ghost use Rattle.std.specs.Arc.{arc_value};
ghost use Rattle.rbc_model.specs.declared.limits.TheConstants.{LONGEST_TRACK, MOST_SECTIONS};
ghost use Rattle.rbc_model.specs.declared.places.Leg.{Leg};
ghost use Rattle.rbc_model.specs.Lines.{IsLine, first_leg, grades, has_leg, has_section, last_leg, legs_begun_before, legs_ending_by, line_length, metre_at, place_of, speeds};
ghost use Rattle.rbc_model.specs.SoundTracks.{IsInForm, IsSound, is_good_group};
ghost use Rattle.rbc_model.specs.Tracks.{is_linked};

use crate::along::levels;
use crate::legs;
use rbc_model::{BaliseGroup, Direction, Leg, Memory, Metre, SectionId};
use rbc_steps::{Grade, Runs, Speed};
use rbc_track::Track;
use std::alloc::Global;
use std::marker::Model;
use std::sync::Arc;

/// The legs that a train runs along, in order: at least one, each linked to the next, and no section twice. Places
/// on a line are in metres from its start. A line shares the track that it is of.
#[derive(Drop)]
pub struct Line {
    track: Arc<Track>,
    legs: Vec<Leg>,
    length: u32,
}

impl Model for Line {
    ghost use Rattle.std.specs.Arc.{arc_value};
    ghost use Rattle.rbc_line.specs.OnTracks.{IsLineOfLength, LineOnTrack};

    ghost Value = { LineOnTrack };

    ghost view = { λ l. record { track = arc_value l.track; legs = l.legs.items } };

    ghost invariant = { λ l. IsLineOfLength (arc_value l.track) l.legs.items l.length };
}

impl Line {
    /// The line of this leg of the track.
    ///
    /// # Errors
    ///
    /// [`Memory`] where there is none for the leg.
    pub fn new(alloc: Global, track: &Arc<Track>, leg: Leg) -> Result<Line, Memory>
        requires { leg.section < length (arc_value track.now).sections }
        ensures { IfOk result (λ line. line ≡ record { track = arc_value track.now; legs = leg ∷ [] }) }
    {
        track.known();
        let length = track.metres_of(&leg);
        let mut legs = Vec::new(alloc);
        legs.push(leg)?;
        Ok(Line {
            track: track.clone()?,
            legs,
            length,
        })
    }

    /// The line of these legs of the track, of which each is linked to the next and none has the section of another.
    ///
    /// # Errors
    ///
    /// [`Memory`] where there is none for the legs.
    pub fn along(alloc: Global, track: &Arc<Track>, legs: &[Leg]) -> Result<Line, Memory>
        requires { IsLine (arc_value track.now) legs.now }
        ensures { IfOk result (λ line. line ≡ record { track = arc_value track.now; legs = legs.now }) }
    {
        track.known();
        let length = legs::length_of(track, legs);
        let legs = Vec::from_slice(alloc, legs)?;
        Ok(Line {
            track: track.clone()?,
            legs,
            length,
        })
    }

    /// The track is in form and sound. Of the legs each is linked to the next, and none has the section of another. They have at
    /// most 409,600,000 metres. This does nothing.
    pub fn known(&self)
        ensures form { IsInForm self.now.track }
        ensures sound { IsSound self.now.track }
        ensures line { IsLine self.now.track self.now.legs }
        ensures at_most { line_length self.now.track self.now.legs ≤ MOST_SECTIONS * LONGEST_TRACK }
    {
        let _ = &self.legs;
    }

    /// The track that the line is of.
    pub fn track(&self) -> &Arc<Track>
        ensures track { arc_value result.now ≡ self.now.track }
    {
        &self.track
    }

    /// How many sections its track has: 1 to 4,096.
    pub fn section_count(&self) -> usize
        ensures { result ≡ length self.now.track.sections }
    {
        self.track.section_count()
    }

    /// The legs in the order in which a train runs along them.
    pub fn legs(&self) -> &[Leg]
        ensures legs { result.now ≡ self.now.legs }
    {
        self.legs.as_slice()
    }

    /// How many metres the line has: at most 409,600,000.
    pub fn length(&self) -> u32
        ensures length { result ≡ line_length self.now.track self.now.legs }
    {
        self.length
    }

    /// The first leg.
    pub fn first(&self) -> Leg
        ensures leg { first_leg self.now.legs ≡ Some result }
    {
        self.legs[0]
    }

    /// The last leg.
    pub fn last(&self) -> Leg
        ensures leg { last_leg self.now.legs ≡ Some result }
    {
        self.legs[self.legs.len() - 1]
    }

    /// Whether the section stands on the line.
    pub fn has_section(&self, section: SectionId) -> bool
        ensures { result ≡ has_section self.now.legs section }
    {
        legs::has_section(&self.legs, section)
    }

    /// Whether the leg stands on the line.
    pub fn has_leg(&self, leg: Leg) -> bool
        ensures { result ≡ has_leg self.now.legs leg }
    {
        legs::has_leg(&self.legs, leg)
    }

    /// The metre at a place.
    pub fn metre(&self, place: u32) -> Metre
        requires { place < line_length self.now.track self.now.legs }
        ensures { metre_at self.now.track self.now.legs place ≡ Some result }
    {
        legs::metre_at(&self.track, &self.legs, place)
    }

    /// The place of a balise group of the track, if its section stands on the line in this direction.
    pub fn place_of(&self, group: &BaliseGroup, direction: Direction) -> Option<u32>
        requires { IsTrue (is_good_group self.now.track group.now) }
        ensures place { result ≡ place_of self.now.track self.now.legs group.now direction }
        ensures on_line { IfSome result (λ place. place ≤ line_length self.now.track self.now.legs) }
    {
        legs::place_of(&self.track, &self.legs, group, direction)
    }

    /// How many legs end at the place or before it.
    pub fn legs_ending_by(&self, place: u32) -> usize
        ensures count { result ≡ legs_ending_by self.now.track place self.now.legs }
        ensures at_most { result ≤ length self.now.legs }
    {
        legs::ending_by(&self.track, &self.legs, place)
    }

    /// How many legs begin before the place.
    pub fn legs_begun_before(&self, place: u32) -> usize
        ensures count { result ≡ legs_begun_before self.now.track place self.now.legs }
        ensures at_most { result ≤ length self.now.legs }
    {
        legs::begun_before(&self.track, &self.legs, place)
    }

    /// Puts a leg behind the last one, which is linked to it. Its section does not stand on the line yet. Where
    /// memory is refused the line stays as it is.
    ///
    /// # Errors
    ///
    /// [`Memory`] where there is none for the leg.
    pub fn extend(&mut self, leg: Leg) -> Result<(), Memory>
        requires linked { (last : Leg) → last_leg self.old.legs ≡ Some last
            → IsTrue (is_linked self.old.track last leg) }
        requires absent { has_section self.old.legs leg.section ≡ false }
        ensures { self.new
            ≡ (if is_ok result then record self.old { legs = self.old.legs ++ leg ∷ [] } else self.old) }
    {
        let metres = self.track.metres_of(&leg);
        self.legs.push(leg)?;
        self.length += metres;
        Ok(())
    }

    /// Puts a leg in front of the first one, to which it is linked. Its section does not stand on the line yet. Where
    /// memory is refused the line stays as it is.
    ///
    /// # Errors
    ///
    /// [`Memory`] where there is none for the leg.
    pub fn extend_front(&mut self, leg: Leg) -> Result<(), Memory>
        requires linked { (first : Leg) → first_leg self.old.legs ≡ Some first
            → IsTrue (is_linked self.old.track leg first) }
        requires absent { has_section self.old.legs leg.section ≡ false }
        ensures { self.new ≡ (if is_ok result then record self.old { legs = leg ∷ self.old.legs } else self.old) }
    {
        let metres = self.track.metres_of(&leg);
        self.legs.insert(0, leg)?;
        self.length += metres;
        Ok(())
    }

    /// Drops the first `count` legs of the line. It takes no memory.
    pub fn cut_front(&mut self, count: usize)
        requires { count < length self.old.legs }
        ensures { self.new ≡ record self.old { legs = drop count self.old.legs } }
    {
        self.length -= legs::length_of(&self.track, &self.legs[..count]);
        self.legs.rotate_left(count);
        let left = self.legs.len() - count;
        self.legs.truncate(left);
    }

    /// Drops the last `count` legs of the line. It takes no memory.
    pub fn cut_back(&mut self, count: usize)
        requires { count < length self.old.legs }
        ensures { self.new ≡ record self.old { legs = take (length self.old.legs - count) self.old.legs } }
    {
        let left = self.legs.len() - count;
        self.length -= legs::length_of(&self.track, &self.legs[left..]);
        self.legs.truncate(left);
    }

    /// The speeds from one place up to another, at most 100,000 m farther on.
    ///
    /// # Errors
    ///
    /// [`Memory`] where there is none for the runs.
    pub fn speeds(&self, alloc: Global, from: u32, to: u32) -> Result<Runs<Speed>, Memory>
        requires some { from < to }
        requires on_line { to ≤ line_length self.now.track self.now.legs }
        requires within_limit { to - from ≤ LONGEST_TRACK }
        ensures { IfOk result (λ runs.
            runs ≡ record { steps = speeds self.now.track self.now.legs from to; end = to - from }) }
    {
        levels::<Speed>(alloc, &self.track, &self.legs, from, to)
    }

    /// The gradients from one place up to another, at most 100,000 m farther on, positive where a train on the line
    /// runs uphill.
    ///
    /// # Errors
    ///
    /// [`Memory`] where there is none for the runs.
    pub fn grades(&self, alloc: Global, from: u32, to: u32) -> Result<Runs<Grade>, Memory>
        requires some { from < to }
        requires on_line { to ≤ line_length self.now.track self.now.legs }
        requires within_limit { to - from ≤ LONGEST_TRACK }
        ensures { IfOk result (λ runs.
            runs ≡ record { steps = grades self.now.track self.now.legs from to; end = to - from }) }
    {
        levels::<Grade>(alloc, &self.track, &self.legs, from, to)
    }

    /// A line of the same legs on the same track.
    ///
    /// # Errors
    ///
    /// [`Memory`] where there is none for the legs.
    pub fn copy(&self, alloc: Global) -> Result<Line, Memory>
        ensures { IfOk result (λ line. line ≡ self.now) }
    {
        let track = self.track.clone()?;
        let legs = Vec::from_slice(alloc, &self.legs)?;
        Ok(Line {
            track,
            legs,
            length: self.length,
        })
    }
}
