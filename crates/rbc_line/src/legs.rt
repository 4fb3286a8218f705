//! Walks along the legs of a line.

ghost use Rattle.std.specs.Prelude.{◌≡◌, ℕ, ◌^◌, ◌<◌, ◌≤◌, length, All, Some, IfSome, IsTrue, ◌==◌};
ghost use Rattle.rbc_model.specs.declared.limits.TheConstants.{LONGEST_TRACK};
ghost use Rattle.rbc_model.specs.Lines.{has_leg, has_section, legs_begun_before, legs_ending_by, line_length, metre_at, metres_to_group, place_of};
ghost use Rattle.rbc_model.specs.SoundTracks.{is_good_group, sections_differ};
ghost use Rattle.rbc_model.specs.Tracks.{leg_eq, metre_of_leg, metres_of};

use rbc_model::{BaliseGroup, Direction, Leg, Metre, SectionId};
use rbc_track::Track;

/// How many metres the legs have.
pub(crate) fn length_of(track: &Track, legs: &[Leg]) -> u32
    requires of_track { All (λ leg. leg.section < length track.now.sections) legs.now }
    requires fits { line_length track.now legs.now < 2 ^ 32 }
    ensures { result ≡ line_length track.now legs.now }
{
    let mut metres = 0;
    for leg in legs {
        metres += track.metres_of(leg);
    }
    metres
}

/// Whether one of the legs is of the section.
pub(crate) fn has_section(legs: &[Leg], section: SectionId) -> bool
    ensures { result ≡ has_section legs.now section }
{
    legs.iter().any(|leg| leg.section == section)
}

/// Whether the two legs are the same.
pub fn is_same_leg(a: &Leg, b: &Leg) -> bool
    ensures { result ≡ leg_eq a.now b.now }
{
    a == b
}

/// Whether the leg is one of these.
pub(crate) fn has_leg(legs: &[Leg], leg: Leg) -> bool
    ensures { result ≡ has_leg legs.now leg }
{
    legs.iter().any(|other| is_same_leg(&leg, other))
}

/// The metre of the leg that a train meets after `before` metres of it.
fn metre_of_leg(track: &Track, leg: &Leg, before: u32) -> Metre
    requires of_track { leg.now.section < length track.now.sections }
    requires on_leg { before < metres_of track.now leg.now.section }
    ensures { result ≡ metre_of_leg track.now leg.now before }
{
    let offset = match leg.direction {
        Direction::Rising => before,
        Direction::Falling => track.metres_of(leg) - 1 - before,
    };
    Metre {
        section: leg.section,
        offset,
    }
}

/// The metre at a place of the legs.
pub(crate) fn metre_at(track: &Track, legs: &[Leg], place: u32) -> Metre
    requires of_track { All (λ leg. leg.section < length track.now.sections) legs.now }
    requires on_line { place < line_length track.now legs.now }
    ensures { metre_at track.now legs.now place ≡ Some result }
{
    let mut left = place;
    for leg in legs {
        let metres = track.metres_of(leg);
        if left < metres {
            return metre_of_leg(track, leg, left);
        }
        left -= metres;
    }
    unreachable!()
}

/// How many metres of the leg lie before the group, which stands on its section.
fn metres_to_group(track: &Track, group: &BaliseGroup, leg: &Leg) -> u32
    requires of_track { leg.now.section < length track.now.sections }
    requires on_leg { group.now.offset ≤ metres_of track.now leg.now.section }
    ensures metres { result ≡ metres_to_group track.now group.now leg.now }
    ensures at_most { result ≤ metres_of track.now leg.now.section }
{
    match leg.direction {
        Direction::Rising => group.offset,
        Direction::Falling => track.metres_of(leg) - group.offset,
    }
}

/// The place of the group, if its section stands among the legs in this direction.
pub(crate) fn place_of(
    track: &Track,
    legs: &[Leg],
    group: &BaliseGroup,
    direction: Direction,
) -> Option<u32>
    requires of_track { All (λ leg. leg.section < length track.now.sections) legs.now }
    requires differ { IsTrue (sections_differ legs.now) }
    requires fits { line_length track.now legs.now < 2 ^ 32 }
    requires group { IsTrue (is_good_group track.now group.now) }
    ensures place { result ≡ place_of track.now legs.now group.now direction }
    ensures on_line { IfSome result (λ place. place ≤ line_length track.now legs.now) }
{
    let mut begin = 0;
    for leg in legs {
        if leg.section == group.section {
            return if leg.direction == direction {
                Some(begin + metres_to_group(track, group, leg))
            } else {
                None
            };
        }
        begin += track.metres_of(leg);
    }
    None
}

/// How many of the legs end at the place or before it.
pub(crate) fn ending_by(track: &Track, legs: &[Leg], place: u32) -> usize
    requires { All (λ leg. leg.section < length track.now.sections) legs.now }
    ensures count { result ≡ legs_ending_by track.now place legs.now }
    ensures at_most { result ≤ length legs.now }
{
    let mut left = place;
    for (count, leg) in legs.iter().enumerate() {
        let metres = track.metres_of(leg);
        if left < metres {
            return count;
        }
        left -= metres;
    }
    legs.len()
}

/// How many of the legs begin before the place.
pub(crate) fn begun_before(track: &Track, legs: &[Leg], place: u32) -> usize
    requires { All (λ leg. leg.section < length track.now.sections) legs.now }
    ensures count { result ≡ legs_begun_before track.now place legs.now }
    ensures at_most { result ≤ length legs.now }
{
    let mut left = place;
    for (count, leg) in legs.iter().enumerate() {
        if left == 0 {
            return count;
        }
        left = left.saturating_sub(track.metres_of(leg));
    }
    legs.len()
}
