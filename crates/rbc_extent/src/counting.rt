//! The leg that a report tells, and the places that it counts from its group.

ghost use Rattle.std.specs.Prelude.{◌≡◌, ◌+◌, ◌-◌, ◌*◌, ◌<◌, ◌≤◌, length, position, IsTrue, nat_le};
ghost use Rattle.std.specs.List.{position_or_len};
ghost use Rattle.rbc_model.specs.Lines.{line_length, metres_to_group};
ghost use Rattle.rbc_model.specs.Placing.{leg_told, origin_on};
ghost use Rattle.rbc_model.specs.SoundTracks.{is_good_group};
ghost use Rattle.rbc_model.specs.declared.limits.TheConstants.{FARTHEST_REPORT, LONGEST_TRACK};
ghost use Rattle.rbc_model.specs.declared.limits.TheConstants.{MOST_DOUBT, MOST_SECTIONS};
ghost use Rattle.rbc_model.specs.Tracks.{leg_eq, metres_of};

use rbc_line::{Line, is_same_leg};
use rbc_model::{BaliseGroup, Direction, Leg, Report};
use rbc_track::{Track, reverse};

/// The leg that a report from this group tells: the group's section, in its nominal direction or against it.
pub(crate) fn leg_told(group: &BaliseGroup, report: &Report) -> Leg
    ensures { result ≡ leg_told group.now report.now }
{
    let nominal = Leg {
        section: group.section,
        direction: group.nominal,
    };
    if report.nominal() {
        nominal
    } else {
        reverse(nominal)
    }
}

/// The index of the leg among these.
fn position_of(legs: &[Leg], leg: Leg) -> Option<usize>
    ensures { result ≡ position (leg_eq leg) legs.now }
{
    legs.iter().position(|other| is_same_leg(&leg, other))
}

/// How many legs stand before this one: all of them, where it is none of them.
pub(crate) fn legs_before(legs: &[Leg], leg: Leg) -> usize
    ensures before { result ≡ position_or_len (leg_eq leg) legs.now }
    ensures at_most { result ≤ length legs.now }
{
    match position_of(legs, leg) {
        Some(index) => index,
        None => legs.len(),
    }
}

/// How many metres of the leg lie beyond the group, which stands on its section.
pub(crate) fn metres_beyond(track: &Track, group: &BaliseGroup, leg: &Leg) -> u32
    requires of_track { leg.now.section < length track.now.sections }
    requires on_leg { group.now.offset ≤ metres_of track.now leg.now.section }
    ensures { metres_to_group track.now group.now leg.now + result ≡ metres_of track.now leg.now.section }
{
    match leg.direction {
        Direction::Rising => track.metres_of(leg) - group.offset,
        Direction::Falling => group.offset,
    }
}

/// The place of the group on a line that has the leg told.
pub(crate) fn origin_on(line: &Line, group: &BaliseGroup, report: &Report) -> u32
    requires { IsTrue (is_good_group line.now.track group.now) }
    ensures origin { result ≡ origin_on line.now.track group.now report.now line.now.legs }
    ensures on_line { result ≤ line_length line.now.track line.now.legs }
    ensures few_metres { result ≤ MOST_SECTIONS * LONGEST_TRACK }
{
    let leg = leg_told(group, report);
    match line.place_of(group, leg.direction) {
        Some(place) => {
            line.known();
            place
        }
        None => 0,
    }
}

/// The place of the first metre that the train may stand on, counted from its group's place; the line's start, where
/// that metre lies behind it.
pub(crate) fn rear_from(origin: u32, report: &Report) -> u32
    requires { origin ≤ MOST_SECTIONS * LONGEST_TRACK }
    ensures { result ≡ origin + report.now.distance - (report.now.over + report.now.length) }
{
    report.known();
    let behind = u32::from(report.over()) + u32::from(report.length());
    (origin + report.distance().metres()).saturating_sub(behind)
}

/// Whether the first metre that the train may stand on lies on a line on which its group has this place.
pub(crate) fn has_rear_from(origin: u32, report: &Report) -> bool
    requires { origin ≤ MOST_SECTIONS * LONGEST_TRACK }
    ensures { result ≡ nat_le (report.now.over + report.now.length) (origin + report.now.distance) }
{
    report.known();
    let behind = u32::from(report.over()) + u32::from(report.length());
    behind <= origin + report.distance().metres()
}

/// How many metres the train may stand beyond its group.
pub(crate) fn metres_ahead(report: &Report) -> u32
    ensures ahead { result ≡ report.now.distance + report.now.under }
    ensures at_most { result ≤ FARTHEST_REPORT + MOST_DOUBT }
{
    report.known();
    report.distance().metres() + u32::from(report.under())
}
