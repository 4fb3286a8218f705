//! Reports judged without memory. The line of a report is walked along and not built, which is slow. This is done where
//! there was no memory for the line, so that a report that is not placed is refused nevertheless.

ghost use Rattle.std.specs.Prelude.{◌≡◌, ◌+◌, ◌<◌, ◌≤◌, length, drop, min, None, Some, IsTrue, true, false, is_some, if◌then◌else◌};
ghost use Rattle.std.specs.Arc.{arc_value};
ghost use Rattle.std.specs.List.{position_or_len};
ghost use Rattle.rbc_extent.specs.Situations.{legs_known};
ghost use Rattle.rbc_extent.specs.PlacingSteps.{refusal_beyond, refusal_from};
ghost use Rattle.rbc_extent.specs.Walks.{IsSameWay};
ghost use Rattle.rbc_model.specs.Lines.{IsLine, has_leg, last_leg, legs_ending_by, line_length};
ghost use Rattle.rbc_model.specs.Locks.{lengthened, longer_ahead, longer_back};
ghost use Rattle.rbc_model.specs.Placing.{has_front, has_rear, leg_told, origin_on};
ghost use Rattle.rbc_model.specs.SoundTracks.{is_good_group};
ghost use Rattle.rbc_model.specs.Tracks.{leg_eq};
ghost use Rattle.rbc_scene_laws.specs.Good.{IsGoodLocks};

use crate::counting::{has_rear_from, leg_told, metres_ahead, metres_beyond, origin_on, rear_from};
use crate::situation::Situation;
use crate::walk::Walk;
use rbc_line::{Line, is_same_leg};
use rbc_locks::Locks;
use rbc_model::{BaliseGroup, Leg, Refusal, Report};
use rbc_track::Track;

/// Goes on along the locks as far as needed to have the leg. Tells whether they lead there.
fn goes_to(walk: &mut Walk<'_>, leg: Leg) -> bool
    requires { has_leg walk.old.line.legs leg ≡ false }
    ensures way { IsSameWay walk.old walk.new }
    ensures behind { walk.new.behind ≡ walk.old.behind }
    ensures there { (if result then Some walk.new.line.legs else None)
        ≡ lengthened (length walk.old.line.track.sections) (longer_ahead walk.old.locks) (λ l. has_leg l leg)
        walk.old.line.legs }
    ensures last { result ≡ true → last_leg walk.new.line.legs ≡ Some leg }
    ensures line { result ≡ true → IsLine walk.new.line.track walk.new.line.legs }
{
    for _added in 0..walk.section_count() {
        if !walk.lengthen_ahead() {
            return false;
        }
        let last = walk.last();
        if is_same_leg(&leg, &last) {
            walk.known();
            return true;
        }
    }
    false
}

/// Drops the legs before both the leg told and the leg with the rear.
fn drop_legs_behind(walk: &mut Walk<'_>, told: Leg, rear: u32)
    requires none_behind { walk.old.behind ≡ 0 }
    requires told { has_leg walk.old.line.legs told ≡ true }
    ensures way { IsSameWay walk.old walk.new }
    ensures legs { walk.new.line.legs ≡ drop (min (position_or_len (leg_eq told) walk.old.line.legs)
        (legs_ending_by walk.old.line.track rear walk.old.line.legs)) walk.old.line.legs }
{
    walk.known();
    let mut left = rear;
    for _dropped in 0..walk.section_count() {
        let first = walk.first();
        if is_same_leg(&told, &first) {
            return;
        }
        let metres = walk.first_metres();
        if left < metres {
            return;
        }
        left -= metres;
        walk.drop_first();
    }
}

/// Goes back along the locks as far as needed to have the train's rear. Tells whether they lead there. The group
/// stands `beyond` metres before the line's end.
fn has_rear(walk: &mut Walk<'_>, group: &BaliseGroup, report: &Report, beyond: u32) -> bool
    requires told { has_leg walk.old.line.legs (leg_told group.now report.now) ≡ true }
    requires beyond { origin_on walk.old.line.track group.now report.now walk.old.line.legs + beyond
        ≡ line_length walk.old.line.track walk.old.line.legs }
    ensures way { IsSameWay walk.old walk.new }
    ensures rear { (if result then Some walk.new.line.legs else None)
        ≡ lengthened (length walk.old.line.track.sections) (longer_back walk.old.locks)
        (has_rear walk.old.line.track group.now report.now) walk.old.line.legs }
    ensures told { result ≡ true → has_leg walk.new.line.legs (leg_told group.now report.now) ≡ true }
    ensures beyond { result ≡ true → origin_on walk.old.line.track group.now report.now walk.new.line.legs + beyond
        ≡ line_length walk.old.line.track walk.new.line.legs }
{
    walk.known();
    for _added in 0..walk.section_count() {
        walk.known();
        if has_rear_from(walk.length() - beyond, report) {
            return true;
        }
        if !walk.lengthen_back() {
            return false;
        }
    }
    walk.known();
    has_rear_from(walk.length() - beyond, report)
}

/// Whether the locks lead on from the line to the metre before the train's front. The group stands `beyond`
/// metres before the line's end.
fn has_front(walk: &mut Walk<'_>, group: &BaliseGroup, report: &Report, beyond: u32) -> bool
    requires told { has_leg walk.old.line.legs (leg_told group.now report.now) ≡ true }
    requires beyond { origin_on walk.old.line.track group.now report.now walk.old.line.legs + beyond
        ≡ line_length walk.old.line.track walk.old.line.legs }
    ensures way { IsSameWay walk.old walk.new }
    ensures front { result ≡ is_some (lengthened (length walk.old.line.track.sections) (longer_ahead walk.old.locks)
        (has_front walk.old.line.track group.now report.now) walk.old.line.legs) }
{
    walk.known();
    let front = walk.length() - beyond + metres_ahead(report);
    for _added in 0..walk.section_count() {
        if front <= walk.length() {
            return true;
        }
        if !walk.lengthen_ahead() {
            return false;
        }
    }
    front <= walk.length()
}

/// Why the report isn't placed, if it isn't, on its way from a line that has the leg told. The group stands
/// `beyond` metres before the line's end.
fn refusal_from(
    walk: &mut Walk<'_>,
    group: &BaliseGroup,
    report: &Report,
    beyond: u32,
) -> Option<Refusal>
    requires none_behind { walk.old.behind ≡ 0 }
    requires told { has_leg walk.old.line.legs (leg_told group.now report.now) ≡ true }
    requires beyond { origin_on walk.old.line.track group.now report.now walk.old.line.legs + beyond
        ≡ line_length walk.old.line.track walk.old.line.legs }
    ensures { result ≡ refusal_from walk.old.line.track walk.old.locks group.now report.now walk.old.line.legs }
{
    walk.known();
    let rear = rear_from(walk.length() - beyond, report);
    drop_legs_behind(walk, leg_told(group, report), rear);
    if !has_rear(walk, group, report, beyond) {
        return Some(Refusal::Unplaced);
    }
    if !has_front(walk, group, report, beyond) {
        return Some(Refusal::Unplaced);
    }
    if metres_ahead(report) > walk.farthest_end() {
        return Some(Refusal::TooFar);
    }
    None
}

/// Why the report isn't placed, if it isn't, where it is that of a new train.
fn refusal_of_new(
    track: &Track,
    locks: &Locks,
    report: &Report,
    group: &BaliseGroup,
) -> Option<Refusal>
    requires locks { IsGoodLocks track.now locks.now }
    requires group { IsTrue (is_good_group track.now group.now) }
    ensures { result ≡ refusal_beyond track.now locks.now None report.now group.now }
{
    let leg = leg_told(group, report);
    let beyond = metres_beyond(track, group, &leg);
    let mut walk = Walk::alone(track, locks, leg);
    refusal_from(&mut walk, group, report, beyond)
}

/// Why the report isn't placed, if it isn't, where the train's line so far is this.
fn refusal_of_known(
    locks: &Locks,
    line: &Line,
    report: &Report,
    group: &BaliseGroup,
) -> Option<Refusal>
    requires locks { IsGoodLocks line.now.track locks.now }
    requires group { IsTrue (is_good_group line.now.track group.now) }
    ensures { result ≡ refusal_beyond line.now.track locks.now (Some line.now.legs) report.now group.now }
{
    let leg = leg_told(group, report);
    let mut walk = Walk::along(locks, line);
    if line.has_leg(leg) {
        let beyond = line.length() - origin_on(line, group, report);
        return refusal_from(&mut walk, group, report, beyond);
    }
    let beyond = metres_beyond(line.track(), group, &leg);
    if !goes_to(&mut walk, leg) {
        return Some(Refusal::Offline);
    }
    refusal_from(&mut walk, group, report, beyond)
}

/// Why a report from this group isn't placed, if it isn't. It takes no memory.
pub(crate) fn refusal(
    situation: &Situation<'_>,
    report: &Report,
    group: &BaliseGroup,
) -> Option<Refusal>
    requires { IsTrue (is_good_group (arc_value situation.now.track.now) group.now) }
    ensures { result ≡ refusal_beyond (arc_value situation.now.track.now) situation.now.locks.now
        (legs_known situation.now) report.now group.now }
{
    match situation.known {
        Some(line) => refusal_of_known(situation.locks, line, report, group),
        None => refusal_of_new(situation.track, situation.locks, report, group),
    }
}
