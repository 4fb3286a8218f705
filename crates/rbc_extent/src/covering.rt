//! The line of a report: legs that are dropped, and legs that are added along the locks.

ghost use Rattle.std.specs.Prelude.{◌≡◌, length, true, Err, IfOk, IsTrue, is_some};
ghost use Rattle.rbc_model.specs.Answers.{AnswersAs};
ghost use Rattle.rbc_model.specs.Lines.{has_leg};
ghost use Rattle.rbc_model.specs.Locks.{lengthened, longer_ahead};
ghost use Rattle.rbc_model.specs.Placing.{has_front, leg_told, without_legs_behind};
ghost use Rattle.rbc_model.specs.SoundTracks.{IsSound, is_good_group};
ghost use Rattle.rbc_model.specs.declared.memory.OrMemory.TheVariants.{Refused};
ghost use Rattle.rbc_model.specs.declared.refusals.Refusal.TheVariants.{Offline};
ghost use Rattle.rbc_scene_laws.specs.Good.{IsGoodLocks};
ghost use Rattle.rbc_extent.specs.PlacingSteps.{found_or, rear_step, front_step, covering_step};

use crate::counting::{has_rear_from, leg_told, legs_before, metres_ahead, origin_on, rear_from};
use crate::course::Course;
use rbc_line::{Line, is_same_leg};
use rbc_locks::Locks;
use rbc_model::{BaliseGroup, Leg, OrMemory, Refusal, Report};
use std::alloc::Global;

/// The line, continued along the locks as far as needed to have the leg.
///
/// # Errors
///
/// - `Offline`, where the locks do not lead to the leg.
/// - `Memory`.
fn continued_to(
    alloc: Global,
    locks: &Locks,
    line: Line,
    leg: Leg,
) -> Result<Line, OrMemory<Refusal>>
    requires { IsGoodLocks line.track locks.now }
    ensures line { AnswersAs (λ l. l.legs) result (found_or Offline
        (lengthened (length line.track.sections) (longer_ahead locks.now) (λ l. has_leg l leg) line.legs)) }
    ensures track { IfOk result (λ l. l.track ≡ line.track) }
    ensures has { IfOk result (λ l. has_leg l.legs leg ≡ true) }
{
    if line.has_leg(leg) {
        return Ok(line);
    }
    line.known();
    let sections = line.section_count();
    let mut course = Course::new(alloc, line)?;
    for _added in 0..sections {
        if !course.lengthen_ahead(locks)? {
            return Err(OrMemory::Refused(Refusal::Offline));
        }
        let last = course.line().last();
        if is_same_leg(&leg, &last) {
            return Ok(course.into_line());
        }
    }
    Err(OrMemory::Refused(Refusal::Offline))
}

/// A copy of the line, continued along the locks as far as needed to have the leg.
///
/// # Errors
///
/// - `Offline`, where the locks do not lead to the leg.
/// - `Memory`.
pub(crate) fn continuation(
    alloc: Global,
    locks: &Locks,
    line: &Line,
    leg: Leg,
) -> Result<Line, OrMemory<Refusal>>
    requires { IsGoodLocks line.now.track locks.now }
    ensures line { AnswersAs (λ l. l.legs) result (found_or Offline
        (lengthened (length line.now.track.sections) (longer_ahead locks.now) (λ l. has_leg l leg) line.now.legs)) }
    ensures track { IfOk result (λ l. l.track ≡ line.now.track) }
    ensures has { IfOk result (λ l. has_leg l.legs leg ≡ true) }
{
    continued_to(alloc, locks, line.copy(alloc)?, leg)
}

/// Drops the legs before both the leg told and the leg with the train's rear. It takes no memory.
fn drop_legs_behind(line: &mut Line, group: &BaliseGroup, report: &Report)
    requires group { IsTrue (is_good_group line.old.track group.now) }
    requires told { has_leg line.old.legs (leg_told group.now report.now) ≡ true }
    ensures track { line.new.track ≡ line.old.track }
    ensures legs { line.new.legs ≡ without_legs_behind line.old.track group.now report.now line.old.legs }
{
    let rear = rear_from(origin_on(line, group, report), report);
    let before = legs_before(line.legs(), leg_told(group, report));
    line.cut_front(before.min(line.legs_ending_by(rear)));
}

/// The line, lengthened behind along the locks as far as needed to have the train's rear.
///
/// # Errors
///
/// - `Unplaced`, where the locks do not lead to the rear.
/// - `Memory`.
fn lengthened_to_rear(
    alloc: Global,
    locks: &Locks,
    group: &BaliseGroup,
    report: &Report,
    line: Line,
) -> Result<Line, OrMemory<Refusal>>
    requires locks { IsGoodLocks line.track locks.now }
    requires group { IsTrue (is_good_group line.track group.now) }
    requires told { has_leg line.legs (leg_told group.now report.now) ≡ true }
    ensures line { AnswersAs (λ l. l.legs) result
        (rear_step line.track locks.now group.now report.now line.legs) }
    ensures track { IfOk result (λ l. l.track ≡ line.track) }
    ensures told { IfOk result (λ l. has_leg l.legs (leg_told group.now report.now) ≡ true) }
{
    let mut origin = origin_on(&line, group, report);
    if has_rear_from(origin, report) {
        return Ok(line);
    }
    line.known();
    let sections = line.section_count();
    let mut course = Course::new(alloc, line)?;
    for _added in 0..sections {
        let shorter = course.line();
        shorter.known();
        let before = shorter.length();
        if !course.lengthen_back(locks)? {
            return Err(OrMemory::Refused(Refusal::Unplaced));
        }
        let longer = course.line();
        longer.known();
        origin += longer.length() - before;
        if has_rear_from(origin, report) {
            return Ok(course.into_line());
        }
    }
    Err(OrMemory::Refused(Refusal::Unplaced))
}

/// The line, lengthened ahead along the locks as far as needed to have the metre before the train's front.
///
/// # Errors
///
/// - `Unplaced`, where the locks do not lead to that metre.
/// - `Memory`.
fn lengthened_to_front(
    alloc: Global,
    locks: &Locks,
    group: &BaliseGroup,
    report: &Report,
    line: Line,
) -> Result<Line, OrMemory<Refusal>>
    requires locks { IsGoodLocks line.track locks.now }
    requires group { IsTrue (is_good_group line.track group.now) }
    requires told { has_leg line.legs (leg_told group.now report.now) ≡ true }
    ensures line { AnswersAs (λ l. l.legs) result
        (front_step line.track locks.now group.now report.now line.legs) }
    ensures track { IfOk result (λ l. l.track ≡ line.track) }
    ensures front { IfOk result (λ l. has_front line.track group.now report.now l.legs ≡ true) }
{
    let front = origin_on(&line, group, report) + metres_ahead(report);
    if front <= line.length() {
        return Ok(line);
    }
    line.known();
    let sections = line.section_count();
    let mut course = Course::new(alloc, line)?;
    for _added in 0..sections {
        if !course.lengthen_ahead(locks)? {
            return Err(OrMemory::Refused(Refusal::Unplaced));
        }
        let longer = course.line().length();
        if front <= longer {
            return Ok(course.into_line());
        }
    }
    Err(OrMemory::Refused(Refusal::Unplaced))
}

/// The line without the legs that the train has left, lengthened along the locks, first behind and then ahead, as far
/// as needed to have all metres that the train may stand on.
///
/// # Errors
///
/// - `Unplaced`, where the locks do not lead to one of these metres.
/// - `Memory`.
#[tactic(auto, unfolding(crate::specs::PlacingSteps::covering_step))]
pub(crate) fn covering(
    alloc: Global,
    locks: &Locks,
    group: &BaliseGroup,
    report: &Report,
    mut line: Line,
) -> Result<Line, OrMemory<Refusal>>
    requires locks { IsGoodLocks line.track locks.now }
    requires group { IsTrue (is_good_group line.track group.now) }
    requires told { has_leg line.legs (leg_told group.now report.now) ≡ true }
    ensures line { AnswersAs (λ l. l.legs) result
        (covering_step line.track locks.now group.now report.now line.legs) }
    ensures track { IfOk result (λ l. l.track ≡ line.track) }
    ensures front { IfOk result (λ l. has_front line.track group.now report.now l.legs ≡ true) }
{
    drop_legs_behind(&mut line, group, report);
    let line = lengthened_to_rear(alloc, locks, group, report, line)?;
    lengthened_to_front(alloc, locks, group, report, line)
}
