//! Placing a report.

ghost use Rattle.std.specs.Prelude.{◌≡◌, ◌<◌, length, Err, IfOk, IfErr, IfSome, IsTrue, true, option_map};
ghost use Rattle.std.specs.Arc.{arc_value};
ghost use Rattle.std.specs.Result.{result_map_both};
ghost use Rattle.rbc_model.specs.Answers.{AnswersAs};
ghost use Rattle.rbc_model.specs.Lines.{has_leg};
ghost use Rattle.rbc_model.specs.Placing.{has_front, leg_told, place, placed_on};
ghost use Rattle.rbc_model.specs.SoundTracks.{IsSound, is_good_group};
ghost use Rattle.rbc_model.specs.Tracks.{group_named};
ghost use Rattle.rbc_model.specs.declared.memory.OrMemory.TheVariants.{Refused};
ghost use Rattle.rbc_model.specs.declared.refusals.Refusal.TheVariants.{Offline, UnknownGroup};
ghost use Rattle.rbc_scene_laws.specs.Good.{IsGoodLocks};
ghost use Rattle.rbc_extent.specs.Findings.{finding_view};
ghost use Rattle.rbc_extent.specs.Situations.{legs_known, finding_in, finding_from_group};
ghost use Rattle.rbc_extent.specs.PlacingSteps.{locating_step};

use crate::Placed;
use crate::counting::{leg_told, metres_ahead, origin_on, rear_from};
use crate::covering::{continuation, covering};
use crate::finding::Finding;
use crate::judge::refusal;
use crate::situation::Situation;
use rbc_line::Line;
use rbc_locks::Locks;
use rbc_model::{BaliseGroup, Leg, OrMemory, Refusal, Report};
use rbc_track::Track;
use std::alloc::Global;
use std::sync::Arc;

/// Where a report places its train, whose line so far is `known`, or which is new. The line of a new train is the leg
/// told; a known one is continued along the locks as far as needed to have this leg. The legs before both the leg
/// told and the leg with the train's rear are dropped. Then the line is lengthened along the locks, behind until it
/// has the rear and ahead until it has the metre before the front.
///
/// The train stands between its max safe front end and its min safe rear end (SUBSET-026, 3.6.4).
///
/// # Errors
///
/// `Refused` with the first of these:
/// - `UnknownGroup`: the track has no such balise group.
/// - `Offline`: the locks do not lead from the known line to the leg told.
/// - `Unplaced`: the locks do not lead to the rear or to the front, or lead back onto the line.
/// - `TooFar`: the front lies further from the group than an authority may end.
///
/// `Memory` is told of a report that is placed, and of no other: where memory is refused, the report is judged without
/// it.
pub fn place(
    alloc: Global,
    track: &Arc<Track>,
    locks: &Locks,
    known: Option<&Line>,
    report: &Report,
) -> Result<Placed, OrMemory<Refusal>>
    requires locks { IsGoodLocks (arc_value track.now) locks.now }
    requires known { IfSome known (λ line. line.now.track ≡ arc_value track.now) }
    ensures placed { AnswersAs (λ p. p.placed) result
        (place (arc_value track.now) locks.now (option_map (λ line. line.now.legs) known.entry) report.now) }
    ensures track { IfOk result (λ p. p.track ≡ arc_value track.now) }
    ensures refused { IfErr (place (arc_value track.now) locks.now (option_map (λ line. line.now.legs) known.entry)
        report.now) (λ refusal. result ≡ Err (Refused refusal)) }
{
    let situation = Situation {
        track,
        locks,
        known,
    };
    let finding = find(alloc, &situation, report)?;
    Ok(finding.placed)
}

/// What a report comes to.
#[tactic(auto, unfolding(crate::specs::PlacingSteps::finding))]
pub(crate) fn find(
    alloc: Global,
    situation: &Situation<'_>,
    report: &Report,
) -> Result<Finding, OrMemory<Refusal>>
    ensures finding { AnswersAs finding_view result (finding_in situation.now report.now) }
    ensures track { IfOk result (λ f. f.placed.track ≡ arc_value situation.now.track.now) }
    ensures sound { IsSound (arc_value situation.now.track.now) }
    ensures refused { IfErr (finding_in situation.now report.now) (λ refusal. result ≡ Err (Refused refusal)) }
{
    match group_of(situation.track, report) {
        Some(group) => find_or_refuse(alloc, situation, report, &group),
        None => Err(OrMemory::Refused(Refusal::UnknownGroup)),
    }
}

/// The group that the report tells.
fn group_of(track: &Track, report: &Report) -> Option<BaliseGroup>
    ensures group { result ≡ group_named track.now report.now.group }
    ensures good { IfSome result (λ group. IsTrue (is_good_group track.now group)) }
    ensures sound { IsSound track.now }
{
    // A track is sound: its groups stand on its sections.
    track.known();
    track.group(report.group())
}

/// What a report from this group comes to. Where memory is refused, it is judged without it.
fn find_or_refuse(
    alloc: Global,
    situation: &Situation<'_>,
    report: &Report,
    group: &BaliseGroup,
) -> Result<Finding, OrMemory<Refusal>>
    requires { IsTrue (is_good_group (arc_value situation.now.track.now) group.now) }
    ensures finding { AnswersAs finding_view result (finding_from_group situation.now report.now group.now) }
    ensures track { IfOk result (λ f. f.placed.track ≡ arc_value situation.now.track.now) }
    ensures refused { IfErr (finding_from_group situation.now report.now group.now)
        (λ refusal. result ≡ Err (Refused refusal)) }
{
    match find_from(alloc, situation, report, group) {
        Ok(finding) => Ok(finding),
        Err(OrMemory::Refused(refusal)) => Err(OrMemory::Refused(refusal)),
        Err(OrMemory::Memory) => match refusal(situation, report, group) {
            Some(refusal) => Err(OrMemory::Refused(refusal)),
            None => Err(OrMemory::Memory),
        },
    }
}

/// What a report from this group comes to, unless memory is refused.
#[tactic(auto, unfolding(crate::specs::PlacingSteps::finding_from))]
fn find_from(
    alloc: Global,
    situation: &Situation<'_>,
    report: &Report,
    group: &BaliseGroup,
) -> Result<Finding, OrMemory<Refusal>>
    requires { IsTrue (is_good_group (arc_value situation.now.track.now) group.now) }
    ensures finding { AnswersAs finding_view result (finding_from_group situation.now report.now group.now) }
    ensures track { IfOk result (λ f. f.placed.track ≡ arc_value situation.now.track.now) }
{
    let start = located(alloc, situation, leg_told(group, report))?;
    let old_origin = origin_on(&start, group, report);
    let line = covering(alloc, situation.locks, group, report, start)?;
    let placed = placed_on(group, report, line)?;
    Ok(Finding { old_origin, placed })
}

/// The line that has the leg told: that of the leg alone, or the known one, continued as far as needed.
#[tactic(auto, unfolding(crate::specs::PlacingSteps::locating_step))]
fn located(alloc: Global, situation: &Situation<'_>, leg: Leg) -> Result<Line, OrMemory<Refusal>>
    requires { leg.section < length (arc_value situation.now.track.now).sections }
    ensures line { AnswersAs (λ l. l.legs) result
        (locating_step (arc_value situation.now.track.now) situation.now.locks.now leg (legs_known situation.now)) }
    ensures track { IfOk result (λ l. l.track ≡ arc_value situation.now.track.now) }
    ensures has { IfOk result (λ l. has_leg l.legs leg ≡ true) }
{
    match situation.known {
        Some(line) => continuation(alloc, situation.locks, line, leg),
        None => Ok(Line::new(alloc, situation.track, leg)?),
    }
}

/// The train on its line, if its front lies no farther from its group than an authority may end.
fn placed_on(group: &BaliseGroup, report: &Report, line: Line) -> Result<Placed, Refusal>
    requires group { IsTrue (is_good_group line.track group.now) }
    requires front { has_front line.track group.now report.now line.legs ≡ true }
    ensures track { IfOk result (λ p. p.track ≡ line.track) }
    ensures placed { result_map_both (λ p. p.placed) (λ refusal. refusal) result
        ≡ placed_on line.track group.now report.now line.legs }
{
    let ahead = metres_ahead(report);
    if ahead > line.track().farthest_end() {
        return Err(Refusal::TooFar);
    }
    let origin = origin_on(&line, group, report);
    let rear = rear_from(origin, report);
    Ok(Placed::new(line, origin, rear, origin + ahead))
}
