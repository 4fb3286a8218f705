//! A train after its report.

ghost use Rattle.std.specs.Prelude.{◌≡◌, ◌+◌, ◌-◌, ◌≤◌, ◌<◌, Err, IfErr, IfOk, IfSome, option_map};
ghost use Rattle.std.specs.Arc.{arc_value};
ghost use Rattle.rbc_model.specs.Answers.{AnswersAs};
ghost use Rattle.rbc_model.specs.Placing.{reported};
ghost use Rattle.rbc_model.specs.Tracks.{Track as TrackValue, group_named};
ghost use Rattle.rbc_model.specs.declared.memory.OrMemory.TheVariants.{Refused};
ghost use Rattle.rbc_model.specs.declared.refusals.Refusal.TheVariants.{Offline, UnknownGroup};
ghost use Rattle.rbc_scene_laws.specs.Good.{IsGoodLocks, IsGoodTrain};
ghost use Rattle.rbc_extent.specs.Findings.{authority_left, finding_view};

use crate::Train;
use crate::finding::Finding;
use crate::placing::find;
use crate::situation::Situation;
use crate::train::Authority;
use rbc_line::Line;
use rbc_locks::Locks;
use rbc_model::{OrMemory, Refusal, Report};
use rbc_track::Track;
use std::alloc::Global;
use std::sync::Arc;

/// The train after its report: `known` as it was, or a new one. The report places it; of an authority that it had,
/// what lies behind its rear is given up, and where nothing is left, or it had none, its authority is an empty one at
/// its front. The legs ahead that neither its extent nor its authority needs are dropped, save the leg told.
///
/// # Errors
///
/// `Refused` with the first of these:
/// - `UnknownGroup`: the track has no such balise group.
/// - `Offline`: the locks do not lead from the known line to the leg told.
/// - `Unplaced`: the locks do not lead to the rear or to the front, or lead back onto the line.
/// - `TooFar`: the front lies further from the group than an authority may end.
///
/// `Memory` is told of a report that is placed, and of no other: where memory is refused, the report is judged without
/// it.
pub fn reported(
    alloc: Global,
    track: &Arc<Track>,
    locks: &Locks,
    known: Option<&Train>,
    report: &Report,
) -> Result<Train, OrMemory<Refusal>>
    requires locks { IsGoodLocks (arc_value track.now) locks.now }
    requires known { IfSome known (λ train. train.now.track ≡ arc_value track.now) }
    ensures reported { AnswersAs (λ t. t.train) result
        (reported (arc_value track.now) locks.now (option_map (λ train. train.now.train) known.entry) report.now) }
    ensures track { IfOk result (λ t. t.track ≡ arc_value track.now) }
    ensures refused { IfErr (reported (arc_value track.now) locks.now (option_map (λ train. train.now.train) known.entry)
        report.now) (λ refusal. result ≡ Err (Refused refusal)) }
{
    let situation = Situation {
        track,
        locks,
        known: line_of(known),
    };
    let finding = find(alloc, &situation, report)?;
    let authority = authority_left(known, &finding);
    Ok(Train::placed(finding.placed, report, authority))
}

/// The line of the known train.
fn line_of(known: Option<&Train>) -> Option<&Line>
    ensures legs { option_map (λ line. line.now.legs) result
        ≡ option_map (λ train. train.line) (option_map (λ train. train.now.train) known.entry) }
    ensures track { (track : TrackValue) → IfSome known.entry (λ train. train.now.track ≡ track)
        → IfSome result (λ line. line.now.track ≡ track) }
    ensures good { IfSome known.entry (λ train. IsGoodTrain train.now.track train.now.train) }
{
    match known {
        Some(train) => {
            train.known();
            Some(train.line())
        }
        None => None,
    }
}

/// What the report leaves of the authority of the known train, or an empty one at the front.
fn authority_left(known: Option<&Train>, finding: &Finding) -> Authority
    ensures { result ≡ authority_left (option_map (λ train. train.now.train) known.entry) (finding_view finding.now) }
{
    let front = finding.placed.front();
    let none = Authority {
        from: front,
        to: front,
    };
    let Some(train) = known else {
        return none;
    };
    train.known();
    train.line().known();
    if train.from() == train.to() {
        return none;
    }
    let from = finding.now_at(train.from()).max(finding.placed.rear());
    let to = finding.now_at(train.to());
    if from < to {
        Authority { from, to }
    } else {
        none
    }
}
