//! A train that asks: it is granted an authority, or told what stands in its way.

ghost use Rattle.std.specs.Prelude.{◌≡◌, ℕ, List, false, None, Ok};
ghost use Rattle.rbc_model.specs.declared.memory.OrMemory.TheVariants.{Refused};
ghost use Rattle.rbc_model.specs.declared.refusals.ViewFault.TheVariants.{UnknownTrain};
ghost use Rattle.rbc_model.specs.Answers.{RefusesOrMemory};
ghost use Rattle.rbc_model.specs.Scenes.{train_numbered};
ghost use Rattle.rbc_model.specs.Sessions.{Prints};
ghost use Rattle.rbc_model.specs.Views.{view};
ghost use Rattle.rbc_sweep.specs.Candidates.{HasChosenProfiles};
ghost use Rattle.rbc_grant_laws.specs.Candidates.{IsCandidateOf};
ghost use Rattle.rbc_sweep.specs.Records.{scene_now};
ghost use Rattle.rbc_replies.specs.Replies.{reply_text, ReplyIsWhole};
ghost use Rattle.rbc_sessions.specs.Changes.{Comes};
ghost use Rattle.rbc_sessions.specs.Shown.{IsToldOf};
ghost use Rattle.rbc_session_laws.specs.Turns.{AnswersAuthority};

use rbc_model::{OrMemory, Refusal, TrainId, ViewFault};
use rbc_replies::{Basis, SessionRefusal, SessionReply, ToldGrant, print};
use rbc_streams::{Sink, WriteFailed};
use rbc_sweep::{Candidate, CommitFault, Record, View, candidate};
use std::alloc::Global;
use std::thread::Threads;

/// Prints the reply to a train that asks for an authority. Where it is granted one, the history gains an entry; else
/// nothing changes.
///
/// # Errors
///
/// `WriteFailed`, where the writer fails. What is granted is granted nevertheless.
pub(crate) fn ask<W: Sink>(
    rt: &(impl Threads + Sync),
    alloc: Global,
    history: &mut Record,
    train: TrainId,
    writer: &mut W,
) -> Result<(), WriteFailed>
    requires { W.failed writer.old ≡ false }
    ensures { (reply : List ℕ)
        × Comes (λ begin entries said added. AnswersAuthority begin entries said added train)
        history.old reply history.new
        × Prints (W.written writer.old) (W.written writer.new) (W.failed writer.new) reply result }
{
    match history.view(alloc, train) {
        Ok(shown) => grant(rt, alloc, history, shown, writer),
        Err(fault) => {
            let reply = stopped(history, train, fault);
            print(history.track(), &reply, writer)
        }
    }
}

/// The reply to a train that is shown no end.
pub fn stopped(
    history: &Record,
    train: TrainId,
    fault: OrMemory<ViewFault>,
) -> SessionReply<'static>
    requires fault { RefusesOrMemory fault (view history.now.track (scene_now history.now) train) }
    requires unknown { train_numbered (scene_now history.now) train ≡ None → fault ≡ Refused UnknownTrain }
    ensures comes { Comes (λ begin entries said added. AnswersAuthority begin entries said added train)
        history.now (reply_text history.now.track result) history.now }
    ensures whole { ReplyIsWhole history.now.track result }
{
    // The track is sound, so what stands in the way is of the track.
    history.track().known();
    history.right();
    match fault {
        OrMemory::Refused(ViewFault::UnknownTrain) => {
            SessionReply::Refused(SessionRefusal::BadEvent(Refusal::UnknownTrain(train)))
        }
        OrMemory::Refused(ViewFault::Blocked(obstacle, at)) => {
            SessionReply::Blocked(train, obstacle, at, history.version())
        }
        OrMemory::Memory => SessionReply::Refused(SessionRefusal::Memory),
    }
}

/// Prints the reply to a train that is shown this view.
///
/// # Errors
///
/// `WriteFailed`, where the writer fails. What is granted is granted nevertheless.
fn grant<W: Sink>(
    rt: &(impl Threads + Sync),
    alloc: Global,
    history: &mut Record,
    shown: View,
    writer: &mut W,
) -> Result<(), WriteFailed>
    requires going { W.failed writer.old ≡ false }
    requires shown { view history.old.track (scene_now history.old) shown.train ≡ Ok shown }
    ensures { (reply : List ℕ)
        × Comes (λ begin entries said added. AnswersAuthority begin entries said added shown.train)
        history.old reply history.new
        × Prints (W.written writer.old) (W.written writer.new) (W.failed writer.new) reply result }
{
    let Ok(candidate) = candidate(rt, alloc, shown, history.version()) else {
        let reply = SessionReply::Refused(SessionRefusal::Memory);
        return print(history.track(), &reply, writer);
    };
    let reply = commit(alloc, history, &candidate);
    print(history.track(), &reply, writer)
}

/// The reply to a train that is shown the candidate's view. Where it is granted the authority, the history gains an entry.
pub fn commit<'a>(alloc: Global, history: &mut Record, candidate: &'a Candidate) -> SessionReply<'a>
    requires { view history.old.track (scene_now history.old) candidate.now.view.train ≡ Ok candidate.now.view }
    ensures comes { Comes (λ begin entries said added. AnswersAuthority begin entries said added
        candidate.now.view.train) history.old (reply_text history.old.track result) history.new }
    ensures whole { ReplyIsWhole history.old.track result }
{
    // The track is sound, so what stands beyond the end is of the track.
    history.track().known();
    history.known();
    history.right();
    match history.grant(alloc, candidate) {
        Ok(receipt) => SessionReply::Granted(told_of(candidate, receipt.place() + 1)),
        Err(OrMemory::Refused(CommitFault::Full)) => SessionReply::Refused(SessionRefusal::Full),
        Err(OrMemory::Memory) => SessionReply::Refused(SessionRefusal::Memory),
        // The train is shown the candidate's view.
        Err(OrMemory::Refused(CommitFault::Stale(_))) => unreachable!(),
    }
}

/// What is told of a candidate that is granted. The version is the number of entries that the history has with it.
pub fn told_of(candidate: &Candidate, version: u64) -> ToldGrant<'_>
    ensures told { IsToldOf candidate.now version result }
    ensures best { IsCandidateOf candidate.now.view candidate.now.grant }
    ensures chosen { HasChosenProfiles candidate.now.view candidate.now.grant }
{
    candidate.known();
    let view = candidate.view();
    let prices = candidate.prices();
    let authority = candidate.authority();
    let message = candidate.message();
    let losses = candidate.losses();
    authority.known();
    ToldGrant {
        train: candidate.train(),
        version,
        from: candidate.from(),
        obstacle: candidate.obstacle(),
        authority,
        message,
        speeds: Basis {
            limit: view.speed_steps(),
            track: view.speeds(),
            prices: prices.speeds.as_slice(),
        },
        grades: Basis {
            limit: view.grade_steps(),
            track: view.grades(),
            prices: prices.grades.as_slice(),
        },
        speeds_loss: losses.speeds,
        grades_loss: losses.grades,
    }
}
