//! What a grant gives a train: an authority up to a safe end, on a line that has its metres.

ghost use Rattle.std.specs.Prelude.{◌≡◌, ◌+◌, ◌≤◌, ◌<◌, take, true, Err, IfOk};
ghost use Rattle.rbc_model.specs.declared.limits.TheConstants.{FARTHEST_END_IN_TENS};
ghost use Rattle.rbc_model.specs.declared.memory.OrMemory.TheVariants.{Refused};
ghost use Rattle.rbc_model.specs.declared.refusals.Refusal.TheVariants.{NotSafe};
ghost use Rattle.rbc_model.specs.Answers.{AnswersAs};
ghost use Rattle.rbc_model.specs.Events.{line_to, with_authority};
ghost use Rattle.rbc_model.specs.Lines.{IsLine, legs_begun_before, line_length};
ghost use Rattle.rbc_model.specs.Scenes.{Scene};
ghost use Rattle.rbc_model.specs.Views.{start_of};
ghost use Rattle.rbc_scene.specs.Grants.{granted_train};
ghost use Rattle.rbc_scene.specs.Steps.{is_out_of_range};
ghost use Rattle.rbc_scene_laws.specs.Good.{IsGoodLocks};
ghost use Rattle.rbc_search.specs.Reaches.{BeginsWay, scene_of};

use rbc_model::{Distance, Leg, Memory, OrMemory, Refusal};
use rbc_search::{Book, Line, Locks, Train, reach};
use std::alloc::Global;

/// An authority from one place to another, and the train's line, continued to have its metres.
#[derive(Drop)]
pub(crate) struct GrantedLine {
    pub(crate) line: Line,
    pub(crate) from: u32,
    pub(crate) to: u32,
}

/// The line, cut behind the leg that has the metre before a place.
fn cut_to(line: Line, to: u32) -> Line
    requires some { 0 < to }
    ensures track { result.track ≡ line.track }
    ensures legs { result.legs ≡ take (legs_begun_before line.track to line.legs) line.legs }
{
    let mut line = line;
    line.known();
    let kept = line.legs_begun_before(to);
    let count = line.legs().len();
    line.cut_back(count - kept);
    line
}

/// The train's line, continued along legs that its way begins with, to have the metre before a place that they reach.
fn line_along(alloc: Global, train: &Train, legs: &[Leg], to: u32) -> Result<Line, Memory>
    requires line { IsLine train.now.track legs.now }
    requires some { 0 < to }
    requires on_line { to ≤ line_length train.now.track legs.now }
    ensures track { IfOk result (λ line. line.track ≡ train.now.track) }
    ensures legs { (scene : Scene) → IsGoodLocks train.now.track scene.locks
        → BeginsWay train.now.track scene train.now.train legs.now
        → IfOk result (λ line. line.legs ≡ line_to train.now.track scene train.now.train to) }
{
    train.known();
    let known = train.line();
    if to <= known.length() {
        return known.copy(alloc);
    }
    let line = Line::along(alloc, known.track(), legs)?;
    Ok(cut_to(line, to))
}

/// The authority up to a safe end at this distance beyond the train's group, on its line, which is continued along
/// legs that its way begins with.
pub(crate) fn granted_along(
    alloc: Global,
    train: &Train,
    distance: Distance,
    legs: &[Leg],
) -> Result<GrantedLine, Memory>
    requires line { IsLine train.now.track legs.now }
    requires near { distance ≤ FARTHEST_END_IN_TENS }
    requires some { 0 < train.now.train.origin + distance }
    requires on_line { train.now.train.origin + distance ≤ line_length train.now.track legs.now }
    ensures track { IfOk result (λ granted. granted.line.track ≡ train.now.track) }
    ensures legs { (scene : Scene) → IsGoodLocks train.now.track scene.locks
        → BeginsWay train.now.track scene train.now.train legs.now → IfOk result (λ granted. granted.line.legs
        ≡ line_to train.now.track scene train.now.train (train.now.train.origin + distance)) }
    ensures from { IfOk result (λ granted. granted.from ≡ start_of train.now.train) }
    ensures to { IfOk result (λ granted. granted.to ≡ train.now.train.origin + distance) }
{
    let line = train.line();
    train.known();
    line.known();
    let to = train.origin() + distance.metres();
    let line = line_along(alloc, train, legs, to)?;
    let from = train.start();
    Ok(GrantedLine { line, from, to })
}

/// The authority that the train is granted up to this distance beyond its group, if that is a safe end that a message
/// can give.
pub(crate) fn granted_to(
    alloc: Global,
    locks: &Locks,
    book: &Book,
    train: &Train,
    distance: Distance,
) -> Result<GrantedLine, OrMemory<Refusal>>
    requires track { train.now.track ≡ book.now.track }
    requires locks { IsGoodLocks book.now.track locks.now }
    ensures track { IfOk result (λ granted. granted.line.track ≡ book.now.track) }
    ensures granted { AnswersAs (λ g. with_authority train.now.train g.line.legs g.from g.to) result
        (granted_train book.now.track (scene_of locks.now book.now.trains) train.now.train distance) }
    ensures range { is_out_of_range book.now.track train.now.train distance ≡ true → result ≡ Err (Refused NotSafe) }
{
    let line = train.line();
    if distance.metres() > line.track().farthest_end() {
        return Err(OrMemory::Refused(Refusal::NotSafe));
    }
    train.known();
    line.known();
    let to = train.origin() + distance.metres();
    if to <= train.front() || to < train.to() {
        return Err(OrMemory::Refused(Refusal::NotSafe));
    }
    let found = reach(alloc, locks, book, train)?;
    if !found.may_end_at(train, to) {
        return Err(OrMemory::Refused(Refusal::NotSafe));
    }
    let way = found.line();
    way.known();
    let line = line_along(alloc, train, way.legs(), to)?;
    let from = train.start();
    Ok(GrantedLine { line, from, to })
}
