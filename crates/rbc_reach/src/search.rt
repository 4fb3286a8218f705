//! The search for the farthest end that a train may be granted, and what stands beyond it.

ghost use Rattle.std.specs.Prelude.{◌≡◌, ◌≤◌, ◌<◌, ◌-◌, None, Err, IfOk, IsTrue, take};
ghost use Rattle.rbc_model.specs.declared.places.Format.TheVariants.{Far};
ghost use Rattle.rbc_model.specs.declared.memory.OrMemory.TheVariants.{Refused};
ghost use Rattle.rbc_model.specs.declared.refusals.ViewFault.TheVariants.{UnknownTrain};
ghost use Rattle.rbc_model.specs.Answers.{AnswersOrMemory};
ghost use Rattle.rbc_model.specs.Lines.{legs_begun_before, line_length};
ghost use Rattle.rbc_model.specs.Scales.{is_expressible};
ghost use Rattle.rbc_model.specs.Scenes.{train_numbered};
ghost use Rattle.rbc_model.specs.Views.{from_group, view, view_of};
ghost use Rattle.rbc_reach.specs.Found.{view_found};
ghost use Rattle.rbc_scene_laws.specs.Good.{IsGoodLocks};
ghost use Rattle.rbc_scene.specs.Reaches.{scene_of};

use crate::{View, ViewParts};
use rbc_model::{Leg, Memory, OrMemory, TrainId, ViewFault};
use rbc_scene::{Book, Line, Locks, Reach, Scene, Train, reach};
use std::alloc::Global;

/// The view of the train of this number: what it is shown where it asks how far it may run.
///
/// # Errors
///
/// `Refused` with the first of these:
/// - `UnknownTrain`, before any memory is asked for: there is no train of this number,
/// - `Blocked` with what stands at the reach, and the reach in metres from the train's group, where no message can give
///   a safe end.
///
/// `Memory`, where the allocator refuses room for the search or the view.
pub fn view(alloc: Global, scene: &Scene, train: TrainId) -> Result<View, OrMemory<ViewFault>>
    ensures view { AnswersOrMemory result (view scene.now.track scene.now.scene train) }
    ensures unknown { train_numbered scene.now.scene train ≡ None → result ≡ Err (Refused UnknownTrain) }
{
    scene.known();
    match scene.book().get(train) {
        Some(known) => view_of(alloc, scene.locks(), scene.book(), known),
        None => Err(OrMemory::Refused(ViewFault::UnknownTrain)),
    }
}

/// The view of a train.
fn view_of(
    alloc: Global,
    locks: &Locks,
    book: &Book,
    train: &Train,
) -> Result<View, OrMemory<ViewFault>>
    requires track { train.now.track ≡ book.now.track }
    requires locks { IsGoodLocks book.now.track locks.now }
    ensures { AnswersOrMemory result
        (view_of book.now.track (scene_of locks.now book.now.trains) train.now.train) }
{
    let found = reach(alloc, locks, book, train)?;
    train.known();
    match found.greatest_end(train) {
        Some(end) => Ok(view_to(alloc, train, &found, end)?),
        None => {
            let at = from_group(train, found.place());
            Err(OrMemory::Refused(ViewFault::Blocked(found.obstacle(), at)))
        }
    }
}

/// A place as a distance from the train's group, negative before it.
fn from_group(train: &Train, place: u32) -> i64
    ensures { result ≡ from_group train.now.train place }
{
    i64::from(place) - i64::from(train.origin())
}

/// The legs of the line that begin before the place.
fn legs_to(alloc: Global, line: &Line, place: u32) -> Result<Vec<Leg>, Memory>
    ensures { IfOk result (λ legs.
        legs.items ≡ take (legs_begun_before line.now.track place line.now.legs) line.now.legs) }
{
    let count = line.legs_begun_before(place);
    Ok(Vec::from_slice(alloc, &line.legs()[..count])?)
}

/// The view of a train up to an end, if its way is clear so far.
fn view_to(alloc: Global, train: &Train, found: &Reach, end: u32) -> Result<View, Memory>
    requires track { found.now.track ≡ train.now.track }
    requires ahead { train.now.train.origin < end }
    requires expressible { IsTrue (is_expressible Far (end - train.now.train.origin)) }
    requires on_line { end ≤ line_length found.now.track found.now.line }
    ensures { IfOk result (λ view. view ≡ view_found train.now.train found.now end) }
{
    let report = train.report();
    let line = found.line();
    let track = line.track();
    let origin = train.origin();
    line.known();
    let parts = ViewParts {
        train: report.train(),
        group: report.group(),
        nominal: report.nominal(),
        time: report.time(),
        legs: legs_to(alloc, line, found.place())?,
        origin,
        start: train.start(),
        front: train.front(),
        to: train.to(),
        reach: found.place(),
        obstacle: found.obstacle(),
        speed_steps: track.speed_steps(),
        grade_steps: track.grade_steps(),
        speeds: line.speeds(alloc, origin, end)?,
        grades: line.grades(alloc, origin, end)?,
    };
    Ok(View::new(parts).unwrap())
}
