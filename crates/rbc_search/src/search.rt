//! The walk along a train's way, leg by leg, up to the first obstacle.

ghost use Rattle.std.specs.Prelude.{◌≡◌, ℕ, ◌≤◌, None, Some, length, IfOk, IfSome};
ghost use Rattle.std.specs.Option.{option_map_or};
ghost use Rattle.rbc_model.specs.Lines.{last_leg, line_length};
ghost use Rattle.rbc_model.specs.Locks.{lengthened_fully, longer_ahead};
ghost use Rattle.rbc_model.specs.SoundTracks.{IsSound};
ghost use Rattle.rbc_model.specs.Views.{reach, stop};
ghost use Rattle.rbc_model.specs.declared.refusals.Obstacle.{Obstacle};
ghost use Rattle.rbc_model.specs.declared.refusals.Obstacle.TheVariants.{Own};
ghost use Rattle.rbc_reach_laws.specs.Nearest.{end_obstacle, walk_on, walk_then};
ghost use Rattle.rbc_scene_laws.specs.Good.{IsGoodLocks};
ghost use Rattle.rbc_search.specs.OnLegs.{told};
ghost use Rattle.rbc_search.specs.Reaches.{BeginsWay, Trains, scene_of};

use crate::found::Reach;
use crate::leg_search::{Stop, WayLeg, stop_on};
use rbc_book::{Book, Course, Line, Locks, Train};
use rbc_model::{Leg, Memory, Obstacle};
use std::alloc::Global;

/// The first obstacle on the train's line, if there is one before its end.
fn stop_on_line(
    alloc: Global,
    locks: &Locks,
    book: &Book,
    train: &Train,
) -> Result<Option<Stop>, Memory>
    requires track { train.now.track ≡ book.now.track }
    ensures found { IfOk result (λ found. (finish : ℕ → ℕ × Obstacle) → walk_then finish train.now.track
        (scene_of locks.now book.now.trains) train.now.train None 0 train.now.train.line
        ≡ told found (finish (line_length train.now.track train.now.train.line))) }
    ensures on_line { IfOk result (λ found. IfSome found (λ stop.
        stop.place ≤ line_length train.now.track train.now.train.line)) }
{
    let line = train.line();
    let legs = line.legs();
    line.known();
    let mut before = None;
    let mut begin = 0;
    for leg in legs {
        let way_leg = WayLeg {
            before,
            begin,
            leg: *leg,
        };
        let first = stop_on(alloc, locks, book, train, &way_leg)?;
        if first.is_some() {
            return Ok(first);
        }
        before = Some(*leg);
        begin += line.track().metres_of(leg);
    }
    Ok(None)
}

/// What stands at the end of a way with this last leg.
fn end_obstacle(locks: &Locks, last: &Leg) -> Obstacle
    ensures { (trains : Trains) → result ≡ end_obstacle (scene_of locks.now trains) last.now }
{
    match locks.next(*last) {
        Some(_) => Obstacle::Own,
        None => Obstacle::NoLink(*last),
    }
}

/// The end of the line, where the locks lead no further or back onto it.
fn end_reach(locks: &Locks, line: Line) -> Reach
    ensures track { result.track ≡ line.track }
    ensures line { result.line ≡ line.legs }
    ensures place { result.place ≡ line_length line.track line.legs }
    ensures obstacle { (trains : Trains) → result.obstacle
        ≡ option_map_or (end_obstacle (scene_of locks.now trains)) (last_leg line.legs) Own }
{
    let obstacle = end_obstacle(locks, &line.last());
    Reach::new(line.length(), obstacle, line)
}

/// The first obstacle ahead of the line, on which there is none, and the line with the legs up to there.
fn reach_ahead(
    alloc: Global,
    locks: &Locks,
    book: &Book,
    train: &Train,
    line: Line,
) -> Result<Reach, Memory>
    requires track { line.track ≡ train.now.track }
    requires book { train.now.track ≡ book.now.track }
    requires locks { IsGoodLocks train.now.track locks.now }
    ensures track { IfOk result (λ found. found.track ≡ line.track) }
    ensures stop { IfOk result (λ found. walk_on train.now.track (scene_of locks.now book.now.trains) train.now.train
        (length train.now.track.sections) line.legs (line_length train.now.track line.legs)
        ≡ (found.place, found.obstacle)) }
    ensures begins { IfOk result (λ found. (n : ℕ) × (lengthened_fully n (longer_ahead locks.now) found.line
        ≡ lengthened_fully (length train.now.track.sections) (longer_ahead locks.now) line.legs)) }
{
    let mut course = Course::new(alloc, line)?;
    let count = course.line().section_count();
    for _added in 0..count {
        let before = course.line().last();
        let begin = course.line().length();
        if !course.lengthen_ahead(locks)? {
            return Ok(end_reach(locks, course.into_line()));
        }
        let longer = course.line();
        longer.known();
        let way_leg = WayLeg {
            before: Some(before),
            begin,
            leg: longer.last(),
        };
        let first = stop_on(alloc, locks, book, train, &way_leg)?;
        if let Some(found) = first {
            return Ok(Reach::new(found.place, found.obstacle, course.into_line()));
        }
    }
    Ok(end_reach(locks, course.into_line()))
}

/// How far the way of a train is clear: the first place with an obstacle on its line, continued as far as the locks
/// lead, and what stands there. The search begins at the start of the train's authority, or at its front where that
/// lies behind. Another train of its number does not stand in its way.
///
/// It walks the legs up to the first one that is blocked or has the limit; the next leg is looked up directly, and so is
/// another train that alone has a leg of the section on its line. Only where several have one it looks at all trains.
///
/// # Errors
///
/// [`Memory`] where there is none for what several trains have of a section, or for the line.
pub fn reach(alloc: Global, locks: &Locks, book: &Book, train: &Train) -> Result<Reach, Memory>
    requires track { train.now.track ≡ book.now.track }
    requires locks { IsGoodLocks book.now.track locks.now }
    ensures track { IfOk result (λ found. found.track ≡ book.now.track) }
    ensures place { IfOk result (λ found. found.place
        ≡ reach book.now.track (scene_of locks.now book.now.trains) train.now.train) }
    ensures obstacle { IfOk result (λ found. found.obstacle
        ≡ stop book.now.track (scene_of locks.now book.now.trains) train.now.train) }
    ensures line { IfOk result (λ found.
        BeginsWay book.now.track (scene_of locks.now book.now.trains) train.now.train found.line) }
{
    let line = train.line().copy(alloc)?;
    let first = stop_on_line(alloc, locks, book, train)?;
    if let Some(found) = first {
        return Ok(Reach::new(found.place, found.obstacle, line));
    }
    reach_ahead(alloc, locks, book, train, line)
}
