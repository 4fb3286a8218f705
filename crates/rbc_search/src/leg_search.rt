//! The search for the first obstacle on one leg.

ghost use Rattle.std.specs.Prelude.{◌≡◌, ℕ, ◌+◌, ◌<◌, ◌≤◌, ◌^◌, length, fold, IfOk, IfSome};
ghost use Rattle.rbc_model.specs.Obstacles.{is_locked};
ghost use Rattle.rbc_model.specs.Scales.{farthest};
ghost use Rattle.rbc_model.specs.Tracks.{metres_of};
ghost use Rattle.rbc_model.specs.Views.{start_of};
ghost use Rattle.rbc_model.specs.declared.refusals.Obstacle.{Obstacle};
ghost use Rattle.rbc_reach_laws.specs.Nearest.{nearer};
ghost use Rattle.rbc_search.specs.OnLegs.{authority_met, clear_of, extent_met, first_from, first_train, free_of, nearest_in, stop_met, stop_or, told};
ghost use Rattle.rbc_search.specs.Reaches.{scene_of};

use crate::bounds::limit_of;
use crate::stretches::{Span, Stretch, row_of};
use rbc_book::{Book, Locks, Train};
use rbc_model::{Leg, Memory, Obstacle, TrainId};
use std::alloc::Global;

/// A place with an obstacle, and the obstacle.
#[derive(Clone, Copy)]
pub(crate) struct Stop {
    pub(crate) place: u32,
    pub(crate) obstacle: Obstacle,
}

/// A leg of a train's way: the leg before it, if there is one, and the place at which it begins.
#[derive(Clone, Copy)]
pub(crate) struct WayLeg {
    pub(crate) before: Option<Leg>,
    pub(crate) begin: u32,
    pub(crate) leg: Leg,
}

/// A leg as a train that runs along it meets it.
#[derive(Clone, Copy)]
struct LegMet<'a> {
    leg: Leg,
    metres: u32,
    /// Whether it is locked for the train.
    locked: bool,
    /// What other trains have of its section.
    stretches: &'a [Stretch],
}

/// Whether the leg is locked in its direction, and behind the leg before if there is one.
fn is_locked(locks: &Locks, before: Option<Leg>, leg: Leg) -> bool
    ensures { result ≡ is_locked locks.now before leg }
{
    match locks.row(leg.section) {
        Some(lock) => {
            lock.direction == leg.direction && (before.is_none() || lock.before == before)
        }
        None => false,
    }
}

/// The nearer of a metre and of the first one of a span from `first` on.
fn nearer(near: u32, first: u32, span: Span) -> u32
    ensures { result ≡ nearer near (first_from first span) }
{
    let met = first.max(span.low);
    if met < span.high { near.min(met) } else { near }
}

impl<'a> LegMet<'a> {
    /// The extent's span, as it is met on the leg.
    fn extent_met(&self, stretch: &Stretch) -> Span
        ensures { result ≡ extent_met self.now.leg.direction self.now.metres stretch.now }
    {
        let same = stretch.direction == self.leg.direction;
        stretch.extent.met(same, self.metres)
    }

    /// The authority's span, as it is met on the leg.
    fn authority_met(&self, stretch: &Stretch) -> Span
        ensures { result ≡ authority_met self.now.leg.direction self.now.metres stretch.now }
    {
        let same = stretch.direction == self.leg.direction;
        stretch.authority.met(same, self.metres)
    }

    /// The nearest of a metre and of what the stretches have from `first` on.
    fn nearest(&self, first: u32, free: u32) -> u32
        ensures near { result
            ≡ fold (nearest_in self.now.leg.direction self.now.metres first) free self.now.stretches.now }
        ensures at_most { result ≤ free }
    {
        let mut near = free;
        for stretch in self.stretches {
            near = nearer(near, first, self.extent_met(stretch));
            near = nearer(near, first, self.authority_met(stretch));
        }
        near
    }

    /// The first of the trains whose extent has the metre.
    fn occupant(&self, metre: u32) -> Option<TrainId>
        ensures { result
            ≡ first_train (extent_met self.now.leg.direction self.now.metres) metre self.now.stretches.now }
    {
        let found = self
            .stretches
            .iter()
            .find(|stretch| self.extent_met(stretch).has(metre))?;
        Some(found.train)
    }

    /// The first of the trains whose authority has the metre.
    fn holder(&self, metre: u32) -> Option<TrainId>
        ensures { result
            ≡ first_train (authority_met self.now.leg.direction self.now.metres) metre self.now.stretches.now }
    {
        let found = self
            .stretches
            .iter()
            .find(|stretch| self.authority_met(stretch).has(metre))?;
        Some(found.train)
    }

    /// What stands at a metre that is the first with an obstacle.
    fn obstacle_at(&self, metre: u32) -> Obstacle
        ensures { result
            ≡ stop_met self.now.stretches.now self.now.locked self.now.leg self.now.metres metre }
    {
        if !self.locked {
            return Obstacle::NotLocked(self.leg.section);
        }
        if let Some(train) = self.occupant(metre) {
            return Obstacle::Occupied(train);
        }
        if let Some(train) = self.holder(metre) {
            return Obstacle::Held(train);
        }
        Obstacle::Limit
    }

    /// How many metres are clear, if `free` metres lie before the limit and the search begins at `first`.
    fn clear_of(&self, first: u32, free: u32) -> u32
        ensures clear { result
            ≡ clear_of self.now.stretches.now self.now.locked self.now.leg.direction self.now.metres first free }
        ensures at_most { result ≤ free }
    {
        let high = if self.locked { 0 } else { self.metres };
        let free = nearer(free, first, Span { low: 0, high });
        self.nearest(first, free)
    }
}

/// How many metres of a leg, which begins at `begin` and is `metres` long, lie before the limit.
fn free_of(train: &Train, begin: u32, metres: u32) -> u32
    ensures near { result ≡ free_of (train.now.train.origin + farthest train.now.track.format)
        (start_of train.now.train) begin metres }
    ensures at_most { result ≤ metres }
{
    let limit = limit_of(train);
    if train.start().max(begin) <= limit {
        metres.min(limit - begin)
    } else {
        metres
    }
}

/// The first obstacle on a leg of the train's way, if there is one before the leg's end. Where the search begins behind the
/// leg there is none, and nothing else is looked at.
pub(crate) fn stop_on(
    alloc: Global,
    locks: &Locks,
    book: &Book,
    train: &Train,
    way_leg: &WayLeg,
) -> Result<Option<Stop>, Memory>
    requires track { train.now.track ≡ book.now.track }
    requires of_track { way_leg.now.leg.section < length train.now.track.sections }
    requires fits { way_leg.now.begin + metres_of train.now.track way_leg.now.leg.section < 2 ^ 32 }
    ensures found { IfOk result (λ found. (rest : ℕ × Obstacle) → told found rest ≡ stop_or train.now.track
        (scene_of locks.now book.now.trains) train.now.train way_leg.now.before way_leg.now.begin way_leg.now.leg rest) }
    ensures on_leg { IfOk result (λ found. IfSome found (λ stop.
        stop.place < way_leg.now.begin + metres_of train.now.track way_leg.now.leg.section)) }
{
    let leg = &way_leg.leg;
    let metres = train.line().track().metres_of(leg);
    let first = train.start().saturating_sub(way_leg.begin);
    if first >= metres {
        return Ok(None);
    }
    let locked = is_locked(locks, way_leg.before, *leg);
    let others = row_of(alloc, book, train.id(), leg.section)?;
    book.known();
    let met = LegMet {
        leg: *leg,
        metres,
        locked,
        stretches: others.as_slice(),
    };
    let free = free_of(train, way_leg.begin, metres);
    let clear = met.clear_of(first, free);
    if clear < metres {
        Ok(Some(Stop {
            place: way_leg.begin + clear,
            obstacle: met.obstacle_at(clear),
        }))
    } else {
        Ok(None)
    }
}
