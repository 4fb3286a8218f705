//! Whether trains hold a metre together, and whether what a train holds is locked.

ghost use Rattle.std.specs.Prelude.{◌≡◌, ◌≤◌, None, option_map, ◌<◌, ◌^◌, ◌&&◌, not, All, length, max, min, nat_lt, find, map};
ghost use Rattle.rbc_reach_laws.specs.Spans.{leg_span};
ghost use Rattle.rbc_model.specs.declared.places.Direction.TheVariants.{Rising};
ghost use Rattle.rbc_model.specs.Lines.{line_length};
ghost use Rattle.rbc_model.specs.Obstacles.{is_locked};
ghost use Rattle.rbc_model.specs.Tracks.{metres_of};
ghost use Rattle.rbc_good_laws.specs.Tests.{meet, offsets_held};
ghost use Rattle.rbc_scene.specs.Books.{train_in};
ghost use Rattle.rbc_scene.specs.Entries.{number_on, on_track};
ghost use Rattle.rbc_scene.specs.Reaches.{scene_of};
ghost use Rattle.rbc_scene_reading.specs.Reading.{first_shared, first_sharing, first_unlocked, held_fault};
ghost use Rattle.rbc_scene_reading.specs.Spans.{pair_of, shares, span_rising};

use crate::fault::SceneFault;
use rbc_model::{Direction, Leg, SectionId, TrainId};
use rbc_scene::{Along, Book, Locks, Train};
use rbc_track::Track;

/// Offsets of a section from one up to another, which is left out.
#[derive(Clone, Copy)]
pub(crate) struct Span {
    low: u32,
    high: u32,
}

/// The offsets of a section at the places from `from` up to `to`, on a leg of so many metres that begins at `begin`.
fn span_on(leg: Leg, metres: u32, begin: u32, from: u32, to: u32) -> Span
    ensures { pair_of result ≡ span_rising leg.direction metres begin from to }
{
    let low = from.saturating_sub(begin);
    let high = to.saturating_sub(begin).min(metres);
    match leg.direction {
        Direction::Rising => Span { low, high },
        Direction::Falling => Span {
            low: metres.saturating_sub(high),
            high: metres.saturating_sub(low),
        },
    }
}

/// Which offsets of a section these legs, which begin at place 0, have at the places from `from` up to `to`.
fn offsets_on(track: &Track, legs: &[Leg], section: SectionId, from: u32, to: u32) -> Span
    requires of_track { All (λ leg. leg.section < length track.now.sections) legs.now }
    requires fits { line_length track.now legs.now < 2 ^ 32 }
    ensures { pair_of result ≡ leg_span track.now (record { section = section; direction = Rising }) 0 from to legs.now }
{
    let mut begin = 0;
    for leg in legs {
        let metres = track.metres_of(leg);
        if leg.section == section {
            return span_on(*leg, metres, begin, from, to);
        }
        begin += metres;
    }
    Span { low: 0, high: 0 }
}

/// Which offsets of a section a train holds.
fn offsets_held(train: &Train, section: SectionId) -> Span
    ensures { pair_of result ≡ offsets_held train.now.track section train.now.train }
{
    let line = train.line();
    line.known();
    offsets_on(line.track(), line.legs(), section, train.from(), train.to())
}

/// Whether two trains hold a metre of the section.
fn hold_both(section: SectionId, a: &Train, b: &Train) -> bool
    ensures { result ≡ meet (offsets_held a.now.track section a.now.train) (offsets_held b.now.track section b.now.train) }
{
    let first = offsets_held(a, section);
    let second = offsets_held(b, section);
    first.low.max(second.low) < first.high.min(second.high)
}

/// The first of all trains that holds a metre of the section which this train holds too.
fn first_of_all(book: &Book, train: &Train, section: SectionId) -> Option<TrainId>
    ensures { result ≡ option_map number_on
        (find (shares train.now.track section train.now.train) (map (on_track book.now.track) book.now.trains)) }
{
    for other in book.trains() {
        if hold_both(section, train, other) {
            return Some(other.id());
        }
    }
    None
}

/// The first of the trains that holds a metre of the section which this train, whose number is new, holds too.
fn first_sharing(book: &Book, train: &Train, section: SectionId) -> Option<TrainId>
    requires track { train.now.track ≡ book.now.track }
    requires new { train_in book.now train.now.train.report.train ≡ None }
    ensures { result ≡ first_sharing book.now.track book.now.trains train.now.train section }
{
    match book.others_along(train.id(), section) {
        Along::Nobody => None,
        Along::One(other) if hold_both(section, train, other) => Some(other.id()),
        Along::One(_) => None,
        Along::Several => first_of_all(book, train, section),
    }
}

/// The first of the trains that holds a metre which this train, whose number is new, holds too, and the section of the metre.
fn first_shared(book: &Book, train: &Train) -> Option<(TrainId, SectionId)>
    requires track { train.now.track ≡ book.now.track }
    requires new { train_in book.now train.now.train.report.train ≡ None }
    ensures { result ≡ first_shared book.now.track book.now.trains train.now.train train.now.train.line }
{
    let legs = train.line().legs();
    for leg in legs {
        if let Some(other) = first_sharing(book, train, leg.section) {
            return Some((other, leg.section));
        }
    }
    None
}

/// Whether the leg is locked in its direction.
fn is_locked(locks: &Locks, leg: Leg) -> bool
    ensures { result ≡ is_locked locks.now None leg }
{
    match locks.row(leg.section) {
        Some(lock) => lock.direction == leg.direction,
        None => false,
    }
}

/// Whether two stretches of a line have a place in common.
fn meet(from: u32, to: u32, begin: u32, end: u32) -> bool
    ensures { result ≡ nat_lt (max from begin) (min to end) }
{
    from.max(begin) < to.min(end)
}

/// Whether a leg is held and not locked in its direction.
fn is_held_unlocked(is_held: bool, locks: &Locks, leg: Leg) -> bool
    ensures { result ≡ (is_held && not (is_locked locks.now None leg)) }
{
    is_held && !is_locked(locks, leg)
}

/// The first section that these legs, which begin at place 0, have at the places from `from` up to `to`, and which is not locked
/// in the direction of its leg.
fn first_unlocked_on(
    locks: &Locks,
    track: &Track,
    legs: &[Leg],
    from: u32,
    to: u32,
) -> Option<SectionId>
    requires of_track { All (λ leg. leg.section < length track.now.sections) legs.now }
    requires fits { line_length track.now legs.now < 2 ^ 32 }
    ensures { result ≡ first_unlocked track.now locks.now from to 0 legs.now }
{
    let mut begin = 0;
    for leg in legs {
        let end = begin + track.metres_of(leg);
        if is_held_unlocked(meet(from, to, begin, end), locks, *leg) {
            return Some(leg.section);
        }
        begin = end;
    }
    None
}

/// The first section of which the train holds a metre, and which is not locked in the direction of its leg.
fn first_unlocked(locks: &Locks, train: &Train) -> Option<SectionId>
    ensures { result ≡ first_unlocked train.now.track locks.now train.now.train.from train.now.train.to 0 train.now.train.line }
{
    let line = train.line();
    line.known();
    first_unlocked_on(locks, line.track(), line.legs(), train.from(), train.to())
}

/// Why the train, whose number is new, can't hold what it holds.
pub(crate) fn held_fault(locks: &Locks, book: &Book, train: &Train) -> Option<SceneFault>
    requires track { train.now.track ≡ book.now.track }
    requires new { train_in book.now train.now.train.report.train ≡ None }
    ensures { result ≡ held_fault book.now.track (scene_of locks.now book.now.trains) train.now.train }
{
    if let Some(section) = first_unlocked(locks, train) {
        return Some(SceneFault::NotLocked(train.id(), section));
    }
    let (other, section) = first_shared(book, train)?;
    Some(SceneFault::Held(train.id(), other, section))
}
