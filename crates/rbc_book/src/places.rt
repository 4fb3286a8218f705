//! Which metres and which sections a train has, by walks along the legs of its line.

ghost use Rattle.std.specs.Prelude.{◌≡◌, ◌+◌, ◌^◌, ◌<◌, ◌≤◌, ◌||◌, All, length, nat_lt, max, min, IfSome};
ghost use Rattle.rbc_model.specs.declared.limits.TheConstants.{LONGEST_TRACK};
ghost use Rattle.rbc_model.specs.Events.{stands_on};
ghost use Rattle.rbc_model.specs.Lines.{line_length, place_of_metre};
ghost use Rattle.rbc_model.specs.Scenes.{authority_has, extent_has};
ghost use Rattle.rbc_model.specs.Tracks.{metres_of};
ghost use Rattle.rbc_book.specs.LegPlaces.{leg_place, metres_until};

use rbc_extent::{Line, Train};
use rbc_model::{Direction, Leg, Metre, SectionId};
use rbc_track::Track;

/// A leg of a line, the place at which it begins, and how many metres it has.
#[derive(Clone, Copy)]
struct LegPlace {
    leg: Leg,
    begin: u32,
    metres: u32,
}

/// The leg of the section, if it is one of these, which begin at place 0.
fn leg_among(track: &Track, legs: &[Leg], section: SectionId) -> Option<LegPlace>
    requires of_track { All (λ leg. leg.section < length track.now.sections) legs.now }
    requires fits { line_length track.now legs.now < 2 ^ 32 }
    ensures place { result ≡ leg_place track.now legs.now section }
    ensures on_line { IfSome result (λ place. place.begin + place.metres ≤ line_length track.now legs.now) }
{
    let mut begin = 0;
    for leg in legs {
        let metres = track.metres_of(leg);
        if leg.section == section {
            return Some(LegPlace {
                leg: *leg,
                begin,
                metres,
            });
        }
        begin += metres;
    }
    None
}

/// The leg of the section, if it stands on the line.
fn leg_place(line: &Line, section: SectionId) -> Option<LegPlace>
    ensures place { result ≡ leg_place line.now.track line.now.legs section }
    ensures fits { IfSome result (λ place. place.begin + place.metres < 2 ^ 32) }
{
    line.known();
    leg_among(line.track(), line.legs(), section)
}

/// How many metres of a leg in this direction, `metres` long, a train runs along before the metre of this offset.
fn metres_until(direction: Direction, metres: u32, offset: u32) -> u64
    ensures until { result ≡ metres_until direction metres offset }
    ensures at_most { result < 2 ^ 32 }
{
    match direction {
        Direction::Rising => u64::from(offset),
        Direction::Falling => u64::from(metres).saturating_sub(1 + u64::from(offset)),
    }
}

/// The place of a metre, if the line has its section.
fn place_of(line: &Line, metre: Metre) -> Option<u64>
    ensures { result ≡ place_of_metre line.now.track line.now.legs metre }
{
    let place = leg_place(line, metre.section)?;
    Some(u64::from(place.begin) + metres_until(place.leg.direction, place.metres, metre.offset))
}

/// Whether the train's extent has the metre.
pub(crate) fn extent_has(train: &Train, metre: Metre) -> bool
    ensures { result ≡ extent_has train.now.track metre train.now.train }
{
    match place_of(train.line(), metre) {
        Some(place) => u64::from(train.rear()) <= place && place < u64::from(train.front()),
        None => false,
    }
}

/// Whether the train's authority has the metre.
pub(crate) fn authority_has(train: &Train, metre: Metre) -> bool
    ensures { result ≡ authority_has train.now.track metre train.now.train }
{
    match place_of(train.line(), metre) {
        Some(place) => u64::from(train.from()) <= place && place < u64::from(train.to()),
        None => false,
    }
}

/// Whether two stretches of a line have a place in common.
fn meet(from: u32, to: u32, begin: u32, end: u32) -> bool
    ensures { result ≡ nat_lt (max from begin) (min to end) }
{
    from.max(begin) < to.min(end)
}

/// Whether the train's extent or its authority meets a stretch of its line.
fn meets(train: &Train, begin: u32, end: u32) -> bool
    ensures { result ≡ (nat_lt (max train.now.train.rear begin) (min train.now.train.front end)
        || nat_lt (max train.now.train.from begin) (min train.now.train.to end)) }
{
    meet(train.rear(), train.front(), begin, end) || meet(train.from(), train.to(), begin, end)
}

/// Whether the train's extent or its authority has a metre of the section.
pub(crate) fn stands_on(train: &Train, section: SectionId) -> bool
    ensures { result ≡ stands_on train.now.track section train.now.train }
{
    train.known();
    match leg_place(train.line(), section) {
        Some(place) => meets(train, place.begin, place.begin + place.metres),
        None => false,
    }
}
