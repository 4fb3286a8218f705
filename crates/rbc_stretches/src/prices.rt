//! The least value of a stretch, and what is lost on it.
ghost use Rattle.std.specs.Prelude.{◌≡◌, ℕ, ◌+◌, ◌*◌, ◌≤◌, if◌then◌else◌};
ghost use Rattle.rbc_model.specs.Levels.{IsInRange};
ghost use Rattle.rbc_model.specs.declared.limits.TheConstants.{MOST_PRICE};
ghost use Rattle.rbc_table_laws.specs.Breaks.{IsLowest, IsBelowAll, lost_below};
ghost use Rattle.rbc_stretches.specs.OnTracks.{IsOnTrack};

use crate::Stretch;
use crate::breaks::edge;
use rbc_steps::{Level, Runs};

/// Whether the one value is no higher than the other.
pub fn is_at_most<V: Level>(a: V, b: V) -> bool
    ensures { result ≡ V.levels.at_most a b }
{
    a.known();
    b.known();
    a <= b
}

/// The lower of two values.
fn lower<V: Level>(a: V, b: V) -> V
    ensures { result ≡ (if V.levels.at_most a b then a else b) }
{
    if is_at_most(a, b) { a } else { b }
}

/// The least value on a stretch.
pub fn least_on<V: Level>(track: &Runs<V>, stretch: Stretch) -> V
    requires { IsOnTrack track.now stretch }
    ensures { IsLowest V.levels track.now stretch.from stretch.to result }
{
    track.known();
    let runs = track.runs();
    let mut run = stretch.first;
    let mut least = runs[run].1;
    while edge(track, run + 1) < stretch.to {
        run += 1;
        least = lower(least, runs[run].1);
    }
    least
}

/// What is lost on a stretch where `given` is given.
pub fn price_on<V: Level>(track: &Runs<V>, stretch: Stretch, given: V) -> u64
    requires stretch { IsOnTrack track.now stretch }
    requires given_in_range { IsInRange V.levels given }
    requires below { IsBelowAll V.levels track.now stretch.from stretch.to given }
    ensures price { lost_below V.levels track.now given stretch.from + result ≡ lost_below V.levels track.now given stretch.to }
    ensures bound { stretch.from * MOST_PRICE + result ≤ stretch.to * MOST_PRICE }
{
    track.known();
    let runs = track.runs();
    let mut run = stretch.first;
    let mut from = stretch.from;
    let mut price = 0;
    while from < stretch.to {
        let to = edge(track, run + 1).min(stretch.to);
        price += u64::from(to - from) * runs[run].1.price(given);
        from = to;
        run += 1;
    }
    price
}
