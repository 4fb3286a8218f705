//! The place up to which a train's way is searched, and the last end up to a place.

ghost use Rattle.std.specs.Prelude.{◌≡◌, ◌+◌, ◌-◌, ◌<◌, ◌≤◌, ◌^◌};
ghost use Rattle.rbc_model.specs.Scales.{farthest};
ghost use Rattle.rbc_reach_laws.specs.Nearest.{greatest_up_to, nearest_end};

use rbc_book::Train;
use rbc_model::Format;
use rbc_model::limits::{FARTHEST_END, FARTHEST_END_IN_TENS, FIRST_END_IN_TENS, TEN_METRES};

/// The place beyond which no end may lie, since a message counts it from the train's balise group.
pub(crate) fn limit_of(train: &Train) -> u32
    ensures limit { result ≡ train.now.train.origin + farthest train.now.track.format }
    ensures fits { result < 2 ^ 31 }
{
    let line = train.line();
    train.known();
    line.known();
    train.origin() + line.track().farthest_end()
}

/// The greatest distance from its balise group that a message can give to an authority's end, of those up to this one; 0
/// where it can give none.
fn greatest_up_to(format: Format, distance: u32) -> u32
    ensures greatest { result ≡ greatest_up_to format distance }
    ensures up_to { result ≤ distance }
{
    if format == Format::Near || distance < FIRST_END_IN_TENS {
        distance.min(FARTHEST_END)
    } else {
        (distance / TEN_METRES * TEN_METRES).min(FARTHEST_END_IN_TENS)
    }
}

/// The last place up to the reach, which is given, whose distance from the train's balise group a message can give; the
/// group itself where there is none.
pub(crate) fn nearest_end(train: &Train, reach: u32) -> u32
    ensures nearest { result ≡ nearest_end train.now.track.format train.now.train reach }
    ensures up_to { result ≤ train.now.train.origin + (reach - train.now.train.origin) }
{
    let origin = train.origin();
    let format = train.line().track().format();
    origin + greatest_up_to(format, reach.saturating_sub(origin))
}
