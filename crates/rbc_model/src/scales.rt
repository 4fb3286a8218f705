//! The distances that an authority's end may have from its balise group, and the scale in which a message counts them.
ghost use Rattle.std.specs.Prelude.{◌≡◌, ◌≤◌};
ghost use Rattle.rbc_model.specs.Scales.{farthest, is_expressible, is_in_tens, unit_of, scale_of};

use crate::Format;
use crate::limits::{FARTHEST_END, FARTHEST_END_IN_TENS, FIRST_END_IN_TENS, TEN_METRES};

/// How many metres from its balise group an authority may end.
pub fn farthest(format: Format) -> u32
    ensures { result ≡ farthest format }
{
    match format {
        Format::Near => FARTHEST_END,
        Format::Far => FARTHEST_END_IN_TENS,
    }
}

/// Whether a message that counts in tens of metres can give this distance.
fn is_in_tens(distance: u32) -> bool
    ensures { result ≡ is_in_tens distance }
{
    (FIRST_END_IN_TENS..=FARTHEST_END_IN_TENS).contains(&distance) && distance % TEN_METRES == 0
}

/// Whether a message can give an authority an end at this distance from its balise group, in metres.
pub fn is_expressible(format: Format, distance: u32) -> bool
    ensures { result ≡ is_expressible format distance }
{
    let in_metres = (1..=FARTHEST_END).contains(&distance);
    match format {
        Format::Near => in_metres,
        Format::Far => in_metres || is_in_tens(distance),
    }
}

/// How many metres a message counts as one, for an authority that ends there.
pub fn unit_of(end: u32) -> u32
    ensures unit { result ≡ unit_of end }
    ensures some { 1 ≤ result }
    ensures few { result ≤ 10 }
{
    if end <= FARTHEST_END { 1 } else { TEN_METRES }
}

/// The message's number for that scale (Q_SCALE).
pub fn scale_of(end: u32) -> u32
    ensures scale { result ≡ scale_of end }
    ensures fits { result ≤ 2 }
{
    if end <= FARTHEST_END { 1 } else { 2 }
}
