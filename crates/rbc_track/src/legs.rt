//! Legs of a track.

ghost use Rattle.std.specs.Prelude.{◌≡◌, nat_lt};
ghost use Rattle.rbc_model.specs.Tracks.{leg_eq, reverse_leg};

use rbc_model::{Direction, Leg};

/// The leg that runs the section the other way.
pub fn reverse(leg: Leg) -> Leg
    ensures { result ≡ reverse_leg leg }
{
    let direction = match leg.direction {
        Direction::Rising => Direction::Falling,
        Direction::Falling => Direction::Rising,
    };
    Leg {
        section: leg.section,
        direction,
    }
}

/// Whether two legs are the same.
pub(crate) fn leg_eq(a: &Leg, b: &Leg) -> bool
    ensures { result ≡ leg_eq a.now b.now }
{
    a == b
}

/// Whether the leg is of a section of a track with this number of sections.
pub(crate) fn is_leg_of(sections: usize, leg: &Leg) -> bool
    ensures { result ≡ nat_lt leg.now.section sections }
{
    leg.section.index() < sections
}
