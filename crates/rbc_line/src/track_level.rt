//! The kinds of level that a track has.

ghost use Rattle.std.specs.Prelude.{◌≡◌, ℕ, List};
ghost use Rattle.rbc_model.specs.declared.places.Direction.{Direction};
ghost use Rattle.rbc_model.specs.Lines.{met};
ghost use Rattle.rbc_model.specs.Tracks.{Section};

use rbc_model::Direction;
use rbc_steps::{Grade, Level, Runs, Speed};
use rbc_track::Section;

/// A kind of level that each section of a track has for its metres.
pub(crate) trait TrackLevel: Level {
    /// The section's levels, for rising offsets.
    ghost steps_of: { Section → List (ℕ × Self) };

    /// What a train meets of a level on a leg of this direction.
    ghost met: { Direction → Self → Self };

    /// The section's levels, for rising offsets.
    fn runs_of(section: &Section) -> &Runs<Self>
        ensures { result.now ≡ record { steps = steps_of section.now; end = section.now.metres } };

    /// The level as a train meets it on a leg of this direction.
    fn met(self, direction: Direction) -> Self
        ensures { result ≡ met direction self };
}

impl TrackLevel for Speed {
    ghost steps_of = { λ section. section.speeds };

    ghost met = { λ direction speed. speed };

    fn runs_of(section: &Section) -> &Runs<Speed> {
        section.speeds()
    }

    fn met(self, _direction: Direction) -> Speed {
        self
    }
}

impl TrackLevel for Grade {
    ghost steps_of = { λ section. section.grades };

    ghost met = { met };

    fn runs_of(section: &Section) -> &Runs<Grade> {
        section.grades()
    }

    /// Uphill is downhill where the offsets fall.
    fn met(self, direction: Direction) -> Grade {
        match direction {
            Direction::Rising => self,
            Direction::Falling => self.negated(),
        }
    }
}
