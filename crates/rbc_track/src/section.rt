//! A section.

ghost use Rattle.std.specs.Prelude.{◌≡◌, ◌≤◌, ◌==◌, Some, None, if◌then◌else◌};
ghost use Rattle.rbc_model.specs.Levels.{speed_levels, grade_levels};
ghost use Rattle.rbc_model.specs.Profiles.{IsTrackFunction};
ghost use Rattle.rbc_model.specs.declared.limits.TheConstants.{LONGEST_TRACK};

use crate::Name;
use rbc_steps::{Grade, Runs, Speed};
use std::marker::Model;

/// A section of track: its name, and its speeds and gradients over its metres.
#[derive(Drop)]
pub struct Section {
    name: Name,
    speeds: Runs<Speed>,
    grades: Runs<Grade>,
}

impl Model for Section {
    ghost use Rattle.rbc_track.specs.Sections.{IsSection};
    ghost use Rattle.rbc_model.specs.Tracks.{Section};

    ghost Value = { Section };

    ghost view = { λ s. record {
      name = s.name;
      metres = s.speeds.end;
      speeds = s.speeds.steps;
      grades = s.grades.steps;
    } };

    ghost invariant = { λ s. IsSection s.speeds s.grades };
}

impl Section {
    /// The section of these speeds and gradients, if they end at the same metre.
    pub fn new(name: Name, speeds: Runs<Speed>, grades: Runs<Grade>) -> Option<Section>
        ensures { result ≡ (if grades.end == speeds.end then Some (record {
          name = name;
          metres = speeds.end;
          speeds = speeds.steps;
          grades = grades.steps;
        }) else None) }
    {
        // A section keeps what is known of both.
        speeds.known();
        grades.known();
        if grades.end() == speeds.end() {
            Some(Section {
                name,
                speeds,
                grades,
            })
        } else {
            None
        }
    }

    /// The speeds and the gradients are track functions of the section's metres, which lie within the limit. This does nothing.
    pub fn known(&self)
        ensures speeds { IsTrackFunction speed_levels self.now.metres self.now.speeds }
        ensures grades { IsTrackFunction grade_levels self.now.metres self.now.grades }
        ensures metres_at_most { self.now.metres ≤ LONGEST_TRACK }
    {
        let _ = &self.speeds;
    }

    /// The section's name.
    pub fn name(&self) -> Name
        ensures { result ≡ self.now.name }
    {
        self.name
    }

    /// How many metres the section has: 1 to 100,000.
    pub fn length(&self) -> u32
        ensures { result ≡ self.now.metres }
    {
        self.speeds.end()
    }

    /// The speeds for rising offsets and for falling ones.
    pub fn speeds(&self) -> &Runs<Speed>
        ensures { result.now ≡ record { steps = self.now.speeds; end = self.now.metres } }
    {
        &self.speeds
    }

    /// The gradients for rising offsets, positive uphill.
    pub fn grades(&self) -> &Runs<Grade>
        ensures { result.now ≡ record { steps = self.now.grades; end = self.now.metres } }
    {
        &self.grades
    }
}
