//! What a train that asks is shown.

ghost use Rattle.std.specs.Prelude.{◌≡◌, ◌+◌, Some, None, if◌then◌else◌};
ghost use Rattle.rbc_reach.specs.Forms.{metres_shown, view_of_parts, are_in_form, IsViewInForm};

use crate::ViewParts;
use rbc_model::limits::{FARTHEST_END_IN_TENS, MOST_STEPS};
use rbc_model::scales::is_expressible;
use rbc_model::{Format, GroupName, Leg, Obstacle, TrainId};
use rbc_steps::{Grade, Runs, Speed};
use std::marker::Model;

/// What a train that asks is shown: its last report, its legs up to the reach, the places that bound its authority,
/// the obstacle, the limits of steps, and the track's speeds and gradients from the group to the end (ERA SUBSET-026
/// 3.6.0, sections 3.6 and 3.8). Places are metres from the start of the train's line. The end lies up to
/// 80,000 m beyond the group, where a message can give it.
#[derive(Drop)]
pub struct View {
    parts: ViewParts,
}

impl Model for View {
    ghost use Rattle.std.specs.Prelude.{◌≡◌};
    ghost use Rattle.rbc_model.specs.Views.{View};
    ghost use Rattle.rbc_reach.specs.Forms.{view_of_parts, IsViewInForm};

    ghost Value = { View };

    ghost view = { λ v. view_of_parts v.parts };

    ghost invariant = { λ v. IsViewInForm (view_of_parts v.parts) × (v.parts.grades.end ≡ v.parts.speeds.end) };
}

/// Whether the parts make a view.
fn are_in_form(parts: &ViewParts) -> bool
    ensures { result ≡ are_in_form parts.now }
{
    let end = parts.speeds.end();
    parts.grades.end() == end
        && is_expressible(Format::Far, end)
        && parts.origin <= u32::MAX - FARTHEST_END_IN_TENS
        && (1..=MOST_STEPS).contains(&parts.speed_steps)
        && (1..=MOST_STEPS).contains(&parts.grade_steps)
}

impl View {
    /// The view of these parts. Its end lies where its speeds and gradients end. None where these do not end at one
    /// metre that a message can give, up to 80,000 m from the group, where the group lies beyond 4,294,887,295 m, or where
    /// a limit of steps is not 1 to 31.
    pub fn new(parts: ViewParts) -> Option<View>
        ensures { result ≡ (if are_in_form parts then Some (view_of_parts parts) else None) }
    {
        // A view keeps what is known of both tracks.
        parts.speeds.known();
        parts.grades.known();
        if are_in_form(&parts) {
            Some(View { parts })
        } else {
            None
        }
    }

    /// The end lies beyond the group, where a message can give it, and each metre from the group to there has a speed and a
    /// gradient. A packet has room for as many steps as a profile may have. This does nothing.
    pub fn known(&self)
        ensures { IsViewInForm self.now }
    {
        let _ = &self.parts;
    }

    /// The train's number.
    pub fn train(&self) -> TrainId
        ensures { result ≡ self.now.train }
    {
        self.parts.train
    }

    /// The balise group of the train's last report (LRBG).
    pub fn group(&self) -> GroupName
        ensures { result ≡ self.now.group }
    {
        self.parts.group
    }

    /// Whether the train runs in the group's nominal direction.
    pub fn nominal(&self) -> bool
        ensures { result ≡ self.now.nominal }
    {
        self.parts.nominal
    }

    /// The time of the train's last report, in the train's own count.
    pub fn time(&self) -> u32
        ensures { result ≡ self.now.time }
    {
        self.parts.time
    }

    /// The legs that the train runs along, up to the reach.
    pub fn legs(&self) -> &[Leg]
        ensures { result.now ≡ self.now.line }
    {
        self.parts.legs.as_slice()
    }

    /// The place of the group.
    pub fn origin(&self) -> u32
        ensures { result ≡ self.now.origin }
    {
        self.parts.origin
    }

    /// Where the search for obstacles begins: the authority's start, or the front where that lies behind it.
    pub fn start(&self) -> u32
        ensures { result ≡ self.now.start }
    {
        self.parts.start
    }

    /// The place that the train's front may have come to.
    pub fn front(&self) -> u32
        ensures { result ≡ self.now.front }
    {
        self.parts.front
    }

    /// Where the authority ends that the train has.
    pub fn to(&self) -> u32
        ensures { result ≡ self.now.to }
    {
        self.parts.to
    }

    /// The greatest end that is safe and that a message can give.
    pub fn end(&self) -> u32
        ensures { result ≡ self.now.end }
    {
        self.parts.origin + self.parts.speeds.end()
    }

    /// The first place with an obstacle, from the start on.
    pub fn reach(&self) -> u32
        ensures { result ≡ self.now.reach }
    {
        self.parts.reach
    }

    /// What stands at the reach.
    pub fn obstacle(&self) -> Obstacle
        ensures { result ≡ self.now.obstacle }
    {
        self.parts.obstacle
    }

    /// How many steps a profile of speeds may have: 1 to 31.
    pub fn speed_steps(&self) -> usize
        ensures { result ≡ self.now.speed_steps }
    {
        self.parts.speed_steps
    }

    /// How many steps a profile of gradients may have: 1 to 31.
    pub fn grade_steps(&self) -> usize
        ensures { result ≡ self.now.grade_steps }
    {
        self.parts.grade_steps
    }

    /// The speeds from the group to the end.
    pub fn speeds(&self) -> &Runs<Speed>
        ensures { result.now ≡ record { steps = self.now.speeds; end = metres_shown self.now } }
    {
        &self.parts.speeds
    }

    /// The gradients from the group to the end, positive uphill in the direction of running.
    pub fn grades(&self) -> &Runs<Grade>
        ensures { result.now ≡ record { steps = self.now.grades; end = metres_shown self.now } }
    {
        &self.parts.grades
    }
}
