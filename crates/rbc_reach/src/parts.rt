//! The parts that a view is made of.

use rbc_model::{GroupName, Leg, Obstacle, TrainId};
use rbc_steps::{Grade, Runs, Speed};

/// The parts that a view is made of. Places are metres from the start of the train's line.
#[derive(Drop)]
pub struct ViewParts {
    /// The train's number.
    pub train: TrainId,
    /// The balise group of its last report (LRBG).
    pub group: GroupName,
    /// Whether it runs in the group's nominal direction.
    pub nominal: bool,
    /// The time of its last report, in the train's own count.
    pub time: u32,
    /// The legs that the train runs along, up to the reach.
    pub legs: Vec<Leg>,
    /// The place of the group.
    pub origin: u32,
    /// Where the search for obstacles begins: the authority's start, or the front where that lies behind it.
    pub start: u32,
    /// The place that the train's front may have come to.
    pub front: u32,
    /// Where the authority ends that the train has.
    pub to: u32,
    /// The first place with an obstacle, from the start on.
    pub reach: u32,
    /// What stands there.
    pub obstacle: Obstacle,
    /// How many steps a profile of speeds may have.
    pub speed_steps: usize,
    /// How many steps a profile of gradients may have.
    pub grade_steps: usize,
    /// The speeds from the group to the end.
    pub speeds: Runs<Speed>,
    /// The gradients from the group to the end, positive uphill in the direction of running.
    pub grades: Runs<Grade>,
}
