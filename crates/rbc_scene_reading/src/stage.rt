//! What may come next.

ghost use Rattle.std.specs.Prelude.{◌≡◌, OnOk};
ghost use Rattle.rbc_scene_reading.specs.Pieces.{may_go_on, with_legs};
ghost use Rattle.rbc_scene_reading.specs.Stages.{is_between, may_be_of, told_in};

use rbc_model::limits::LEGS_A_LINE;
use rbc_model::{Leg, Memory, Report, TrainId};
use rbc_scene::Line;
use std::marker::Model;

/// A train whose line is being told: its report, how many metres behind the start of its line its group stands, its legs so
/// far, and whether the last piece of them was full, so that another may follow.
#[derive(Drop)]
pub(crate) struct Running {
    pub(crate) report: Report,
    pub(crate) origin: u64,
    pub(crate) legs: Vec<Leg>,
    pub(crate) full: bool,
}

impl Model for Running {
    ghost use Rattle.rbc_scene_reading.specs.Running.{Running};

    ghost Value = { Running };

    ghost view = { λ r. record { report = r.report; origin = r.origin; legs = r.legs.items; full = r.full } };
}

impl Running {
    /// Whether a line of text may tell more of its line, of this train and with these legs.
    pub(crate) fn may_go_on(&self, train: TrainId, legs: &[Leg]) -> bool
        ensures { result ≡ may_go_on train self.now legs.now }
    {
        train == self.report.train() && self.full && !legs.is_empty() && legs.len() <= LEGS_A_LINE
    }

    /// Adds a piece of its line.
    ///
    /// # Errors
    ///
    /// `Memory`, where there is none for the legs.
    pub(crate) fn add_piece(&mut self, legs: &[Leg]) -> Result<(), Memory>
        ensures piece { OnOk result (self.new ≡ with_legs self.old legs.now) }
        ensures report { self.new.report ≡ self.old.report }
    {
        self.legs.extend_from_slice(legs)?;
        self.full = legs.len() == LEGS_A_LINE;
        Ok(())
    }
}

/// A train that stands on its line, before it is told what it holds. Places are in metres from the line's start.
#[derive(Drop)]
pub(crate) struct Standing {
    pub(crate) report: Report,
    pub(crate) line: Line,
    pub(crate) origin: u32,
    pub(crate) rear: u32,
    pub(crate) front: u32,
}

impl Model for Standing {
    ghost use Rattle.rbc_scene.specs.TrainsOnTracks.{TrainOnTrack, train_on};
    ghost use Rattle.rbc_scene_laws.specs.Good.{IsGoodTrain};

    ghost Value = { TrainOnTrack };

    ghost view = { λ s. record {
      track = s.line.track;
      train = train_on s.line s.report s.origin s.rear s.front s.front s.front;
    } };

    ghost invariant = { λ s. IsGoodTrain s.line.track (train_on s.line s.report s.origin s.rear s.front s.front s.front) };
}

/// What may come next in the lines of a scene.
#[derive(Drop)]
pub(crate) enum Stage {
    /// The version.
    Start,
    /// A locked section, of this index or a greater one; a train; or the end.
    Rows(usize),
    /// The line of the train with this report.
    Told(Report),
    /// More of this train's line, where its last piece was full; or where it stands.
    Running(Running),
    /// What this train holds.
    Standing(Standing),
    /// What the last train would be granted; a train; or the end.
    Held,
    /// A train, or the end.
    Between,
    /// Nothing.
    Ended,
}

impl Stage {
    /// Whether a train or the end may come.
    pub(crate) fn is_between(&self) -> bool
        ensures { result ≡ is_between self.now }
    {
        matches!(self, Stage::Rows(_) | Stage::Held | Stage::Between)
    }

    /// Whether a row of the section of this index may come.
    pub(crate) fn may_be_of(&self, section: usize) -> bool
        ensures { result ≡ may_be_of section self.now }
    {
        match self {
            Stage::Rows(first) => *first <= section,
            _ => false,
        }
    }

    /// The report of the train whose line comes.
    pub(crate) fn told_in(&self) -> Option<Report>
        ensures { result ≡ told_in self.now }
    {
        match self {
            Stage::Told(report) => Some(*report),
            _ => None,
        }
    }
}
