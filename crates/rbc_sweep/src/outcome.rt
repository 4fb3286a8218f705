//! What the trains of a sweep are answered.

ghost use Rattle.std.specs.Prelude.{◌≡◌};
ghost use Rattle.rbc_sweep.specs.Outcomes.{asked};

use rbc_desk::{AskFault, Granted};
use rbc_model::{Obstacle, OrMemory, TrainId};

/// What a train is answered.
#[derive(Drop)]
pub enum Answer {
    /// It was granted this.
    Granted(Granted),
    /// This stands in its way, this number of metres from its group (negative: before the group), at this version of
    /// the history.
    Blocked(Obstacle, i64, u64),
    /// It had left.
    Gone,
    /// The record has as many entries as it may have.
    Full,
    /// The allocator refused memory.
    Memory,
}

impl Answer {
    /// The answer to a train that asked at the desk.
    pub(crate) fn of(answer: Result<Granted, OrMemory<AskFault>>) -> Answer
        ensures { asked result ≡ answer }
    {
        match answer {
            Ok(granted) => Answer::Granted(granted),
            Err(OrMemory::Refused(AskFault::UnknownTrain)) => Answer::Gone,
            Err(OrMemory::Refused(AskFault::Blocked(obstacle, at, version))) => {
                Answer::Blocked(obstacle, at, version)
            }
            Err(OrMemory::Refused(AskFault::Full)) => Answer::Full,
            Err(OrMemory::Memory) => Answer::Memory,
        }
    }
}

/// A train of a sweep, and what it was answered.
#[derive(Drop)]
pub struct Outcome {
    /// The train's number.
    pub train: TrainId,
    /// What it was answered.
    pub answer: Answer,
}
