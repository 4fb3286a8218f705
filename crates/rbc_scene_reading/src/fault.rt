//! Why the lines of a scene are refused.

use rbc_model::{Leg, LineFault, RouteId, SectionId, TrainId};

/// Why a line can't stand where it stands in the lines of a scene. Sections and routes are named by index, trains by number.
#[derive(Clone, Copy, Debug, PartialEq, Eq)]
pub enum SceneFault {
    /// It is none of the lines of a scene.
    Line(LineFault),
    /// Another line has to stand here: of another kind, of this train or of a later section. A piece of a train's line has at
    /// most 64 legs, and another comes only behind one of 64.
    Order,
    /// The route needs no such row: its leg, and the leg before.
    NotOfRoute(SectionId, RouteId),
    /// Another section is locked behind this leg already.
    LinkTaken(Leg),
    /// There are as many trains as there may be.
    Crowded(TrainId),
    /// The train was told before.
    TwiceTold(TrainId),
    /// The track has no balise group as its report tells.
    UnknownGroup(TrainId),
    /// Its front may lie farther from its group than an authority may end.
    TooFar(TrainId),
    /// Its legs make no line: there is none, a section stands twice, or a leg is not linked to the next.
    NoLine(TrainId),
    /// It does not stand on its line where its report tells.
    NotAsTold(TrainId),
    /// What it holds begins behind its rear, ends before it begins, or ends beyond its line.
    OffLine(TrainId),
    /// It holds a metre of this section, which is not locked in the direction of its leg.
    NotLocked(TrainId, SectionId),
    /// It holds a metre of this section that another train, the second one named, holds.
    Held(TrainId, TrainId, SectionId),
    /// The lines end before `done`.
    NoEnd,
}

/// The first line with a fault, counted from 1, and its fault. Where the lines end too early it is the line behind the last.
#[derive(Clone, Copy, Debug, PartialEq, Eq)]
pub struct FaultyLine {
    pub line: u64,
    pub fault: SceneFault,
}
