//! How a fault of a line of a scene is told.

use crate::fault::SceneFault;
use rbc_model::{Leg, LineFault, Memory, RouteId, SectionId, TrainId};
use rbc_track::{LegName, Name, Track};
use std::alloc::Global;
use std::fmt::{self, Display};

const UNKNOWN_GROUP: &str = "the track has no balise group as it reports";

const TOO_FAR: &str = "its front may be farther from its balise group than an authority may end";

const NO_LINE: &str =
    "its line has no leg, a section twice, or a leg that is not linked to the next";

const NOT_AS_TOLD: &str = "it does not stand on its line where its report tells";

const OFF_LINE: &str =
    "what it holds does not begin ahead of its rear, or does not end on its line behind that";

/// A fault is told by its name, and one of a line's words as in a session.
impl Display for SceneFault {
    fn fmt<W: fmt::Write>(&self, f: &mut fmt::Formatter<W>) -> fmt::Result {
        match *self {
            SceneFault::Line(LineFault::Number(place)) => write!(f, "Number {place}"),
            SceneFault::Line(LineFault::Name(place)) => write!(f, "Name {place}"),
            SceneFault::Line(fault) => f.write_str(line_fault_name(fault)),
            fault => f.write_str(name_of(fault)),
        }
    }
}

/// The name of a fault of a line's words, without the number of the word.
fn line_fault_name(fault: LineFault) -> &'static str {
    match fault {
        LineFault::Overlong => "Overlong",
        LineFault::NotText => "NotText",
        LineFault::Command => "Command",
        LineFault::Words => "Words",
        LineFault::Number(_) => "Number",
        LineFault::Name(_) => "Name",
    }
}

/// The name of a fault.
fn name_of(fault: SceneFault) -> &'static str {
    match fault {
        SceneFault::Line(fault) => line_fault_name(fault),
        SceneFault::Order => "Order",
        SceneFault::NotOfRoute(_, _) => "NotOfRoute",
        SceneFault::LinkTaken(_) => "LinkTaken",
        SceneFault::Crowded(_) => "Crowded",
        SceneFault::TwiceTold(_) => "TwiceTold",
        SceneFault::UnknownGroup(_) => "UnknownGroup",
        SceneFault::TooFar(_) => "TooFar",
        SceneFault::NoLine(_) => "NoLine",
        SceneFault::NotAsTold(_) => "NotAsTold",
        SceneFault::OffLine(_) => "OffLine",
        SceneFault::NotLocked(_, _) => "NotLocked",
        SceneFault::Held(_, _, _) => "Held",
        SceneFault::NoEnd => "NoEnd",
    }
}

/// The name of a section of the track.
fn section_name(track: &Track, section: SectionId) -> Option<Name> {
    Some(track.sections().get(section.index())?.name())
}

/// The name of a route of the track.
fn route_name(track: &Track, route: RouteId) -> Option<Name> {
    Some(track.routes().get(route.index())?.name())
}

/// A fault in words. None, where it names what the track has not.
///
/// # Errors
///
/// There is no memory for them.
pub fn explain(alloc: Global, track: &Track, fault: SceneFault) -> Result<Option<String>, Memory> {
    match fault {
        SceneFault::Line(_) => explain_line(alloc, "no line of a scene"),
        SceneFault::Order => explain_line(alloc, "another line has to stand here"),
        SceneFault::NotOfRoute(section, route) => explain_row(alloc, track, section, route),
        SceneFault::LinkTaken(leg) => explain_link(alloc, track, leg),
        SceneFault::Crowded(train) => explain_train(alloc, train, "there are 1024 trains already"),
        SceneFault::TwiceTold(train) => explain_train(alloc, train, "it was told before"),
        SceneFault::UnknownGroup(train) => explain_train(alloc, train, UNKNOWN_GROUP),
        SceneFault::TooFar(train) => explain_train(alloc, train, TOO_FAR),
        SceneFault::NoLine(train) => explain_train(alloc, train, NO_LINE),
        SceneFault::NotAsTold(train) => explain_train(alloc, train, NOT_AS_TOLD),
        SceneFault::OffLine(train) => explain_train(alloc, train, OFF_LINE),
        SceneFault::NotLocked(train, section) => explain_unlocked(alloc, track, train, section),
        SceneFault::Held(train, other, section) => {
            explain_sharing(alloc, track, (train, other), section)
        }
        SceneFault::NoEnd => explain_line(alloc, "it ends before `done`"),
    }
}

/// What is wrong with a line, whatever it names.
fn explain_line(alloc: Global, told: &str) -> Result<Option<String>, Memory> {
    Ok(Some(String::from_str(alloc, told)?))
}

/// What is wrong with a train.
fn explain_train(alloc: Global, train: TrainId, told: &str) -> Result<Option<String>, Memory> {
    let train = train.number();
    Ok(Some(format!(in alloc; "train {train}: {told}")?))
}

/// That a route needs no such row.
fn explain_row(
    alloc: Global,
    track: &Track,
    section: SectionId,
    route: RouteId,
) -> Result<Option<String>, Memory> {
    let names = (section_name(track, section), route_name(track, route));
    let (Some(section), Some(route)) = names else {
        return Ok(None);
    };
    Ok(Some(format!(in alloc; "route {route} does not lock {section} so")?))
}

/// That another section is locked behind a leg.
fn explain_link(alloc: Global, track: &Track, leg: Leg) -> Result<Option<String>, Memory> {
    let Some(section) = section_name(track, leg.section) else {
        return Ok(None);
    };
    let leg = LegName::of(section, leg.direction);
    Ok(Some(format!(in alloc; "another section is locked behind {leg} already")?))
}

/// That a train holds what is not locked for it.
fn explain_unlocked(
    alloc: Global,
    track: &Track,
    train: TrainId,
    section: SectionId,
) -> Result<Option<String>, Memory> {
    let Some(section) = section_name(track, section) else {
        return Ok(None);
    };
    let train = train.number();
    Ok(Some(format!(in alloc;
        "train {train} holds a metre of {section}, which is not locked in its direction"
    )?))
}

/// That two trains hold a metre of one section.
fn explain_sharing(
    alloc: Global,
    track: &Track,
    trains: (TrainId, TrainId),
    section: SectionId,
) -> Result<Option<String>, Memory> {
    let Some(section) = section_name(track, section) else {
        return Ok(None);
    };
    let (train, other) = (trains.0.number(), trains.1.number());
    Ok(Some(format!(in alloc;
        "train {train} holds a metre of {section} that train {other} holds"
    )?))
}
