//! Names of a track, and the one that is meant by a misspelled one.

use rbc_model::Memory;
use rbc_spelling::nearest;
use rbc_track::{Name, Route, Section, Track};
use std::alloc::Global;

/// What a name names.
#[derive(Clone, Copy, Debug, PartialEq, Eq)]
pub(crate) enum Named {
    Route,
    Section,
}

impl Named {
    /// What it is called.
    pub(crate) fn noun(self) -> &'static str {
        match self {
            Named::Route => "route",
            Named::Section => "section",
        }
    }

    /// The other one.
    fn other(self) -> Named {
        match self {
            Named::Route => Named::Section,
            Named::Section => Named::Route,
        }
    }

    /// Whether the track has one of this name.
    fn is_in(self, track: &Track, name: Name) -> bool {
        match self {
            Named::Route => track.route(name).is_some(),
            Named::Section => track.section(name).is_some(),
        }
    }

    /// The names of those that the track has.
    fn names(self, alloc: Global, track: &Track) -> Result<Vec<Name>, Memory> {
        match self {
            Named::Route => route_names(alloc, track.routes()),
            Named::Section => section_names(alloc, track.sections()),
        }
    }
}

/// The names of routes.
fn route_names(alloc: Global, routes: &[Route]) -> Result<Vec<Name>, Memory> {
    let mut names = Vec::new(alloc);
    for route in routes {
        names.push(route.name())?;
    }
    Ok(names)
}

/// The names of sections.
fn section_names(alloc: Global, sections: &[Section]) -> Result<Vec<Name>, Memory> {
    let mut names = Vec::new(alloc);
    for section in sections {
        names.push(section.name())?;
    }
    Ok(names)
}

/// That the track has nothing of this name, and what may be meant.
///
/// # Errors
///
/// The allocator refused memory.
pub(crate) fn unknown(
    alloc: Global,
    track: &Track,
    named: Named,
    name: Name,
) -> Result<String, Memory> {
    let (noun, other) = (named.noun(), named.other());
    if other.is_in(track, name) {
        let found = other.noun();
        return Ok(format!(in alloc; "{name} is a {found}, and a {noun} is expected")?);
    }
    let names = named.names(alloc, track)?;
    let mut texts = Vec::new(alloc);
    for listed in names.iter() {
        texts.push(listed.as_str())?;
    }
    match nearest(alloc, name.as_str(), texts.as_slice())? {
        Some(meant) => Ok(format!(in alloc; "no {noun} {name}: is {meant} meant?")?),
        None => Ok(format!(in alloc; "no {noun} {name}")?),
    }
}
