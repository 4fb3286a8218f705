//! Which route has locked which section, as far as it was heard.

use rbc_model::{Leg, Lock, Memory, SectionId};
use rbc_track::{LegName, Name, Track};
use rbc_words::Request;
use std::alloc::Global;

/// A section that is locked.
#[derive(Clone, Copy, Debug)]
struct Row {
    section: Name,
    route: Name,
    before: Option<LegName>,
}

/// The sections that are locked, each by a route, and behind a leg or behind none.
#[derive(Drop)]
pub(crate) struct Locks {
    rows: Vec<Row>,
}

impl Locks {
    /// No section is locked.
    pub(crate) fn new(alloc: Global) -> Locks {
        Locks {
            rows: Vec::new(alloc),
        }
    }

    /// The section of this number is locked so.
    ///
    /// # Errors
    ///
    /// The allocator refused memory.
    pub(crate) fn add(
        &mut self,
        track: &Track,
        section: SectionId,
        lock: &Lock,
    ) -> Result<(), Memory> {
        let sections = track.sections();
        let (Some(section), Some(route)) = (
            sections.get(section.index()),
            track.routes().get(lock.route.index()),
        ) else {
            return Ok(());
        };
        let before = match lock.before {
            Some(leg) => leg_name(track, leg),
            None => None,
        };
        self.rows.push(Row {
            section: section.name(),
            route: route.name(),
            before,
        })?;
        Ok(())
    }

    /// This was asked for, and accepted.
    ///
    /// # Errors
    ///
    /// The allocator refused memory.
    pub(crate) fn hear(&mut self, track: &Track, request: &Request) -> Result<(), Memory> {
        match request {
            Request::Lock(route) => self.lock(track, *route),
            Request::Free(section) => {
                self.free(*section);
                Ok(())
            }
            _ => Ok(()),
        }
    }

    /// The route of this name is locked.
    fn lock(&mut self, track: &Track, name: Name) -> Result<(), Memory> {
        let Some(route) = track.route(name) else {
            return Ok(());
        };
        let mut before = match track.after(route) {
            Some(leg) => leg_name(track, leg),
            None => None,
        };
        for leg in track.legs_of(route) {
            let Some(leg) = leg_name(track, *leg) else {
                continue;
            };
            self.rows.push(Row {
                section: leg.section(),
                route: name,
                before,
            })?;
            before = Some(leg);
        }
        Ok(())
    }

    /// The section of this name is freed.
    fn free(&mut self, section: Name) {
        self.rows.retain(|row| row.section != section);
    }

    /// The route that has locked a section.
    pub(crate) fn route_of(&self, section: Name) -> Option<Name> {
        let row = self.rows.iter().find(|row| row.section == section)?;
        Some(row.route)
    }

    /// The section that is locked behind a leg, and the route that has locked it.
    pub(crate) fn behind(&self, leg: LegName) -> Option<(Name, Name)> {
        let row = self.rows.iter().find(|row| row.before == Some(leg))?;
        Some((row.section, row.route))
    }
}

/// A leg of a track as it is written.
pub(crate) fn leg_name(track: &Track, leg: Leg) -> Option<LegName> {
    let section = track.sections().get(leg.section.index())?;
    Some(LegName::of(section.name(), leg.direction))
}
