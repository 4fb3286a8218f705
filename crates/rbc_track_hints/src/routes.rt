//! Flaws of routes.

use crate::flaws::Flaw;
use crate::joints::{joint_of, section_of};
use rbc_model::limits::MOST_LEGS;
use rbc_track::{LegName, LinkPart, Parts, RoutePart, Section};

/// What is wrong with a route behind these.
pub(crate) fn route_flaw(parts: &Parts, earlier: &[RoutePart], route: &RoutePart) -> Option<Flaw> {
    if let Some(index) = earlier.iter().position(|other| other.name == route.name) {
        return Some(Flaw::Named("route", index + 1));
    }
    let legs = route.legs.as_slice();
    if legs.is_empty() || legs.len() > MOST_LEGS {
        return Some(Flaw::Legs(legs.len()));
    }
    if let Some(flaw) = leg_flaw(parts.sections.as_slice(), legs) {
        return Some(flaw);
    }
    let links = parts.links.as_slice();
    if let Some(flaw) = way_flaw(links, legs) {
        return Some(flaw);
    }
    entry_flaw(links, legs, route.after?)
}

/// A leg of no section, or of the section of an earlier one.
fn leg_flaw(sections: &[Section], legs: &[LegName]) -> Option<Flaw> {
    for (index, leg) in legs.iter().enumerate() {
        let name = leg.section();
        if section_of(sections, name).is_none() {
            return Some(Flaw::NoSection(name));
        }
        if legs[..index].iter().any(|other| other.section() == name) {
            return Some(Flaw::Twice(name));
        }
    }
    None
}

/// Two legs that follow one another without a link.
fn way_flaw(links: &[LinkPart], legs: &[LegName]) -> Option<Flaw> {
    for (index, leg) in legs.iter().enumerate() {
        if let Some(next) = legs.get(index + 1) {
            if joint_of(links, *leg, *next).is_none() {
                return Some(Flaw::NoLink(*leg, *next));
            }
        }
    }
    None
}

/// What is wrong with the leg that a route is entered from.
fn entry_flaw(links: &[LinkPart], legs: &[LegName], after: LegName) -> Option<Flaw> {
    let (last, earlier) = legs.split_last()?;
    let first = earlier.first().unwrap_or(last);
    if joint_of(links, after, *first).is_none() {
        return Some(Flaw::NoLink(after, *first));
    }
    if earlier.contains(&after) {
        return Some(Flaw::Entered(after));
    }
    None
}
