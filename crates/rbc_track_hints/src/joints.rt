//! Links between legs.

use crate::flaws::Flaw;
use rbc_model::Direction;
use rbc_track::{LegName, LinkPart, Name, Section};

/// The place of the section of a name.
pub(crate) fn section_of(sections: &[Section], name: Name) -> Option<usize> {
    sections.iter().position(|section| section.name() == name)
}

/// The name of the leg that runs the section the other way.
fn reverse(leg: LegName) -> LegName {
    let direction = match leg.direction() {
        Direction::Rising => Direction::Falling,
        Direction::Falling => Direction::Rising,
    };
    LegName::of(leg.section(), direction)
}

/// Whether a link joins the two legs, or leads back from one to the other.
fn joins(link: &LinkPart, from: LegName, to: LegName) -> bool {
    (link.from == from && link.to == to) || (link.from == reverse(to) && link.to == reverse(from))
}

/// The place of the link that joins two legs.
pub(crate) fn joint_of(links: &[LinkPart], from: LegName, to: LegName) -> Option<usize> {
    links.iter().position(|link| joins(link, from, to))
}

/// What is wrong with a link behind these.
pub(crate) fn link_flaw(
    sections: &[Section],
    earlier: &[LinkPart],
    link: &LinkPart,
) -> Option<Flaw> {
    let (from, to) = (link.from, link.to);
    for leg in [from, to] {
        if section_of(sections, leg.section()).is_none() {
            return Some(Flaw::NoSection(leg.section()));
        }
    }
    if from.section() == to.section() {
        return Some(Flaw::OneSection(from.section()));
    }
    let index = joint_of(earlier, from, to)?;
    Some(Flaw::Joined(index.saturating_add(1)))
}
