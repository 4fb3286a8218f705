//! Links and routes as they are written. Names are compared one by one, which is slow and takes no memory.

ghost use Rattle.std.specs.Prelude.{◌≡◌, bytes_eq};
ghost use Rattle.std.specs.List.{list_any, list_all};
ghost use Rattle.rbc_track.specs.Written.{written_eq, written_reverse, writes, written_joins, are_joined, is_on, names_differ, are_all_joined, is_good_written_entry, is_good_written_link, is_good_written_route};

use crate::{LegName, LinkPart, Name, RoutePart, Section};
use rbc_model::Direction;
use rbc_model::limits::MOST_LEGS;

/// Whether two legs are written alike.
fn is_same_leg(a: &LegName, b: &LegName) -> bool
    ensures { result ≡ written_eq a.now b.now }
{
    a.section() == b.section() && a.direction() == b.direction()
}

/// The name of the leg that runs the section the other way.
fn reverse(leg: &LegName) -> LegName
    ensures { result ≡ written_reverse leg.now }
{
    let direction = match leg.direction() {
        Direction::Rising => Direction::Falling,
        Direction::Falling => Direction::Rising,
    };
    LegName::of(leg.section(), direction)
}

/// Whether the link names the two legs in this order.
fn writes(link: &LinkPart, from: &LegName, to: &LegName) -> bool
    ensures { result ≡ writes from.now to.now link.now }
{
    is_same_leg(&link.from, from) && is_same_leg(&link.to, to)
}

/// Whether the link names the two legs, or leads back from one to the other.
fn joins(link: &LinkPart, from: &LegName, to: &LegName) -> bool
    ensures { result ≡ written_joins from.now to.now link.now }
{
    writes(link, from, to) || writes(link, &reverse(to), &reverse(from))
}

/// Whether one of the links joins the two legs.
fn are_joined(links: &[LinkPart], from: &LegName, to: &LegName) -> bool
    ensures { result ≡ are_joined links.now from.now to.now }
{
    links.iter().any(|link| joins(link, from, to))
}

/// Whether one of the sections has the name.
pub(crate) fn is_named(sections: &[Section], name: Name) -> bool
    ensures { result ≡ list_any (λ section. bytes_eq section.name name) sections.now }
{
    sections.iter().any(|section| section.name() == name)
}

/// Whether the leg's section is one of these.
fn is_on(sections: &[Section], leg: &LegName) -> bool
    ensures { result ≡ is_on sections.now leg.now }
{
    is_named(sections, leg.section())
}

/// Whether the link may stand behind the earlier ones: its legs are of two of the sections, and no link joins them yet.
pub(crate) fn is_good_link(sections: &[Section], earlier: &[LinkPart], link: &LinkPart) -> bool
    ensures { result ≡ is_good_written_link sections.now earlier.now link.now }
{
    let LinkPart { from, to } = link;
    is_on(sections, from)
        && is_on(sections, to)
        && from.section() != to.section()
        && !are_joined(earlier, from, to)
}

/// Whether each leg is of one of the sections.
fn are_on(sections: &[Section], legs: &[LegName]) -> bool
    ensures { result ≡ list_all (is_on sections.now) legs.now }
{
    legs.iter().all(|leg| is_on(sections, leg))
}

/// Whether one of the legs is of the same section as the leg.
fn has_section_of(legs: &[LegName], leg: &LegName) -> bool
    ensures { result ≡ list_any (λ other. bytes_eq other.section leg.now.section) legs.now }
{
    legs.iter().any(|other| other.section() == leg.section())
}

/// Whether no section is written twice.
fn names_differ(legs: &[LegName]) -> bool
    ensures { result ≡ names_differ legs.now }
{
    for (index, leg) in legs.iter().enumerate() {
        if has_section_of(&legs[index + 1..], leg) {
            return false;
        }
    }
    true
}

/// Whether each leg is joined to the next.
fn are_all_joined(links: &[LinkPart], legs: &[LegName]) -> bool
    ensures { result ≡ are_all_joined links.now legs.now }
{
    let [first, later @ ..] = legs else {
        return true;
    };
    let mut before = first;
    for leg in later {
        if !are_joined(links, before, leg) {
            return false;
        }
        before = leg;
    }
    true
}

/// Whether the leg stands on the list.
fn has_leg(legs: &[LegName], leg: &LegName) -> bool
    ensures { result ≡ list_any (written_eq leg.now) legs.now }
{
    legs.iter().any(|other| is_same_leg(leg, other))
}

/// Whether a route may be entered from the leg: it is joined to the first leg, and is none of the legs but perhaps the
/// last.
fn is_good_entry(links: &[LinkPart], legs: &[LegName], after: &LegName) -> bool
    ensures { result ≡ is_good_written_entry links.now legs.now after.now }
{
    let [first, later @ ..] = legs else {
        return false;
    };
    are_joined(links, after, first) && !has_leg(&legs[..later.len()], after)
}

/// Whether the route has 1 to 64 legs on the sections, none of one section with another, each joined to the next, and
/// a good entry if it has one.
pub(crate) fn is_good_route(sections: &[Section], links: &[LinkPart], route: &RoutePart) -> bool
    ensures { result ≡ is_good_written_route sections.now links.now route.now }
{
    let legs = route.legs.as_slice();
    if legs.is_empty() || legs.len() > MOST_LEGS {
        return false;
    }
    if !are_on(sections, legs) || !names_differ(legs) || !are_all_joined(links, legs) {
        return false;
    }
    match &route.after {
        Some(leg) => is_good_entry(links, legs, leg),
        None => true,
    }
}
