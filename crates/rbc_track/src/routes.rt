//! Which legs make a route.

ghost use Rattle.std.specs.Prelude.{◌≡◌, ℕ, List, length, nat_lt, ◌==◌};
ghost use Rattle.std.specs.List.{list_any, list_all};
ghost use Rattle.rbc_model.specs.Tracks.{Track, leg_eq};
ghost use Rattle.rbc_model.specs.SoundTracks.{sections_differ, are_linked, but_last, is_good_entry, is_good_route};

use crate::legs::{is_leg_of, leg_eq};
use crate::links::Links;
use rbc_model::limits::MOST_LEGS;
use rbc_model::{Leg, SectionId};

/// Whether a track of these links and this number of sections may have a route of these legs, entered from the leg
/// `after` if there is one: it has 1 to 64 legs of the track's sections, none of one section with another, each linked
/// to the next, and is entered from a leg that is linked to its first one and is none of its legs but perhaps the last.
pub(crate) fn is_good_route(
    links: &Links,
    sections: usize,
    after: Option<Leg>,
    legs: &[Leg],
) -> bool
    ensures { (track : Track) (name : List ℕ) → track.links ≡ links.now → length track.sections ≡ sections
        → result ≡ is_good_route track (record { name = name; after = after; legs = legs.now }) }
{
    if legs.is_empty() || legs.len() > MOST_LEGS {
        return false;
    }
    if !are_of(sections, legs) || !sections_differ(legs) || !are_linked(links, legs) {
        return false;
    }
    match &after {
        Some(leg) => is_good_entry(links, legs, leg),
        None => true,
    }
}

/// Whether each leg is of a section of a track with this number of sections.
fn are_of(sections: usize, legs: &[Leg]) -> bool
    ensures { result ≡ list_all (λ leg. nat_lt leg.section sections) legs.now }
{
    legs.iter().all(|leg| is_leg_of(sections, leg))
}

/// Whether no section stands twice on the list.
fn sections_differ(legs: &[Leg]) -> bool
    ensures { result ≡ sections_differ legs.now }
{
    for (index, leg) in legs.iter().enumerate() {
        if has_section(&legs[index + 1..], leg.section) {
            return false;
        }
    }
    true
}

/// Whether one of the legs is of the section.
fn has_section(legs: &[Leg], section: SectionId) -> bool
    ensures { result ≡ list_any (λ other. other.section == section) legs.now }
{
    legs.iter().any(|leg| leg.section == section)
}

/// Whether each leg has a link to the next.
fn are_linked(links: &Links, legs: &[Leg]) -> bool
    ensures { (track : Track) → track.links ≡ links.now → result ≡ are_linked track legs.now }
{
    let [first, later @ ..] = legs else {
        return true;
    };
    let mut before = first;
    for leg in later {
        if !links.linked(*before, *leg) {
            return false;
        }
        before = leg;
    }
    true
}

/// Whether a route may be entered from the leg: it is linked to the first leg, and is none of the legs but perhaps
/// the last.
fn is_good_entry(links: &Links, legs: &[Leg], after: &Leg) -> bool
    ensures { (track : Track) → track.links ≡ links.now → result ≡ is_good_entry track legs.now after.now }
{
    let [first, ..] = legs else {
        return false;
    };
    links.linked(*after, *first) && !has_before_last(legs, after)
}

/// Whether the leg stands on the list ahead of the last one.
fn has_before_last(legs: &[Leg], leg: &Leg) -> bool
    ensures { result ≡ list_any (leg_eq leg.now) (but_last legs.now) }
{
    match legs.split_last() {
        Some((_, earlier)) => has_leg(earlier, leg),
        None => false,
    }
}

/// Whether the leg stands on the list.
fn has_leg(legs: &[Leg], leg: &Leg) -> bool
    ensures { result ≡ list_any (leg_eq leg.now) legs.now }
{
    legs.iter().any(|other| leg_eq(leg, other))
}
