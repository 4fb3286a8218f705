//! What may be other than was meant.

ghost use Rattle.std.specs.Prelude.{◌≡◌, not, find, option_map};
ghost use Rattle.rbc_streams.specs.Emitting.{Emits};
ghost use Rattle.rbc_words.specs.LineWords.{word_text};
ghost use Rattle.rbc_track_report.specs.Report.{has_section, is_on_route, has_leg, leads_from, leg_along, leads_on, ends_with, is_reached, entry_word, unused_text, unpassed_text, end_text, ends_text, entry_text, both_text};

use rbc_model::{BaliseGroup, Direction, Leg, Link, SectionId};
use rbc_streams::Sink;
use rbc_track::{LegName, Route, Section, Track, reverse};
use rbc_words::{Word, emit_line, leg_word};

/// A leg of the section of this number.
fn leg_along(number: usize, direction: Direction) -> Leg
    ensures { result ≡ leg_along number direction }
{
    Leg {
        section: SectionId::new(number),
        direction,
    }
}

/// Whether a route has a leg of the section.
fn has_section(section: SectionId, route: &Route) -> bool
    ensures { result ≡ has_section section route.now }
{
    route.legs().iter().any(|leg| leg.section == section)
}

/// Whether one of the routes has a leg of the section.
fn is_on_route(routes: &[Route], section: SectionId) -> bool
    ensures { result ≡ is_on_route routes.now section }
{
    routes.iter().any(|route| has_section(section, route))
}

/// Whether no route of the track has a leg of the section of this number.
fn is_unused(track: &Track, number: usize) -> bool
    ensures { result ≡ not (is_on_route track.now.routes number) }
{
    !is_on_route(track.routes(), SectionId::new(number))
}

/// Whether a route has the leg.
fn has_leg(leg: &Leg, route: &Route) -> bool
    ensures { result ≡ has_leg leg.now route.now }
{
    route.legs().iter().any(|other| leg == other)
}

/// Whether a link leads from the leg's end, or back from the other one's.
fn leads_from(leg: &Leg, link: &Link) -> bool
    ensures { result ≡ leads_from leg.now link.now }
{
    link.from == *leg || link.to == reverse(*leg)
}

/// Whether one of the links leads from the leg's end.
fn leads_on(links: &[Link], leg: &Leg) -> bool
    ensures { result ≡ leads_on links.now leg.now }
{
    links.iter().any(|link| leads_from(leg, link))
}

/// Whether no link of the track leads from the leg's end.
fn is_end(track: &Track, leg: &Leg) -> bool
    ensures { result ≡ not (leads_on track.now.links leg.now) }
{
    !leads_on(track.links(), leg)
}

/// Whether the leg is a route's last one.
fn ends_with(leg: &Leg, route: &Route) -> bool
    ensures { result ≡ ends_with leg.now route.now }
{
    match route.legs().last() {
        Some(last) => last == leg,
        None => false,
    }
}

/// Whether a route of another name ends with the leg.
fn is_reached(routes: &[Route], route: &Route, leg: &Leg) -> bool
    ensures { result ≡ is_reached routes.now route.now leg.now }
{
    routes.iter().any(|other| other.name() != route.name() && ends_with(leg, other))
}

/// Whether no route of the track but this one ends with the leg.
fn is_unreached(track: &Track, route: &Route, leg: &Leg) -> bool
    ensures { result ≡ not (is_reached track.now.routes route.now leg.now) }
{
    !is_reached(track.routes(), route, leg)
}

/// Tells of a section that no route has.
pub(crate) fn emit_unused<W: Sink>(track: &Track, number: usize, section: &Section, writer: &mut W)
    ensures { Emits W.written W.failed writer.old writer.new
        (unused_text track.now number section.now) }
{
    if !is_unused(track, number) {
        return;
    }
    let words = [Word::Name(section.name()), Word::Text(b"is on no route")];
    emit_line(b"warning section", &words, writer);
}

/// Tells of a balise group that no route passes.
pub(crate) fn emit_unpassed<W: Sink>(track: &Track, group: &BaliseGroup, writer: &mut W)
    ensures { Emits W.written W.failed writer.old writer.new
        (unpassed_text track.now group.now) }
{
    if !is_unused(track, group.section.index()) {
        return;
    }
    let words = [
        Word::Group(group.name),
        Word::Text(b"is passed by no route"),
    ];
    emit_line(b"warning group", &words, writer);
}

/// Tells of a leg of a section from whose end no link leads.
fn emit_end<W: Sink>(track: &Track, section: &Section, leg: &Leg, writer: &mut W)
    ensures { Emits W.written W.failed writer.old writer.new
        (end_text track.now section.now.name leg.now) }
{
    if !is_end(track, leg) {
        return;
    }
    let words = [
        Word::Leg(LegName::of(section.name(), leg.direction)),
        Word::Text(b"has no link at its end"),
    ];
    emit_line(b"warning leg", &words, writer);
}

/// Tells of the ends of a section from which no link leads.
pub(crate) fn emit_ends<W: Sink>(track: &Track, number: usize, section: &Section, writer: &mut W)
    ensures { Emits W.written W.failed writer.old writer.new
        (ends_text track.now number section.now) }
{
    let rising = leg_along(number, Direction::Rising);
    let falling = leg_along(number, Direction::Falling);
    emit_end(track, section, &rising, writer);
    emit_end(track, section, &falling, writer);
}

/// A leg as a word: nothing, where the track has no such section.
fn entry_word<'line>(track: &Track, leg: &Leg) -> Word<'line>
    ensures { word_text result ≡ entry_word track.now leg.now }
{
    if leg.section.index() < track.section_count() {
        leg_word(track, *leg)
    } else {
        Word::Text(b"")
    }
}

/// Tells of a route that is entered from a leg with which no other route ends.
pub(crate) fn emit_entry<W: Sink>(track: &Track, route: &Route, writer: &mut W)
    ensures { Emits W.written W.failed writer.old writer.new
        (entry_text track.now route.now) }
{
    let Some(leg) = route.after() else {
        return;
    };
    if !is_unreached(track, route, &leg) {
        return;
    }
    let words = [
        Word::Name(route.name()),
        Word::Text(b"is entered from"),
        entry_word(track, &leg),
        Word::Text(b"and no other route ends there"),
    ];
    emit_line(b"warning route", &words, writer);
}

/// The first route of the track that has the leg.
fn first_with<'a>(track: &'a Track, leg: &Leg) -> Option<&'a Route>
    ensures { option_map (λ route. route.now) result ≡ find (has_leg leg.now) track.now.routes }
{
    track.routes().iter().find(|route| has_leg(leg, route))
}

/// Tells of a section that two routes lock in both directions.
pub(crate) fn emit_both<W: Sink>(track: &Track, number: usize, section: &Section, writer: &mut W)
    ensures { Emits W.written W.failed writer.old writer.new
        (both_text track.now number section.now) }
{
    let up = first_with(track, &leg_along(number, Direction::Rising));
    let down = first_with(track, &leg_along(number, Direction::Falling));
    let (Some(up), Some(down)) = (up, down) else {
        return;
    };
    let words = [
        Word::Name(section.name()),
        Word::Text(b"is locked both ways, by"),
        Word::Name(up.name()),
        Word::Text(b"and"),
        Word::Name(down.name()),
    ];
    emit_line(b"warning section", &words, writer);
}
