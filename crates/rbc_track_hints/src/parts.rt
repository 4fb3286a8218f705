//! Why parts make no track: all entries of the table that are at fault.

use crate::flaws::Flaw;
use crate::joints::{link_flaw, section_of};
use crate::labels::Label;
use crate::lines::Lines;
use crate::routes::route_flaw;
use rbc_model::limits::SHORTEST_RUN;
use rbc_model::{Memory, Table, TrackRefusal};
use rbc_steps::Level;
use rbc_track::{GroupPart, Parts, Section};
use std::alloc::Global;

/// Tells what is wrong with the entries of the table that a refusal names.
///
/// # Errors
///
/// The allocator refused memory.
pub(crate) fn tell(
    alloc: Global,
    parts: &Parts,
    refusal: TrackRefusal,
    lines: &mut Lines,
) -> Result<(), Memory> {
    match refusal {
        TrackRefusal::NoSection => lines.add(format!(in alloc; "no [[section]]")?),
        TrackRefusal::TooMany(table) => tell_many(alloc, parts, table, lines),
        TrackRefusal::ShortRun(_) | TrackRefusal::TwiceNamed(Table::Sections, _) => {
            tell_sections(alloc, parts, lines)
        }
        TrackRefusal::BadLink(_) | TrackRefusal::TwiceNamed(Table::Links, _) => {
            tell_links(alloc, parts, lines)
        }
        TrackRefusal::BadGroup(_) | TrackRefusal::TwiceNamed(Table::Groups, _) => {
            tell_groups(alloc, parts, lines)
        }
        TrackRefusal::BadRoute(_) | TrackRefusal::TwiceNamed(Table::Routes, _) => {
            tell_routes(alloc, parts, lines)
        }
    }
}

/// Tells how many entries a table has that has too many.
fn tell_many(alloc: Global, parts: &Parts, table: Table, lines: &mut Lines) -> Result<(), Memory> {
    let (count, what, most) = match table {
        Table::Sections => (parts.sections.len(), "section", 4_096),
        Table::Links => (parts.links.len(), "link", 16_384),
        Table::Groups => (parts.groups.len(), "group", 16_384),
        Table::Routes => (parts.routes.len(), "route", 4_096),
    };
    lines.add(format!(in alloc; "{count} entries of [[{what}]], and {most} at most are expected")?)
}

/// The line of an entry and its flaw.
fn line_of(alloc: Global, label: &Label<'_>, flaw: &Flaw) -> Result<String, Memory> {
    Ok(format!(in alloc; "{label}: {flaw}")?)
}

/// Tells what is wrong with sections.
fn tell_sections(alloc: Global, parts: &Parts, lines: &mut Lines) -> Result<(), Memory> {
    let sections = parts.sections.as_slice();
    for (index, section) in sections.iter().enumerate() {
        if lines.are_full() {
            return Ok(());
        }
        if let Some(flaw) = section_flaw(&sections[..index], section) {
            let name = section.name();
            let label = Label::Named("section", index + 1, name.as_str());
            lines.add(line_of(alloc, &label, &flaw)?)?;
        }
    }
    Ok(())
}

/// What is wrong with a section behind these.
fn section_flaw(earlier: &[Section], section: &Section) -> Option<Flaw> {
    if let Some(index) = section_of(earlier, section.name()) {
        return Some(Flaw::Named("section", index.saturating_add(1)));
    }
    let end = section.length();
    let speed = short_run(section.speeds().runs(), end);
    if let Some((start, metres)) = speed {
        return Some(Flaw::Short("the speed", start, metres));
    }
    let (start, metres) = short_run(section.grades().runs(), end)?;
    Some(Flaw::Short("the gradient", start, metres))
}

/// The first run that is too short: where it starts, and how long it lasts.
fn short_run<V: Level>(runs: &[(u32, V)], end: u32) -> Option<(u32, u32)> {
    for (index, run) in runs.iter().enumerate() {
        let next = runs.get(index + 1).map_or(end, |next| next.0);
        let metres = next.saturating_sub(run.0);
        if metres < SHORTEST_RUN {
            return Some((run.0, metres));
        }
    }
    None
}

/// Tells what is wrong with links.
fn tell_links(alloc: Global, parts: &Parts, lines: &mut Lines) -> Result<(), Memory> {
    let links = parts.links.as_slice();
    for (index, link) in links.iter().enumerate() {
        if lines.are_full() {
            return Ok(());
        }
        if let Some(flaw) = link_flaw(parts.sections.as_slice(), &links[..index], link) {
            let number = index + 1;
            let (from, to) = (link.from, link.to);
            lines.add(format!(in alloc; "link {number} \"{from}\" to \"{to}\": {flaw}")?)?;
        }
    }
    Ok(())
}

/// Tells what is wrong with balise groups.
fn tell_groups(alloc: Global, parts: &Parts, lines: &mut Lines) -> Result<(), Memory> {
    let groups = parts.groups.as_slice();
    for (index, group) in groups.iter().enumerate() {
        if lines.are_full() {
            return Ok(());
        }
        if let Some(flaw) = group_flaw(parts.sections.as_slice(), &groups[..index], group) {
            let name = group.name;
            let label = Label::Group(
                index + 1,
                i64::from(name.country()),
                i64::from(name.number()),
            );
            lines.add(line_of(alloc, &label, &flaw)?)?;
        }
    }
    Ok(())
}

/// What is wrong with a group behind these.
fn group_flaw(sections: &[Section], earlier: &[GroupPart], group: &GroupPart) -> Option<Flaw> {
    if let Some(index) = earlier.iter().position(|other| other.name == group.name) {
        return Some(Flaw::Named("group", index + 1));
    }
    let Some(index) = section_of(sections, group.section) else {
        return Some(Flaw::NoSection(group.section));
    };
    let metres = sections.get(index)?.length();
    if group.offset > metres {
        return Some(Flaw::Beyond(group.offset, metres, group.section));
    }
    None
}

/// Tells what is wrong with routes.
fn tell_routes(alloc: Global, parts: &Parts, lines: &mut Lines) -> Result<(), Memory> {
    let routes = parts.routes.as_slice();
    for (index, route) in routes.iter().enumerate() {
        if lines.are_full() {
            return Ok(());
        }
        if let Some(flaw) = route_flaw(parts, &routes[..index], route) {
            let name = route.name;
            let label = Label::Named("route", index + 1, name.as_str());
            lines.add(line_of(alloc, &label, &flaw)?)?;
        }
    }
    Ok(())
}
