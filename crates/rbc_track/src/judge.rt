//! Parts judged without memory: each entry is compared with all before it, which is slow. This is done where there is no
//! memory for the tables, so that parts that make no track are told so nevertheless.

ghost use Rattle.std.specs.Prelude.{◌≡◌, ◌+◌, [], map, length, not, position, true, Ok, bytes_eq};
ghost use Rattle.std.specs.List.{list_any, list_all};
ghost use Rattle.rbc_model.specs.declared.tracks.Table.TheVariants.{Groups as GroupTable, Routes as RouteTable};
ghost use Rattle.rbc_model.specs.declared.tracks.TrackRefusal.TheVariants.{TwiceNamed, BadLink, BadGroup, BadRoute};
ghost use Rattle.rbc_model.specs.Results.{unless, demand};
ghost use Rattle.rbc_model.specs.SoundTracks.{first_refusal, section_refusal, link_refusal, group_refusal, route_refusal, is_good_group};
ghost use Rattle.rbc_model.specs.TrackParts.{section_number, link_of, group_of, route_of};
ghost use Rattle.rbc_model.specs.Tracks.{group_name_eq};
ghost use Rattle.rbc_track.specs.Making.{tables_refusal, told_for};
ghost use Rattle.rbc_track.specs.Tables.{with_links, entry_answer};
ghost use Rattle.rbc_track.specs.Written.{lies_on, is_good_written_link, is_good_written_route};

use crate::group_table::stands_on;
use crate::long_runs::has_long_runs;
use crate::written::{is_good_link, is_good_route, is_named};
use crate::{GroupPart, LinkPart, Name, RoutePart, Section};
use rbc_model::{GroupName, OrMemory, SectionId, Table, TrackRefusal};

/// Judges one more section, behind these.
fn judge_section(earlier: &[Section], section: &Section) -> Result<(), TrackRefusal>
    ensures { result ≡ unless (section_refusal earlier.now section.now) (Ok tt) }
{
    let number = earlier.len() + 1;
    if is_named(earlier, section.name()) {
        return Err(TrackRefusal::TwiceNamed(Table::Sections, number));
    }
    if !has_long_runs(section) {
        return Err(TrackRefusal::ShortRun(number));
    }
    Ok(())
}

/// Judges the sections.
fn judge_sections(sections: &[Section]) -> Result<(), TrackRefusal>
    ensures { result ≡ unless (first_refusal section_refusal [] sections.now) (Ok tt) }
{
    for (earlier, section) in sections.iter().enumerate() {
        judge_section(&sections[..earlier], section)?;
    }
    Ok(())
}

/// Judges one more link, behind these.
fn judge_link(
    sections: &[Section],
    earlier: &[LinkPart],
    link: &LinkPart,
) -> Result<(), TrackRefusal>
    ensures { result ≡ demand (is_good_written_link sections.now earlier.now link.now) (BadLink (length earlier.now + 1)) }
{
    if is_good_link(sections, earlier, link) {
        Ok(())
    } else {
        Err(TrackRefusal::BadLink(earlier.len() + 1))
    }
}

/// Judges the links of these sections.
fn judge_links(sections: &[Section], links: &[LinkPart]) -> Result<(), TrackRefusal>
    ensures judged { result ≡ unless
        (first_refusal (link_refusal (with_links sections.now [])) [] (map (link_of sections.now) links.now)) (Ok tt) }
    ensures lie { result ≡ Ok tt → list_all (lies_on sections.now) links.now ≡ true }
{
    for (earlier, link) in links.iter().enumerate() {
        judge_link(sections, &links[..earlier], link)?;
    }
    Ok(())
}

/// The place of the section of this name.
fn place_of(sections: &[Section], name: Name) -> Option<usize>
    ensures { result ≡ position (λ section. bytes_eq section.name name) sections.now }
{
    sections.iter().position(|section| section.name() == name)
}

/// The number of the section of this name, or one that no section has.
fn number_of(sections: &[Section], name: Name) -> SectionId
    ensures { result ≡ section_number sections.now name }
{
    SectionId::new(place_of(sections, name).unwrap_or(sections.len()))
}

/// Whether one of the groups has the identity.
fn has_group(groups: &[GroupPart], name: GroupName) -> bool
    ensures { result ≡ list_any (λ other. group_name_eq other.name name) groups.now }
{
    groups.iter().any(|other| other.name == name)
}

/// Judges one more group, behind these.
fn judge_group(
    sections: &[Section],
    earlier: &[GroupPart],
    group: &GroupPart,
) -> Result<(), TrackRefusal>
    ensures { result ≡ entry_answer
        (not (list_any (λ other. group_name_eq other.name group.now.name) earlier.now)) (TwiceNamed GroupTable (length earlier.now + 1))
        (is_good_group (with_links sections.now []) (group_of sections.now group.now)) (BadGroup (length earlier.now + 1)) }
{
    let number = earlier.len() + 1;
    if has_group(earlier, group.name) {
        return Err(TrackRefusal::TwiceNamed(Table::Groups, number));
    }
    if !stands_on(sections, number_of(sections, group.section), group.offset) {
        return Err(TrackRefusal::BadGroup(number));
    }
    Ok(())
}

/// Judges the groups on these sections.
fn judge_groups(sections: &[Section], groups: &[GroupPart]) -> Result<(), TrackRefusal>
    ensures { result ≡ unless
        (first_refusal (group_refusal (with_links sections.now [])) [] (map (group_of sections.now) groups.now)) (Ok tt) }
{
    for (earlier, group) in groups.iter().enumerate() {
        judge_group(sections, &groups[..earlier], group)?;
    }
    Ok(())
}

/// Whether one of the routes has the name.
fn has_route(routes: &[RoutePart], name: Name) -> bool
    ensures { result ≡ list_any (λ other. bytes_eq other.name name) routes.now }
{
    routes.iter().any(|other| other.name == name)
}

/// Judges one more route, behind these.
fn judge_route(
    sections: &[Section],
    links: &[LinkPart],
    earlier: &[RoutePart],
    route: &RoutePart,
) -> Result<(), TrackRefusal>
    ensures { result ≡ entry_answer
        (not (list_any (λ other. bytes_eq other.name route.now.name) earlier.now)) (TwiceNamed RouteTable (length earlier.now + 1))
        (is_good_written_route sections.now links.now route.now) (BadRoute (length earlier.now + 1)) }
{
    let number = earlier.len() + 1;
    if has_route(earlier, route.name) {
        return Err(TrackRefusal::TwiceNamed(Table::Routes, number));
    }
    if !is_good_route(sections, links, route) {
        return Err(TrackRefusal::BadRoute(number));
    }
    Ok(())
}

/// Judges the routes over these links, whose legs are on the sections.
fn judge_routes(
    sections: &[Section],
    links: &[LinkPart],
    routes: &[RoutePart],
) -> Result<(), TrackRefusal>
    ensures { list_all (lies_on sections.now) links.now ≡ true → result ≡ unless
        (first_refusal (route_refusal (with_links sections.now (map (link_of sections.now) links.now))) []
        (map (route_of sections.now) routes.now)) (Ok tt) }
{
    for (earlier, route) in routes.iter().enumerate() {
        judge_route(sections, links, &routes[..earlier], route)?;
    }
    Ok(())
}

/// Judges the tables one after the other.
#[tactic(auto, unfolding(crate::specs::Making::tables_refusal))]
fn judge(
    sections: &[Section],
    links: &[LinkPart],
    groups: &[GroupPart],
    routes: &[RoutePart],
) -> Result<(), TrackRefusal>
    ensures { result ≡ unless (tables_refusal sections.now links.now groups.now routes.now) (Ok tt) }
{
    judge_sections(sections)?;
    judge_links(sections, links)?;
    judge_groups(sections, groups)?;
    judge_routes(sections, links, routes)
}

/// What is told where the tables of these parts were refused so: for want of memory, they are judged without it.
pub(crate) fn told(
    fault: OrMemory<TrackRefusal>,
    sections: &[Section],
    links: &[LinkPart],
    groups: &[GroupPart],
    routes: &[RoutePart],
) -> OrMemory<TrackRefusal>
    ensures { result ≡ told_for fault (tables_refusal sections.now links.now groups.now routes.now) }
{
    match fault {
        OrMemory::Refused(refusal) => OrMemory::Refused(refusal),
        OrMemory::Memory => match judge(sections, links, groups, routes) {
            Ok(()) => OrMemory::Memory,
            Err(refusal) => OrMemory::Refused(refusal),
        },
    }
}
