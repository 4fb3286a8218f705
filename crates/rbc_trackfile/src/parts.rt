//! The parts of a track, as the entries of a file tell them.
ghost use Rattle.rbc_model.specs.Answers.{AnswersOrMemory};
ghost use Rattle.rbc_model.specs.declared.files.FileTable.TheVariants.{Section as SectionTable, Link as LinkTable, Group as GroupTable, Route as RouteTable};
ghost use Rattle.rbc_trackfile.specs.TomlFile.{entry_view};
ghost use Rattle.rbc_trackfile.specs.Told.{entry_told, section_told, link_told, group_told, route_told};

use crate::entry::FileEntry;
use crate::file::TOP_KEYS;
use crate::items::{ListItem, ListValue};
use crate::values::Sort;
use rbc_model::limits::{LAST_COUNTRY, LAST_GROUP, LONGEST_TRACK, SHORTEST_RUN};
use rbc_model::{FileFault, FileTable, GroupName, Key, OrMemory};
use rbc_track::{GroupPart, LinkPart, RoutePart, Section};
use std::alloc::Global;

/// The keys of a section, a link, a balise group and a route.
const SECTION_KEYS: [Key; 4] = [Key::Name, Key::Length, Key::Speeds, Key::Grades];

const LINK_KEYS: [Key; 2] = [Key::From, Key::To];

const GROUP_KEYS: [Key; 5] = [
    Key::Country,
    Key::Number,
    Key::Section,
    Key::Offset,
    Key::Nominal,
];

const ROUTE_KEYS: [Key; 3] = [Key::Name, Key::After, Key::Legs];

/// The keys of a table.
pub fn keys_of(table: FileTable) -> &'static [Key] {
    match table {
        FileTable::Top => &TOP_KEYS,
        FileTable::Section => &SECTION_KEYS,
        FileTable::Link => &LINK_KEYS,
        FileTable::Group => &GROUP_KEYS,
        FileTable::Route => &ROUTE_KEYS,
    }
}

/// The section that an entry tells.
#[tactic(auto, unfolding(crate::specs::Told::section_told))]
fn section_in(alloc: Global, entry: FileEntry) -> Result<Section, OrMemory<FileFault>>
    ensures { AnswersOrMemory result (section_told (entry_view entry.entry)) }
{
    let name = entry.name(Key::Name)?;
    let metres = entry.number(Key::Length, SHORTEST_RUN, LONGEST_TRACK)?;
    let speeds = entry.runs(alloc, Key::Speeds, metres)?;
    let grades = entry.runs(alloc, Key::Grades, metres)?;
    entry.only(alloc, &SECTION_KEYS)?;
    Ok(Section::new(name, speeds, grades).unwrap())
}

/// The link that an entry tells.
#[tactic(auto, unfolding(crate::specs::Told::link_told))]
fn link_in(alloc: Global, entry: FileEntry) -> Result<LinkPart, OrMemory<FileFault>>
    ensures { AnswersOrMemory result (link_told (entry_view entry.entry)) }
{
    let from = entry.leg(Key::From)?;
    let to = entry.leg(Key::To)?;
    entry.only(alloc, &LINK_KEYS)?;
    Ok(LinkPart { from, to })
}

/// The balise group that an entry tells.
#[tactic(auto, unfolding(crate::specs::Told::group_told))]
fn group_in(alloc: Global, entry: FileEntry) -> Result<GroupPart, OrMemory<FileFault>>
    ensures { AnswersOrMemory result (group_told (entry_view entry.entry)) }
{
    let country = entry.number(Key::Country, 0, LAST_COUNTRY as u32)?;
    let number = entry.number(Key::Number, 0, LAST_GROUP as u32)?;
    let section = entry.name(Key::Section)?;
    let offset = entry.number(Key::Offset, 0, LONGEST_TRACK)?;
    let nominal = entry.direction(Key::Nominal)?;
    entry.only(alloc, &GROUP_KEYS)?;
    Ok(GroupPart {
        name: GroupName::new(country as u16, number as u16).unwrap(),
        section,
        offset,
        nominal,
    })
}

/// The route that an entry tells.
#[tactic(auto, unfolding(crate::specs::Told::route_told))]
fn route_in(alloc: Global, entry: FileEntry) -> Result<RoutePart, OrMemory<FileFault>>
    ensures { AnswersOrMemory result (route_told (entry_view entry.entry)) }
{
    let name = entry.name(Key::Name)?;
    let after = entry.leg_if_any(Key::After)?;
    let legs = entry.list(alloc, Sort::Text, Key::Legs)?;
    entry.only(alloc, &ROUTE_KEYS)?;
    Ok(RoutePart { name, after, legs })
}

impl ListItem for Section {
    ghost item_at = { entry_told section_told SectionTable };

    #[tactic(auto, unfolding(crate::specs::Told::entry_told))]
    fn read(alloc: Global, item: ListValue) -> Result<Section, OrMemory<FileFault>> {
        section_in(alloc, item.inner(FileTable::Section)?)
    }
}

impl ListItem for LinkPart {
    ghost item_at = { entry_told link_told LinkTable };

    #[tactic(auto, unfolding(crate::specs::Told::entry_told))]
    fn read(alloc: Global, item: ListValue) -> Result<LinkPart, OrMemory<FileFault>> {
        link_in(alloc, item.inner(FileTable::Link)?)
    }
}

impl ListItem for GroupPart {
    ghost item_at = { entry_told group_told GroupTable };

    #[tactic(auto, unfolding(crate::specs::Told::entry_told))]
    fn read(alloc: Global, item: ListValue) -> Result<GroupPart, OrMemory<FileFault>> {
        group_in(alloc, item.inner(FileTable::Group)?)
    }
}

impl ListItem for RoutePart {
    ghost item_at = { entry_told route_told RouteTable };

    #[tactic(auto, unfolding(crate::specs::Told::entry_told))]
    fn read(alloc: Global, item: ListValue) -> Result<RoutePart, OrMemory<FileFault>> {
        route_in(alloc, item.inner(FileTable::Route)?)
    }
}
