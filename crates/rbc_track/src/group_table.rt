//! The balise groups of a track, each found by its identity.

ghost use Rattle.std.specs.Prelude.{◌≡◌, ◌<◌, ◌&&◌, nat_lt, nat_le, [], ◌∷◌, ◌++◌, length, not, false, find, Err, OnOk};
ghost use Rattle.std.specs.List.{list_any};
ghost use Rattle.rbc_model.specs.Tracks.{group_name_eq, metres_of};
ghost use Rattle.rbc_model.specs.Answers.{AnswersOrMemory};
ghost use Rattle.rbc_model.specs.declared.memory.OrMemory.TheVariants.{Memory as NoMemory};
ghost use Rattle.rbc_model.specs.SoundTracks.{is_good_group};
ghost use Rattle.rbc_model.specs.declared.tracks.Table.TheVariants.{Groups as GroupTable};
ghost use Rattle.rbc_model.specs.declared.tracks.TrackRefusal.TheVariants.{TwiceNamed, BadGroup};
ghost use Rattle.rbc_track.specs.Making.{sound_groups};
ghost use Rattle.rbc_track.specs.Tables.{with_links, entry_answer};

use crate::lookup::GroupNames;
use crate::resolve::group_of;
use crate::section_table::Sections;
use crate::{GroupPart, Section};
use rbc_model::{BaliseGroup, GroupName, OrMemory, SectionId, Table, TrackRefusal};
use std::alloc::Global;
use std::marker::Model;

/// The balise groups of a track in order, each found by its identity.
#[derive(Drop)]
pub(crate) struct Groups {
    groups: Vec<BaliseGroup>,
    names: GroupNames,
}

impl Model for Groups {
    ghost use Rattle.std.specs.Prelude.{List};
    ghost use Rattle.rbc_model.specs.declared.tracks.BaliseGroup.{BaliseGroup};
    ghost use Rattle.rbc_track.specs.Tables.{IsGroupTable};

    ghost Value = { List BaliseGroup };

    ghost view = { λ table. table.groups.items };

    ghost invariant = { λ table. IsGroupTable table.groups.items table.names };
}

/// Whether the section of this number is one of these, and has the offset.
pub(crate) fn stands_on(sections: &[Section], section: SectionId, offset: u32) -> bool
    ensures { result ≡ (nat_lt section (length sections.now) && nat_le offset (metres_of (with_links sections.now []) section)) }
{
    match sections.get(section.index()) {
        Some(section) => offset <= section.length(),
        None => false,
    }
}

/// Whether the group stands on one of the sections.
fn is_good_group(sections: &Sections, group: &BaliseGroup) -> bool
    ensures { result ≡ is_good_group (with_links sections.now []) group.now }
{
    stands_on(sections.as_slice(), group.section, group.offset)
}

/// Judges one more group, behind the groups of these identities, and notes its identity.
fn note(
    names: &mut GroupNames,
    sections: &Sections,
    group: &BaliseGroup,
    number: usize,
) -> Result<(), OrMemory<TrackRefusal>>
    ensures judged { AnswersOrMemory result (entry_answer
        (not (list_any (λ other. group_name_eq other group.now.name) names.old)) (TwiceNamed GroupTable number)
        (is_good_group (with_links sections.now []) group.now) (BadGroup number)) }
    ensures named { OnOk result (names.new ≡ names.old ++ group.now.name ∷ []) }
    ensures memory { result ≡ Err NoMemory → list_any (λ other. group_name_eq other group.now.name) names.old ≡ false }
{
    if !names.insert(group.name)? {
        return Err(OrMemory::Refused(TrackRefusal::TwiceNamed(Table::Groups, number)));
    }
    if !is_good_group(sections, group) {
        return Err(OrMemory::Refused(TrackRefusal::BadGroup(number)));
    }
    Ok(())
}

impl Groups {
    /// The table of these groups, or the first refusal of one.
    pub(crate) fn new(
        alloc: Global,
        sections: &Sections,
        parts: &[GroupPart],
    ) -> Result<Groups, OrMemory<TrackRefusal>>
        ensures { AnswersOrMemory result (sound_groups sections.now parts.now) }
    {
        let mut groups = Vec::new(alloc);
        let mut names = GroupNames::new(alloc);
        for part in parts {
            let group = group_of(sections, part);
            note(&mut names, sections, &group, groups.len() + 1)?;
            groups.push(group)?;
        }
        Ok(Groups { groups, names })
    }

    /// The groups in order.
    pub(crate) fn as_slice(&self) -> &[BaliseGroup]
        ensures { result.now ≡ self.now }
    {
        self.groups.as_slice()
    }

    /// The group of this identity.
    pub(crate) fn find(&self, name: GroupName) -> Option<BaliseGroup>
        ensures { result ≡ find (λ group. group_name_eq group.name name) self.now }
    {
        let index = self.names.position(name)?;
        self.groups.get(index).copied()
    }
}
