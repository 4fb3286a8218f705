//! The sections of a track, each found by its name.

ghost use Rattle.std.specs.Prelude.{All, ◌≡◌, [], ◌∷◌, ◌++◌, not, false, bytes_eq, length, map, position, Err, IfOk, OnOk};
ghost use Rattle.std.specs.List.{list_any};
ghost use Rattle.rbc_model.specs.Answers.{AnswersAs, AnswersOrMemory};
ghost use Rattle.rbc_model.specs.declared.memory.OrMemory.TheVariants.{Memory as NoMemory};
ghost use Rattle.rbc_model.specs.SoundTracks.{has_long_runs};
ghost use Rattle.rbc_model.specs.TrackParts.{section_number};
ghost use Rattle.rbc_model.specs.declared.tracks.Table.TheVariants.{Sections as SectionTable};
ghost use Rattle.rbc_model.specs.declared.tracks.TrackRefusal.TheVariants.{TwiceNamed, ShortRun};
ghost use Rattle.rbc_track.specs.Making.{sound_sections};
ghost use Rattle.rbc_track.specs.Tables.{IsSectionInForm, entry_answer};

use crate::long_runs::has_long_runs;
use crate::lookup::Names;
use crate::{Name, Section};
use rbc_model::{OrMemory, SectionId, Table, TrackRefusal};
use std::alloc::Global;
use std::marker::Model;

/// The sections of a track in order, each found by its name.
#[derive(Drop)]
pub(crate) struct Sections {
    sections: Vec<Section>,
    names: Names,
}

impl Model for Sections {
    ghost use Rattle.std.specs.Prelude.{List};
    ghost use Rattle.rbc_model.specs.Tracks.{Section};
    ghost use Rattle.rbc_track.specs.Tables.{IsSectionTable};

    ghost Value = { List Section };

    ghost view = { λ table. table.sections.items };

    ghost invariant = { λ table. IsSectionTable table.sections.items table.names };
}

/// Judges one more section, behind the sections of these names, and notes its name.
fn note(names: &mut Names, section: &Section, number: usize) -> Result<(), OrMemory<TrackRefusal>>
    ensures judged { AnswersOrMemory result (entry_answer
        (not (list_any (λ other. bytes_eq other section.now.name) names.old)) (TwiceNamed SectionTable number)
        (has_long_runs section.now) (ShortRun number)) }
    ensures named { OnOk result (names.new ≡ names.old ++ section.now.name ∷ []) }
    ensures form { OnOk result (IsSectionInForm section.now) }
    ensures memory { result ≡ Err NoMemory → list_any (λ other. bytes_eq other section.now.name) names.old ≡ false }
{
    section.known();
    if !names.insert(section.name())? {
        return Err(OrMemory::Refused(TrackRefusal::TwiceNamed(Table::Sections, number)));
    }
    if !has_long_runs(section) {
        return Err(OrMemory::Refused(TrackRefusal::ShortRun(number)));
    }
    Ok(())
}

/// The names of the sections, or the first refusal of one.
pub(crate) fn names_of(alloc: Global, sections: &[Section]) -> Result<Names, OrMemory<TrackRefusal>>
    ensures judged { AnswersAs (λ _. sections.now) result (sound_sections sections.now) }
    ensures named { IfOk result (λ names. names ≡ map (λ section. section.name) sections.now) }
    ensures form { IfOk result (λ _. All IsSectionInForm sections.now) }
{
    let mut names = Names::new(alloc);
    for (earlier, section) in sections.iter().enumerate() {
        note(&mut names, section, earlier + 1)?;
    }
    Ok(names)
}

impl Sections {
    /// The table of these sections and their names.
    pub(crate) fn of(sections: Vec<Section>, names: Names) -> Sections
        requires { names ≡ map (λ section. section.name) sections.items }
        ensures { result ≡ sections.items }
    {
        Sections { sections, names }
    }

    /// How many sections there are.
    pub(crate) fn len(&self) -> usize
        ensures { result ≡ length self.now }
    {
        self.sections.len()
    }

    /// The sections in order.
    pub(crate) fn as_slice(&self) -> &[Section]
        ensures { result.now ≡ self.now }
    {
        self.sections.as_slice()
    }

    /// The section of this name.
    pub(crate) fn find(&self, name: Name) -> Option<SectionId>
        ensures { result ≡ position (λ section. bytes_eq section.name name) self.now }
    {
        let index = self.names.position(name)?;
        Some(SectionId::new(index))
    }

    /// The number of the section of this name, or one that no section has.
    pub(crate) fn number(&self, name: Name) -> SectionId
        ensures { result ≡ section_number self.now name }
    {
        self.find(name)
            .unwrap_or(SectionId::new(self.sections.len()))
    }
}
