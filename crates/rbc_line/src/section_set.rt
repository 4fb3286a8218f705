//! Sets of a track's sections.

ghost use Rattle.std.specs.Prelude.{◌≡◌, ℕ, ◌<◌, ◌||◌, ◌==◌, length, false, IfOk};
ghost use Rattle.rbc_model.specs.Lines.{has_section};
ghost use Rattle.rbc_line.specs.SectionSets.{is_in};

use crate::Line;
use rbc_model::{Memory, SectionId};
use rbc_track::Track;
use std::alloc::Global;
use std::marker::Model;

/// A set of a track's sections, in which a section is looked up without a search.
#[derive(Drop)]
pub struct SectionSet {
    flags: Vec<bool>,
}

impl Model for SectionSet {
    ghost use Rattle.std.specs.Prelude.{Bool, List};

    ghost Value = { List Bool };

    ghost view = { λ set. set.flags.items };
}

impl SectionSet {
    /// The empty set of the track's sections.
    ///
    /// # Errors
    ///
    /// [`Memory`] where there is none for the set.
    pub fn new(alloc: Global, track: &Track) -> Result<SectionSet, Memory>
        ensures size { IfOk result (λ set. length set ≡ length track.now.sections) }
        ensures empty { IfOk result (λ set. (section : ℕ) → is_in set section ≡ false) }
    {
        Ok(SectionSet {
            flags: vec![in alloc; false; track.section_count()]?,
        })
    }

    /// The sections of a line.
    ///
    /// # Errors
    ///
    /// [`Memory`] where there is none for the set.
    pub fn of(alloc: Global, line: &Line) -> Result<SectionSet, Memory>
        ensures size { IfOk result (λ set. length set ≡ length line.now.track.sections) }
        ensures sections { IfOk result (λ set.
            (section : ℕ) → is_in set section ≡ has_section line.now.legs section) }
    {
        line.known();
        let mut set = SectionSet::new(alloc, line.track())?;
        let legs = line.legs();
        for leg in legs {
            set.insert(leg.section);
        }
        Ok(set)
    }

    /// Puts a section of the track into the set. It takes no memory.
    pub fn insert(&mut self, section: SectionId)
        requires { section < length self.old }
        ensures size { length self.new ≡ length self.old }
        ensures sections { (other : ℕ) → is_in self.new other ≡ (section == other || is_in self.old other) }
    {
        self.flags[section.index()] = true;
    }

    /// Whether a section of the track is in the set.
    pub fn has(&self, section: SectionId) -> bool
        requires { section < length self.now }
        ensures { result ≡ is_in self.now section }
    {
        self.flags[section.index()]
    }
}
