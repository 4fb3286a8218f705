//! The next leg of each leg, found without a search.

ghost use Rattle.std.specs.Prelude.{◌≡◌, ◌<◌, length, replicate, IfOk};
ghost use Rattle.rbc_locks.specs.NextTables.{no_next, next_leg, with_next};

use rbc_model::{Direction, Leg, Memory};
use std::alloc::Global;
use std::marker::Model;

/// The next legs of a section: the leg that is locked behind its leg of rising offsets, and the one that is locked
/// behind its leg of falling offsets.
#[derive(Clone, Copy)]
pub(crate) struct NextLegs {
    rising: Option<Leg>,
    falling: Option<Leg>,
}

/// The next legs of each section of a track.
#[derive(Drop)]
pub(crate) struct NextTable {
    sections: Vec<NextLegs>,
}

impl Model for NextTable {
    ghost use Rattle.std.specs.Prelude.{List};
    ghost use Rattle.rbc_locks.specs.declared.next_table.NextLegs.{NextLegs};

    ghost Value = { List NextLegs };

    ghost view = { λ table. table.sections.items };
}

impl NextTable {
    /// The table of a track with this number of sections, where no leg has a next one.
    pub(crate) fn new(alloc: Global, sections: usize) -> Result<NextTable, Memory>
        ensures { IfOk result (λ table. table ≡ replicate sections no_next) }
    {
        let none = NextLegs {
            rising: None,
            falling: None,
        };
        let mut table = Vec::new(alloc);
        table.resize(sections, none)?;
        Ok(NextTable { sections: table })
    }

    /// The next leg of the leg, if it has one.
    pub(crate) fn get(&self, leg: Leg) -> Option<Leg>
        ensures { result ≡ next_leg self.now leg }
    {
        let legs = self.sections.get(leg.section.index())?;
        match leg.direction {
            Direction::Rising => legs.rising,
            Direction::Falling => legs.falling,
        }
    }

    /// Makes `next` the next leg of the leg, or leaves it without one.
    pub(crate) fn set(&mut self, leg: Leg, next: Option<Leg>)
        requires { leg.section < length self.old }
        ensures { self.new ≡ with_next self.old leg next }
    {
        let legs = &mut self.sections[leg.section.index()];
        match leg.direction {
            Direction::Rising => legs.rising = next,
            Direction::Falling => legs.falling = next,
        }
    }

    /// An equal table.
    pub(crate) fn copy(&self, alloc: Global) -> Result<NextTable, Memory>
        ensures { IfOk result (λ table. table ≡ self.now) }
    {
        let sections = Vec::from_slice(alloc, self.sections.as_slice())?;
        Ok(NextTable { sections })
    }

    /// An equal table, in the memory of one that is no longer needed.
    pub(crate) fn copy_in(&self, spare: NextTable) -> Result<NextTable, Memory>
        ensures { IfOk result (λ table. table ≡ self.now) }
    {
        let NextTable { mut sections } = spare;
        sections.clear();
        sections.extend_from_slice(self.sections.as_slice())?;
        Ok(NextTable { sections })
    }
}
