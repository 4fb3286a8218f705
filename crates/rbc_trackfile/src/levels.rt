//! Speeds and gradients over the metres of a section.
ghost use Rattle.std.specs.Prelude.{ℤ, ◌≡◌, Option, Some, IfOk};
ghost use Rattle.rbc_model.specs.TrackFile.{speed_in, grade_in, run_of_pair};
ghost use Rattle.rbc_trackfile.specs.TomlFile.{entry_view};
ghost use Rattle.rbc_model.specs.Answers.{AnswersOrMemory};
ghost use Rattle.rbc_trackfile.specs.Told.{pair_sort, item_told, runs_told};

use crate::entry::FileEntry;
use crate::items::{ListItem, ListValue};
use crate::values::{Sort, number_from_to, pair_in};
use rbc_model::limits::LONGEST_TRACK;
use rbc_model::{FileFault, Key, OrMemory};
use rbc_steps::{Grade, Level, Runs, Speed};
use std::alloc::Global;

/// A kind of level as a track file has it.
pub(crate) trait FileLevel: Level {
    /// The level that a number is.
    ghost level_in: { ℤ → Option Self };

    /// The level that a number is, if it is in range.
    fn read(number: i64) -> Option<Self>
        ensures { result ≡ level_in number };
}

/// Speeds in km/h.
impl FileLevel for Speed {
    ghost level_in = { speed_in };

    fn read(number: i64) -> Option<Speed> {
        Speed::new(u16::try_from(number).ok()?)
    }
}

/// Gradients in per mille.
impl FileLevel for Grade {
    ghost level_in = { grade_in };

    fn read(number: i64) -> Option<Grade> {
        Grade::new(i16::try_from(number).ok()?)
    }
}

/// Runs, each a list of its start and its level.
impl<V: FileLevel> ListItem for (u32, V) {
    ghost item_at = { item_told pair_sort (run_of_pair V.level_in) };

    #[tactic(auto, unfolding(crate::specs::Told::item_told))]
    fn read(_alloc: Global, item: ListValue) -> Result<(u32, V), OrMemory<FileFault>> {
        let Some((start, level)) = pair_in(item.value) else {
            return Err(OrMemory::Refused(item.within.wrong(item.key)));
        };
        match number_from_to(0, LONGEST_TRACK, start).zip(V::read(level)) {
            Some(run) => Ok(run),
            None => Err(OrMemory::Refused(item.within.range(item.key))),
        }
    }
}

impl<'a> FileEntry<'a> {
    /// The levels at a key over this number of metres.
    #[tactic(auto, unfolding(crate::specs::Told::runs_told))]
    pub(crate) fn runs<V: FileLevel>(
        self,
        alloc: Global,
        key: Key,
        metres: u32,
    ) -> Result<Runs<V>, OrMemory<FileFault>>
        ensures told { AnswersOrMemory result (runs_told V.levels V.level_in (entry_view self.entry) metres key) }
        ensures end { IfOk result (λ runs. runs.end ≡ metres) }
    {
        let rows = self.list(alloc, Sort::Pair, key)?;
        match Runs::new(rows, metres) {
            Ok(runs) => Ok(runs),
            Err(_) => Err(OrMemory::Refused(self.no_runs(key))),
        }
    }
}
