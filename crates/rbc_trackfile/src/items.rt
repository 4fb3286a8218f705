//! Lists in an entry: their values are all of one sort before one of them is out of its form.
ghost use Rattle.std.specs.Prelude.{ℕ, ◌≡◌, Result, map};
ghost use Rattle.toml.specs.Data.{Data};
ghost use Rattle.toml.specs.View.{view};
ghost use Rattle.rbc_model.specs.Answers.{AnswersAs, AnswersOrMemory};
ghost use Rattle.rbc_model.specs.TrackFile.{FileEntry as EntryAt};
ghost use Rattle.rbc_model.specs.declared.files.FileFault.{FileFault as Fault};
ghost use Rattle.rbc_model.specs.declared.files.Key.{Key as KeyName};
ghost use Rattle.rbc_trackfile.specs.TomlFile.{entry_view};
ghost use Rattle.rbc_trackfile.specs.Told.{Tells, values_told, tables_told, each_told, list_told, inner_told};

use crate::entry::FileEntry;
use crate::values::{Sort, are_of_sort};
use rbc_model::{FileFault, FileTable, Key, OrMemory};
use std::alloc::Global;
use toml::Value;

/// A value of a list in a track file: the entry and the key where the list stands, and the value with its number there,
/// counted from 1.
#[derive(Clone, Copy)]
pub(crate) struct ListValue<'a> {
    pub(crate) within: FileEntry<'a>,
    pub(crate) key: Key,
    pub(crate) number: usize,
    pub(crate) value: &'a Value,
}

impl<'a> ListValue<'a> {
    /// The entry of this table that a value of a list of tables is.
    #[tactic(auto, unfolding(crate::specs::Told::inner_told))]
    pub(crate) fn inner(self, table: FileTable) -> Result<FileEntry<'a>, FileFault>
        ensures { Tells entry_view result
            (inner_told table (entry_view self.entry.within) self.entry.key self.entry.number (view self.entry.value.now)) }
    {
        match self.value.as_table() {
            Some(members) => Ok(FileEntry::new(table, self.number, members)),
            None => Err(self.within.wrong(self.key)),
        }
    }
}

/// What a value of a list in a track file is read as.
pub(crate) trait ListItem: Drop {
    /// What a value tells, by the entry and the key where its list stands, and its number there.
    ghost item_at: { EntryAt Data → KeyName → ℕ → Data → Result Self Fault };

    /// Reads a value.
    fn read(alloc: Global, item: ListValue) -> Result<Self, OrMemory<FileFault>>
        ensures { AnswersOrMemory result
            (item_at (entry_view item.entry.within) item.entry.key item.entry.number (view item.entry.value.now)) };
}

impl<'a> FileEntry<'a> {
    /// The values of the list that a value is, all of the sort.
    #[tactic(auto, unfolding(crate::specs::Told::values_told))]
    fn values_in(self, sort: Sort, key: Key, value: &'a Value) -> Result<&'a [Value], FileFault>
        ensures { Tells (λ values. map view values.now) result
            (values_told sort (entry_view self.entry) key (view value.now)) }
    {
        let Some(values) = value.as_array() else {
            return Err(self.wrong(key));
        };
        if are_of_sort(sort, values) {
            Ok(values.as_slice())
        } else {
            Err(self.wrong(key))
        }
    }

    /// The values of the list of tables at a key, none where the key is absent.
    #[tactic(auto, unfolding(crate::specs::Told::tables_told))]
    pub(crate) fn tables(self, key: Key) -> Result<&'a [Value], FileFault>
        ensures { Tells (λ values. map view values.now) result (tables_told (entry_view self.entry) key) }
    {
        match self.value(key) {
            Some(value) => self.values_in(Sort::Table, key, value),
            None => Ok(&[]),
        }
    }

    /// What the values of the list at a key are read as, one after the other.
    pub(crate) fn items<T: ListItem>(
        self,
        alloc: Global,
        key: Key,
        values: &[Value],
    ) -> Result<Vec<T>, OrMemory<FileFault>>
        ensures { AnswersAs (λ items. items.items) result
            (each_told (T.item_at (entry_view self.entry) key) 1 (map view values.now)) }
    {
        let mut items = Vec::new(alloc);
        for value in values {
            let listed = ListValue {
                within: self,
                key,
                number: items.len() + 1,
                value,
            };
            let item = T::read(alloc, listed)?;
            items.push(item)?;
        }
        Ok(items)
    }

    /// The list at a key that must be there.
    #[tactic(auto, unfolding(crate::specs::Told::list_told))]
    pub(crate) fn list<T: ListItem>(
        self,
        alloc: Global,
        sort: Sort,
        key: Key,
    ) -> Result<Vec<T>, OrMemory<FileFault>>
        ensures { AnswersAs (λ items. items.items) result (list_told sort T.item_at (entry_view self.entry) key) }
    {
        let value = self.required(key)?;
        let values = self.values_in(sort, key, value)?;
        self.items(alloc, key, values)
    }
}
