//! Entries of a track file: the values at their keys, and their keys.
ghost use Rattle.std.specs.Prelude.{◌≡◌, ◌≤◌, IfOk, option_map, Some, None, bytes_eq};
ghost use Rattle.std.specs.List.{list_any};
ghost use Rattle.toml.specs.Data.{as_integer, as_str};
ghost use Rattle.toml.specs.View.{view, table_view};
ghost use Rattle.rbc_model.specs.Answers.{AnswersOrMemory};
ghost use Rattle.rbc_model.specs.declared.files.FileFault.TheVariants.{Missing, Wrong, Range, Runs};
ghost use Rattle.rbc_model.specs.TrackFile.{AreInKeyOrder, key_text, number_from_to, or_fault};
ghost use Rattle.rbc_trackfile.specs.TomlFile.{entry_view, member_list};
ghost use Rattle.rbc_trackfile.specs.Told.{Tells, value_told, there_told, in_form_told, required_told, only_told};

use crate::values::number_from_to;
use rbc_model::{FileFault, FileTable, Key, KeyText, OrMemory, key_text};
use std::alloc::Global;
use toml::{Table, Value};

/// An entry of a track file: its table, its number there, counted from 1, and its keys with their values.
#[derive(Clone, Copy)]
pub(crate) struct FileEntry<'a> {
    table: FileTable,
    number: usize,
    members: &'a Table,
}

impl<'a> FileEntry<'a> {
    /// The entry of this table and this number.
    pub(crate) fn new(table: FileTable, number: usize, members: &'a Table) -> FileEntry<'a>
        ensures { entry_view result
            ≡ record { table = table; number = number; members = member_list (table_view members.now) } }
    {
        FileEntry {
            table,
            number,
            members,
        }
    }

    /// The fault that a key is not there.
    fn missing(self, key: Key) -> FileFault
        ensures { result ≡ Missing self.entry.table self.entry.number key }
    {
        FileFault::Missing(self.table, self.number, key)
    }

    /// The fault that the value at a key is of another sort than asked.
    pub(crate) fn wrong(self, key: Key) -> FileFault
        ensures { result ≡ Wrong self.entry.table self.entry.number key }
    {
        FileFault::Wrong(self.table, self.number, key)
    }

    /// The fault that the value at a key is out of its form.
    pub(crate) fn range(self, key: Key) -> FileFault
        ensures { result ≡ Range self.entry.table self.entry.number key }
    {
        FileFault::Range(self.table, self.number, key)
    }

    /// The fault that the levels at a key make no function of the section's metres.
    pub(crate) fn no_runs(self, key: Key) -> FileFault
        ensures { result ≡ Runs self.entry.number key }
    {
        FileFault::Runs(self.number, key)
    }

    /// The value at a key.
    pub(crate) fn value(self, key: Key) -> Option<&'a Value>
        ensures { option_map (λ value. view value.now) result ≡ value_told (entry_view self.entry) key }
    {
        self.members.get(key_text(key))
    }

    /// The value at a key that must be there.
    #[tactic(auto, unfolding(crate::specs::Told::there_told))]
    pub(crate) fn required(self, key: Key) -> Result<&'a Value, FileFault>
        ensures { Tells (λ value. view value.now) result (there_told (entry_view self.entry) key) }
    {
        match self.value(key) {
            Some(value) => Ok(value),
            None => Err(self.missing(key)),
        }
    }

    /// The number, if it is `low` to `high`.
    fn number_from_to(self, key: Key, number: i64, low: u32, high: u32) -> Result<u32, FileFault>
        ensures told { result
            ≡ or_fault (Range self.entry.table self.entry.number key) (number_from_to low high number) }
        ensures low { IfOk result (λ number. low ≤ number) }
        ensures high { IfOk result (λ number. number ≤ high) }
    {
        match number_from_to(low, high, number) {
            Some(number) => Ok(number),
            None => Err(self.range(key)),
        }
    }

    /// The number that a value is, `low` to `high`.
    #[tactic(auto, unfolding(crate::specs::Told::in_form_told))]
    pub(crate) fn number_in(
        self,
        key: Key,
        value: &Value,
        low: u32,
        high: u32,
    ) -> Result<u32, FileFault>
        ensures told { result
            ≡ in_form_told as_integer (number_from_to low high) (entry_view self.entry) key (view value.now) }
        ensures low { IfOk result (λ number. low ≤ number) }
        ensures high { IfOk result (λ number. number ≤ high) }
    {
        match value.as_integer() {
            Some(number) => self.number_from_to(key, number, low, high),
            None => Err(self.wrong(key)),
        }
    }

    /// The number at a key that must be there, `low` to `high`.
    #[tactic(auto, unfolding(crate::specs::Told::required_told))]
    pub(crate) fn number(self, key: Key, low: u32, high: u32) -> Result<u32, FileFault>
        ensures told { result ≡ required_told as_integer (number_from_to low high) (entry_view self.entry) key }
        ensures low { IfOk result (λ number. low ≤ number) }
        ensures high { IfOk result (λ number. number ≤ high) }
    {
        let value = self.required(key)?;
        self.number_in(key, value, low, high)
    }

    /// Refuses a key that is not among these: the first one in the order of the keys' bytes.
    pub(crate) fn only(self, alloc: Global, keys: &[Key]) -> Result<(), OrMemory<FileFault>>
        ensures told { AnswersOrMemory result (only_told keys.now (entry_view self.entry)) }
        ensures order { AreInKeyOrder (member_list (table_view self.entry.members.now)) }
    {
        for (name, _) in self.members.iter() {
            if !is_listed(name.as_str(), keys) {
                let name = KeyText::new(String::from_str(alloc, name.as_str())?);
                return Err(OrMemory::Refused(FileFault::Unknown(self.table, self.number, name)));
            }
        }
        Ok(())
    }
}

/// Whether a text spells one of these keys.
fn is_listed(text: &str, keys: &[Key]) -> bool
    ensures { result ≡ list_any (λ key. bytes_eq text.now (key_text key)) keys.now }
{
    keys.iter().any(|key| text == key_text(*key))
}
