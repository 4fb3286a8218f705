//! Faults of entries: a key that is missing, unknown, or has another value than it may have.

use crate::expected::expected;
use crate::labels::{Label, label_of};
use crate::lines::Lines;
use rbc_model::{FileFault, FileTable, Key, KeyText, Memory, key_text};
use rbc_spelling::nearest;
use rbc_trackfile::{entry_faults, keys_of};
use std::alloc::Global;
use toml::{Table, Value};

/// Tells the faults of the entries of a table.
///
/// # Errors
///
/// The allocator refused memory.
pub(crate) fn tell(
    alloc: Global,
    table: &Table,
    kind: FileTable,
    lines: &mut Lines,
) -> Result<(), Memory> {
    for fault in entry_faults(alloc, table, kind)?.iter() {
        lines.add(line_of(alloc, table, fault)?)?;
    }
    Ok(())
}

/// The entry of a table with this number, counted from 1.
fn entry_of(table: &Table, kind: FileTable, number: usize) -> Option<&Table> {
    let key = match kind {
        FileTable::Top => return Some(table),
        FileTable::Section => Key::Section,
        FileTable::Link => Key::Link,
        FileTable::Group => Key::Group,
        FileTable::Route => Key::Route,
    };
    let entries = table.get(key_text(key))?.as_array()?;
    entries.get(number.checked_sub(1)?)?.as_table()
}

/// The line of a fault.
fn line_of(alloc: Global, table: &Table, fault: &FileFault) -> Result<String, Memory> {
    let (kind, number) = match fault {
        FileFault::Missing(kind, number, _)
        | FileFault::Wrong(kind, number, _)
        | FileFault::Unknown(kind, number, _)
        | FileFault::Range(kind, number, _) => (*kind, *number),
        FileFault::Runs(number, _) => (FileTable::Section, *number),
        FileFault::Toml | FileFault::Track(_) => return Ok(format!(in alloc; "{fault}")?),
    };
    match entry_of(table, kind, number) {
        Some(members) => {
            let entry = Entry {
                kind,
                label: label_of(kind, number, members),
                members,
            };
            entry.line_of(alloc, fault)
        }
        None => Ok(format!(in alloc; "{fault}")?),
    }
}

/// An entry with a fault.
#[derive(Clone, Copy)]
struct Entry<'a> {
    kind: FileTable,
    label: Label<'a>,
    members: &'a Table,
}

impl Entry<'_> {
    /// The line of its fault.
    fn line_of(&self, alloc: Global, fault: &FileFault) -> Result<String, Memory> {
        match fault {
            FileFault::Missing(_, _, key) => self.missing(alloc, *key),
            FileFault::Unknown(_, _, key) => self.unknown(alloc, key),
            FileFault::Wrong(_, _, key) | FileFault::Range(_, _, key) => self.other(alloc, *key),
            FileFault::Runs(_, key) => {
                let (label, key) = (self.label, key_text(*key));
                Ok(format!(in alloc;
                    "{label}: {key}: starts have to rise from 0, and to stay below the length"
                )?)
            }
            FileFault::Toml | FileFault::Track(_) => Ok(format!(in alloc; "{fault}")?),
        }
    }

    /// A key is missing: maybe another one stands for it.
    fn missing(&self, alloc: Global, key: Key) -> Result<String, Memory> {
        let (label, key) = (self.label, key_text(key));
        match nearest(alloc, key, self.unlisted(alloc)?.as_slice())? {
            Some(other) => {
                Ok(format!(in alloc; "{label}: no key {key}, but {other:?}: is {key} meant?")?)
            }
            None => Ok(format!(in alloc; "{label}: no key {key}")?),
        }
    }

    /// A key is unknown: maybe one that is known is meant.
    fn unknown(&self, alloc: Global, key: &KeyText) -> Result<String, Memory> {
        let (label, key) = (self.label, key.as_str());
        let mut words = Vec::new(alloc);
        for listed in keys_of(self.kind) {
            words.push(key_text(*listed))?;
        }
        match nearest(alloc, key, words.as_slice())? {
            Some(word) => Ok(format!(in alloc; "{label}: unknown key {key:?}: is {word} meant?")?),
            None => Ok(format!(in alloc; "{label}: unknown key {key:?}")?),
        }
    }

    /// The value at a key is another than it may be.
    fn other(&self, alloc: Global, key: Key) -> Result<String, Memory> {
        let (label, expected) = (self.label, expected(self.kind, key));
        let key = key_text(key);
        let Some(value) = self.members.get(key) else {
            return Ok(format!(in alloc; "{label}: {key}: {expected} expected")?);
        };
        if let Some(number) = value.as_integer() {
            return Ok(format!(in alloc; "{label}: {key} = {number}: {expected} expected")?);
        }
        if let Some(text) = value.as_str() {
            return Ok(format!(in alloc; "{label}: {key} = {text:?}: {expected} expected")?);
        }
        let sort = value.type_str();
        Ok(format!(in alloc; "{label}: {key} is of type {sort}: {expected} expected")?)
    }

    /// The keys that the table does not list.
    fn unlisted(&self, alloc: Global) -> Result<Vec<&str>, Memory> {
        let mut others = Vec::new(alloc);
        for (name, _) in self.members.iter() {
            if !is_listed(self.kind, name.as_str()) {
                others.push(name.as_str())?;
            }
        }
        Ok(others)
    }
}

/// Whether a text spells a key of the table.
fn is_listed(kind: FileTable, text: &str) -> bool {
    keys_of(kind).iter().any(|key| key_text(*key) == text)
}
