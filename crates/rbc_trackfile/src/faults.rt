//! The faults of all entries of a table, for those who mend a file.

use crate::entry::FileEntry;
use crate::file::top_fault;
use crate::items::{ListItem, ListValue};
use rbc_model::{FileFault, FileTable, Key, Memory, OrMemory};
use rbc_track::{GroupPart, LinkPart, RoutePart, Section};
use std::alloc::Global;
use toml::{Table, Value};

/// How many faults are told at once.
pub const MOST_FAULTS: usize = 20;

/// The first fault of each entry of a table, in their order, twenty at most. No contract says which: they are told behind the
/// first fault of the file, which `read` finds.
///
/// # Errors
///
/// The allocator refused memory.
pub fn entry_faults(
    alloc: Global,
    table: &Table,
    kind: FileTable,
) -> Result<Vec<FileFault>, Memory> {
    let top = FileEntry::new(FileTable::Top, 1, table);
    match kind {
        FileTable::Top => {
            let mut faults = Vec::new(alloc);
            if let Some(fault) = top_fault(alloc, top)? {
                faults.push(fault)?;
            }
            Ok(faults)
        }
        FileTable::Section => faults_at::<Section>(alloc, top, Key::Section),
        FileTable::Link => faults_at::<LinkPart>(alloc, top, Key::Link),
        FileTable::Group => faults_at::<GroupPart>(alloc, top, Key::Group),
        FileTable::Route => faults_at::<RoutePart>(alloc, top, Key::Route),
    }
}

/// The first fault of each entry of the list of tables at a key.
fn faults_at<T: ListItem>(
    alloc: Global,
    top: FileEntry,
    key: Key,
) -> Result<Vec<FileFault>, Memory> {
    match top.tables(key) {
        Ok(values) => faults_in::<T>(alloc, top, key, values),
        Err(_) => Ok(Vec::new(alloc)),
    }
}

/// The first fault of each of these entries.
fn faults_in<T: ListItem>(
    alloc: Global,
    top: FileEntry,
    key: Key,
    values: &[Value],
) -> Result<Vec<FileFault>, Memory> {
    let mut faults = Vec::new(alloc);
    for (index, value) in values.iter().enumerate() {
        if faults.len() == MOST_FAULTS {
            break;
        }
        let item = ListValue {
            within: top,
            key,
            number: index + 1,
            value,
        };
        if let Some(fault) = fault_of(T::read(alloc, item))? {
            faults.push(fault)?;
        }
    }
    Ok(faults)
}

/// The fault of what was read, if it has one.
pub(crate) fn fault_of<T: Drop>(
    read: Result<T, OrMemory<FileFault>>,
) -> Result<Option<FileFault>, Memory> {
    match read {
        Ok(_) => Ok(None),
        Err(OrMemory::Refused(fault)) => Ok(Some(fault)),
        Err(OrMemory::Memory) => Err(Memory),
    }
}
