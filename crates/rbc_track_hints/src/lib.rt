//! What stands behind the first fault of a track file: where it lies, in words, and the like faults behind it. No contract
//! pins these texts: a fault itself is pinned where it is found.
#![tactic(auto)]

mod entries;
mod expected;
mod flaws;
mod joints;
mod labels;
mod lines;
mod parts;
mod routes;

use lines::Lines;
use rbc_model::{FileFault, FileTable, Memory, OrMemory, TrackRefusal};
use rbc_trackfile::{parse, read_parts};
use std::alloc::Global;

/// The lines behind a fault of the bytes of a track file, each indented by two spaces. For what is no TOML: the place, and the
/// parser's words. For a fault of an entry: the entry by its name and what is wrong there, and so on for each other entry of
/// its table that has a fault, twenty lines at most.
///
/// # Errors
///
/// The allocator refused memory.
pub fn hints(alloc: Global, bytes: &[u8], fault: &FileFault) -> Result<String, Memory> {
    let mut lines = Lines::new(alloc);
    match fault {
        FileFault::Toml => tell_toml(alloc, bytes, &mut lines)?,
        FileFault::Track(refusal) => tell_refusal(alloc, bytes, *refusal, &mut lines)?,
        FileFault::Missing(kind, _, _)
        | FileFault::Wrong(kind, _, _)
        | FileFault::Unknown(kind, _, _)
        | FileFault::Range(kind, _, _) => tell_entries(alloc, bytes, *kind, &mut lines)?,
        FileFault::Runs(_, _) => tell_entries(alloc, bytes, FileTable::Section, &mut lines)?,
    }
    Ok(lines.into_text())
}

/// What a part is read as that had no fault of its own when it was read first.
fn known<T: Drop>(read: Result<T, OrMemory<FileFault>>) -> Result<Option<T>, Memory> {
    match read {
        Ok(value) => Ok(Some(value)),
        Err(OrMemory::Refused(_)) => Ok(None),
        Err(OrMemory::Memory) => Err(Memory),
    }
}

/// Tells where a text is no TOML, and why, in the parser's words.
fn tell_toml(alloc: Global, bytes: &[u8], lines: &mut Lines) -> Result<(), Memory> {
    let Err(error) = toml::table_from_slice(alloc, bytes) else {
        return Ok(());
    };
    if error.is_memory() {
        return Err(Memory);
    }
    let told = format!(in alloc; "{error}")?;
    for line in told.as_str().lines() {
        lines.add(format!(in alloc; "{line}")?)?;
    }
    Ok(())
}

/// Tells the faults of the entries of a table.
fn tell_entries(
    alloc: Global,
    bytes: &[u8],
    kind: FileTable,
    lines: &mut Lines,
) -> Result<(), Memory> {
    match known(parse(alloc, bytes))? {
        Some(table) => entries::tell(alloc, &table, kind, lines),
        None => Ok(()),
    }
}

/// Tells why parts make no track.
fn tell_refusal(
    alloc: Global,
    bytes: &[u8],
    refusal: TrackRefusal,
    lines: &mut Lines,
) -> Result<(), Memory> {
    let Some(table) = known(parse(alloc, bytes))? else {
        return Ok(());
    };
    match known(read_parts(alloc, &table))? {
        Some(parts) => parts::tell(alloc, &parts, refusal, lines),
        None => Ok(()),
    }
}
