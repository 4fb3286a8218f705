//! A whole track file, from its bytes to its track.
ghost use Rattle.std.specs.Prelude.{◌≡◌, Err, IfOk, IfErr};
ghost use Rattle.std.specs.Str.{IsUtf8};
ghost use Rattle.toml.specs.Errors.{IsBlank};
ghost use Rattle.rbc_trackfile.specs.TomlFile.{entry_view, toml_document, member_list};
ghost use Rattle.toml.specs.View.{table_view};
ghost use Rattle.rbc_model.specs.Answers.{AnswersAs, AnswersOrMemory};
ghost use Rattle.rbc_model.specs.declared.files.FileFault.TheVariants.{Toml};
ghost use Rattle.rbc_model.specs.declared.memory.OrMemory.TheVariants.{Refused, Memory as NoMemory};
ghost use Rattle.rbc_model.specs.TrackFile.{AreInKeyOrder, format_numbered, or_fault, keys_at, parts_at};
ghost use Rattle.rbc_track.specs.PartsView.{parts_view};
ghost use Rattle.rbc_trackfile.specs.Told.{Tells, keys_told, top_told, top_of, toml_table, file_told, track_told};
ghost use Rattle.rbc_trackfile.specs.TopTables.{keys_view};

use crate::entry::FileEntry;
use crate::faults::fault_of;
use rbc_model::{FileFault, FileTable, Format, Key, Memory, OrMemory};
use rbc_track::{Parts, StepLimit, Track};
use std::alloc::Global;
use std::str;
use toml::{Table, Value};

/// The keys of the top table.
pub(crate) const TOP_KEYS: [Key; 7] = [
    Key::Format,
    Key::SpeedSteps,
    Key::GradeSteps,
    Key::Section,
    Key::Link,
    Key::Group,
    Key::Route,
];

/// What the top table's own keys tell: the format, the step limits, and the values of the lists of tables.
#[derive(Clone, Copy)]
pub(crate) struct TopKeys<'a> {
    format: Format,
    speed_steps: StepLimit,
    grade_steps: StepLimit,
    sections: &'a [Value],
    links: &'a [Value],
    groups: &'a [Value],
    routes: &'a [Value],
}

/// The table that the bytes of a track file are.
///
/// # Errors
///
/// - `Toml`: the bytes are no UTF-8, or no TOML.
/// - `Memory`, unless the bytes are no UTF-8, or are blank.
pub fn parse(alloc: Global, text: &[u8]) -> Result<Table, OrMemory<FileFault>>
    ensures table { AnswersAs (λ table. table_view table) result (or_fault Toml (toml_table text.now)) }
    ensures memory { result ≡ Err NoMemory → IsUtf8 text.now × ¬ IsBlank text.now }
{
    let Ok(text) = str::from_utf8(text) else {
        return Err(OrMemory::Refused(FileFault::Toml));
    };
    match toml::table_from_str(alloc, text) {
        Ok(table) => Ok(table),
        Err(error) => {
            if error.is_memory() {
                Err(OrMemory::Memory)
            } else {
                Err(OrMemory::Refused(FileFault::Toml))
            }
        }
    }
}

/// The format of this number, 1 or 2.
fn format_numbered(number: u32) -> Format
    ensures { result ≡ format_numbered number }
{
    if number == 1 {
        Format::Near
    } else {
        Format::Far
    }
}

/// What the top table's own keys tell, in the order of their reading.
#[tactic(auto, unfolding(crate::specs::Told::keys_told))]
fn top_keys<'a>(top: FileEntry<'a>) -> Result<TopKeys<'a>, FileFault>
    ensures { Tells keys_view result (keys_told (entry_view top.entry)) }
{
    let format = format_numbered(top.number(Key::Format, 1, 2)?);
    let speed_steps = top.step_limit(Key::SpeedSteps)?;
    let grade_steps = top.step_limit(Key::GradeSteps)?;
    let sections = top.tables(Key::Section)?;
    let links = top.tables(Key::Link)?;
    let groups = top.tables(Key::Group)?;
    let routes = top.tables(Key::Route)?;
    Ok(TopKeys {
        format,
        speed_steps,
        grade_steps,
        sections,
        links,
        groups,
        routes,
    })
}

/// The first fault of the top table's own keys, if they have one.
pub(crate) fn top_fault(alloc: Global, top: FileEntry) -> Result<Option<FileFault>, Memory> {
    match top_keys(top) {
        Ok(_) => fault_of(top.only(alloc, &TOP_KEYS)),
        Err(fault) => Ok(Some(fault)),
    }
}

/// The parts that the top table tells: its own keys, then each of its lists of tables, entry by entry.
#[tactic(auto, unfolding(crate::specs::Told::top_told))]
fn top_parts(alloc: Global, top: FileEntry) -> Result<Parts, OrMemory<FileFault>>
    ensures told { AnswersAs parts_view result (top_told (entry_view top.entry)) }
    ensures keys { IfErr (keys_told (entry_view top.entry)) (λ fault. result ≡ Err (Refused fault)) }
    ensures order { IfOk (keys_told (entry_view top.entry))
        (λ _. AreInKeyOrder (member_list (table_view top.entry.members.now))) }
{
    let keys = top_keys(top)?;
    top.only(alloc, &TOP_KEYS)?;
    let sections = top.items(alloc, Key::Section, keys.sections)?;
    let links = top.items(alloc, Key::Link, keys.links)?;
    let groups = top.items(alloc, Key::Group, keys.groups)?;
    let routes = top.items(alloc, Key::Route, keys.routes)?;
    Ok(Parts {
        format: keys.format,
        speed_steps: keys.speed_steps,
        grade_steps: keys.grade_steps,
        sections,
        links,
        groups,
        routes,
    })
}

/// The parts that the table of a track file tells.
///
/// # Errors
///
/// `Refused` with the first of these:
/// - `Missing`, `Wrong` or `Range` of the top table's own keys, in the order of their reading, before any memory is asked for,
/// - `Unknown` of the top table,
/// - the first fault of its sections, links, balise groups and routes, entry by entry: `Missing`, `Wrong`, `Range` and `Runs` key by key,
///   and then `Unknown`.
///
/// `Memory` may come in place of all but the first line.
pub fn read_parts(alloc: Global, table: &Table) -> Result<Parts, OrMemory<FileFault>>
    ensures parts { AnswersAs parts_view result (parts_at toml_document (top_of (table_view table.now))) }
    ensures keys { IfErr (keys_at toml_document (top_of (table_view table.now)))
        (λ fault. result ≡ Err (Refused fault)) }
    ensures order { IfOk (keys_at toml_document (top_of (table_view table.now)))
        (λ _. AreInKeyOrder (member_list (table_view table.now))) }
{
    top_parts(alloc, FileEntry::new(FileTable::Top, 1, table))
}

/// The track that the bytes of a track file tell.
///
/// # Errors
///
/// `Refused` with the file's first fault: `Toml`, then the faults of `read_parts`, and then `Track` with the refusal of
/// `Track::new`. `Memory` may come in place of a fault, unless the bytes are no UTF-8, or are blank.
pub fn read(alloc: Global, text: &[u8]) -> Result<Track, OrMemory<FileFault>>
    ensures track { AnswersOrMemory result (track_told text.now) }
    ensures memory { result ≡ Err NoMemory → IsUtf8 text.now × ¬ IsBlank text.now }
{
    track_in(alloc, text)
}

/// Reads the text step by step: as TOML, as parts, and as a track.
#[tactic(auto, unfolding(crate::specs::Told::file_told))]
fn track_in(alloc: Global, text: &[u8]) -> Result<Track, OrMemory<FileFault>>
    ensures told { AnswersOrMemory result (file_told text.now) }
    ensures memory { result ≡ Err NoMemory → IsUtf8 text.now × ¬ IsBlank text.now }
{
    let table = parse(alloc, text)?;
    let parts = read_parts(alloc, &table)?;
    match Track::new(alloc, parts) {
        Ok(track) => Ok(track),
        Err(OrMemory::Refused(refusal)) => Err(OrMemory::Refused(FileFault::Track(refusal))),
        Err(OrMemory::Memory) => Err(OrMemory::Memory),
    }
}
