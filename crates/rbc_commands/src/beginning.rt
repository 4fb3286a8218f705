//! What a centre begins with: no trains and no locks, or the scene that a file or its journal tells.

ghost use Rattle.std.specs.Prelude.{◌≡◌, [], IfOk};
ghost use Rattle.std.specs.Arc.{arc_value};
ghost use Rattle.rbc_journal.specs.Beginnings.{beginning_of, joined};
ghost use Rattle.rbc_journal.specs.Gates.{counted};
ghost use Rattle.rbc_show.specs.Records.{begin_of};
ghost use Rattle.rbc_show.specs.Retelling.{IsRetold};
ghost use Rattle.rbc_commands.specs.Beginnings.{Begins};

use crate::failure::Failure;
use crate::journal_fault::JournalFault;
use crate::reason::Reason;
use rbc_journal::beginning_in;
use rbc_model::limits::LONGEST_FILE;
use rbc_model::{Memory, OrMemory};
use rbc_page::scene_text;
use rbc_scene_reading::{FaultyLine, Scene, SceneFault, explain, read};
use rbc_show::list;
use rbc_show::sessions::{EntryLimit, Record};
use rbc_streams::{Stream, Text, WholeFault, read_whole};
use rbc_trackfile::Track;
use std::alloc::Global;
use std::fmt::Display;
use std::fs;
use std::fs::Files;
use std::sync::Arc;
use thiserror::Error;

/// How the lines of a track begin, which may stand before the lines of the scene.
const TRACK: &[u8] = b"track ";

/// Why a centre can't begin with what a file tells.
#[derive(Clone, Copy, Debug, PartialEq, Eq, Error)]
pub enum BeginFault {
    /// The file can't be read.
    #[error("scene: Unreadable")]
    Unreadable,
    /// Before the scene it has the lines of another track.
    #[error("scene: OtherTrack")]
    OtherTrack,
    /// The line of this number, counted from 1, can't stand where it stands.
    #[error("scene: line {0}: {1}")]
    Line(u64, SceneFault),
}

/// The record that a centre begins with, and the version of the scene that it begins with, if a file told that.
#[derive(Drop)]
pub(crate) struct Begun {
    pub(crate) record: Record,
    pub(crate) scene: Option<u64>,
}

/// The scene that a file tells, on its own or behind the lines of its track.
#[derive(Clone, Copy)]
struct SceneText<'a> {
    lines: &'a [u8],
    /// How many lines stand before it.
    before: u64,
}

/// A record in which nothing was told yet. It begins with the scene that the file of this path tells, if one is named.
///
/// # Errors
///
/// `Begin`, where the file can't be read, or tells no scene of the track; `Memory`.
pub(crate) fn begin(
    rt: &(impl Files + AllocGlobal),
    track: Arc<Track>,
    from: Option<&str>,
    most: EntryLimit,
) -> Result<Begun, Failure>
    ensures none { IfOk result (λ begun. begun.record.entries ≡ []) }
    ensures retold { IfOk result (λ begun. IsRetold (begin_of begun.record) begun.record.entries) }
{
    let alloc = rt.alloc();
    let Some(path) = from else {
        let record = Record::with_limit(alloc, track, most)?;
        return Ok(Begun {
            record,
            scene: None,
        });
    };
    let (version, scene) = scene_at(rt, &track, path)?;
    Ok(Begun {
        record: Record::from(alloc, scene, most)?,
        scene: Some(version),
    })
}

/// The record that begins as the text of a journal says, in which nothing was told yet.
///
/// # Errors
///
/// `Journal`, where what the journal begins with is no scene of the track; `Memory`.
pub(crate) fn begin_in(
    alloc: Global,
    track: Arc<Track>,
    text: &[u8],
    most: EntryLimit,
) -> Result<Begun, Failure>
    ensures none { IfOk result (λ begun. begun.record.entries ≡ []) }
    ensures retold { IfOk result (λ begun. IsRetold (begin_of begun.record) begun.record.entries) }
    ensures track { IfOk result (λ begun. begun.record.track ≡ arc_value track) }
    ensures begins { IfOk result (λ begun. Begins (arc_value track) (joined (beginning_of (counted text.now))) begun.record.begin) }
{
    let lines = beginning_in(alloc, text)?;
    if lines.is_empty() {
        let record = Record::with_limit(alloc, track, most)?;
        return Ok(Begun {
            record,
            scene: None,
        });
    }
    match read(alloc, track, lines.as_slice()) {
        Ok((version, scene)) => Ok(Begun {
            record: Record::from(alloc, scene, most)?,
            scene: Some(version),
        }),
        Err(OrMemory::Memory) => Err(Failure::Memory),
        Err(OrMemory::Refused(faulty)) => Err(JournalFault::Beginning(
            faulty.line,
            faulty.fault,
        ).into()),
    }
}

/// The lines of the scene that the file of this path tells, if one is named, as a centre writes them.
///
/// # Errors
///
/// `Begin`, where the file can't be read, or tells no scene of the track; `Memory`.
pub(crate) fn lines_at(
    rt: &(impl Files + AllocGlobal),
    track: &Arc<Track>,
    from: Option<&str>,
) -> Result<Vec<u8>, Failure> {
    let alloc = rt.alloc();
    let Some(path) = from else {
        return Ok(Vec::new(alloc));
    };
    let (version, scene) = scene_at(rt, track, path)?;
    Ok(scene_text(alloc, version, &scene)?)
}

/// The scene that the file of this path tells, and its version.
///
/// # Errors
///
/// `Begin`, where the file can't be read, or tells no scene of the track; `Memory`.
fn scene_at(
    rt: &(impl Files + AllocGlobal),
    track: &Arc<Track>,
    path: &str,
) -> Result<(u64, Scene), Failure> {
    let alloc = rt.alloc();
    let bytes = bytes_of(rt, path)?;
    let Some(text) = scene_in(alloc, track, bytes.as_slice())? else {
        return Err(Failure::Begin(BeginFault::OtherTrack, Reason::none()));
    };
    let shared = Arc::try_clone(track).map_err(Memory::from)?;
    match read(alloc, shared, text.lines) {
        Ok(told) => Ok(told),
        Err(OrMemory::Memory) => Err(Failure::Memory),
        Err(OrMemory::Refused(faulty)) => Err(refused(alloc, path, track, faulty, text.before)),
    }
}

/// The bytes of a file.
///
/// # Errors
///
/// `Begin`, where it can't be read; `Memory`.
fn bytes_of(rt: &(impl Files + AllocGlobal), path: &str) -> Result<Vec<u8>, Failure> {
    let alloc = rt.alloc();
    let file = match fs::open(rt, path) {
        Ok(file) => file,
        Err(error) => return Err(unreadable(alloc, path, &error)),
    };
    match read_whole(alloc, &mut Stream::reader(file), LONGEST_FILE) {
        Ok(bytes) => Ok(bytes),
        Err(WholeFault::Read) => Err(unreadable(alloc, path, &"a read failed")),
        Err(WholeFault::TooLong) => Err(unreadable(alloc, path, &"more than 16777216 bytes")),
        Err(WholeFault::Memory) => Err(Failure::Memory),
    }
}

/// The file of this path can't be read, and this is said of it.
fn unreadable<D: Display>(alloc: Global, path: &str, said: &D) -> Failure {
    Failure::Begin(BeginFault::Unreadable, Reason::of_file(alloc, path, said))
}

/// The lines of the scene in a text, unless lines of another track stand before them.
///
/// # Errors
///
/// `Memory`, where there is none for the lines of the track.
fn scene_in<'a>(
    alloc: Global,
    track: &Track,
    text: &'a [u8],
) -> Result<Option<SceneText<'a>>, Failure> {
    if !text.starts_with(TRACK) {
        return Ok(Some(SceneText {
            lines: text,
            before: 0,
        }));
    }
    let mut of_track = Text::new(alloc);
    if list(track, &mut of_track).is_err() {
        return Err(Failure::Memory);
    }
    let of_track = of_track.bytes.as_slice();
    if !text.starts_with(of_track) {
        return Ok(None);
    }
    Ok(Some(SceneText {
        lines: text.get(of_track.len()..).unwrap_or(&[]),
        before: count_lines(of_track),
    }))
}

/// How many lines end in a text.
fn count_lines(text: &[u8]) -> u64 {
    let mut count = 0_u64;
    for byte in text {
        if *byte == b'\n' {
            count = count.saturating_add(1);
        }
    }
    count
}

/// That a line of the file of this path can't stand where it stands, behind so many lines of the track.
fn refused(alloc: Global, path: &str, track: &Track, faulty: FaultyLine, before: u64) -> Failure {
    let line = before.saturating_add(faulty.line);
    let reason = match explain(alloc, track, faulty.fault) {
        Ok(Some(text)) => Reason::of_file(alloc, path, &text.as_str()),
        Ok(None) | Err(_) => Reason::none(),
    };
    Failure::Begin(BeginFault::Line(line, faulty.fault), reason)
}
