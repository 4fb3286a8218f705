//! The scene that a journal leads to, as lines, for the next journal to begin with.

ghost use Rattle.std.specs.Arc.{arc_value};
ghost use Rattle.std.specs.Prelude.{IfOk};
ghost use Rattle.rbc_journal.specs.Gates.{IsLine};
ghost use Rattle.rbc_commands.specs.Beginnings.{Closes};

use crate::beginning::begin_in;
use crate::failure::{Failure, at_place, failed_at, file_failed};
use crate::journal::readable;
use crate::journal_fault::JournalFault;
use crate::journal_report::{created, remove};
use crate::limit::limit_of;
use crate::track::{TrackFile, read_track};
use rbc_command_line::JournalClosing;
use rbc_journal::{Device, next_told};
use rbc_journal_file::{JournalPaths, open};
use rbc_model::Memory;
use rbc_page::scene_text;
use rbc_show::journaled::replay;
use rbc_trackfile::Track;
use std::alloc::Global;
use std::fs::{File, Files};
use std::sync::Arc;
use std::thread::Threads;

/// Writes the lines of the scene that a journal of a track leads to into a new file, which has to be free. The journal is only
/// read, and no centre may have it meanwhile.
///
/// # Errors
///
/// `Load`, where there is no track; `Journal`, where the file is no journal of it, another centre has it, or the new file is
/// there already or fails; `Memory`.
pub(crate) fn close_journal(
    rt: &(impl Files<File = File> + AllocGlobal + Threads + Sync),
    closing: &JournalClosing,
) -> Result<(), Failure> {
    let track = read_track(rt, closing.track)?;
    let place = JournalPaths::at(rt, closing.journal)?;
    let lines = match last_lines(rt, &place, track) {
        Ok(lines) => lines,
        Err(failure) => return Err(failed_at(failure, place)),
    };
    let place = JournalPaths::at(rt, closing.out)?;
    let written = write_new(rt, lines.as_slice(), &place);
    at_place(written, place)
}

/// The lines of the scene that the journal whose files stand at this place leads to.
fn last_lines(
    rt: &(impl Files<File = File> + AllocGlobal + Threads + Sync),
    place: &JournalPaths,
    track: TrackFile,
) -> Result<Vec<u8>, Failure>
    requires { IsLine track.digest }
{
    let alloc = rt.alloc();
    let TrackFile { track, digest } = track;
    let track = Arc::new(alloc, track).map_err(Memory::from)?;
    let found = open(rt, place)?;
    let Some(bytes) = found.bytes() else {
        return Err(JournalFault::Unreadable.into());
    };
    let read = readable(bytes, &digest)?;
    closed(rt, alloc, track, read.text)
}

/// The lines of the scene that the text of a journal leads to.
///
/// # Errors
///
/// `Journal`, where it begins with no scene of the track, or a line adds nothing; `Memory`.
fn closed(
    rt: &(impl Threads + Sync),
    alloc: Global,
    track: Arc<Track>,
    text: &[u8],
) -> Result<Vec<u8>, Failure>
    ensures { IfOk result (λ lines. Closes (arc_value track) text.now lines.items) }
{
    let most = limit_of(Some(count_told(text)));
    let mut record = begin_in(alloc, track, text, most)?.record;
    replay(rt, alloc, &mut record, text)?;
    Ok(scene_text(alloc, record.version(), record.scene())?)
}

/// How many lines a text tells, but one at least.
fn count_told(text: &[u8]) -> usize {
    let mut rest = text;
    let mut count = 0_usize;
    while let Some((_comments, _line, after)) = next_told(rest) {
        count = count.saturating_add(1);
        rest = after;
    }
    count.max(1)
}

/// Writes these lines into a new file, which is taken away again where that fails.
fn write_new(
    rt: &(impl Files<File = File> + AllocGlobal),
    lines: &[u8],
    place: &JournalPaths,
) -> Result<(), Failure> {
    let mut file = created(rt, place)?;
    if file.write_at(0, lines).is_err() || file.sync().is_err() {
        remove(rt, place);
        return Err(file_failed(&file));
    }
    Ok(())
}
