//! The lines of a scene.

ghost use Rattle.std.specs.Prelude.{◌≡◌, ◌<◌, ◌∷◌, ◌++◌, [], false, true, length, map, flat_map, option_map, Err, IfSome, OnOk};
ghost use Rattle.rbc_model.specs.HistoryText.{route_word};
ghost use Rattle.rbc_model.specs.SceneLines.{locked_line, locked_lines, row_lines, scene_lines, train_lines};
ghost use Rattle.rbc_model.specs.Rows.{leg_or_none, rows_text};
ghost use Rattle.rbc_model.specs.Sessions.{WritesText};
ghost use Rattle.rbc_model.specs.TrackLines.{named_leg};
ghost use Rattle.rbc_model.specs.Words.{line_of};
ghost use Rattle.rbc_streams.specs.Emitting.{Emits};
ghost use Rattle.rbc_words.specs.LineWords.{word_text};
ghost use Rattle.rbc_scene_laws.specs.Good.{IsGoodLocks};
ghost use Rattle.rbc_lines.specs.Faults.{session_fault};
ghost use Rattle.rbc_lines.specs.Nexts.{next_of};
ghost use Rattle.rbc_lines.specs.declared.scene.LinesFault.TheVariants.{Memory as NoMemory, Write as NoWrite};

use crate::next::{Next, nexts_of};
use crate::train::emit_train;
use rbc_model::{Leg, Lock, Memory, RouteId, SectionId};
use rbc_scene::{Locks, Scene};
use rbc_streams::{SessionFault, Sink, WriteFailed, emit, outcome};
use rbc_track::Track;
use rbc_words::{Word, emit_line, leg_word};
use std::alloc::Global;

/// Why a scene is not written to its end.
#[derive(Clone, Copy, Debug, PartialEq, Eq)]
pub enum LinesFault {
    /// Memory was refused. Nothing was written.
    Memory,
    /// The writer failed.
    Write,
}

impl From<Memory> for LinesFault {
    ghost from_gives = { λ _ fault. fault ≡ NoMemory };

    fn from(_refused: Memory) -> LinesFault {
        LinesFault::Memory
    }
}

impl From<LinesFault> for SessionFault {
    ghost from_gives = { λ refused fault. fault ≡ session_fault refused };

    fn from(fault: LinesFault) -> SessionFault {
        match fault {
            LinesFault::Memory => SessionFault::Memory,
            LinesFault::Write => SessionFault::Write,
        }
    }
}

impl From<WriteFailed> for LinesFault {
    ghost from_gives = { λ _ fault. fault ≡ NoWrite };

    fn from(_failed: WriteFailed) -> LinesFault {
        LinesFault::Write
    }
}

/// The name of a route as a word; nothing, where the track has no such route.
fn route_word<'line>(track: &Track, route: RouteId) -> Word<'line>
    ensures { word_text result ≡ route_word track.now route }
{
    if route.index() < track.route_count() {
        Word::Name(track.route_at(route).name())
    } else {
        Word::Text(b"")
    }
}

/// A leg that may be absent, as a word.
fn leg_or_none<'line>(track: &Track, leg: Option<Leg>) -> Word<'line>
    requires { IfSome leg (λ leg. leg.section < length track.now.sections) }
    ensures { word_text result ≡ leg_or_none (option_map (named_leg track.now) leg) }
{
    match leg {
        Some(leg) => leg_word(track, leg),
        None => Word::Text(b"-"),
    }
}

/// Writes a locked section.
fn emit_locked<W: Sink>(track: &Track, section: SectionId, lock: &Lock, writer: &mut W)
    requires section { section < length track.now.sections }
    requires before { IfSome lock.now.before (λ leg. leg.section < length track.now.sections) }
    ensures { Emits W.written W.failed writer.old writer.new
        (line_of (locked_line track.now section lock.now)) }
{
    let leg = Leg {
        section,
        direction: lock.direction,
    };
    let words = [
        leg_word(track, leg),
        route_word(track, lock.route),
        leg_or_none(track, lock.before),
    ];
    emit_line(b"locked", &words, writer);
}

/// Writes the row of a section, if it has one.
fn emit_row<W: Sink>(track: &Track, section: SectionId, row: Option<Lock>, writer: &mut W)
    requires section { section < length track.now.sections }
    requires before { IfSome row (λ lock. IfSome lock.before (λ leg. leg.section < length track.now.sections)) }
    ensures { Emits W.written W.failed writer.old writer.new
        (rows_text (row_lines track.now section row)) }
{
    match row {
        Some(lock) => emit_locked(track, section, &lock, writer),
        None => {}
    }
}

/// Writes the locked sections in the order of the track.
fn emit_locks<W: Sink>(track: &Track, locks: &Locks, writer: &mut W)
    requires good { IsGoodLocks track.now locks.now }
    ensures { Emits W.written W.failed writer.old writer.new
        (rows_text (locked_lines track.now 0 locks.now)) }
{
    track.known();
    for index in 0..locks.section_count() {
        let section = SectionId::new(index);
        emit_row(track, section, locks.row(section), writer);
    }
}

/// The first of these, and those behind it.
fn first_and_rest(nexts: &[Next]) -> (&Next, &[Next])
    requires { 0 < length nexts.now }
    ensures { result.0.now ∷ result.1.now ≡ nexts.now }
{
    (&nexts[0], &nexts[1..])
}

/// Writes the trains in order of arrival, of which it is known what each would be granted now.
fn emit_trains<W: Sink>(track: &Track, scene: &Scene, nexts: &[Next], writer: &mut W)
    requires track { track.now ≡ scene.now.track }
    requires nexts { nexts.now ≡ map (next_of scene.now.track scene.now.scene) scene.now.scene.trains }
    ensures { Emits W.written W.failed writer.old writer.new
        (rows_text (flat_map (train_lines track.now scene.now.scene) scene.now.scene.trains)) }
{
    scene.known();
    let mut rest = nexts;
    for train in scene.book().trains() {
        train.known();
        let (next, more) = first_and_rest(rest);
        emit_train(track, train, next, writer);
        rest = more;
    }
}

/// Writes the lines of a scene, of which it is known what each train would be granted now.
fn emit_all<W: Sink>(track: &Track, version: u64, scene: &Scene, nexts: &[Next], writer: &mut W)
    requires track { track.now ≡ scene.now.track }
    requires nexts { nexts.now ≡ map (next_of scene.now.track scene.now.scene) scene.now.scene.trains }
    ensures { Emits W.written W.failed writer.old writer.new
        (scene_lines track.now version scene.now.scene) }
{
    scene.known();
    emit_line(b"scene", &[Word::Count(version)], writer);
    emit_locks(track, scene.locks(), writer);
    emit_trains(track, scene, nexts, writer);
    emit(writer, b"done\n");
}

/// Writes the lines of a scene: its version, the locked sections, and the trains, each with what it would be granted now. Each
/// train's way is searched once; beside the search no memory is taken but for what the trains would be granted.
///
/// # Errors
///
/// `Memory`, where it is refused: nothing was written. `Write`, where the writer fails: a part of the lines was written,
/// from their start.
pub fn print_scene<W: Sink>(
    alloc: Global,
    version: u64,
    scene: &Scene,
    writer: &mut W,
) -> Result<(), LinesFault>
    requires { W.failed writer.old ≡ false }
    ensures text { WritesText (W.written writer.old) (W.written writer.new)
        (scene_lines scene.now.track version scene.now.scene) result }

    // Without memory nothing is written. A write fault is answered exactly where the writer failed.
    ensures memory { result ≡ Err NoMemory → writer.new ≡ writer.old }
    ensures write { result ≡ Err NoWrite → W.failed writer.new ≡ true }
    ensures going { OnOk result (W.failed writer.new ≡ false) }
{
    let nexts = nexts_of(alloc, scene)?;
    emit_all(scene.track(), version, scene, nexts.as_slice(), writer);
    outcome(writer)?;
    Ok(())
}
