//! The report of a track.

ghost use Rattle.std.specs.Prelude.{◌≡◌, [], false, flat_map, OnOk};
ghost use Rattle.rbc_model.specs.Sessions.{Prints};
ghost use Rattle.rbc_streams.specs.Emitting.{Emits};
ghost use Rattle.rbc_track_report.specs.Report.{each_text, unused_text, unpassed_text, ends_text, entry_text, both_text, warnings, report};

use crate::counts::emit_counts;
use crate::warnings::{emit_both, emit_ends, emit_entry, emit_unpassed, emit_unused};
use rbc_streams::{Sink, WriteFailed, outcome};
use rbc_track::Track;

/// Writes what a track has: a line of counts, and a line for each place where it may be other than was meant, and hands it on.
/// It takes no memory.
///
/// # Errors
///
/// `WriteFailed`, where the writer fails. Then a part of the text stands, from its start.
pub fn report<W: Sink>(track: &Track, writer: &mut W) -> Result<(), WriteFailed>
    requires { W.failed writer.old ≡ false }
    ensures text { Prints (W.written writer.old) (W.written writer.new) (W.failed writer.new)
        (report track.now) result }
    ensures handed_on { OnOk result (W.held_back writer.new ≡ []) }
{
    emit_report(track, writer);
    outcome(writer)?;
    writer.flush()
}

/// Writes it.
fn emit_report<W: Sink>(track: &Track, writer: &mut W)
    ensures { Emits W.written W.failed writer.old writer.new
        (report track.now) }
{
    emit_counts(track, writer);
    emit_all_unused(track, writer);
    emit_all_unpassed(track, writer);
    emit_all_ends(track, writer);
    emit_all_entries(track, writer);
    emit_all_both(track, writer);
}

/// Tells of the sections that no route has.
fn emit_all_unused<W: Sink>(track: &Track, writer: &mut W)
    ensures { Emits W.written W.failed writer.old writer.new
        (each_text (unused_text track.now) 0 track.now.sections) }
{
    let sections = track.sections();
    for (number, section) in sections.iter().enumerate() {
        emit_unused(track, number, section, writer);
    }
}

/// Tells of the balise groups that no route passes.
fn emit_all_unpassed<W: Sink>(track: &Track, writer: &mut W)
    ensures { Emits W.written W.failed writer.old writer.new
        (flat_map (unpassed_text track.now) track.now.groups) }
{
    let groups = track.groups();
    for group in groups {
        emit_unpassed(track, group, writer);
    }
}

/// Tells of the ends of sections from which no link leads.
fn emit_all_ends<W: Sink>(track: &Track, writer: &mut W)
    ensures { Emits W.written W.failed writer.old writer.new
        (each_text (ends_text track.now) 0 track.now.sections) }
{
    let sections = track.sections();
    for (number, section) in sections.iter().enumerate() {
        emit_ends(track, number, section, writer);
    }
}

/// Tells of the routes that are entered from where no other route ends.
fn emit_all_entries<W: Sink>(track: &Track, writer: &mut W)
    ensures { Emits W.written W.failed writer.old writer.new
        (flat_map (entry_text track.now) track.now.routes) }
{
    let routes = track.routes();
    for route in routes {
        emit_entry(track, route, writer);
    }
}

/// Tells of the sections that two routes lock in both directions.
fn emit_all_both<W: Sink>(track: &Track, writer: &mut W)
    ensures { Emits W.written W.failed writer.old writer.new
        (each_text (both_text track.now) 0 track.now.sections) }
{
    let sections = track.sections();
    for (number, section) in sections.iter().enumerate() {
        emit_both(track, number, section, writer);
    }
}
