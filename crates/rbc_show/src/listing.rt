//! A track as lines.

ghost use Rattle.std.specs.Prelude.{◌≡◌, false, [], OnOk};
ghost use Rattle.rbc_model.specs.Sessions.{Prints};
ghost use Rattle.rbc_model.specs.TrackLines.{track_lines};

use rbc_lines::print_track;
use rbc_streams::{Sink, WriteFailed};
use rbc_track::Track;

/// Writes a track as lines, and hands them on.
///
/// # Errors
///
/// `WriteFailed`, where the writer fails. Then a part of the lines was written, from their start.
pub fn list<W: Sink>(track: &Track, writer: &mut W) -> Result<(), WriteFailed>
    requires { W.failed writer.old ≡ false }
    ensures text { Prints (W.written writer.old) (W.written writer.new) (W.failed writer.new) (track_lines track.now) result }
    ensures handed_on { OnOk result (W.held_back writer.new ≡ []) }
{
    print_track(track, writer)?;
    writer.flush()
}
