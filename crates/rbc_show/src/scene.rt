//! The scene that a record leads to.

ghost use Rattle.std.specs.Prelude.{◌≡◌, true, false, OnOk, Err};
ghost use Rattle.rbc_sessions.specs.Records.{begin_of};
ghost use Rattle.rbc_model.specs.Sessions.{WritesText};
ghost use Rattle.rbc_lines.specs.declared.scene.LinesFault.TheVariants.{Memory as NoMemory, Write as NoWrite};
ghost use Rattle.rbc_show.specs.Showing.{scene_text};

use rbc_lines::{LinesFault, print_scene};
use rbc_sessions::Record;
use rbc_streams::Sink;
use std::alloc::Global;

/// Writes the scene that a record leads to, as lines.
///
/// # Errors
///
/// `Memory` where it was refused, `Write` where the writer failed. A part of the lines was written, from the start.
pub(crate) fn print_now<W: Sink>(
    alloc: Global,
    history: &Record,
    writer: &mut W,
) -> Result<(), LinesFault>
    requires { W.failed writer.old ≡ false }
    ensures text { WritesText (W.written writer.old) (W.written writer.new)
        (scene_text (begin_of history.now) history.now.entries) result }
    ensures memory { result ≡ Err NoMemory → W.failed writer.new ≡ false }
    ensures write { result ≡ Err NoWrite → W.failed writer.new ≡ true }
    ensures going { OnOk result (W.failed writer.new ≡ false) }
{
    print_scene(alloc, history.version(), history.scene(), writer)
}
