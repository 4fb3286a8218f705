//! The viewer, with a text in it.

ghost use Rattle.std.specs.Prelude.{◌≡◌, ◌++◌, [], false, OnOk, is_err};
ghost use Rattle.std.specs.Io.KnownBytes.{Appends};
ghost use Rattle.rbc_model.specs.Sessions.{Prints};
ghost use Rattle.rbc_viewer.specs.Pages.{rest_of_page};
ghost use Rattle.rbc_viewer.specs.declared.viewer.TheConstants.{BEFORE_TEXT as TEXT_BEFORE};

use crate::escaping::write_escaped;
use crate::viewer::{BEFORE_TEXT, BEFORE_VERDICTS, BEHIND};
use rbc_streams::{Sink, WriteFailed, put};

/// Writes the page up to its text, which is to be written escaped ([`write_escaped`]).
///
/// # Errors
///
/// `WriteFailed`, where the writer fails. Then a part of it stands, from its start.
pub fn begin_page<W: Sink>(writer: &mut W) -> Result<(), WriteFailed>
    requires { W.failed writer.old ≡ false }
    ensures { Prints (W.written writer.old) (W.written writer.new) (W.failed writer.new) TEXT_BEFORE.now result }
{
    put(writer, BEFORE_TEXT)
}

/// Writes what stands behind the text, with these verdicts, and hands the page on.
///
/// # Errors
///
/// `WriteFailed`, where the writer fails.
pub fn end_page<W: Sink>(verdicts: &[u8], writer: &mut W) -> Result<(), WriteFailed>
    requires { W.failed writer.old ≡ false }
    ensures text { OnOk result (Appends (W.written writer.old) (W.written writer.new) (rest_of_page verdicts.now)) }
    ensures failed { W.failed writer.new ≡ is_err result }
    ensures handed_on { OnOk result (W.held_back writer.new ≡ []) }
{
    put(writer, BEFORE_VERDICTS)?;
    write_escaped(verdicts, writer)?;
    put(writer, BEHIND)?;
    writer.flush()
}
