//! Where bytes are read from and written to.

ghost use Rattle.std.specs.Prelude.{◌≡◌, ◌≤◌, ◌<◌, ℕ, List, [], Bool, false, Option, IfOk, OnOk, length, is_err};
ghost use Rattle.std.specs.Io.KnownBytes.{ReadConsumes, WriteAppends, Keeps};
ghost use Rattle.rbc_model.specs.Sessions.{Prints};
ghost use Rattle.rbc_streams.specs.Calls.{finds_end};
ghost use Rattle.rbc_streams.specs.Emitting.{Emits};
ghost use Rattle.rbc_model.specs.declared.sessions.SessionFault.TheVariants.{Read as ReadFault, Write as WriteFault};

use rbc_model::SessionFault;
use thiserror::Error;

/// The reader failed.
#[derive(Clone, Copy, Debug, PartialEq, Eq, Error)]
#[error("read fault")]
pub struct ReadFailed;

impl From<ReadFailed> for SessionFault {
    ghost from_gives = { λ _ fault. fault ≡ ReadFault };

    fn from(_failed: ReadFailed) -> SessionFault {
        SessionFault::Read
    }
}

/// The writer failed.
#[derive(Clone, Copy, Debug, PartialEq, Eq, Error)]
#[error("write fault")]
pub struct WriteFailed;

impl From<WriteFailed> for SessionFault {
    ghost from_gives = { λ _ fault. fault ≡ WriteFault };

    fn from(_failed: WriteFailed) -> SessionFault {
        SessionFault::Write
    }
}

/// Where bytes are read from. A read that fails sets `failed`, and nothing else does. Nothing is read after that. A read
/// that gives no byte, though there is room for one, sets `ended`, and nothing else does: any other takes it back.
pub trait Source {
    /// The bytes that are left to read, where they are known.
    ghost left: { Self → Option (List ℕ) };

    /// Whether a read has failed.
    ghost failed: { Self → Bool };

    /// Whether the last read found the end: it gave no byte, though there was room for one.
    ghost ended: { Self → Bool };

    /// Reads some bytes into the front of the buffer, and answers how many. It gives none only at the end, or for an
    /// empty buffer.
    fn read(&mut self, buffer: &mut [u8]) -> Result<usize, ReadFailed>
        requires { failed self.old ≡ false }
        ensures bound { IfOk result (λ count. count ≤ length buffer.new) }
        ensures bytes { ReadConsumes (left self.old) (left self.new) result buffer.new }
        ensures failed { failed self.new ≡ is_err result }
        ensures ended { ended self.new ≡ finds_end result (length buffer.new) };
}

/// Where bytes are written to. A write or a flush that fails sets `failed`, and nothing else does. Nothing is written
/// after that.
pub trait Sink {
    /// The bytes that were written, where they are known.
    ghost written: { Self → Option (List ℕ) };

    /// The last of the bytes written: a buffer still holds them back from whoever reads.
    ghost held_back: { Self → List ℕ };

    /// Whether a write or a flush has failed.
    ghost failed: { Self → Bool };

    /// Writes some bytes from the front of these, and answers how many: at least one, if there is one.
    fn write(&mut self, bytes: &[u8]) -> Result<usize, WriteFailed>
        requires { failed self.old ≡ false }
        ensures bound { IfOk result (λ count. count ≤ length bytes.now) }
        ensures some { IfOk result (λ count. 0 < length bytes.now → 0 < count) }
        ensures bytes { WriteAppends (written self.old) (written self.new) result bytes.now }
        ensures failed { failed self.new ≡ is_err result };

    /// Hands on what was written so far to whoever reads it.
    fn flush(&mut self) -> Result<(), WriteFailed>
        requires { failed self.old ≡ false }
        ensures bytes { Keeps (written self.old) (written self.new) }
        ensures handed_on { OnOk result (held_back self.new ≡ []) }
        ensures failed { failed self.new ≡ is_err result };

    /// Whether a write or a flush has failed.
    fn has_failed(&self) -> bool
        ensures { result ≡ failed self.now };
}

/// Writes all of these bytes, in as many pieces as the writer takes.
///
/// # Errors
/// The writer failed. It took a part of the bytes then, from their start.
pub fn put<W: Sink>(writer: &mut W, bytes: &[u8]) -> Result<(), WriteFailed>
    requires { W.failed writer.old ≡ false }
    ensures { Prints (W.written writer.old) (W.written writer.new) (W.failed writer.new) bytes.now result }
{
    let mut count = 0;
    while count < bytes.len() {
        count += writer.write(&bytes[count..])?;
    }
    Ok(())
}

/// Writes all of these bytes, if no write has failed yet; else nothing. The fault is kept: [`outcome`] tells it.
pub fn emit<W: Sink>(writer: &mut W, bytes: &[u8])
    ensures { Emits W.written W.failed writer.old writer.new bytes.now }
{
    if writer.has_failed() {
        return;
    }
    let _told_later = put(writer, bytes);
}

/// What came of all that was emitted since a moment at which the writer had not failed: the texts are written, or a part of them,
/// from their start.
///
/// # Errors
/// A write failed.
pub fn outcome<W: Sink>(writer: &W) -> Result<(), WriteFailed>
    ensures failed { W.failed writer.now ≡ is_err result }
    ensures printed { (before : W) (text : List ℕ) → W.failed before ≡ false → Emits W.written W.failed before writer.now text
        → Prints (W.written before) (W.written writer.now) (W.failed writer.now) text result }
{
    if writer.has_failed() {
        return Err(WriteFailed);
    }
    Ok(())
}
