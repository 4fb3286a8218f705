//! Calls that a signal interrupts are tried again, here and nowhere else.

ghost use Rattle.std.specs.Prelude.{◌≡◌, ◌≢◌, length, is_err, IfOk, IfErr, OnErr, Ok, MatchBool};
ghost use Rattle.std.specs.Io.{ReadsAtMost, WritesAtMost};
ghost use Rattle.std.specs.Io.KnownBytes.{ReadConsumes, WriteAppends, Keeps};
ghost use Rattle.std.specs.IoError.{error_kind};
ghost use Rattle.rbc_streams.specs.Calls.{noted, noted_flush};
ghost use Rattle.rbc_streams.specs.declared.retried.LastCall.TheVariants.{NoCall};

use std::io;
use std::io::{Error, ErrorKind, Read, Write};

/// How often an interrupted call is tried again, in a row.
const MOST_RETRIES: u32 = 1_000;

/// What a reader or a writer answered to its last call.
#[derive(Clone, Copy, Debug, PartialEq, Eq)]
pub enum LastCall {
    /// It was not called.
    NoCall,
    /// It gave or took bytes, or there was no room, or no byte to take.
    Bytes,
    /// It gave or took no byte, though it could have.
    NoByte,
    /// It failed.
    Fault,
}

impl LastCall {
    /// What is noted of a call that may give or take so many bytes.
    fn of(outcome: &io::Result<usize>, room: usize) -> LastCall
        ensures { result ≡ noted outcome.now room }
    {
        match outcome {
            Ok(count) if *count == 0 && room > 0 => LastCall::NoByte,
            Ok(_) => LastCall::Bytes,
            Err(_) => LastCall::Fault,
        }
    }
}

/// A reader or a writer whose interrupted calls are tried again, at most 1,000 times in a row. What it answered to its last
/// call is noted: so each fault, and each end of an input, is told of a call that answered so.
///
/// After 1,000 times the call fails, and does not say that it was interrupted: so a buffer above it stops there too.
#[derive(Drop)]
pub struct Retried<T> {
    inner: T,
    last: LastCall,
}

impl<T> Retried<T> {
    /// Over this reader or writer.
    pub fn new(inner: T) -> Retried<T>
        ensures inner { result.inner ≡ inner }
        ensures not_called { result.last ≡ NoCall }
    {
        Retried {
            inner,
            last: LastCall::NoCall,
        }
    }

    /// The reader or writer back.
    pub fn into_inner(self) -> T
        ensures { result ≡ self.inner }
    {
        self.inner
    }
}

impl<T: Read> Retried<T> {
    // Calls the reader once, and notes what it answers.
    fn read_once(&mut self, buf: &mut [u8]) -> io::Result<usize>
        ensures bound { ReadsAtMost result buf.new }
        ensures bytes { ReadConsumes (T.remaining self.old.inner) (T.remaining self.new.inner) result buf.new }
        ensures noted { self.new.last ≡ noted result (length buf.new) }
    {
        let outcome = self.inner.read(buf);
        self.last = LastCall::of(&outcome, buf.len());
        outcome
    }
}

impl<T: Read> Read for Retried<T> {
    ghost remaining = { λ retried. T.remaining retried.inner };

    fn read(&mut self, buf: &mut [u8]) -> io::Result<usize>
        ensures bound { ReadsAtMost result buf.new }
        ensures bytes { ReadConsumes (T.remaining self.old.inner) (T.remaining self.new.inner) result buf.new }
        ensures retried { IfErr result (λ error. error_kind error ≢ ErrorKind.Interrupted) }
        // What is answered is what the reader answered last. Only an interruption is told as another fault.
        ensures answered { self.new.last ≡ noted result (length buf.new) }
    {
        for _ in 0..MOST_RETRIES {
            match self.read_once(buf) {
                Err(error) if is_interrupted(&error) => {}
                outcome => return outcome,
            }
        }
        given_up(self.read_once(buf))
    }
}

impl<T: Write> Retried<T> {
    // Calls the writer once, and notes what it answers.
    fn write_once(&mut self, buf: &[u8]) -> io::Result<usize>
        ensures bound { WritesAtMost result buf.now }
        ensures bytes { WriteAppends (T.contents self.old.inner) (T.contents self.new.inner) result buf.now }
        ensures noted { self.new.last ≡ noted result (length buf.now) }
    {
        let outcome = self.inner.write(buf);
        self.last = LastCall::of(&outcome, buf.len());
        outcome
    }

    // Has the writer hand on once what it holds, and notes what it answers. It takes no byte.
    fn flush_once(&mut self) -> io::Result<()>
        ensures bytes { Keeps (T.contents self.old.inner) (T.contents self.new.inner) }
        ensures noted { self.new.last ≡ noted_flush result }
    {
        let outcome = self.inner.flush();
        self.last = match &outcome {
            Ok(()) => LastCall::Bytes,
            Err(_) => LastCall::Fault,
        };
        outcome
    }
}

impl<T: Write> Write for Retried<T> {
    ghost contents = { λ retried. T.contents retried.inner };

    fn write(&mut self, buf: &[u8]) -> io::Result<usize>
        ensures bound { WritesAtMost result buf.now }
        ensures bytes { WriteAppends (T.contents self.old.inner) (T.contents self.new.inner) result buf.now }
        ensures retried { IfErr result (λ error. error_kind error ≢ ErrorKind.Interrupted) }
        ensures answered { self.new.last ≡ noted result (length buf.now) }
    {
        for _ in 0..MOST_RETRIES {
            match self.write_once(buf) {
                Err(error) if is_interrupted(&error) => {}
                outcome => return outcome,
            }
        }
        given_up(self.write_once(buf))
    }

    fn flush(&mut self) -> io::Result<()>
        ensures bytes { Keeps (T.contents self.old.inner) (T.contents self.new.inner) }
        ensures retried { IfErr result (λ error. error_kind error ≢ ErrorKind.Interrupted) }
        ensures answered { self.new.last ≡ noted_flush result }
    {
        for _ in 0..MOST_RETRIES {
            match self.flush_once() {
                Err(error) if is_interrupted(&error) => {}
                outcome => return outcome,
            }
        }
        given_up(self.flush_once())
    }
}

fn is_interrupted(error: &Error) -> bool
    ensures { MatchBool result (error_kind error.now ≡ ErrorKind.Interrupted)
        (error_kind error.now ≢ ErrorKind.Interrupted) }
{
    error.kind() == ErrorKind::Interrupted
}

/// What the last try answered. It is not tried again: an interruption is told as another fault.
fn given_up<V>(outcome: io::Result<V>) -> io::Result<V>
    ensures ok { IfOk outcome (λ value. result ≡ Ok value) }
    ensures err { OnErr outcome (IfErr result (λ error. error_kind error ≢ ErrorKind.Interrupted)) }
    ensures is_err { is_err result ≡ is_err outcome }
{
    match outcome {
        Err(error) if is_interrupted(&error) => Err(Error::from(ErrorKind::TimedOut)),
        outcome => outcome,
    }
}
