//! The readers and writers of the standard library as sources and sinks.

ghost use Rattle.std.specs.Prelude.{◌≡◌, false, [], IfOk};
ghost use Rattle.std.specs.Io.Buffered.{writer_contents, writer_buffer, writer_inner};
ghost use Rattle.rbc_streams.specs.Calls.{is_end, is_fault};
ghost use Rattle.rbc_streams.specs.declared.retried.LastCall.TheVariants.{NoCall};

use crate::retried::Retried;
use crate::streams::{ReadFailed, Sink, Source, WriteFailed};
use rbc_model::Memory;
use std::alloc::Global;
use std::io::{BufWriter, Read, Write};

/// A reader of the standard library as a source, or a writer, behind a buffer, as a sink.
///
/// A call that a signal interrupts is tried again, at most 1,000 times in a row. Any other error is a fault, and so is
/// a write that takes none of the bytes.
///
/// A read has failed where the reader inside failed when it was called last, and found the end where that gave no byte.
#[derive(Drop)]
pub struct Stream<T> {
    inner: T,
}

/// A writer behind a buffer, and whether a write or a flush has failed.
#[derive(Drop)]
pub struct Buffered<T: Write + Drop> {
    writer: BufWriter<Retried<T>>,
    failed: bool,
}

impl<T: Read> Stream<Retried<T>> {
    /// The bytes of this reader, with no fault yet.
    pub fn reader(reader: T) -> Stream<Retried<T>>
        ensures reader { result.inner.inner ≡ reader }
        ensures not_called { result.inner.last ≡ NoCall }
    {
        Stream {
            inner: Retried::new(reader),
        }
    }
}

impl<T: Write + Drop> Stream<Buffered<T>> {
    /// To this writer, with no fault yet.
    ///
    /// # Errors
    /// There is no memory for the buffer.
    pub fn writer(alloc: Global, writer: T) -> Result<Stream<Buffered<T>>, Memory>
        ensures writer { IfOk result (λ stream. (writer_inner stream.inner.writer).inner ≡ writer) }
        ensures none_held_back { IfOk result (λ stream. writer_buffer stream.inner.writer ≡ []) }
        ensures failed { IfOk result (λ stream. stream.inner.failed ≡ false) }
    {
        match BufWriter::new(alloc, Retried::new(writer)) {
            Ok(writer) => Ok(Stream {
                inner: Buffered {
                    writer,
                    failed: false,
                },
            }),
            Err(_) => Err(Memory),
        }
    }

    /// The writer back. What the buffer still holds is let go.
    pub fn into_writer(self) -> T
        ensures { result ≡ (writer_inner self.inner.writer).inner }
    {
        self.inner.writer.into_parts().0.into_inner()
    }
}

impl<T: Read> Source for Stream<Retried<T>> {
    ghost left = { λ stream. T.remaining stream.inner.inner };

    ghost failed = { λ stream. is_fault stream.inner.last };

    ghost ended = { λ stream. is_end stream.inner.last };

    fn read(&mut self, buffer: &mut [u8]) -> Result<usize, ReadFailed> {
        self.inner.read(buffer).map_err(|_| ReadFailed)
    }
}

impl<T: Write + Drop> Sink for Stream<Buffered<T>> {
    ghost written = { λ stream. writer_contents (λ retried. T.contents retried.inner) stream.inner.writer };

    ghost held_back = { λ stream. writer_buffer stream.inner.writer };

    ghost failed = { λ stream. stream.inner.failed };

    fn write(&mut self, bytes: &[u8]) -> Result<usize, WriteFailed> {
        match self.inner.writer.write(bytes) {
            Ok(count) if count > 0 || bytes.is_empty() => Ok(count),
            _ => {
                self.inner.failed = true;
                Err(WriteFailed)
            }
        }
    }

    fn flush(&mut self) -> Result<(), WriteFailed> {
        let flushed = self.inner.writer.flush();
        self.inner.failed = flushed.is_err();
        flushed.map_err(|_| WriteFailed)
    }

    fn has_failed(&self) -> bool {
        self.inner.failed
    }
}
