//! The standard output, whose reader may want no more.

ghost use Rattle.std.specs.Prelude.{◌≡◌, false, [], Err, IfOk, OnOk};
ghost use Rattle.std.specs.Io.Buffered.{writer_buffer, writer_inner};
ghost use Rattle.std.specs.declared.io.Error.{Error};
ghost use Rattle.rbc_commands.specs.Statuses.{end_of, is_reader_gone};

use crate::failure::Failure;
use rbc_duty::server::ServeFault;
use rbc_model::Memory;
use rbc_streams::{Buffered, SessionFault, Stream};
use std::alloc::Global;
use std::io::{self, ErrorKind, Printer, Write};

/// A writer that notes whether its reader has gone, as that of `rbc steps | head -1` has after a line.
#[derive(Drop)]
pub(crate) struct Output<W> {
    writer: W,
    is_unread: bool,
}

/// The standard output, behind a buffer.
pub(crate) type StandardOutput<'a, P> = Stream<Buffered<Output<Printer<'a, P>>>>;

/// The standard output.
///
/// # Errors
///
/// `Memory`, where there is none for the buffer.
pub(crate) fn standard_output<P: Print + AllocGlobal>(
    rt: &P,
) -> Result<StandardOutput<'_, P>, Memory>
    ensures failed { IfOk result (λ output. output.inner.failed ≡ false) }
    ensures none_held_back { IfOk result (λ output. writer_buffer output.inner.writer ≡ []) }
{
    output_to(rt.alloc(), io::writer(rt))
}

/// The output to this writer, behind a buffer.
///
/// # Errors
///
/// `Memory`, where there is none for the buffer.
pub(crate) fn output_to<W: Write + Drop>(
    alloc: Global,
    writer: W,
) -> Result<Stream<Buffered<Output<W>>>, Memory>
    ensures writer { IfOk result (λ output. (writer_inner output.inner.writer).inner.writer ≡ writer) }
    ensures failed { IfOk result (λ output. output.inner.failed ≡ false) }
    ensures none_held_back { IfOk result (λ output. writer_buffer output.inner.writer ≡ []) }
{
    let writer = Output {
        writer,
        is_unread: false,
    };
    Stream::writer(alloc, writer)
}

impl<W> Output<W> {
    /// Notes of an answer of the writer whether its reader has gone.
    fn note<V>(&mut self, answer: &io::Result<V>)
        ensures writer { self.new.writer ≡ self.old.writer }
        ensures written { OnOk answer.now (self.new.is_unread ≡ self.old.is_unread) }
        ensures unwritten { (error : Error) → answer.now ≡ Err error → self.new.is_unread ≡ is_reader_gone error }
    {
        if let Err(error) = answer {
            self.is_unread = is_reader_gone(error);
        }
    }
}

impl<W: Write> Write for Output<W> {
    ghost contents = { λ output. W.contents output.writer };

    fn write(&mut self, buf: &[u8]) -> io::Result<usize> {
        let answer = self.writer.write(buf);
        self.note(&answer);
        answer
    }

    fn flush(&mut self) -> io::Result<()> {
        let answer = self.writer.flush();
        self.note(&answer);
        answer
    }
}

/// Whether a write failed since its reader has gone.
pub(crate) fn is_reader_gone(error: &io::Error) -> bool
    ensures { result ≡ is_reader_gone error.now }
{
    matches!(error.kind(), ErrorKind::BrokenPipe)
}

/// How a command ended. That the output can't be written is no fault where its reader has gone: nobody wants the rest.
pub(crate) fn ended<W: Write + Drop>(
    output: Stream<Buffered<Output<W>>>,
    outcome: Result<(), Failure>,
) -> Result<(), Failure>
    ensures { result ≡ end_of outcome (writer_inner output.inner.writer).inner.is_unread }
{
    let is_fault = matches!(
        &outcome,
        Err(Failure::Session(SessionFault::Write) | Failure::Serve(ServeFault::Write))
    );
    if is_fault && output.into_writer().is_unread {
        return Ok(());
    }
    outcome
}
