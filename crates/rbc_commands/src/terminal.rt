//! The terminal at which a centre is run, if it is run at one.

ghost use Rattle.std.specs.Prelude.{◌≡◌, false, [], IfOk};
ghost use Rattle.std.specs.Io.Buffered.{writer_buffer};

use crate::failure::Failure;
use crate::history::is_at;
use crate::output::{Output, output_to};
use rbc_hints::{Overheard, Terminal};
use rbc_model::{Memory, SectionId};
use rbc_show::sessions::Record;
use rbc_streams::{Buffered, Stream};
use rbc_trackfile::Track;
use std::fs;
use std::fs::Files;
use std::io::{self, BufRead, Eprint, IsTerminal, Printer};
use std::sync::Arc;

/// The standard output, whose replies are heard at the terminal, if there is one.
pub(crate) type HeardOutput<'a, R> = Stream<Buffered<Output<Overheard<'a, Printer<'a, R>, R>>>>;

/// The terminal, where the standard input and the standard error are one, for a session on this track.
///
/// # Errors
///
/// `Memory`, where there is none to share the track.
pub(crate) fn terminal_of<
    'a,
    I: BufRead + Drop + IsTerminal,
    R: Files + Input<Reader = I> + Eprint + AllocGlobal,
>(rt: &'a R, track: &Arc<Track>) -> Result<Option<Terminal<'a, R>>, Failure> {
    if !is_terminal(rt) {
        return Ok(None);
    }
    match Arc::try_clone(track) {
        Ok(track) => Ok(Some(Terminal::new(rt.alloc(), rt, track))),
        Err(_) => Err(Failure::Memory),
    }
}

/// Whether the standard input is a terminal, and the standard error the same one.
fn is_terminal<I: BufRead + Drop + IsTerminal>(rt: &(impl Files + Input<Reader = I>)) -> bool {
    match fs::metadata(rt, "/proc/self/fd/0") {
        Ok(input) => rt.reader().is_terminal() && is_at(rt, "/proc/self/fd/2", &input),
        Err(_) => false,
    }
}

/// The terminal, where the standard input and the standard error are one, for a session that goes on from a history, which has
/// locked sections.
///
/// # Errors
///
/// `Memory`, where there is none to share the track.
pub(crate) fn terminal_over<
    'a,
    I: BufRead + Drop + IsTerminal,
    R: Files + Input<Reader = I> + Eprint + AllocGlobal,
>(rt: &'a R, history: &Record) -> Result<Option<Terminal<'a, R>>, Failure> {
    let terminal = terminal_of(rt, history.track())?;
    if let Some(terminal) = &terminal {
        let locks = history.scene().locks();
        for index in 0..locks.section_count() {
            let section = SectionId::new(index);
            if let Some(lock) = locks.row(section) {
                terminal.add_lock(section, &lock);
            }
        }
    }
    Ok(terminal)
}

/// The standard output, which the terminal hears, if there is one.
///
/// # Errors
///
/// `Memory`, where there is none for the buffer.
pub(crate) fn heard_output<'a, R: Print + Eprint + AllocGlobal>(
    rt: &'a R,
    terminal: Option<&'a Terminal<'a, R>>,
) -> Result<HeardOutput<'a, R>, Memory>
    ensures failed { IfOk result (λ output. output.inner.failed ≡ false) }
    ensures none_held_back { IfOk result (λ output. writer_buffer output.inner.writer ≡ []) }
{
    output_to(rt.alloc(), Overheard::new(io::writer(rt), terminal))
}
