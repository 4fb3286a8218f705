//! The log on standard error: a line for each client that comes, for each that goes, and for each minute.

use rbc_model::SessionFault;
use std::alloc::{AllocError, Global};
use std::fmt;
use std::fmt::Display;
use std::io::Eprint;
use std::net::SocketAddr;
use std::time::{Clock, Duration, Instant};

/// A log, or none. Its lines tell the seconds since the port was opened.
#[derive(Clone, Copy, Debug)]
pub(crate) struct Log {
    opened: Option<Instant>,
    is_kept: bool,
}

/// Why a client goes.
#[derive(Clone, Copy, Debug, PartialEq, Eq)]
pub(crate) enum Parting {
    /// Its input ended.
    End,
    /// It said nothing, or took nothing, for as long as it was waited for.
    Patience,
    /// Its input ended within a line.
    WithinALine,
    /// Its session ended with this fault.
    Fault(SessionFault),
}

impl Display for Parting {
    fn fmt<W: fmt::Write>(&self, f: &mut fmt::Formatter<W>) -> fmt::Result {
        match self {
            Parting::End => f.write_str("end of input"),
            Parting::Patience => f.write_str("out of patience"),
            Parting::WithinALine => f.write_str("end of input within a line"),
            Parting::Fault(fault) => fault.fmt(f),
        }
    }
}

/// A client as the log names it.
#[derive(Clone, Copy, Debug)]
pub(crate) struct Caller {
    /// The number of its connection.
    pub(crate) number: usize,
    /// Where it calls from.
    pub(crate) address: SocketAddr,
}

impl Display for Caller {
    fn fmt<W: fmt::Write>(&self, f: &mut fmt::Formatter<W>) -> fmt::Result {
        write!(f, "connection {} from {}", self.number, self.address)
    }
}

/// What the log tells of a client.
#[derive(Clone, Copy, Debug)]
pub(crate) enum News {
    /// It began.
    Began(Caller),
    /// It ended after this number of lines.
    Ended(Caller, u64, Parting),
}

impl Display for News {
    fn fmt<W: fmt::Write>(&self, f: &mut fmt::Formatter<W>) -> fmt::Result {
        match self {
            News::Began(caller) => write!(f, "{caller} began"),
            News::Ended(caller, lines, parting) => {
                write!(f, "{caller} ended after line {lines}: {parting}")
            }
        }
    }
}

impl Log {
    /// A log from now on, if one is wanted.
    pub(crate) fn new(rt: &impl Clock, is_kept: bool) -> Log {
        Log {
            opened: Instant::now(rt).ok(),
            is_kept,
        }
    }

    /// Whether it is kept.
    pub(crate) fn is_kept(self) -> bool {
        self.is_kept
    }

    /// Tells this.
    pub(crate) fn tell(self, rt: &(impl Clock + Eprint), alloc: Global, news: &impl Display) {
        if self.is_kept {
            let (seconds, millis) = self.time(rt);
            print(rt, format!(in alloc; "{seconds}.{millis:03} s: {news}\n"));
        }
    }

    // The seconds since the port was opened, and the milliseconds beside them.
    fn time(self, rt: &impl Clock) -> (u64, u32) {
        let passed = match self.opened {
            Some(opened) => opened.elapsed(rt).unwrap_or(Duration::ZERO),
            None => Duration::ZERO,
        };
        (passed.as_secs(), passed.subsec_millis())
    }
}

// Prints a whole line at once, if it could be made. There is nobody to tell where that fails.
fn print(rt: &impl Eprint, line: Result<String, AllocError>) {
    if let Ok(line) = line {
        let _ = rt.eprint(line.as_str());
    }
}
