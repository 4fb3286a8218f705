//! The port, and how clients are accepted.

ghost use Rattle.std.specs.Prelude.{None};

use crate::clients::Clients;
use crate::connection::Connection;
use crate::watch::Watch;
use std::alloc::Global;
use std::io::{Eprint, Error, ErrorKind, Read, Write};
use std::net::{OpenListener, OpenStream, SocketAddr};
use std::sync::Arc;
use std::sync::atomic::{AtomicUsize, Ordering};
use std::time::{Clock, Duration};
use std::{io, thread};
use thiserror::Error as ThisError;

/// How often an accept that failed is tried again for one client.
const MOST_RETRIES: u32 = 1_000;

/// How long an accept waits where descriptors are wanting, in milliseconds.
const PAUSE: u64 = 100;

/// Linux's errors of an accept that finds too many files open: in the system, and in this process.
const TOO_MANY_IN_SYSTEM: i32 = 23;

const TOO_MANY_IN_PROCESS: i32 = 24;

/// No client could be accepted.
#[derive(Clone, Copy, Debug, PartialEq, Eq, ThisError)]
#[error("no port")]
pub struct PortFailed;

/// On what terms clients are served.
#[derive(Clone, Copy, Debug, PartialEq, Eq)]
pub struct Terms {
    /// How long a client may say nothing, or take nothing, if there is a limit.
    pub patience: Option<Duration>,
    /// Whether a log tells on standard error which clients come and go.
    pub is_logged: bool,
}

/// A port that clients connect to. It is closed once it is dropped: who connects after that is refused at once.
#[derive(Drop)]
pub struct Port<N> {
    listener: N,
    patience: Option<Duration>,
    watch: Watch,
    accepted: Accepted,
}

/// How many clients were accepted.
#[derive(Drop)]
enum Accepted {
    /// At this port.
    Here(usize),
    /// At this and all others that share the number.
    Together(Arc<AtomicUsize>),
}

impl Accepted {
    // Counts a client, and gives its number, from 1 on.
    fn next(&mut self) -> usize {
        match self {
            Accepted::Here(count) => {
                *count = count.saturating_add(1);
                *count
            }
            Accepted::Together(count) => count.fetch_add(1, Ordering::SeqCst).wrapping_add(1),
        }
    }
}

/// Why an accept failed.
#[derive(Clone, Copy, Debug, PartialEq, Eq)]
enum Obstacle {
    /// The client went before it was accepted, or a signal came.
    Client,
    /// No descriptor is left.
    Descriptors,
    /// Anything else.
    Port,
}

impl<N> Port<N> {
    /// The port of this listener, whose clients are served on these terms, and are watched so.
    pub fn new(listener: N, terms: Terms, watch: Watch) -> Port<N> {
        Port {
            listener,
            patience: terms.patience,
            watch,
            accepted: Accepted::Here(0),
        }
    }

    // A port whose number of clients is shared with other ports.
    pub(crate) fn sharing(
        listener: N,
        terms: Terms,
        watch: Watch,
        accepted: Arc<AtomicUsize>,
    ) -> Port<N> {
        Port {
            listener,
            patience: terms.patience,
            watch,
            accepted: Accepted::Together(accepted),
        }
    }
}

impl<S: Read + Write + OpenStream + Drop, N: OpenListener<Stream = S>> Clients for Port<N> {
    type Each = Connection<S>;

    ghost coming = { λ _. None };

    // An accept that fails for a reason of that one client is tried again, up to 1,000 times; one that finds no
    // descriptor left waits a tenth of a second before. The port has failed where an accept fails for any other reason,
    // or for the 1,001st time.
    fn accept<T: Clock + Eprint>(
        &mut self,
        rt: &T,
        alloc: Global,
    ) -> Result<Connection<S>, PortFailed> {
        for _ in 0..=MOST_RETRIES {
            match self.try_accept() {
                Ok((stream, address)) => {
                    let number = self.accepted.next();
                    let watch = self.watch.again().map_err(|_| PortFailed)?;
                    let client = Connection::new(stream, address, number, watch);
                    client.tell_began(rt, alloc);
                    return Ok(client);
                }
                Err(Obstacle::Client) => {}
                Err(Obstacle::Descriptors) => thread::sleep(rt, Duration::from_millis(PAUSE)),
                Err(Obstacle::Port) => return Err(PortFailed),
            }
        }
        Err(PortFailed)
    }
}

impl<S: OpenStream + Drop, N: OpenListener<Stream = S>> Port<N> {
    // Waits for a client, and sets how long it is waited for later.
    fn try_accept(&self) -> Result<(S, SocketAddr), Obstacle> {
        let (stream, address) = self
            .listener
            .accept()
            .map_err(|error| met_obstacle(&error))?;
        // Small replies go out at once, where the stream can do that.
        let _ = stream.set_nodelay(true);
        if self.patience.is_some() {
            set_patience(&stream, self.patience).map_err(|_| Obstacle::Client)?;
        }
        Ok((stream, address))
    }
}

// Lets a read or a write that takes longer fail.
fn set_patience<S: OpenStream>(stream: &S, patience: Option<Duration>) -> io::Result<()> {
    stream.set_read_timeout(patience)?;
    stream.set_write_timeout(patience)
}

// What stood in the way of an accept.
fn met_obstacle(error: &Error) -> Obstacle {
    match error.raw_os_error() {
        Some(TOO_MANY_IN_SYSTEM | TOO_MANY_IN_PROCESS) => return Obstacle::Descriptors,
        _ => {}
    }
    match error.kind() {
        ErrorKind::ConnectionAborted | ErrorKind::Interrupted => Obstacle::Client,
        _ => Obstacle::Port,
    }
}
