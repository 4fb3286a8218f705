//! The end of a centre that stays up until it is asked to end.

use std::io;
use std::net::{Shutdown, TcpListener, TcpStream};
use std::os::fd::OwnedFd;
use std::sync::{OnceLock, Wait};
use std::time::{Clock, Duration, Instant};

/// The end of a centre that stays up, which any thread may ask for.
pub trait Closing {
    /// Whether it was asked for.
    fn is_asked(&self) -> bool;

    /// Asks for it: who waits for a client is woken, no client is accepted any more, and of those that are served no more is
    /// read than what has come.
    fn ask<R: Wait + Clock>(&self, rt: &R);
}

/// The end of the port of a listener.
#[derive(Drop)]
pub struct PortEnd {
    listener: TcpListener,
    // The listener's socket. To shut it down wakes all that accept at it.
    socket: TcpStream,
    // When the end was asked for, as far as there was a clock.
    asked: OnceLock<Option<Instant>>,
}

impl PortEnd {
    /// The end of the port of this listener, which was not asked for.
    ///
    /// # Errors
    /// No descriptor is left.
    pub fn new(listener: TcpListener) -> io::Result<PortEnd> {
        let socket = TcpStream::from(OwnedFd::from(listener.try_clone()?));
        Ok(PortEnd {
            listener,
            socket,
            asked: OnceLock::new(),
        })
    }

    /// A handle of its own on the socket.
    pub(crate) fn listener(&self) -> io::Result<TcpListener> {
        self.listener.try_clone()
    }

    /// Whether it was asked for so long ago, or at a time that is not known.
    pub(crate) fn is_past(&self, rt: &impl Clock, time: Duration) -> bool {
        match self.asked.get() {
            None => false,
            Some(None) => true,
            Some(Some(asked)) => match asked.elapsed(rt) {
                Ok(passed) => passed >= time,
                Err(_) => true,
            },
        }
    }
}

impl Closing for PortEnd {
    fn is_asked(&self) -> bool {
        self.asked.get().is_some()
    }

    fn ask<R: Wait + Clock>(&self, rt: &R) {
        let _ = self.asked.set(rt, Instant::now(rt).ok());
        let _ = self.socket.shutdown(Shutdown::Both);
    }
}
