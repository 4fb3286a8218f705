//! The two ends of a stream that is read and written at once.

use std::alloc::Global;
use std::io;
use std::io::{Error, ErrorKind, Read, Write};
use std::sync::{Arc, Mutex};

/// An end of a stream: the one is read from, and the other written to. Both are in one thread, so that no call waits for
/// the lock.
#[derive(Drop)]
pub struct End<S> {
    stream: Arc<Mutex<S>>,
}

impl<S: Drop> End<S> {
    /// The two ends of this stream.
    ///
    /// # Errors
    /// There is no memory for them. The stream comes back.
    pub(crate) fn pair(alloc: Global, stream: S) -> Result<(End<S>, End<S>), Option<S>> {
        let stream = match Arc::new(alloc, Mutex::new(stream)) {
            Ok(stream) => stream,
            Err(refused) => return Err(Some(refused.value.into_inner())),
        };
        match Arc::try_clone(&stream) {
            Ok(other) => Ok((End { stream }, End { stream: other })),
            Err(_) => Err(End { stream }.into_stream()),
        }
    }

    /// The stream back, if this is its last end.
    pub(crate) fn into_stream(self) -> Option<S> {
        Arc::into_inner(self.stream).map(|stream: Mutex<S>| stream.into_inner())
    }
}

impl<S: Read> Read for End<S> {
    fn read(&mut self, buf: &mut [u8]) -> io::Result<usize> {
        match self.stream.try_lock() {
            Some(mut stream) => (*stream).read(buf),
            None => Err(in_use()),
        }
    }
}

impl<S: Write> Write for End<S> {
    fn write(&mut self, buf: &[u8]) -> io::Result<usize> {
        match self.stream.try_lock() {
            Some(mut stream) => (*stream).write(buf),
            None => Err(in_use()),
        }
    }

    fn flush(&mut self) -> io::Result<()> {
        match self.stream.try_lock() {
            Some(mut stream) => (*stream).flush(),
            None => Err(in_use()),
        }
    }
}

// What a call of one end would fail with while a call of the other is under way, which is never so in one thread.
fn in_use() -> Error {
    Error::from(ErrorKind::ResourceBusy)
}
