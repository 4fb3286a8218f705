//! Places at a port that stays open: all accept at one socket, and wait for their clients in slices, so that the end that is
//! asked for is seen soon.

ghost use Rattle.std.specs.Prelude.{◌≡◌, IfOk, IfSome, vec_len};
ghost use Rattle.std.specs.Io.{ReadsAtMost, WritesAtMost};

use crate::closing::{Closing, PortEnd};
use crate::port::{Port, PortFailed, Terms};
use crate::watch::Watch;
use rbc_model::OrMemory;
use std::alloc::Global;
use std::io;
use std::io::{Error, ErrorKind, Read, Write};
use std::net::{OpenListener, OpenStream, Shutdown, SocketAddr, TcpListener, TcpStream};
use std::sync::Arc;
use std::sync::atomic::{AtomicU64, AtomicUsize, Ordering};
use std::time::{Clock, Duration};

/// How many slices a second of waiting has.
const SLICES: u64 = 10;

/// How long a slice is, in milliseconds.
const SLICE: u64 = 100;

/// How long a client is still heard once the end was asked for, if it never stops, in seconds.
const LAST_HEARD: u64 = 4;

/// How long it is still told, in seconds.
const LAST_TOLD: u64 = 5;

/// What clients are accepted at for one place.
#[derive(Drop)]
pub struct Place<'a, T> {
    listener: TcpListener,
    end: Arc<PortEnd>,
    rt: &'a T,
}

/// Opens this number of places at a port. Their clients are served on these terms, numbered together, and watched so.
///
/// # Errors
/// No descriptor is left, or the allocator refuses memory.
pub fn open_places<'a, T: Clock>(
    rt: &'a T,
    alloc: Global,
    end: &Arc<PortEnd>,
    terms: Terms,
    watch: &Watch,
    count: usize,
) -> Result<Vec<Port<Place<'a, T>>>, OrMemory<PortFailed>>
    ensures { IfOk result (λ ports. vec_len ports ≡ count) }
{
    let Ok(accepted) = Arc::new(alloc, AtomicUsize::new(0)) else {
        return Err(OrMemory::Memory);
    };
    let Ok(mut ports) = Vec::with_capacity(alloc, count) else {
        return Err(OrMemory::Memory);
    };
    for _ in 0..count {
        let place = Place::open(rt, end)?;
        let (Ok(accepted), Ok(watch)) = (Arc::try_clone(&accepted), watch.again()) else {
            return Err(OrMemory::Memory);
        };
        ports.push_reserved(Port::sharing(place, terms, watch, accepted));
    }
    Ok(ports)
}

impl<'a, T: Clock> Place<'a, T> {
    // At the socket of the port that has this end.
    fn open(rt: &'a T, end: &Arc<PortEnd>) -> Result<Place<'a, T>, OrMemory<PortFailed>> {
        let Ok(listener) = end.listener() else {
            return Err(OrMemory::Refused(PortFailed));
        };
        match Arc::try_clone(end) {
            Ok(end) => Ok(Place { listener, end, rt }),
            Err(_) => Err(OrMemory::Memory),
        }
    }
}

impl<'a, T: Clock> OpenListener for Place<'a, T> {
    type Stream = PlaceStream<'a, T>;

    // A client whose stream can't wait in slices is refused, and the next one is waited for.
    fn accept(&self) -> io::Result<(PlaceStream<'a, T>, SocketAddr)> {
        let (stream, address) = self.listener.accept()?;
        let Ok(end) = Arc::try_clone(&self.end) else {
            return Err(Error::from(ErrorKind::ConnectionAborted));
        };
        if set_slices(&stream).is_err() {
            return Err(Error::from(ErrorKind::ConnectionAborted));
        }
        Ok((PlaceStream::new(stream, end, self.rt), address))
    }
}

// Lets each read and each write wait for a slice, and no longer.
fn set_slices(stream: &TcpStream) -> io::Result<()> {
    let slice = Some(Duration::from_millis(SLICE));
    stream.set_read_timeout(slice)?;
    stream.set_write_timeout(slice)
}

/// The stream of a client at a place. It is waited for as long as its timeouts say. Once the end is asked for, its input ends
/// with what has come. An input that ends within a line fails there: what stands behind the last line feed is no line.
#[derive(Drop)]
pub struct PlaceStream<'a, T> {
    stream: TcpStream,
    end: Arc<PortEnd>,
    rt: &'a T,
    slices_to_read: AtomicU64,
    slices_to_write: AtomicU64,
    is_within_a_line: bool,
}

impl<'a, T> PlaceStream<'a, T> {
    fn new(stream: TcpStream, end: Arc<PortEnd>, rt: &'a T) -> PlaceStream<'a, T> {
        PlaceStream {
            stream,
            end,
            rt,
            slices_to_read: AtomicU64::new(u64::MAX),
            slices_to_write: AtomicU64::new(u64::MAX),
            is_within_a_line: false,
        }
    }

    // The end of the input.
    fn ended(&self) -> io::Result<usize>
        ensures { IfOk result (λ count. count ≡ 0) }
    {
        if self.is_within_a_line {
            Err(Error::from(ErrorKind::UnexpectedEof))
        } else {
            Ok(0)
        }
    }
}

impl<'a, T: Clock> PlaceStream<'a, T> {
    // What comes within a slice: some bytes, or the end of the input; None, where nothing did.
    fn read_slice(&mut self, buf: &mut [u8]) -> Option<io::Result<usize>>
        ensures { IfSome result (λ outcome. ReadsAtMost outcome buf.new) }
    {
        if self.end.is_past(self.rt, Duration::from_secs(LAST_HEARD)) {
            return Some(self.ended());
        }
        match self.stream.read(buf) {
            Ok(0) if buf.is_empty() => Some(Ok(0)),
            Ok(0) => Some(self.ended()),
            Ok(count) => {
                self.is_within_a_line = buf[..count].last() != Some(&b'\n');
                Some(Ok(count))
            }
            Err(error) if error.kind() != ErrorKind::WouldBlock => Some(Err(error)),
            Err(_) if self.end.is_asked() => Some(self.ended()),
            Err(_) => None,
        }
    }

    // What is taken within a slice; None, where nothing is.
    fn write_slice(&mut self, buf: &[u8]) -> Option<io::Result<usize>>
        ensures { IfSome result (λ outcome. WritesAtMost outcome buf.now) }
    {
        if self.end.is_past(self.rt, Duration::from_secs(LAST_TOLD)) {
            return Some(Err(Error::from(ErrorKind::ConnectionAborted)));
        }
        match self.stream.write(buf) {
            Err(error) if error.kind() == ErrorKind::WouldBlock => None,
            outcome => Some(outcome),
        }
    }
}

impl<'a, T: Clock> Read for PlaceStream<'a, T> {
    fn read(&mut self, buf: &mut [u8]) -> io::Result<usize> {
        for _ in 0..self.slices_to_read.load(Ordering::SeqCst) {
            if let Some(outcome) = self.read_slice(buf) {
                return outcome;
            }
        }
        Err(Error::from(ErrorKind::WouldBlock))
    }
}

impl<'a, T: Clock> Write for PlaceStream<'a, T> {
    fn write(&mut self, buf: &[u8]) -> io::Result<usize> {
        for _ in 0..self.slices_to_write.load(Ordering::SeqCst) {
            if let Some(outcome) = self.write_slice(buf) {
                return outcome;
            }
        }
        Err(Error::from(ErrorKind::WouldBlock))
    }

    fn flush(&mut self) -> io::Result<()> {
        self.stream.flush()
    }
}

impl<'a, T: Clock> OpenStream for PlaceStream<'a, T> {
    fn shutdown(&self, how: Shutdown) -> io::Result<()> {
        self.stream.shutdown(how)
    }

    fn set_nodelay(&self, nodelay: bool) -> io::Result<()> {
        self.stream.set_nodelay(nodelay)
    }

    fn set_read_timeout(&self, dur: Option<Duration>) -> io::Result<()> {
        self.slices_to_read.store(slices_in(dur), Ordering::SeqCst);
        Ok(())
    }

    fn set_write_timeout(&self, dur: Option<Duration>) -> io::Result<()> {
        self.slices_to_write.store(slices_in(dur), Ordering::SeqCst);
        Ok(())
    }
}

// How many slices this time has, at least one; as many as there can be where there is no limit.
fn slices_in(time: Option<Duration>) -> u64 {
    let Some(time) = time else {
        return u64::MAX;
    };
    let part = u64::from(time.subsec_millis()).div_ceil(SLICE);
    time.as_secs()
        .saturating_mul(SLICES)
        .saturating_add(part)
        .max(1)
}
