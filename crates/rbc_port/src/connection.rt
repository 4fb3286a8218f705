//! A client of the port.

ghost use Rattle.std.specs.Prelude.{◌≡◌, [], None, Err, false};
ghost use Rattle.std.specs.Option.{option_map_or};
ghost use Rattle.rbc_port.specs.Clients.{Coming};

use crate::clients::{Client, Ends};
use crate::ends::End;
use crate::log::{Caller, News, Parting};
use crate::watch::Watch;
use rbc_model::SessionFault;
use rbc_model::limits::LONGEST_LINE;
use rbc_streams::{Buffered, LineReader, Retried, Stream};
use rbc_tally::Replies;
use std::alloc::Global;
use std::io;
use std::io::{Eprint, Error, ErrorKind, Read, Write};
use std::net::{OpenStream, Shutdown, SocketAddr};
use std::snapshot::Snapshot;
use std::time::{Clock, Duration, Instant};

/// How much of what a client still sends after an overlong line is read and dropped, in bytes.
const MOST_DROPPED: usize = 1024 * 1024;

/// How long that is done, in seconds.
const LONGEST_DROPPING: u64 = 1;

/// How many bytes each read drops at most.
const PIECE: usize = 4096;

/// A client of the port: its stream, and what the log will tell of it.
#[derive(Drop)]
pub struct Connection<S> {
    stream: S,
    caller: Caller,
    lines: u64,
    stopped: Option<Parting>,
    replies: Replies,
    watch: Watch,
}

impl<S> Connection<S> {
    pub(crate) fn new(
        stream: S,
        address: SocketAddr,
        number: usize,
        watch: Watch,
    ) -> Connection<S> {
        Connection {
            stream,
            caller: Caller { number, address },
            lines: 0,
            stopped: None,
            replies: Replies::new(),
            watch,
        }
    }

    // Tells that it begins.
    pub(crate) fn tell_began(&self, rt: &(impl Clock + Eprint), alloc: Global) {
        self.watch.tally().began();
        self.watch.log.tell(rt, alloc, &News::Began(self.caller));
    }

    // Why its session ended so.
    fn parting(&self, ended: Result<(), SessionFault>) -> Parting {
        match (ended, self.stopped) {
            (Ok(()), _) => Parting::End,
            (Err(SessionFault::Read | SessionFault::Write), Some(parting)) => parting,
            (Err(fault), _) => Parting::Fault(fault),
        }
    }
}

impl<S: Read + OpenStream + Drop> Connection<S> {
    // Lets the client go, after a session that ended so. After an overlong line it is told that nothing more comes, and
    // what it still sends is read and dropped, up to 1 MiB or one second, so that the reply arrives.
    fn part<T: Clock + Eprint>(mut self, rt: &T, alloc: Global, ended: Result<(), SessionFault>) {
        if ended == Err(SessionFault::Overlong) {
            self.drop_what_comes(rt);
        }
        let news = News::Ended(self.caller, self.lines, self.parting(ended));
        self.watch.tally().ended();
        self.watch.log.tell(rt, alloc, &news);
    }

    // Reads and drops. Each read takes a byte at least, and waits no longer than the time that is left.
    fn drop_what_comes(&mut self, rt: &impl Clock) {
        let Ok(begin) = Instant::now(rt) else {
            return;
        };
        if self.stream.shutdown(Shutdown::Write).is_err() {
            return;
        }
        let mut piece = [0; PIECE];
        let mut dropped = 0_usize;
        for _ in 0..MOST_DROPPED {
            if dropped >= MOST_DROPPED || !self.waits_until(rt, begin) {
                return;
            }
            match self.stream.read(&mut piece) {
                Ok(0) => return,
                Ok(count) => dropped = dropped.saturating_add(count),
                Err(error) if error.kind() == ErrorKind::Interrupted => {}
                Err(_) => return,
            }
        }
    }

    // Whether the next read may wait, which it does no longer than is left of the time since then.
    fn waits_until(&self, rt: &impl Clock, begin: Instant) -> bool {
        let Ok(passed) = begin.elapsed(rt) else {
            return false;
        };
        let left = Duration::from_secs(LONGEST_DROPPING).saturating_sub(passed);
        !left.is_zero() && self.stream.set_read_timeout(Some(left)).is_ok()
    }
}

type Reading<S> = Stream<Retried<End<Connection<S>>>>;

type Writing<S> = Stream<Buffered<End<Connection<S>>>>;

/// A client that was let go: how its session ended, and what is known of its two ends then, if it had any.
#[derive(Drop)]
pub struct Gone<R, W> {
    ended: Result<(), SessionFault>,
    reader: Option<Snapshot<R>>,
    writer: Option<Snapshot<W>>,
}

impl<R, W> Gone<R, W> {
    /// How its session ended.
    pub fn ended(&self) -> Result<(), SessionFault>
        ensures { result ≡ self.now.ended }
    {
        self.ended
    }
}

impl<S: Read + Write + OpenStream + Drop> Client for Connection<S> {
    type Reader = Reading<S>;

    type Writer = Writing<S>;

    type Gone = Gone<Reading<S>, Writing<S>>;

    // Of a socket nothing is known.
    ghost coming = { λ _. record { says = None; told = None } };

    ghost parting = { λ gone. record {
      unread = None;
      told = None;
      held_back = option_map_or (λ w. ⟦<Writing<S> as rbc_streams::Sink>⟧.held_back w.value) gone.writer [];
      found_end = option_map_or (λ r. ⟦<Reading<S> as rbc_streams::Source>⟧.ended r.value) gone.reader false;
      read_failed = option_map_or (λ r. ⟦<Reading<S> as rbc_streams::Source>⟧.failed r.value) gone.reader false;
      write_failed = option_map_or (λ w. ⟦<Writing<S> as rbc_streams::Sink>⟧.failed w.value) gone.writer false;
      ended = gone.ended;
    } };

    fn begin<T: Clock + Eprint>(
        self,
        rt: &T,
        alloc: Global,
    ) -> Result<Ends<Reading<S>, Writing<S>>, Gone<Reading<S>, Writing<S>>> {
        let lines = match LineReader::new(alloc, LONGEST_LINE) {
            Ok(lines) => lines,
            Err(_) => return Err(turned_away(rt, alloc, Some(self))),
        };
        let (reader, writer) = match End::pair(alloc, self) {
            Ok(ends) => ends,
            Err(connection) => return Err(turned_away(rt, alloc, connection)),
        };
        match Stream::writer(alloc, writer) {
            Ok(writer) => Ok(Ends {
                reader: Stream::reader(reader),
                writer,
                lines,
            }),
            Err(_) => Err(turned_away(rt, alloc, reader.into_stream())),
        }
    }

    fn let_go<T: Clock + Eprint>(
        rt: &T,
        alloc: Global,
        reader: Reading<S>,
        writer: Writing<S>,
        ended: Result<(), SessionFault>,
    ) -> Gone<Reading<S>, Writing<S>> {
        let gone = Gone {
            ended,
            reader: Some(Snapshot::of(&reader)),
            writer: Some(Snapshot::of(&writer)),
        };
        drop(reader);
        if let Some(connection) = writer.into_writer().into_stream() {
            connection.part(rt, alloc, ended);
        }
        gone
    }
}

// Lets a client go that found no memory for its session.
fn turned_away<S: Read + Write + OpenStream + Drop, T: Clock + Eprint>(
    rt: &T,
    alloc: Global,
    connection: Option<Connection<S>>,
) -> Gone<Reading<S>, Writing<S>>
    ensures { result ≡ record { ended = Err SessionFault.Memory; reader = None; writer = None } }
{
    let ended = Err(SessionFault::Memory);
    if let Some(connection) = connection {
        connection.part(rt, alloc, ended);
    }
    Gone {
        ended,
        reader: None,
        writer: None,
    }
}

impl<S: Read> Read for Connection<S> {
    ghost remaining = { λ client. S.remaining client.stream };

    fn read(&mut self, buf: &mut [u8]) -> io::Result<usize> {
        let outcome = self.stream.read(buf);
        match &outcome {
            Ok(count) => {
                let lines = line_feeds(&buf[..*count]);
                self.lines = self.lines.saturating_add(lines);
                self.watch.tally().read(lines);
            }
            Err(error) => self.stopped = stopped_by(error),
        }
        outcome
    }
}

impl<S: Write> Write for Connection<S> {
    ghost contents = { λ client. S.contents client.stream };

    fn write(&mut self, buf: &[u8]) -> io::Result<usize> {
        let outcome = self.stream.write(buf);
        match &outcome {
            Ok(count) => self.replies.pass(&buf[..*count], self.watch.tally()),
            Err(error) => self.stopped = stopped_by(error),
        }
        outcome
    }

    fn flush(&mut self) -> io::Result<()> {
        let outcome = self.stream.flush();
        if let Err(error) = &outcome {
            self.stopped = stopped_by(error);
        }
        outcome
    }
}

// Why the client goes where a call failed so, if the error tells more than that.
fn stopped_by(error: &Error) -> Option<Parting> {
    match error.kind() {
        ErrorKind::WouldBlock => Some(Parting::Patience),
        ErrorKind::UnexpectedEof => Some(Parting::WithinALine),
        _ => None,
    }
}

// How many lines end in these bytes.
fn line_feeds(bytes: &[u8]) -> u64 {
    bytes.iter().filter(|byte| **byte == b'\n').count() as u64
}
