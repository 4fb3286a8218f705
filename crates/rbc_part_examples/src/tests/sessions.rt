//! Sessions with an echo, over a reader and a writer that move one byte a call, are interrupted, and fail.

ghost use Rattle.std.specs.Prelude.{◌≡◌, IfOk};

use rbc_streams::{LineHandler, SessionFault, Sink, Stream, WriteFailed, put, serve_lines};
use std::alloc::Global;
use std::cell::RefCell;
use std::io;
use std::io::{Error, ErrorKind, Read, Write};
use std::thread::Threads;

/// Echoes each line.
#[derive(Drop)]
struct Echo;

impl LineHandler<()> for Echo {
    type State = ();

    ghost use Rattle.std.specs.Prelude.{⊤, false, refl};

    ghost longest = { 4096 };

    ghost state = { λ _. tt };

    ghost answers = { λ _ _ _ _. ⊤ };

    // It never fails.
    ghost ready = { λ _. ⊤ };

    ghost broken = { λ _. false };

    ghost works = { λ _ _. refl };

    ghost goes_on = { λ _ _ _ _ _ _. tt };

    ghost rests = { λ _. 0 };

    fn longest_line() -> usize {
        4_096
    }

    fn answer<T: Threads + Sync, W: Sink>(
        &mut self,
        _rt: &T,
        _alloc: Global,
        _help: &(),
        line: &[u8],
        _more: bool,
        writer: &mut W,
    ) -> Result<(), WriteFailed> {
        put(writer, line)
    }

    fn refuse<W: Sink>(&mut self, _help: &(), writer: &mut W) -> Result<(), WriteFailed> {
        put(writer, b"!")
    }
}

/// Interrupts each call so often before it goes on.
#[derive(Clone, Copy)]
struct Signals {
    each: u32,
    so_far: u32,
}

impl Signals {
    fn new(each: u32) -> Signals {
        Signals { each, so_far: 0 }
    }

    fn pass(&mut self) -> io::Result<()> {
        if self.so_far < self.each {
            self.so_far += 1;
            return Err(Error::from(ErrorKind::Interrupted));
        }
        self.so_far = 0;
        Ok(())
    }
}

/// What a reader or a writer does once it has moved its bytes.
#[derive(Clone, Copy)]
enum Last {
    Fails,
    MovesNone,
}

impl Last {
    fn call(self) -> io::Result<usize>
        ensures { IfOk result (λ count. count ≡ 0) }
    {
        match self {
            Last::Fails => Err(Error::from(ErrorKind::Other)),
            Last::MovesNone => Ok(0),
        }
    }
}

/// Gives its text byte by byte.
#[derive(Drop)]
struct Giver<'a> {
    signals: Signals,
    text: &'a [u8],
    last: Last,
}

impl Read for Giver<'_> {
    fn read(&mut self, buf: &mut [u8]) -> io::Result<usize> {
        self.signals.pass()?;
        if self.text.is_empty() {
            return self.last.call();
        }
        let one = buf.len().min(1);
        self.text.read(&mut buf[..one])
    }
}

/// Takes bytes one by one, up to a limit.
#[derive(Drop)]
struct Taker {
    signals: Signals,
    taken: Vec<u8>,
    room: usize,
    last: Last,
}

impl Write for Taker {
    fn write(&mut self, buf: &[u8]) -> io::Result<usize> {
        self.signals.pass()?;
        if self.taken.len() == self.room {
            return self.last.call();
        }
        let one = buf.len().min(1);
        self.taken.write(&buf[..one])
    }

    fn flush(&mut self) -> io::Result<()> {
        self.signals.pass()
    }
}

/// How often each read and each write is interrupted, what the reader does behind the text, how many bytes the writer
/// takes and what it does then; and what comes of the session.
struct Case {
    reads: (u32, Last),
    writes: (u32, usize, Last),
    outcome: Result<(), SessionFault>,
    taken: &'static [u8],
}

const TEXT: &[u8] = b"a\n\nbc\nd";

const CASES: [Case; 7] = [
    Case {
        reads: (0, Last::MovesNone),
        writes: (0, 9, Last::Fails),
        outcome: Ok(()),
        taken: b"abcd",
    },
    // Calls are tried again 1,000 times in a row.
    Case {
        reads: (1_000, Last::MovesNone),
        writes: (1_000, 9, Last::Fails),
        outcome: Ok(()),
        taken: b"abcd",
    },
    Case {
        reads: (1_001, Last::MovesNone),
        writes: (0, 9, Last::Fails),
        outcome: Err(SessionFault::Read),
        taken: b"",
    },
    Case {
        reads: (0, Last::MovesNone),
        writes: (1_001, 9, Last::Fails),
        outcome: Err(SessionFault::Write),
        taken: b"",
    },
    // The reader fails in the last line. What it gave before is answered.
    Case {
        reads: (0, Last::Fails),
        writes: (0, 9, Last::Fails),
        outcome: Err(SessionFault::Read),
        taken: b"abc",
    },
    // The writer fails in the third reply, or takes no more of it.
    Case {
        reads: (0, Last::MovesNone),
        writes: (0, 2, Last::Fails),
        outcome: Err(SessionFault::Write),
        taken: b"ab",
    },
    Case {
        reads: (0, Last::MovesNone),
        writes: (0, 2, Last::MovesNone),
        outcome: Err(SessionFault::Write),
        taken: b"ab",
    },
];

#[test]
fn interruptions_and_faults_in_a_session(rt: HostRuntime) {
    for case in &CASES {
        let (read_signals, behind) = case.reads;
        let (write_signals, room, full) = case.writes;
        let mut reader = Stream::reader(Giver {
            signals: Signals::new(read_signals),
            text: TEXT,
            last: behind,
        });
        let taker = Taker {
            signals: Signals::new(write_signals),
            taken: Vec::new(rt.alloc()),
            room,
            last: full,
        };
        let mut writer = Stream::writer(rt.alloc(), taker).expect(&rt, "room");
        let outcome = serve_lines(&rt, rt.alloc(), &mut reader, &mut writer, &mut Echo, &());
        assert_eq!(rt; outcome, case.outcome);
        assert_eq!(rt; writer.into_writer().taken.as_slice(), case.taken);
    }
}

/// A peer who sends its text in pieces, and notes at each read how much of the replies it has got, and in how many writes.
#[derive(Drop)]
struct Peer {
    pieces: &'static [&'static [u8]],
    got: usize,
    writes: usize,
    at_reads: Vec<(usize, usize)>,
}

/// An end of the stream to a peer.
#[derive(Drop)]
struct PeerEnd<'a> {
    peer: &'a RefCell<Peer>,
}

impl Read for PeerEnd<'_> {
    fn read(&mut self, buf: &mut [u8]) -> io::Result<usize> {
        let Ok(mut peer) = self.peer.try_borrow_mut() else {
            return Err(Error::from(ErrorKind::ResourceBusy));
        };
        let turn = peer.at_reads.len();
        let seen = (peer.got, peer.writes);
        if peer.at_reads.push(seen).is_err() {
            return Err(Error::from(ErrorKind::OutOfMemory));
        }
        let Some(first) = peer.pieces.get(turn) else {
            return Ok(0);
        };
        let mut piece: &[u8] = first;
        piece.read(buf)
    }
}

impl Write for PeerEnd<'_> {
    fn write(&mut self, buf: &[u8]) -> io::Result<usize> {
        let Ok(mut peer) = self.peer.try_borrow_mut() else {
            return Err(Error::from(ErrorKind::ResourceBusy));
        };
        peer.got = peer.got.saturating_add(buf.len());
        peer.writes = peer.writes.saturating_add(1);
        Ok(buf.len())
    }

    fn flush(&mut self) -> io::Result<()> {
        Ok(())
    }
}

/// At each read the replies to all lines before it are there, those to the lines of one piece by one write.
#[test]
fn replies_are_there_at_each_read(rt: HostRuntime) {
    let peer = RefCell::new(Peer {
        pieces: &[b"a\nbc\nd", b"e", b"f\n\ng"],
        got: 0,
        writes: 0,
        at_reads: Vec::new(rt.alloc()),
    });
    let mut reader = Stream::reader(PeerEnd { peer: &peer });
    let mut writer = Stream::writer(rt.alloc(), PeerEnd { peer: &peer }).expect(&rt, "room");
    let outcome = serve_lines(&rt, rt.alloc(), &mut reader, &mut writer, &mut Echo, &());
    assert_eq!(rt; outcome, Ok(()));
    let peer = peer.try_borrow_mut().expect(&rt, "free");
    assert_eq!(rt;
        peer.at_reads.as_slice(),
        &[(0, 0), (3, 1), (3, 1), (6, 2)][..]
    );
    assert_eq!(rt; peer.got, 7);
    assert_eq!(rt; peer.writes, 3);
}
