//! Readers and writers that fail in the middle of a session. The record has the entries of the lines that were treated.

use super::PLAIN;
use super::sessions::{LINES, REPLIES, session_to};
use rbc_streams::SessionFault;
use std::io;
use std::io::{Error, ErrorKind, Read, Write};
use std::process::Abort;
use std::thread::Threads;

/// Gives nothing, and fails.
#[derive(Drop)]
struct Broken;

impl Read for Broken {
    fn read(&mut self, _buf: &mut [u8]) -> io::Result<usize> {
        Err(Error::from(ErrorKind::Other))
    }
}

/// Takes bytes while it has room, and then fails.
#[derive(Drop)]
struct Room {
    taken: Vec<u8>,
    room: usize,
}

impl Write for Room {
    fn write(&mut self, buf: &[u8]) -> io::Result<usize> {
        if self.room == 0 {
            return Err(Error::from(ErrorKind::Other));
        }
        let count = self.room.min(buf.len());
        self.taken.extend_from_slice(&buf[..count])?;
        self.room -= count;
        Ok(count)
    }

    fn flush(&mut self) -> io::Result<()> {
        Ok(())
    }
}

/// The lines, for reads that give one each.
const LINE_BY_LINE: [&str; 3] = [
    "lock R1\n",
    "report 1 5/17 nominal 300 5 5 200 1000\n",
    "ask 1\n",
];

/// What was written after no line, one, two and all three.
const WRITTEN: [&str; 4] = ["", "ok 1\n", "ok 1\nok 2\n", REPLIES];

// Where the reader fails, each whole line before it was answered.
#[test]
fn lines_before_a_read_fault_are_treated(rt: HostRuntime) {
    let lines = LINES.as_bytes();
    for cut in 0..lines.len() {
        let whole = lines[..cut].iter().filter(|byte| **byte == b'\n').count();
        let replies = WRITTEN.get(whole).expect(&rt, "three lines");
        let reader = lines[..cut].chain(Broken);
        let (outcome, written, version) = session_to(&rt, PLAIN, reader, Vec::new(rt.alloc()));
        assert_eq!(rt; outcome, Err(SessionFault::Read), "at {cut}");
        assert_eq!(rt; version, whole as u64, "at {cut}");
        assert_eq!(rt; written.as_slice(), replies.as_bytes(), "at {cut}");
    }
}

// How a session ends whose writer takes `room` bytes: the record has the entries of the lines that were treated.
fn ends_at_a_write_fault<R: Read + Drop>(
    rt: &(impl Threads + Abort + AllocGlobal + Sync),
    lines: R,
    room: usize,
    treated: usize,
) {
    let taken = Vec::new(rt.alloc());
    let (outcome, writer, version) = session_to(rt, PLAIN, lines, Room { taken, room });
    assert_eq!(rt; outcome, Err(SessionFault::Write), "at {room}");
    assert_eq!(rt; version, treated as u64, "at {room}");
    assert_eq!(rt; writer.taken.len(), room);
    assert!(rt; REPLIES.as_bytes().starts_with(&writer.taken), "at {room}");
}

// Replies are handed on before each read. So where the writer fails, the lines that came with the one being answered were
// treated, and no later one.
#[test]
fn lines_before_a_write_fault_are_treated(rt: HostRuntime) {
    let [lock, report, ask] = LINE_BY_LINE;
    for room in 0..REPLIES.len() {
        let one_by_one = lock
            .as_bytes()
            .chain(report.as_bytes())
            .chain(ask.as_bytes());
        let treated = WRITTEN.iter().filter(|text| text.len() <= room).count();
        ends_at_a_write_fault(&rt, one_by_one, room, treated);
        ends_at_a_write_fault(&rt, LINES.as_bytes(), room, 3);
    }
}
