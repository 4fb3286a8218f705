//! Sessions over a record, and the same from the seat of a desk.

ghost use Rattle.std.specs.Prelude.{◌≡◌};

use super::telling::{closed, record_of};
use super::{BRANCH, PLAIN};
use rbc_model::limits::LONGEST_LINE;
use rbc_sessions::{NoJournal, SessionContext, Sitting, run, session};
use rbc_streams::{LineReader, SessionFault, Stream};
use rbc_sweep::{Blank, Desk, DeskName, OpenGate, Record};
use std::io::{Read, Write};
use std::marker::Brand;
use std::process::Abort;
use std::sync::Wait;
use std::thread::Threads;

/// A session on the plain track.
pub(super) const LINES: &str = "\
lock R1
report 1 5/17 nominal 300 5 5 200 1000
ask 1
";

/// All replies to it.
pub(super) const REPLIES: &str = "\
ok 1
ok 2
granted 1 3 305 1000 NoLink S1+
message 0309c00000fa00280221e810901ff801f400aa04e400001420fa1fe3681590000500083e8fe000
speed 31 0:100 end 1000
steps 0:100 loss 0
prices 1 0
grade 31 0:-5 end 1000
steps 0:-5 loss 0
prices 1 0
done
";

/// A session on the branch with replies of each kind.
const BRANCH_LINES: &str = "\
lock R1
lock R2
report 1 5/17 nominal 300 5 5 200 1000
report 2 5/17 nominal 700 5 5 200 2000
ask 1
ask 2
report 3 5/17 nominal 1200 5 5 100 4000
ask 3
ask 2
leave 3
report 2 5/18 reverse 50 5 5 200 3000
ask 1
ask 2
report 1 5/18 nominal 0 5 5 200 9
free S1
lock R3
ask 7
lock R9
go 1
";

/// The first lines of the replies to it.
const BRANCH_REPLIES: &str = "\
ok 1
ok 2
ok 3
ok 4
granted 1 5 305 495 Occupied 2
granted 2 6 705 1500 NoLink S2+
ok 7
blocked 3 7 1205 Held 2
blocked 2 7 1095 Occupied 3
ok 8
ok 9
granted 1 10 305 945 Occupied 2
granted 2 11 -155 400 NoLink S2+
refused Offline
refused Busy S1 1
refused Clash S2
refused UnknownTrain 7
refused UnknownName R9
refused Command
";

/// A session on a track.
#[derive(Clone, Copy, Drop)]
struct Case {
    file: &'static str,
    lines: &'static str,
    /// What comes among the replies, in this order.
    replies: &'static str,
    /// How many entries the record has at the end.
    entries: u64,
}

const CASES: [Case; 2] = [
    Case {
        file: PLAIN,
        lines: LINES,
        replies: REPLIES,
        entries: 3,
    },
    Case {
        file: BRANCH,
        lines: BRANCH_LINES,
        replies: BRANCH_REPLIES,
        entries: 11,
    },
];

/// How a session on a track ends, its writer, and how many entries the record has then.
pub(super) fn session_to<R: Read + Drop, W: Write + Drop>(
    rt: &(impl Threads + Abort + AllocGlobal + Sync),
    file: &str,
    lines: R,
    writer: W,
) -> (Result<(), SessionFault>, W, u64) {
    let mut history = record_of(rt, rt.alloc(), file, &[]);
    let mut writer = Stream::writer(rt.alloc(), writer).expect(rt, "room");
    let mut reader = Stream::reader(lines);
    let outcome = run(rt, rt.alloc(), &mut reader, &mut writer, &mut history);
    (outcome, writer.into_writer(), history.version())
}

/// Whether the byte ends a line.
fn is_line_feed(byte: &u8) -> bool {
    *byte == b'\n'
}

/// Whether all lines of a text come among others, in their order.
fn come_in_order(text: &[u8], among: &[u8]) -> bool {
    let mut others = among.split(is_line_feed);
    for line in text.split(is_line_feed) {
        if !others.any(|other| other == line) {
            return false;
        }
    }
    true
}

/// The case's replies are among these, and the record has as many entries as it should.
fn is_reply_to(rt: &impl Abort, case: &Case, written: &[u8], version: u64) {
    assert_eq!(rt; version, case.entries);
    assert!(rt; come_in_order(case.replies.as_bytes(), written));
}

/// What is written in the session over a record.
fn written_alone(rt: &(impl Threads + Abort + AllocGlobal + Sync), case: &Case) -> Vec<u8> {
    let lines = case.lines.as_bytes();
    let (outcome, written, version) = session_to(rt, case.file, lines, Vec::new(rt.alloc()));
    assert_eq!(rt; outcome, Ok(()));
    is_reply_to(rt, case, written.as_slice(), version);
    written
}

/// From the seat of a desk the same is written.
fn is_answered_at_a_desk<L: DeskName, R>(rt: &R, history: Record, blank: Blank, case: &Case)
where
    R: Threads + Wait + Abort + AllocGlobal + Sync,
    requires name { blank.ledger.name ≡ L.name }
    requires book { blank.book ≡ L.book }
    requires parts { (blank.ledger.parts ≡ L.parts) × (1 ≡ L.parts) }
    requires opened { history ≡ L.opened }
{
    let alloc = rt.alloc();
    let (desk, mut seats) = Desk::<L>::new(rt, alloc, history, 1, blank).expect(rt, "seats");
    let seat = seats.pop().expect(rt, "a seat");
    let sitting = Sitting::new(seat, ());
    let mut reader = Stream::reader(case.lines.as_bytes());
    let mut writer = Stream::writer(alloc, Vec::new(alloc)).expect(rt, "room");
    let lines = LineReader::new(alloc, LONGEST_LINE).expect(rt, "room");
    let left = session(
        rt,
        alloc,
        lines,
        &mut reader,
        &mut writer,
        &SessionContext::new(&desk, &NoJournal, &OpenGate, rt),
        sitting,
    );
    assert_eq!(rt; left.ended, Ok(()));
    let Sitting { seat, .. } = left.sitting;
    seats.push(seat).expect(rt, "room");
    assert_eq!(rt; closed(rt, desk, seats).version(), case.entries);
    let alone = written_alone(rt, case);
    assert_eq!(rt; writer.into_writer().as_slice(), alone.as_slice());
}

#[test]
fn session_from_a_seat_is_answered_as_one_alone(rt: HostRuntime) {
    for case in &CASES {
        let history = record_of(&rt, rt.alloc(), case.file, &[]);
        is_answered_at_a_desk::<Brand, _>(&rt, history, Blank::new(1), case);
    }
}
