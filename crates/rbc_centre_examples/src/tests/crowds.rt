//! Four seats at once, of which some tell and ask for the same.

ghost use Rattle.std.specs.Prelude.{◌≡◌};

use super::BRANCH;
use super::replays::can_be_entered_again;
use super::telling::{ask, closed, record_of, shared_track, tell};
use rbc_model::OrMemory;
use rbc_sweep::{Blank, Desk, DeskName, OpenGate, Record, Seat};
use rbc_track::Track;
use rbc_words::{Request, parse};
use std::marker::Brand;
use std::process::Abort;
use std::sync::Wait;
use std::thread;
use std::thread::Threads;

/// How often each seat treats its lines.
const ROUNDS: usize = 250;

/// The lines of each seat. The first and the third lock the same section, and their trains stand on it.
const LINES: [[&str; 8]; 4] = [
    [
        "lock R1",
        "report 1 5/17 nominal 300 5 5 200 1000",
        "ask 1",
        "free S1",
        "report 1 5/17 nominal 420 5 5 200 1010",
        "ask 2",
        "leave 1",
        "free S1",
    ],
    [
        "lock R2",
        "report 2 5/17 nominal 700 5 5 200 2000",
        "ask 2",
        "report 2 5/17 nominal 1200 5 5 200 2010",
        "ask 1",
        "free S2",
        "leave 2",
        "free S2",
    ],
    [
        "lock R3",
        "report 3 5/18 nominal 0 5 5 200 3000",
        "ask 3",
        "free S2",
        "report 3 5/18 nominal 300 5 5 200 3010",
        "ask 3",
        "leave 3",
        "free S1",
    ],
    [
        "lock R4",
        "report 4 5/17 nominal 250 5 5 200 4000",
        "ask 4",
        "lock R4",
        "leave 4",
        "ask 1",
        "free S3",
        "lock R2",
    ],
];

/// The number of the train that asks in a line, if one does.
fn asker(line: &str) -> Option<u32> {
    match parse(line.as_bytes()).ok()? {
        Request::Ask(train) => Some(train.number()),
        _ => None,
    }
}

/// Treats a line at the desk. It may be refused, but never for want of memory.
fn treat<L: DeskName, R>(rt: &R, desk: &Desk<L>, track: &Track, seat: &mut Seat<L>, line: &str)
where
    R: Threads + Wait + Abort + AllocGlobal + Sync,
    requires { track.now ≡ L.opened.track }
{
    if let Some(train) = asker(line) {
        let asked = ask(rt, desk, seat, train, &OpenGate);
        assert!(rt; !matches!(&asked, Err(OrMemory::Memory)));
    } else {
        let told = tell(rt, rt.alloc(), desk, track, seat, line);
        assert!(rt; !matches!(&told, Err(OrMemory::Memory)));
    }
}

/// Treats the lines of a seat, again and again.
fn work<L: DeskName, R>(rt: &R, desk: &Desk<L>, track: &Track, seat: &mut Seat<L>, lines: &[&str])
where
    R: Threads + Wait + Abort + AllocGlobal + Sync,
    requires { track.now ≡ L.opened.track }
{
    for _round in 0..ROUNDS {
        for line in lines {
            treat(rt, desk, track, seat, line);
        }
    }
}

/// The seats do their work at once.
fn work_at_once<L: DeskName + Send + Sync, R>(
    rt: &R,
    desk: &Desk<L>,
    track: &Track,
    seats: &mut [Seat<L>],
)
where
    R: Threads + Wait + Abort + AllocGlobal + Sync,
    requires { track.now ≡ L.opened.track }
{
    thread::for_each_mut(
        rt,
        seats,
        4,
        &|number: usize, seat: &mut Seat<L>|
            requires { track.now ≡ L.opened.track }
        { work(rt, desk, track, seat, &LINES[number % 4]) },
    );
}

/// The record after all four seats have done their work at once.
fn crowd<L: DeskName + Send + Sync, R>(rt: &R, history: Record, blank: Blank) -> Record
where
    R: Threads + Wait + Abort + AllocGlobal + Sync,
    requires name { blank.ledger.name ≡ L.name }
    requires book { blank.book ≡ L.book }
    requires parts { (blank.ledger.parts ≡ L.parts) × (4 ≡ L.parts) }
    requires opened { history ≡ L.opened }
{
    let shared = shared_track(rt, &history);
    let (desk, mut seats) = Desk::<L>::new(rt, rt.alloc(), history, 4, blank).expect(rt, "seats");
    work_at_once(rt, &desk, &shared, seats.as_mut_slice());
    for seat in &seats {
        assert!(rt; !seat.receipts().is_empty());
    }
    closed(rt, desk, seats)
}

#[test]
fn crowded_desk_has_one_history(rt: HostRuntime) {
    let history = record_of(&rt, rt.alloc(), BRANCH, &[]);
    let history = crowd::<Brand, _>(&rt, history, Blank::new(4));
    can_be_entered_again(&rt, &history);
}
