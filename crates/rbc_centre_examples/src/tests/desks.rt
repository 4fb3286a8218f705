//! Desks with two seats, of which one is slow.

ghost use Rattle.std.specs.Prelude.{◌≡◌};

use super::gates::{Tells, Waits};
use super::telling::{ask, closed, record_of, shared_track, tell, tell_ahead};
use super::{BRANCH, ONE_TRAIN, PLAIN, TWO_TRAINS};
use rbc_model::{Obstacle, OrMemory};
use rbc_sweep::{AskFault, Blank, Desk, DeskName, Granted, OpenGate, Record};
use rbc_track::Track;
use std::marker::Brand;
use std::process::Abort;
use std::sync::atomic::{AtomicU64, Ordering};
use std::sync::{Mutex, Wait};
use std::thread;
use std::thread::Threads;

/// While a train's authority is computed, another seat tells. The authority is computed again after that.
fn work_goes_on<L: DeskName + Send + Sync, R>(rt: &R, history: Record, blank: Blank)
where
    R: Threads + Wait + Abort + AllocGlobal + Sync,
    requires name { blank.ledger.name ≡ L.name }
    requires book { blank.book ≡ L.book }
    requires parts { (blank.ledger.parts ≡ L.parts) × (2 ≡ L.parts) }
    requires opened { history ≡ L.opened }
{
    let alloc = rt.alloc();
    let shared = shared_track(rt, &history);
    let track: &Track = &shared;
    let (desk, mut seats) = Desk::<L>::new(rt, alloc, history, 2, blank).expect(rt, "seats");
    let mut asks = seats.pop().expect(rt, "a seat");
    let mut tells = seats.pop().expect(rt, "a seat");
    let answered = AtomicU64::new(0);
    let gate = Waits {
        rt,
        answered: &answered,
    };
    let (granted, told) = thread::join(
        rt,
        || match ask(rt, &desk, &mut asks, 1, &gate) {
            Ok(granted) => granted.receipt.place() == 5
                && granted.candidate.authority().end() == 495,
            Err(_) => false,
        },
        || -> bool
            requires { track.now ≡ L.opened.track }
        {
            let told = tell(rt, alloc, &desk, track, &mut tells, "lock R4");
            answered.store(1, Ordering::SeqCst);
            told.is_ok()
        },
    );
    assert!(rt; granted && told);
    seats.push(asks).expect(rt, "room");
    seats.push(tells).expect(rt, "room");
    assert_eq!(rt; closed(rt, desk, seats).version(), 6);
}

#[test]
fn work_goes_on_outside_the_lock(rt: HostRuntime) {
    let history = record_of(&rt, rt.alloc(), BRANCH, &TWO_TRAINS);
    work_goes_on::<Brand, _>(&rt, history, Blank::new(2));
}

/// A train that asks, lines that another seat tells meanwhile, and what is granted.
#[derive(Clone, Copy, Drop)]
struct Overtaken {
    file: &'static str,
    /// What is told at the passes of the gate.
    lines: &'static [&'static str],
    passes: u64,
    place: u64,
    end: u32,
    /// The section at whose end there is no link.
    last: usize,
    time: u32,
}

/// The train reports again at each of three tries, and the fourth is made under the lock. A route is locked elsewhere,
/// and what was computed is granted. A route is locked ahead, and more is granted.
const OVERTAKEN: [Overtaken; 3] = [
    Overtaken {
        file: PLAIN,
        lines: &[
            "report 1 5/17 nominal 300 5 5 200 1001",
            "report 1 5/17 nominal 300 5 5 200 1002",
            "report 1 5/17 nominal 300 5 5 200 1003",
        ],
        passes: 3,
        place: 5,
        end: 1_000,
        last: 0,
        time: 1_003,
    },
    Overtaken {
        file: BRANCH,
        lines: &["lock R4"],
        passes: 1,
        place: 3,
        end: 1_000,
        last: 0,
        time: 1_000,
    },
    Overtaken {
        file: BRANCH,
        lines: &["lock R2"],
        passes: 2,
        place: 3,
        end: 1_500,
        last: 1,
        time: 1_000,
    },
];

/// What was granted is what the case says.
fn is_grant_of(rt: &impl Abort, granted: &Granted, case: &Overtaken) {
    let candidate = &granted.candidate;
    assert_eq!(rt; granted.receipt.place(), case.place);
    assert_eq!(rt; candidate.from(), 305);
    assert_eq!(rt; candidate.authority().end(), case.end);
    assert_eq!(rt; candidate.authority().time(), case.time);
    assert!(rt;
        matches!(candidate.obstacle(), Obstacle::NoLink(leg) if leg.section.index() == case.last)
    );
}

/// Asks for train 1, while another seat tells.
fn overtake<L: DeskName, R>(rt: &R, history: Record, blank: Blank, case: &Overtaken)
where
    R: Threads + Wait + Abort + AllocGlobal + Sync,
    requires name { blank.ledger.name ≡ L.name }
    requires book { blank.book ≡ L.book }
    requires parts { (blank.ledger.parts ≡ L.parts) × (2 ≡ L.parts) }
    requires opened { history ≡ L.opened }
{
    let alloc = rt.alloc();
    let track = shared_track(rt, &history);
    let (desk, mut seats) = Desk::<L>::new(rt, alloc, history, 2, blank).expect(rt, "seats");
    let mut asks = seats.pop().expect(rt, "a seat");
    let tells = Mutex::new(seats.pop().expect(rt, "a seat"));
    let passes = AtomicU64::new(0);
    let gate = Tells {
        rt,
        track: &track,
        desk: &desk,
        seat: &tells,
        lines: case.lines,
        passes: &passes,
        first: 2,
    };
    let granted = ask(rt, &desk, &mut asks, 1, &gate).ok();
    is_grant_of(rt, &granted.expect(rt, "a grant"), case);
    assert_eq!(rt; passes.load(Ordering::SeqCst), case.passes);
    seats.push(asks).expect(rt, "room");
    seats.push(tells.into_inner()).expect(rt, "room");
    let _history = closed(rt, desk, seats);
}

#[test]
fn stale_tries_are_made_again(rt: HostRuntime) {
    for case in &OVERTAKEN {
        let history = record_of(&rt, rt.alloc(), case.file, &ONE_TRAIN);
        overtake::<Brand, _>(&rt, history, Blank::new(2), case);
    }
}

/// The answer speaks of a history that has an entry at this place.
fn speaks_of(answer: &Result<Granted, OrMemory<AskFault>>, place: u64) -> bool {
    match answer {
        Ok(granted) => granted.receipt.place() > place,
        Err(OrMemory::Refused(AskFault::Blocked(_, _, version))) => *version > place,
        Err(_) => false,
    }
}

/// Two reports. The train of the second one is blocked by what that of the first is granted.
const REPORTED: [&str; 2] = [
    "report 2 5/17 nominal 700 5 5 200 2001",
    "report 3 5/17 nominal 1200 5 5 100 4000",
];

/// Trains report from one seat, which asks for the first one. Another seat asks for the second, once its report is published.
fn tell_and_ask<L: DeskName, R>(rt: &R, history: Record, blank: Blank)
where
    R: Threads + Wait + Abort + AllocGlobal + Sync,
    requires name { blank.ledger.name ≡ L.name }
    requires book { blank.book ≡ L.book }
    requires parts { (blank.ledger.parts ≡ L.parts) × (2 ≡ L.parts) }
    requires opened { history ≡ L.opened }
{
    let alloc = rt.alloc();
    let track = shared_track(rt, &history);
    let (desk, mut seats) = Desk::<L>::new(rt, alloc, history, 2, blank).expect(rt, "seats");
    let mut other = seats.pop().expect(rt, "a seat");
    let mut tells = seats.pop().expect(rt, "a seat");
    let place = tell_ahead(rt, alloc, &desk, &track, &mut tells, REPORTED[0]);
    let answer = ask(rt, &desk, &mut tells, 2, &OpenGate);
    assert!(rt; answer.is_ok() && speaks_of(&answer, place));
    let place = tell_ahead(rt, alloc, &desk, &track, &mut tells, REPORTED[1]);
    desk.publish(rt, alloc, &mut tells);
    let answer = ask(rt, &desk, &mut other, 3, &OpenGate);
    assert!(rt; answer.is_err() && speaks_of(&answer, place));
    seats.push(tells).expect(rt, "room");
    seats.push(other).expect(rt, "room");
    assert_eq!(rt; closed(rt, desk, seats).version(), 7);
}

#[test]
fn seats_are_answered_after_what_was_told(rt: HostRuntime) {
    let history = record_of(&rt, rt.alloc(), BRANCH, &TWO_TRAINS);
    tell_and_ask::<Brand, _>(&rt, history, Blank::new(2));
}
