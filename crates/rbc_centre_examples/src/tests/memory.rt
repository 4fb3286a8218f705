//! Two trains at a desk, where an allocation is refused: nothing is lost, and the same call once more is answered.
//!
//! What is made before is made a second time where memory is refused. So one refused allocation, whichever it is, lets the
//! example go on.

ghost use Rattle.std.specs.Prelude.{◌≡◌};

use super::telling::{ask, closed, record_of, shared_track, tell};
use super::{BRANCH, TWO_TRAINS};
use rbc_model::OrMemory;
use rbc_sweep::{Blank, Desk, DeskName, OpenGate, Record, Seat};
use rbc_track::Track;
use std::marker::Brand;
use std::process::Abort;
use std::sync::Wait;
use std::thread::Threads;

/// Tells the desk, and once more where memory is refused.
fn is_told<L: DeskName, R>(rt: &R, desk: &Desk<L>, track: &Track, seat: &mut Seat<L>, line: &str)
where
    R: Threads + Wait + Abort + AllocGlobal + Sync,
    requires { track.now ≡ L.opened.track }
{
    let told = match tell(rt, rt.alloc(), desk, track, seat, line) {
        Err(OrMemory::Memory) => tell(rt, rt.alloc(), desk, track, seat, line),
        answered => answered,
    };
    assert!(rt; told.is_ok());
}

/// Asks for a train, and once more where memory is refused: its authority ends there.
fn is_granted<L: DeskName, R>(rt: &R, desk: &Desk<L>, seat: &mut Seat<L>, train: u32, end: u32)
where
    R: Threads + Wait + Abort + AllocGlobal + Sync,
{
    let granted = match ask(rt, desk, seat, train, &OpenGate) {
        Err(OrMemory::Memory) => ask(rt, desk, seat, train, &OpenGate),
        answered => answered,
    };
    let granted = granted.ok().expect(rt, "a grant");
    assert_eq!(rt; granted.candidate.authority().end(), end);
}

/// Two trains are granted theirs from two seats. The second asks from the one that told: where the last scene could not be
/// published, its eye is behind. False where there was no memory for the seats.
fn are_granted<L: DeskName, R>(rt: &R, history: Record, blank: Blank) -> bool
where
    R: Threads + Wait + Abort + AllocGlobal + Sync,
    requires name { blank.ledger.name ≡ L.name }
    requires book { blank.book ≡ L.book }
    requires parts { (blank.ledger.parts ≡ L.parts) × (2 ≡ L.parts) }
    requires opened { history ≡ L.opened }
{
    let track = shared_track(rt, &history);
    let (desk, mut seats) = match Desk::<L>::new(rt, rt.alloc(), history, 2, blank) {
        Ok(made) => made,
        Err(_) => return false,
    };
    let mut tells = seats.pop().expect(rt, "a seat");
    let mut asks = seats.pop().expect(rt, "a seat");
    for line in TWO_TRAINS {
        is_told(rt, &desk, &track, &mut tells, line);
    }
    is_granted(rt, &desk, &mut asks, 1, 495);
    is_granted(rt, &desk, &mut tells, 2, 1_500);
    seats.push(tells).expect(rt, "the room is there");
    seats.push(asks).expect(rt, "the room is there");
    assert_eq!(rt; closed(rt, desk, seats).version(), 6);
    true
}

#[test]
fn refused_memory_loses_nothing(rt: HostRuntime) {
    let history = record_of(&rt, rt.alloc(), BRANCH, &[]);
    if !are_granted::<Brand, _>(&rt, history, Blank::new(2)) {
        let again = record_of(&rt, rt.alloc(), BRANCH, &[]);
        assert!(rt; are_granted::<Brand, _>(&rt, again, Blank::new(2)));
    }
}
