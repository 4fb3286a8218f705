//! What is published is seen by other seats, without the lock.

ghost use Rattle.std.specs.Prelude.{◌≡◌};

use super::gates::{Passes, wait_for};
use super::telling::{ask, closed, record_of, shared_track, tell};
use super::{BRANCH, TWO_TRAINS};
use rbc_sweep::{Blank, Desk, DeskName, Record};
use rbc_track::Track;
use std::marker::Brand;
use std::process::Abort;
use std::sync::Wait;
use std::sync::atomic::{AtomicU64, Ordering};
use std::thread;
use std::thread::Threads;

/// Has the desk's lock until the gate was passed.
fn have_the_lock<L: DeskName, R>(rt: &R, desk: &Desk<L>, is_held: &AtomicU64, gate: &Passes)
where
    R: Wait + Abort,
{
    let hold = desk.hold(rt);
    is_held.store(1, Ordering::SeqCst);
    wait_for(rt, &gate.count);
    hold.leave();
}

/// A report is told from one seat, and a train asks from another one. While it is shown its view, another thread has the
/// desk's lock.
fn ask_without_the_lock<L: DeskName + Send + Sync, R>(rt: &R, history: Record, blank: Blank)
where
    R: Threads + Wait + Abort + AllocGlobal + Sync,
    requires name { blank.ledger.name ≡ L.name }
    requires book { blank.book ≡ L.book }
    requires parts { (blank.ledger.parts ≡ L.parts) × (2 ≡ L.parts) }
    requires opened { history ≡ L.opened }
{
    let alloc = rt.alloc();
    let shared = shared_track(rt, &history);
    let track: &Track = &shared;
    let (desk, mut seats) = Desk::<L>::new(rt, alloc, history, 2, blank).expect(rt, "seats");
    let mut asks = seats.pop().expect(rt, "a seat");
    let mut tells = seats.pop().expect(rt, "a seat");
    let report = "report 2 5/17 nominal 1200 5 5 200 2001";
    assert!(rt; tell(rt, alloc, &desk, track, &mut tells, report).is_ok());
    let is_held = AtomicU64::new(0);
    let gate = Passes {
        count: AtomicU64::new(0),
        version: AtomicU64::new(0),
    };
    let (_, is_granted) = thread::join(
        rt,
        || have_the_lock(rt, &desk, &is_held, &gate),
        || {
            wait_for(rt, &is_held);
            match ask(rt, &desk, &mut asks, 1, &gate) {
                Ok(granted) => granted.receipt.place() == 5,
                Err(_) => false,
            }
        },
    );
    assert!(rt; is_granted);
    assert_eq!(rt; gate.count.load(Ordering::SeqCst), 1);
    assert_eq!(rt; gate.version.load(Ordering::SeqCst), 5);
    seats.push(asks).expect(rt, "room");
    seats.push(tells).expect(rt, "room");
    assert_eq!(rt; closed(rt, desk, seats).version(), 6);
}

#[test]
fn what_is_published_is_seen_without_the_lock(rt: HostRuntime) {
    let history = record_of(&rt, rt.alloc(), BRANCH, &TWO_TRAINS);
    ask_without_the_lock::<Brand, _>(&rt, history, Blank::new(2));
}
