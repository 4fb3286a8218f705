//! Sweeps: each train of the scene is served once.

ghost use Rattle.std.specs.Prelude.{◌≡◌};

use super::gates::{Meets, Refuses, Tells};
use super::telling::{closed, record_of, shared_track, tell};
use super::{BRANCH, ONE_TRAIN, PLAIN, TWO_TRAINS};
use rbc_sweep::{Answer, Blank, Desk, DeskName, Gate, OpenGate, Outcome, Record, Seat, sweep};
use std::marker::Brand;
use std::process::Abort;
use std::sync::atomic::AtomicU64;
use std::sync::{Mutex, Wait};
use std::thread::Threads;

/// Where the train's authority ends, if it was granted one.
fn end(outcome: &Outcome) -> Option<u32> {
    match &outcome.answer {
        Answer::Granted(granted) => Some(granted.candidate.authority().end()),
        _ => None,
    }
}

/// Sweeps with these seats: they come back, with what came of it.
fn swept<L: DeskName + Send + Sync, R, G>(
    rt: &R,
    desk: &Desk<L>,
    seats: Vec<Seat<L>>,
    gate: &G,
) -> (Vec<Seat<L>>, Vec<Outcome>)
where
    R: Threads + Wait + Abort + AllocGlobal + Sync,
    G: Gate + Sync,
{
    assert!(rt; !seats.is_empty());
    let (seats, outcomes) = sweep(rt, rt.alloc(), desk, seats, gate);
    (seats, outcomes.expect(rt, "outcomes"))
}

/// The outcomes of a sweep with two seats, and how many entries the record has then.
fn swept_by_two<L: DeskName + Send + Sync, R, G>(
    rt: &R,
    history: Record,
    blank: Blank,
    gate: &G,
) -> (Vec<Outcome>, u64)
where
    R: Threads + Wait + Abort + AllocGlobal + Sync,
    G: Gate + Sync,
    requires name { blank.ledger.name ≡ L.name }
    requires book { blank.book ≡ L.book }
    requires parts { (blank.ledger.parts ≡ L.parts) × (2 ≡ L.parts) }
    requires opened { history ≡ L.opened }
{
    let (desk, seats) = Desk::<L>::new(rt, rt.alloc(), history, 2, blank).expect(rt, "seats");
    let (seats, outcomes) = swept(rt, &desk, seats, gate);
    (outcomes, closed(rt, desk, seats).version())
}

/// Both trains were granted theirs.
fn are_granted(rt: &impl Abort, outcomes: &[Outcome]) {
    assert!(rt;
        matches!(outcomes, [one, other]
        if one.train.number() == 1 && end(one) == Some(495)
            && other.train.number() == 2 && end(other) == Some(1_500))
    );
}

// The pass of each train waits until the other's has been called.
#[test]
fn trains_are_served_at_once(rt: HostRuntime) {
    let first = AtomicU64::new(0);
    let second = AtomicU64::new(0);
    let gate = Meets {
        rt: &rt,
        first: &first,
        second: &second,
    };
    let history = record_of(&rt, rt.alloc(), BRANCH, &TWO_TRAINS);
    let (outcomes, version) = swept_by_two::<Brand, _, _>(&rt, history, Blank::new(2), &gate);
    are_granted(&rt, &outcomes);
    assert_eq!(rt; version, 6);
}

/// Both trains were refused memory.
fn are_refused(rt: &impl Abort, outcomes: &[Outcome]) {
    assert!(rt;
        matches!(outcomes, [one, other]
        if matches!(&one.answer, Answer::Memory) && matches!(&other.answer, Answer::Memory))
    );
}

#[test]
fn each_train_is_told_of_refused_memory(rt: HostRuntime) {
    let history = record_of(&rt, rt.alloc(), BRANCH, &TWO_TRAINS);
    let (outcomes, version) = swept_by_two::<Brand, _, _>(&rt, history, Blank::new(2), &Refuses);
    are_refused(&rt, &outcomes);
    assert_eq!(rt; version, 4);
}

/// The first train was granted all of the way, as the second one was gone.
fn is_alone(rt: &impl Abort, outcomes: &[Outcome]) {
    assert!(rt;
        matches!(outcomes, [one, other]
        if one.train.number() == 1 && end(one) == Some(1_500)
            && other.train.number() == 2 && matches!(&other.answer, Answer::Gone))
    );
}

/// While the first train's authority is computed, the second train leaves.
fn leaves_meanwhile<L: DeskName + Send + Sync, R>(rt: &R, history: Record, blank: Blank)
where
    R: Threads + Wait + Abort + AllocGlobal + Sync,
    requires name { blank.ledger.name ≡ L.name }
    requires book { blank.book ≡ L.book }
    requires parts { (blank.ledger.parts ≡ L.parts) × (2 ≡ L.parts) }
    requires opened { history ≡ L.opened }
{
    let track = shared_track(rt, &history);
    let (desk, mut seats) = Desk::<L>::new(rt, rt.alloc(), history, 2, blank).expect(rt, "seats");
    let tells = Mutex::new(seats.pop().expect(rt, "a seat"));
    let passes = AtomicU64::new(0);
    let gate = Tells {
        rt,
        track: &track,
        desk: &desk,
        seat: &tells,
        lines: &["leave 2"],
        passes: &passes,
        first: 4,
    };
    let (mut seats, outcomes) = swept(rt, &desk, seats, &gate);
    is_alone(rt, &outcomes);
    seats.push(tells.into_inner()).expect(rt, "room");
    assert_eq!(rt; closed(rt, desk, seats).version(), 6);
}

#[test]
fn train_that_left_is_gone(rt: HostRuntime) {
    let history = record_of(&rt, rt.alloc(), BRANCH, &TWO_TRAINS);
    leaves_meanwhile::<Brand, _>(&rt, history, Blank::new(2));
}

/// The train was granted an authority, at this place.
fn is_granted_at(rt: &impl Abort, outcomes: &[Outcome], place: u64) {
    assert!(rt;
        matches!(outcomes, [one]
        if one.train.number() == 1
            && matches!(&one.answer, Answer::Granted(granted) if granted.receipt.place() == place))
    );
}

/// A seat tells of a train, and is handed alone to a sweep.
fn sweeps_what_it_told<L: DeskName + Send + Sync, R>(rt: &R, history: Record, blank: Blank)
where
    R: Threads + Wait + Abort + AllocGlobal + Sync,
    requires name { blank.ledger.name ≡ L.name }
    requires book { blank.book ≡ L.book }
    requires parts { (blank.ledger.parts ≡ L.parts) × (1 ≡ L.parts) }
    requires opened { history ≡ L.opened }
{
    let alloc = rt.alloc();
    let track = shared_track(rt, &history);
    let (desk, mut seats) = Desk::<L>::new(rt, alloc, history, 1, blank).expect(rt, "seats");
    let mut seat = seats.pop().expect(rt, "a seat");
    for line in ONE_TRAIN {
        let told = tell(rt, alloc, &desk, &track, &mut seat, line);
        assert!(rt; told.is_ok());
    }
    seats.push(seat).expect(rt, "room");
    let (seats, outcomes) = swept(rt, &desk, seats, &OpenGate);
    is_granted_at(rt, &outcomes, 2);
    assert_eq!(rt; closed(rt, desk, seats).version(), 3);
}

#[test]
fn sweep_knows_what_its_seat_told(rt: HostRuntime) {
    let history = record_of(&rt, rt.alloc(), PLAIN, &[]);
    sweeps_what_it_told::<Brand, _>(&rt, history, Blank::new(1));
}
