//! What seats are shown that ask a desk for its scene and its state.

ghost use Rattle.std.specs.Prelude.{◌≡◌};

use super::telling::{closed, record_of, shared_track, tell, tell_ahead};
use super::{BRANCH, TWO_TRAINS};
use rbc_sweep::{Blank, Desk, DeskName, Record, Seat, State};
use std::marker::Brand;
use std::process::Abort;
use std::sync::Wait;

/// The version of the scene that the seat is shown, and how many trains it has and sections are locked in it.
fn shown<L: DeskName, R>(rt: &R, desk: &Desk<L>, seat: &mut Seat<L>) -> (u64, usize, usize)
where
    R: Wait + Abort + AllocGlobal,
{
    let (scene, version) = desk.scene(rt, rt.alloc(), seat).expect(rt, "a scene");
    let state = State::of(version, &scene);
    (state.version, state.trains, state.locked)
}

/// One seat tells, and another one asks to be shown the scene and the state.
fn tell_and_show<L: DeskName, R>(rt: &R, history: Record, blank: Blank)
where
    R: Wait + Abort + AllocGlobal,
    requires name { blank.ledger.name ≡ L.name }
    requires book { blank.book ≡ L.book }
    requires parts { (blank.ledger.parts ≡ L.parts) × (2 ≡ L.parts) }
    requires opened { history ≡ L.opened }
{
    let alloc = rt.alloc();
    let track = shared_track(rt, &history);
    let (desk, mut seats) = Desk::<L>::new(rt, alloc, history, 2, blank).expect(rt, "seats");
    let mut asks = seats.pop().expect(rt, "a seat");
    let mut tells = seats.pop().expect(rt, "a seat");
    let report = "report 3 5/17 nominal 1200 5 5 100 4000";
    assert!(rt; tell(rt, alloc, &desk, &track, &mut tells, report).is_ok());
    assert_eq!(rt; shown(rt, &desk, &mut asks), (5, 3, 2));
    let place = tell_ahead(rt, alloc, &desk, &track, &mut tells, "lock R4");
    assert_eq!(rt; place, 5);
    // The lock is not published. The seat that told it sees it, and the other one once it was told of it.
    assert_eq!(rt; shown(rt, &desk, &mut tells), (6, 3, 3));
    assert_eq!(rt; shown(rt, &desk, &mut asks), (5, 3, 2));
    let state = desk.state(rt, &mut asks);
    assert_eq!(rt; (state.version, state.trains, state.locked), (6, 3, 3));
    assert_eq!(rt; shown(rt, &desk, &mut asks), (6, 3, 3));
    seats.push(asks).expect(rt, "room");
    seats.push(tells).expect(rt, "room");
    assert_eq!(rt; closed(rt, desk, seats).version(), 6);
}

#[test]
fn scenes_and_states_are_shown(rt: HostRuntime) {
    let history = record_of(&rt, rt.alloc(), BRANCH, &TWO_TRAINS);
    tell_and_show::<Brand, _>(&rt, history, Blank::new(2));
}
