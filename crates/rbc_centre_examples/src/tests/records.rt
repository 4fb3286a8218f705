//! Records, and candidates that were made for them or for others.

use super::telling::{offered, record_of, told_by};
use super::{BRANCH, ONE_TRAIN, PLAIN};
use rbc_model::{Distance, OrMemory, Told, TrainId};
use rbc_sweep::{Candidate, CommitFault, Record};
use std::process::Abort;

/// The candidate is granted, by an entry at this place.
fn is_granted(
    rt: &(impl Abort + AllocGlobal),
    history: &mut Record,
    candidate: &Candidate,
    place: u64,
) {
    let receipt = history.commit(rt.alloc(), candidate).expect(rt, "a grant");
    assert_eq!(rt; receipt.place(), place);
    let entry = history.entry(place).expect(rt, "an entry");
    assert!(rt; receipt.is_for(entry));
}

/// The candidate is not granted, for this reason.
fn is_refused(
    rt: &(impl Abort + AllocGlobal),
    history: &mut Record,
    candidate: &Candidate,
    fault: CommitFault,
) {
    let refused = history.commit(rt.alloc(), candidate).err();
    assert!(rt; refused == Some(OrMemory::Refused(fault)));
}

/// The train gives back what lies farther from its group than this end, in metres.
fn give_back(rt: &(impl Abort + AllocGlobal), history: &mut Record, train: u32, end: u32) {
    let told = history.apply(
        rt.alloc(),
        &Told::GiveBack(TrainId::new(train), Distance::new(end)),
    );
    assert!(rt; told.is_ok());
}

/// The authority that the train has ends at the first place, and the one that it may be granted at the second.
fn goes_on(rt: &impl Abort, candidate: &Candidate, from: u32, end: u32) {
    assert_eq!(rt; candidate.view().to(), from);
    assert_eq!(rt; candidate.authority().end(), end);
}

// The other record has the same train a moment later, at the same version.
#[test]
fn candidate_of_another_record_is_stale(rt: HostRuntime) {
    let later = ["lock R1", "report 1 5/17 nominal 300 5 5 200 1001"];
    let mut other = record_of(&rt, rt.alloc(), PLAIN, &later);
    let mut own = record_of(&rt, rt.alloc(), PLAIN, &ONE_TRAIN);
    let candidate = offered(&rt, &own, 1);
    is_refused(&rt, &mut other, &candidate, CommitFault::Stale(2));
    is_granted(&rt, &mut own, &candidate, 2);
    is_refused(&rt, &mut own, &candidate, CommitFault::Stale(3));
}

/// What is told after a candidate was made at version 2: a route is locked elsewhere, or ahead. Where the train is shown
/// the same as before, the candidate is granted.
const TOLD_LATER: [(&str, bool); 2] = [("lock R4", true), ("lock R2", false)];

#[test]
fn candidate_is_good_while_its_train_is_shown_the_same(rt: HostRuntime) {
    for (line, is_good) in TOLD_LATER {
        let mut history = record_of(&rt, rt.alloc(), BRANCH, &ONE_TRAIN);
        let candidate = offered(&rt, &history, 1);
        let told = told_by(&rt, history.track(), line);
        assert!(rt; history.apply(rt.alloc(), &told).is_ok());
        if is_good {
            is_granted(&rt, &mut history, &candidate, 3);
        } else {
            is_refused(&rt, &mut history, &candidate, CommitFault::Stale(3));
        }
    }
}

// The authority that a train keeps is told in no session.
#[test]
fn metres_that_are_given_back_are_granted_again(rt: HostRuntime) {
    let mut history = record_of(&rt, rt.alloc(), PLAIN, &ONE_TRAIN);
    let candidate = offered(&rt, &history, 1);
    is_granted(&rt, &mut history, &candidate, 2);
    give_back(&rt, &mut history, 1, 600);
    let again = offered(&rt, &history, 1);
    goes_on(&rt, &again, 600, 1000);
    is_granted(&rt, &mut history, &again, 4);
}
