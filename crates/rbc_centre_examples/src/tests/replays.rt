//! A history that is made again of its entries.

ghost use Rattle.std.specs.Prelude.{◌≡◌};
ghost use Rattle.rbc_sweep.specs.Steps.{IsOfTrack};

use super::telling::{offered, shared_track};
use rbc_model::Told;
use rbc_sweep::{Entry, Receipt, Record};
use rbc_track::Track;
use std::process::Abort;
use std::thread::Threads;

/// What was told, which has to be of a route of the track.
fn of_track(rt: &impl Abort, track: &Track, told: Told) -> Told
    ensures same { result ≡ told }
    ensures of_track { IsOfTrack track.now result }
{
    if let Told::Lock(route) = told {
        assert!(rt; route.index() < track.route_count());
    }
    told
}

/// Enters an entry of a history in another one.
fn enter<R: Threads + Abort + AllocGlobal + Sync>(
    rt: &R,
    history: &mut Record,
    entry: &Entry,
) -> Receipt {
    match entry {
        Entry::Heard(told) => {
            let told = of_track(rt, history.track(), *told);
            history.apply(rt.alloc(), &told).expect(rt, "an entry")
        }
        Entry::Granted(grant) => {
            let candidate = offered(rt, history, grant.train().number());
            history
                .commit(rt.alloc(), &candidate)
                .expect(rt, "an entry")
        }
    }
}

/// Enters all of the record's entries in a new record: each is accepted, and says the same.
pub(super) fn can_be_entered_again<R: Threads + Abort + AllocGlobal + Sync>(
    rt: &R,
    history: &Record,
) {
    let mut again = Record::new(rt.alloc(), shared_track(rt, history)).expect(rt, "room");
    for place in 0..history.version() {
        let entry = history.entry(place).expect(rt, "an entry");
        let receipt = enter(rt, &mut again, entry);
        assert_eq!(rt; receipt.place(), place);
        assert!(rt; receipt.is_for(entry), "at {place}");
    }
}
