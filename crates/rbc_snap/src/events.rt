//! The events of a history, which eyes read without the lock.

ghost use Rattle.std.specs.Prelude.{◌≡◌, Some, IfSome};
ghost use Rattle.rbc_model.specs.Histories.{event_of};
ghost use Rattle.rbc_record.specs.Entries.{entry_of};
ghost use Rattle.rbc_snap.specs.Events.{event_at};

use crate::moments::Glimpse;
use crate::{HistoryName, Sight};
use boxcar::Keeps;
use boxcar::tag::Tag;
use rbc_model::{Distance, Event, Memory};
use rbc_record::{Entry, Record};
use std::alloc::Global;
use std::marker::PhantomData;
use std::sync::{Arc, Wait};

/// An event at its place, and a moment by which its entry stood there.
#[derive(Drop)]
pub struct PlacedEvent {
    event: Event,
    place: u64,
    seen: Glimpse,
}

const _: () = prove!(size_of::<PlacedEvent>() == 48);

/// Each event is that of an entry of this history.
pub struct OfHistory<J>(PhantomData<J>);

impl<J: HistoryName> Keeps<PlacedEvent> for OfHistory<J> {
    ghost use Rattle.rbc_snap.specs.Events.{IsPlaced};

    ghost holds = { λ tag index placed. IsPlaced J.book placed };
}

/// The events of a history up to some moment, to which more are added.
pub(crate) type Events<J> = boxcar::Vec<PlacedEvent, Global, OfHistory<J>>;

/// No events, and room for so many, so that none is made under the lock for them.
pub(crate) fn no_events<J: HistoryName>(
    alloc: Global,
    room: usize,
) -> Result<Arc<Events<J>>, Memory> {
    let events = boxcar::Vec::with_rule(alloc, Tag::empty())?;
    events.reserve(room)?;
    Ok(Arc::new(alloc, events)?)
}

/// The event that an entry stands for.
fn event_of(entry: &Entry) -> Event
    ensures { result ≡ event_of (entry_of entry.now) }
{
    match entry {
        Entry::Heard(told) => Event::Tell(*told),
        Entry::Granted(grant) => {
            Event::Grant(grant.train(), Distance::new(grant.authority().end()))
        }
    }
}

/// Adds the event of the entry at this place of the record, if it has one.
fn add_one<J: HistoryName, R: Wait>(
    rt: &R,
    events: &Events<J>,
    sight: &Sight,
    log: &Record,
    place: u64,
) -> Result<(), Memory>
    requires book { sight.now.book ≡ J.book }
    requires history { sight.now.history ≡ log.now }
{
    let Some(entry) = log.entry(place) else {
        return Ok(());
    };
    let placed = PlacedEvent {
        event: event_of(entry),
        place,
        seen: sight.glimpse(),
    };
    match events.push(rt, placed) {
        Ok(_) => Ok(()),
        Err(_) => Err(Memory),
    }
}

/// Adds the events of all entries of the record that are not there. Only the press adds some, so as many are there as were added.
fn add_all<J: HistoryName, R: Wait>(
    rt: &R,
    events: &Events<J>,
    sight: &Sight,
    log: &Record,
) -> Result<(), Memory>
    requires book { sight.now.book ≡ J.book }
    requires history { sight.now.history ≡ log.now }
{
    for place in events.count() as u64..log.version() {
        add_one(rt, events, sight, log, place)?;
    }
    Ok(())
}

/// Adds them, if they are wanted.
pub(crate) fn add_if<J: HistoryName, R: Wait>(
    rt: &R,
    is_wanted: bool,
    events: &Events<J>,
    sight: &Sight,
    log: &Record,
) -> Result<(), Memory>
    requires book { sight.now.book ≡ J.book }
    requires history { sight.now.history ≡ log.now }
{
    if !is_wanted {
        return Ok(());
    }
    add_all(rt, events, sight, log)
}

/// The event at a place of the history that was seen, if it is there.
pub(crate) fn event_at<J: HistoryName>(
    events: &Events<J>,
    sight: &Sight,
    place: u64,
) -> Option<Event>
    requires { sight.now.book ≡ J.book }
    ensures { IfSome result (λ event. event_at sight.now.history place ≡ Some event) }
{
    if place >= sight.version() {
        return None;
    }
    let placed = events.get(place as usize)?;
    if placed.place != place {
        return None;
    }
    sight.is_beside(&placed.seen);
    Some(placed.event)
}
