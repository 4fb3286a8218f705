//! The rows of the locks, each of which its route needs.

ghost use Rattle.std.specs.Prelude.{◌≡◌, length};
ghost use Rattle.rbc_good_laws.specs.Told.{is_needed, needs, same_need};
ghost use Rattle.rbc_scene.specs.Changes.{ChangesAs};
ghost use Rattle.rbc_scene_reading.specs.Reading.{locks_with, row_fault};

use crate::fault::SceneFault;
use rbc_model::{Leg, Refusal, RouteId};
use rbc_scene::Locks;
use rbc_track::{Route, Track};

/// Whether two rows are the same: their legs, and the legs before.
fn is_same_need(leg: &Leg, before: &Option<Leg>, other: &Leg, other_before: &Option<Leg>) -> bool
    ensures { result ≡ same_need (leg.now, before.now) (other.now, other_before.now) }
{
    leg == other && before == other_before
}

/// Whether the route needs a row of the leg, behind the leg before if there is one.
fn needs(route: &Route, leg: &Leg, before: &Option<Leg>) -> bool
    ensures { result ≡ needs (leg.now, before.now) route.now }
{
    let mut before_it = route.after();
    for other in route.legs() {
        if is_same_need(other, &before_it, leg, before) {
            return true;
        }
        before_it = Some(*other);
    }
    false
}

/// Whether the row of a leg's section is one that its route needs.
fn is_needed(track: &Track, leg: &Leg, route: RouteId, before: &Option<Leg>) -> bool
    ensures { result ≡ is_needed track.now leg.now.section
        (record { direction = leg.now.direction; route = route; before = before.now }) }
{
    match track.routes().get(route.index()) {
        Some(known) => needs(known, leg, before),
        None => false,
    }
}

/// Why a row can't be added: its section has one, or a section is locked behind the leg before.
fn row_fault(refusal: Refusal) -> SceneFault
    ensures { result ≡ row_fault refusal }
{
    match refusal {
        Refusal::LinkTaken(leg) => SceneFault::LinkTaken(leg),
        _ => SceneFault::Order,
    }
}

/// Adds a row that its route needs.
///
/// # Errors
///
/// `NotOfRoute`, where its route does not need it; then `Order` where its section has a row, and `LinkTaken` where another
/// section is locked behind the leg before. Nothing changes.
pub(crate) fn add_needed(
    track: &Track,
    locks: &mut Locks,
    leg: Leg,
    route: RouteId,
    before: Option<Leg>,
) -> Result<(), SceneFault>
    requires { length locks.old ≡ length track.now.sections }
    ensures { ChangesAs result locks.old locks.new (locks_with track.now locks.old leg route before) }
{
    let section = leg.section;
    if !is_needed(track, &leg, route, &before) {
        return Err(SceneFault::NotOfRoute(section, route));
    }
    // A track is sound: what a route needs is on its sections.
    track.known();
    match locks.add(leg, route, before) {
        Ok(()) => Ok(()),
        Err(refusal) => Err(row_fault(refusal)),
    }
}
