//! The lines of a history, as a text in memory.

ghost use Rattle.std.specs.Prelude.{◌≡◌, ◌++◌, true, false, IfOk, IfSome};
ghost use Rattle.rbc_model.specs.HistoryText.{IsToldOfTrack};
ghost use Rattle.rbc_page.specs.Histories.{IsLineOf, end_of, event_request, lines_from, request_line};
ghost use Rattle.rbc_words.specs.SessionLines.{request_view};

use rbc_desk::{DeskName, Seat};
use rbc_model::{Event, Memory, Told};
use rbc_streams::Text;
use rbc_track::Track;
use rbc_words::{Request, print_request, told_request};
use std::alloc::Global;

/// Whether the route or the section that is told is one of the track's.
fn is_told_of_track(track: &Track, told: &Told) -> bool
    ensures { result ≡ true → IsToldOfTrack track.now told.now }
{
    match *told {
        Told::Lock(route) => route.index() < track.route_count(),
        Told::Free(section) => section.index() < track.section_count(),
        Told::Report(_) | Told::Leave(_) | Told::GiveBack(_, _) => true,
    }
}

/// The request that leads to an event, unless that is of another track.
fn request_of(track: &Track, event: &Event) -> Option<Request>
    ensures { IfSome result (λ request. request_view request ≡ event_request track.now event.now) }
{
    match event {
        Event::Tell(told) => {
            if !is_told_of_track(track, told) {
                return None;
            }
            Some(told_request(track, told))
        }
        Event::Grant(train, _) => Some(Request::Ask(*train)),
    }
}

/// Writes the line of a request behind a text.
fn put_request(text: &mut Text, request: &Request) -> Result<(), Memory>
    requires going { text.old.failed ≡ false }
    ensures going { IfOk result (λ done. text.new.failed ≡ false) }
    ensures line { IfOk result (λ done. text.new.bytes.items ≡ text.old.bytes.items ++ request_line (request_view request.now)) }
{
    match print_request(request, text) {
        Ok(()) => Ok(()),
        Err(_) => Err(Memory),
    }
}

/// Writes the line of the entry at a place of the history that the seat was told.
fn put_line<L: DeskName>(
    text: &mut Text,
    track: &Track,
    seat: &Seat<L>,
    place: u64,
) -> Result<(), Memory>
    requires going { text.old.failed ≡ false }
    ensures going { IfOk result (λ done. text.new.failed ≡ false) }
    ensures line { IfOk result (λ done. IsLineOf track.now seat.now.told place text.old.bytes.items text.new.bytes.items) }
{
    let Some(event) = seat.event(place) else {
        return Err(Memory);
    };
    let Some(request) = request_of(track, &event) else {
        return Err(Memory);
    };
    put_request(text, &request)
}

/// How many lines of a history are told at once: whoever wants more asks again from there on.
pub(crate) const MOST_TOLD: u64 = 100_000;

/// Up to which place the lines of a history with so many entries are told, from a place on.
fn end_of(from: u64, version: u64) -> u64
    ensures { result ≡ end_of from version }
{
    if version > from && version - from > MOST_TOLD {
        from + MOST_TOLD
    } else {
        version
    }
}

/// The lines of the history that the seat was told, from this place on, 100,000 at most.
///
/// # Errors
///
/// [`Memory`]: there is none for them, or the desk has not put all its entries where they are read.
pub(crate) fn history_lines<L: DeskName>(
    alloc: Global,
    track: &Track,
    seat: &Seat<L>,
    from: u64,
) -> Result<Vec<u8>, Memory>
    requires track { track.now ≡ seat.now.told.track }
    ensures { IfOk result (λ text. text.items ≡ lines_from seat.now.told from) }
{
    let mut text = Text::new(alloc);
    for place in from..end_of(from, seat.version()) {
        put_line(&mut text, track, seat, place)?;
    }
    Ok(text.bytes)
}
