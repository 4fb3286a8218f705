//! What is told and asked in the examples: of records, and at desks.

ghost use Rattle.std.specs.Prelude.{◌≡◌};
ghost use Rattle.std.specs.Arc.{arc_value};
ghost use Rattle.rbc_sweep.specs.Steps.{IsOfTrack};

use rbc_model::{OrMemory, Told, TrainId};
use rbc_sweep::{
    ApplyFault, AskFault, Candidate, Desk, DeskName, Gate, Granted, Receipt, Record, Seat,
    candidate,
};
use rbc_track::Track;
use rbc_trackfile::read;
use rbc_words::{Request, parse};
use std::alloc::Global;
use std::process::Abort;
use std::sync::{Arc, Wait};
use std::thread::Threads;

/// What a line tells.
pub(super) fn told_by(rt: &impl Abort, track: &Track, line: &str) -> Told
    ensures { IsOfTrack track.now result }
{
    match parse(line.as_bytes()).expect(rt, "a request") {
        Request::Report(report) => Told::Report(report),
        Request::Lock(name) => Told::Lock(track.route(name).expect(rt, "a route")),
        Request::Free(name) => Told::Free(track.section(name).expect(rt, "a section")),
        Request::Leave(train) => Told::Leave(train),
        Request::GiveBack(train, end) => Told::GiveBack(train, end),
        _ => panic!(rt; "nothing is told"),
    }
}

/// The record of a track file in which nothing was told yet. None where memory is refused.
fn made(alloc: Global, file: &str) -> Option<Record> {
    let track = read(alloc, file.as_bytes()).ok()?;
    let shared = Arc::new(alloc, track).ok()?;
    Record::new(alloc, shared).ok()
}

/// An empty record, which is made a second time where memory is refused.
fn empty_record(rt: &impl Abort, alloc: Global, file: &str) -> Record {
    match made(alloc, file) {
        Some(history) => history,
        None => made(alloc, file).expect(rt, "a track"),
    }
}

/// The record of a track file in which these lines are told.
pub(super) fn record_of(rt: &impl Abort, alloc: Global, file: &str, lines: &[&str]) -> Record {
    let mut history = empty_record(rt, alloc, file);
    for line in lines {
        let told = told_by(rt, history.track(), line);
        let _receipt = history.apply(alloc, &told).expect(rt, "an entry");
    }
    history
}

/// The record's track, which goes on when the record is gone.
pub(super) fn shared_track(rt: &impl Abort, history: &Record) -> Arc<Track>
    ensures { arc_value result ≡ history.now.track }
{
    Arc::try_clone(history.track()).expect(rt, "fewer shares")
}

/// What the train may be granted now.
pub(super) fn offered<R: Threads + Abort + AllocGlobal + Sync>(
    rt: &R,
    history: &Record,
    train: u32,
) -> Candidate {
    let view = history
        .view(rt.alloc(), TrainId::new(train))
        .expect(rt, "a view");
    candidate(rt, rt.alloc(), view, history.version()).expect(rt, "room")
}

/// Tells the desk what the line tells.
pub(super) fn tell<L: DeskName, R: Wait + Abort>(
    rt: &R,
    alloc: Global,
    desk: &Desk<L>,
    track: &Track,
    seat: &mut Seat<L>,
    line: &str,
) -> Result<Receipt, OrMemory<ApplyFault>>
    requires { track.now ≡ L.opened.track }
{
    let told = told_by(rt, track, line);
    desk.event(rt, alloc, seat, told)
}

/// Tells the desk what the line tells, to be published later, and gives the place of its entry.
pub(super) fn tell_ahead<L: DeskName, R: Wait + Abort>(
    rt: &R,
    alloc: Global,
    desk: &Desk<L>,
    track: &Track,
    seat: &mut Seat<L>,
    line: &str,
) -> u64
    requires { track.now ≡ L.opened.track }
{
    let told = told_by(rt, track, line);
    let mut hold = desk.hold(rt);
    let receipt = hold.event(rt, alloc, seat, &told);
    hold.leave();
    receipt.ok().expect(rt, "a receipt").place()
}

/// The train asks at the desk.
pub(super) fn ask<L: DeskName, R: Threads + Wait + AllocGlobal + Sync, G: Gate>(
    rt: &R,
    desk: &Desk<L>,
    seat: &mut Seat<L>,
    train: u32,
    gate: &G,
) -> Result<Granted, OrMemory<AskFault>> {
    desk.ask(rt, rt.alloc(), seat, TrainId::new(train), gate)
}

/// The record of a desk to which all seats are handed back.
pub(super) fn closed<L: DeskName, R: Wait + Abort>(
    rt: &R,
    desk: Desk<L>,
    seats: Vec<Seat<L>>,
) -> Record {
    desk.close(rt, seats)
        .ok()
        .expect(rt, "the receipts are the history")
}
