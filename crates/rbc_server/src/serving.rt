//! A centre that serves connections.

ghost use Rattle.std.specs.Prelude.{◌≡◌, ◌≢◌, ◌↔◌, ◌+◌, ◌<◌, ◌≤◌, [], List, Option, All, false, take, map, length, vec_len, vec_capacity, IsTrue, IsErrAnd, IfOk, IfErr, OnOk, Err};
ghost use Rattle.std.specs.Io.KnownBytes.{Appends};
ghost use Rattle.rbc_model.specs.Histories.{IsLegal};
ghost use Rattle.rbc_port.specs.Clients.{Coming, FewerCome, Parting, at_close};
ghost use Rattle.rbc_sessions.specs.Later.{IsLater};
ghost use Rattle.rbc_sessions.specs.Outcomes.{IsToldToOne};
ghost use Rattle.rbc_sessions.specs.Records.{begin_of, HistoryOnTrack};
ghost use Rattle.rbc_sessions.specs.Seats.{Seated};
ghost use Rattle.rbc_sessions.specs.declared.keeping.KeepFault.TheVariants.{Journal as KeeperFailed};
ghost use Rattle.rbc_server.specs.Connections.{AreParted, OneKnows};
ghost use Rattle.rbc_server.specs.Serving.{closed_line, AreKept, GoOn, IsAttended, IsClosed, IsCloseFault, IsCutOff, IsServed, IsServeFault, IsSweepFault};
ghost use Rattle.rbc_server.specs.declared.serving.ServeFault.TheVariants.{Port as PortFault, Write as WriteFault, Memory as NoMemory, Journal as JournalFault};
ghost use Rattle.rbc_server.specs.declared.staff.Staff.{Staff as Serving};

use crate::Staff;
use crate::bringing::{bring, bring_all};
use crate::connections::{ConnectFault, Connected, Parted, connect};
use crate::outcomes::{print_closed, print_outcomes};
use rbc_model::Memory;
use rbc_port::{Client, Clients, Closed};
use rbc_sessions::{
    CloseFault, Desk, DeskName, KeepFault, Keeper, OpenGate, Outcome, Record, Seat, SessionContext,
    Sight, sweep,
};
use rbc_streams::{Sink, Source, WriteFailed};
use std::alloc::{AllocError, Global};
use std::io::Eprint;
use std::sync::Wait;
use std::thread::Threads;
use std::time::Clock;
use thiserror::Error;

/// Why a centre that serves connections gives no record back.
#[derive(Debug, Drop, Error)]
pub enum ServeFault {
    /// A connection could not be accepted.
    #[error("no port")]
    Port,
    /// The writer failed.
    #[error("write fault")]
    Write,
    /// The allocator refused memory, or no thread could be started for a connection.
    #[error("out of memory")]
    Memory,
    /// A request could not be kept.
    #[error("journal fault")]
    Journal,
    /// The desk could not be closed.
    #[error("unmatched")]
    Close(CloseFault),
}

impl From<ConnectFault> for ServeFault {
    ghost use Rattle.rbc_server.specs.Serving.{serve_fault};

    ghost from_gives = { λ connect fault. fault ≡ serve_fault connect };

    fn from(fault: ConnectFault) -> ServeFault {
        match fault {
            ConnectFault::Port => ServeFault::Port,
            ConnectFault::Memory => ServeFault::Memory,
            ConnectFault::Journal => ServeFault::Journal,
        }
    }
}

impl From<AllocError> for ServeFault {
    ghost use Rattle.rbc_server.specs.declared.serving.ServeFault.TheVariants.{Memory as NoMemory};

    ghost from_gives = { λ _ fault. fault ≡ NoMemory };

    fn from(_refused: AllocError) -> ServeFault {
        ServeFault::Memory
    }
}

impl From<Memory> for ServeFault {
    ghost use Rattle.rbc_server.specs.declared.serving.ServeFault.TheVariants.{Memory as NoMemory};

    ghost from_gives = { λ _ fault. fault ≡ NoMemory };

    fn from(_refused: Memory) -> ServeFault {
        ServeFault::Memory
    }
}

impl From<WriteFailed> for ServeFault {
    ghost use Rattle.rbc_server.specs.declared.serving.ServeFault.TheVariants.{Write as WriteFault};

    ghost from_gives = { λ _ fault. fault ≡ WriteFault };

    fn from(_failed: WriteFailed) -> ServeFault {
        ServeFault::Write
    }
}

impl From<KeepFault> for ServeFault {
    ghost use Rattle.rbc_server.specs.Serving.{keep_fault};

    ghost from_gives = { λ kept fault. fault ≡ keep_fault kept };

    fn from(fault: KeepFault) -> ServeFault {
        match fault {
            KeepFault::Journal => ServeFault::Journal,
            KeepFault::Memory => ServeFault::Memory,
        }
    }
}

impl From<CloseFault> for ServeFault {
    ghost use Rattle.rbc_server.specs.declared.serving.ServeFault.TheVariants.{Close};

    ghost from_gives = { λ close fault. fault ≡ Close close };

    fn from(fault: CloseFault) -> ServeFault {
        ServeFault::Close(fault)
    }
}

/// What each of these seats was told is on the desk's track.
fn are_on_track<L: DeskName>(seats: &[Seat<L>])
    ensures { All (λ seat. seat.told.track ≡ L.opened.track) seats.now }
{
    for seat in seats {
        seat.known();
    }
}

/// The first of the seats that served clients is told all that the workers' were told, and by its committer the requests of all
/// trains that were granted something are kept, in the order of the entries.
///
/// # Errors
///
/// As [`SessionContext::keep_grants`] has them.
fn keep_swept<'a, L: DeskName, K: Keeper<L>, G, R: Wait>(
    alloc: Global,
    context: &SessionContext<'a, L, K, OpenGate, R>,
    visited: &mut Parted<L, K::Committer, G>,
    swept: &[Seat<L>],
    outcomes: &[Outcome],
) -> Result<(), KeepFault>
    requires some { 1 ≤ vec_len visited.old.seats }
    requires one_each { vec_len visited.old.committers ≡ vec_len visited.old.seats }
    requires told { (before : List Seated) × All (IsToldToOne before swept.now) outcomes.now }
    ensures kept { OnOk result (AreKept K.kept swept.now visited.old.seats.items visited.old.committers.items outcomes.now
        visited.new.seats.items visited.new.committers.items) }
    ensures journal { result ≡ Err KeeperFailed → OneKnows K.failed visited.new.committers.items }
    ensures committers { GoOn K.kept visited.old.committers.items visited.new.committers.items }
    ensures room { vec_capacity visited.new.seats ≡ vec_capacity visited.old.seats }
    ensures gone { visited.new.gone.items ≡ visited.old.gone.items }
{
    let Parted {
        seats,
        committers,
        ..
    } = visited;
    let first = &mut seats[0];
    bring(first, swept);
    context.keep_grants(alloc, &mut committers[0], first, outcomes)
}

/// What the first of these seats was told, as a moment of the desk's history.
fn first_sight<L: DeskName>(seats: &[Seat<L>]) -> Sight
    requires { 0 < length seats.now }
    ensures book { result.book ≡ L.book }
    ensures earlier { (log : HistoryOnTrack) → All (λ seat. IsLater seat.told log) seats.now → IsLater result.history log }
{
    seats[0].sight()
}

/// Behind sessions the workers are told what these were told, and serve a sweep. What it granted is kept, and its outcomes are
/// printed. The workers' seats join the sessions' seats.
///
/// # Errors
///
/// The first of these:
/// - `Memory`: the allocator refused it; nothing was printed,
/// - `Journal`: a request could not be kept; nothing was printed,
/// - `Write`: the writer failed.
#[tactic(auto, using(crate::proofs::ServingLemmas::go_on_same))]
fn sweep_behind<'a, L: DeskName + Send + Sync, K: Keeper<L>, G, W: Sink, T: Threads + Wait + Sync>(
    rt: &T,
    alloc: Global,
    context: &SessionContext<'a, L, K, OpenGate, T>,
    visited: &mut Parted<L, K::Committer, G>,
    workers: Vec<Seat<L>>,
    writer: &mut W,
) -> Result<(), ServeFault>
    requires going { W.failed writer.old ≡ false }
    requires some { 1 ≤ vec_len visited.old.seats }
    requires one_each { vec_len visited.old.committers ≡ vec_len visited.old.seats }
    requires workers { 1 ≤ vec_len workers }
    requires few { vec_len workers ≤ 72 }
    requires room { vec_len visited.old.seats + vec_len workers ≤ vec_capacity visited.old.seats }
    ensures attended { OnOk result ((coming : Option (List Coming)) (partings : List Parting) (staff : Serving L K.Committer) → staff.workers.items ≡ workers.items
        → AreParted K.kept coming staff.sittings.items visited.old.seats.items visited.old.committers.items partings
        → IsAttended K.kept L.opened.track coming partings staff visited.new.seats.items visited.new.committers.items (W.written writer.old) (W.written writer.new)) }
    ensures cut_off { result ≡ Err WriteFault → (coming : Option (List Coming)) (partings : List Parting) (staff : Serving L K.Committer) → staff.workers.items ≡ workers.items
        → AreParted K.kept coming staff.sittings.items visited.old.seats.items visited.old.committers.items partings
        → IsCutOff K.kept L.opened.track coming partings staff visited.new.committers.items (W.written writer.old) (W.written writer.new) }
    ensures committers { GoOn K.kept visited.old.committers.items visited.new.committers.items }
    ensures gone { visited.new.gone.items ≡ visited.old.gone.items }
    ensures unwritten { IfErr result (λ fault. fault ≢ WriteFault → writer.new ≡ writer.old) }
    ensures journal_failed { result ≡ Err JournalFault → OneKnows K.failed visited.new.committers.items }
    ensures write { (result ≡ Err WriteFault) ↔ IsTrue (W.failed writer.new) }
    ensures which { IfErr result IsSweepFault }
{
    // The track is sound, so what stands beyond an end, or in the way, is of the track.
    context.track.known();
    let workers = bring_all(workers, visited.seats.as_slice());
    are_on_track(workers.as_slice());
    let (mut workers, outcomes) = sweep(rt, alloc, context.desk, workers, &OpenGate);
    let outcomes = outcomes?;
    keep_swept(
        alloc,
        context,
        visited,
        workers.as_slice(),
        outcomes.as_slice(),
    )?;
    print_outcomes(context.track, outcomes.as_slice(), writer)?;
    visited.seats.append(&mut workers)?;
    Ok(())
}

/// Where serving clients ended with a fault: the fault, and what stands.
#[derive(Drop)]
pub struct Unserved<P, Q, G> {
    /// The fault.
    pub fault: ServeFault,
    /// The committers of the connections that there were, in order, as the fault left them.
    pub committers: Vec<Q>,
    /// What is left of each client that was served, in order.
    pub clients: Vec<G>,
    /// No more clients are accepted.
    pub port: Closed<P>,
}

/// Where serving clients ended with a fault: the fault, and what stands of connections whose seats are let go.
fn faulted<L: DeskName, P, Q, G>(
    fault: ServeFault,
    visited: Parted<L, Q, G>,
    port: Closed<P>,
) -> Unserved<P, Q, G>
    ensures { result ≡ record {
      fault = fault;
      committers = visited.committers;
      clients = visited.gone;
      port = port;
    } }
{
    let Parted {
        committers,
        gone: clients,
        ..
    } = visited;
    Unserved {
        fault,
        committers,
        clients,
        port,
    }
}

/// Serves a client from each of the sittings. Once all sessions have ended a sweep is made with the workers' seats, if there
/// are any. Gives all seats back, in their order, with the committers and what is left of the clients.
///
/// # Errors
///
/// The first of these:
/// - `Port`: a client could not be accepted; nothing was printed,
/// - `Memory`: the allocator refused it, or no thread could be started for a connection; nothing was printed,
/// - `Journal`: a request could not be kept, in a session or behind the sweep; nothing was printed,
/// - `Write`: the writer failed.
fn attend<
    'a,
    L: DeskName + Send + Sync,
    Q: Send + Drop,
    X: Send + Drop,
    K: Keeper<L, Committer = Q, Text = X> + Send + Sync,
    I: Source + Send + Drop,
    O: Sink + Send + Drop,
    G: Send + Drop,
    C: Client<Reader = I, Writer = O, Gone = G> + Send + Drop,
    P: Clients<Each = C> + Drop,
    W: Sink,
    T: Threads + Wait + Clock + Eprint + Sync,
>(
    rt: &T,
    alloc: Global,
    port: P,
    context: &SessionContext<'a, L, K, OpenGate, T>,
    staff: Staff<L, Q>,
    writer: &mut W,
) -> Result<(Parted<L, Q, G>, Closed<P>), Unserved<P, Q, G>>
    requires going { W.failed writer.old ≡ false }
    requires some { 1 ≤ vec_len staff.sittings }
    requires few { vec_len staff.sittings + vec_len staff.workers ≤ 72 }
    ensures attended { IfOk result (λ back. IsAttended K.kept L.opened.track (P.coming port) (map C.parting back.0.gone.items)
        staff back.0.seats.items back.0.committers.items (W.written writer.old) (W.written writer.new)) }
    ensures unwritten { IfErr result (λ unserved. unserved.fault ≢ WriteFault → writer.new ≡ writer.old) }
    ensures journal_failed { IfErr result (λ unserved. unserved.fault ≡ JournalFault → OneKnows K.failed unserved.committers.items) }
    ensures write { IsErrAnd result (λ unserved. unserved.fault ≡ WriteFault) ↔ IsTrue (W.failed writer.new) }
    ensures fault { IfErr result (λ unserved. IsServeFault K.kept L.opened (P.coming port) (P.coming (at_close unserved.port)) L.parts
        (map C.parting unserved.clients.items) staff unserved.committers.items (W.written writer.old) (W.written writer.new) unserved.fault) }
{
    let Staff { sittings, workers } = staff;
    let Connected {
        parted: mut visited,
        fault,
        port,
    } = connect(rt, alloc, port, context, sittings, workers.len());
    if let Some(fault) = fault {
        return Err(faulted(ServeFault::from(fault), visited, port));
    }
    if workers.is_empty() {
        return Ok((visited, port));
    }
    match sweep_behind(rt, alloc, context, &mut visited, workers, writer) {
        Ok(()) => Ok((visited, port)),
        Err(fault) => Err(faulted(fault, visited, port)),
    }
}

/// Closes the desk, and prints how many entries the record has.
///
/// # Errors
///
/// - `Close`: the desk could not be closed,
/// - `Write`: the writer failed.
pub fn close_desk<L: DeskName, W: Sink, T: Wait>(
    rt: &T,
    desk: Desk<L>,
    seats: Vec<Seat<L>>,
    writer: &mut W,
) -> Result<Record, ServeFault>
    requires { W.failed writer.old ≡ false }
    ensures closing { IfOk result (IsClosed L.opened seats.items) }
    ensures grown { IfOk result (λ log. take (length L.opened.entries) log.entries ≡ L.opened.entries) }
    ensures track { IfOk result (λ log. log.track ≡ L.opened.track) }
    ensures begin { IfOk result (λ log. log.begin ≡ L.opened.begin) }
    ensures most { IfOk result (λ log. log.most ≡ L.opened.most) }
    ensures legal { IfOk result (λ log. IsLegal (begin_of log) log.entries) }
    ensures text { IfOk result (λ log.
        Appends (W.written writer.old) (W.written writer.new) (closed_line (length log.entries))) }
    ensures handed_on { OnOk result (W.held_back writer.new ≡ []) }
    ensures write { (result ≡ Err WriteFault) ↔ IsTrue (W.failed writer.new) }
    ensures fault { IfErr result
        (IsCloseFault L.opened L.parts seats.items (W.written writer.old) (W.written writer.new)) }
{
    let log = desk.close(rt, seats)?;
    print_closed(log.version(), writer)?;
    Ok(log)
}

/// What serving clients gives back: the record, what was told of it, the committers, and what is left of the clients, in the order
/// in which they came.
#[derive(Drop)]
pub struct Served<Q, G> {
    /// The record, with the receipts of all seats.
    pub record: Record,
    /// All that any seat was told before the desk was closed, as a moment of its history.
    pub told: Sight,
    /// The committers of the connections, in order.
    pub committers: Vec<Q>,
    /// What is left of each client, which tells how its session ended.
    pub clients: Vec<G>,
}

/// Serves a client from each of the sittings at a desk, in the order in which they come, each in a session with a thread of
/// its own. A fault of a session ends its connection, and no other: how each session ended is told by what is left of its
/// client. Once all have ended, each train is served once more in a sweep with the workers' seats, and its outcomes are printed;
/// where there are no workers there is no sweep. Then the desk is closed, and how many entries the record has is printed. A reply that tells of an entry is written, and an
/// outcome that does is printed, once the request that led to it is kept. The desk is ended on each way out.
///
/// # Errors
///
/// The first of these. The sessions that were begun have ended then; the committers come back, and what is left of each client that
/// was served.
/// - `Port`: a client could not be accepted; nothing was printed,
/// - `Memory`: the allocator refused it, or no thread could be started for a connection; nothing was printed,
/// - `Journal`: a request could not be kept, in a session or behind the sweep; nothing was printed,
/// - `Write`: the writer failed,
/// - `Close`: the desk could not be closed.
pub fn serve<
    L: DeskName + Send + Sync,
    Q: Send + Drop,
    X: Send + Drop,
    K: Keeper<L, Committer = Q, Text = X> + Send + Sync,
    I: Source + Send + Drop,
    O: Sink + Send + Drop,
    G: Send + Drop,
    C: Client<Reader = I, Writer = O, Gone = G> + Send + Drop,
    P: Clients<Each = C> + Drop,
    W: Sink,
    T: Threads + Wait + Clock + Eprint + Sync,
>(
    rt: &T,
    alloc: Global,
    port: P,
    keeper: &K,
    desk: Desk<L>,
    staff: Staff<L, Q>,
    writer: &mut W,
) -> Result<Served<Q, G>, Unserved<P, Q, G>>
    requires going { W.failed writer.old ≡ false }
    requires some { 1 ≤ vec_len staff.sittings }
    requires few { vec_len staff.sittings + vec_len staff.workers ≤ 72 }

    // The record goes on from the one at the desk's opening, and is legal.
    ensures grown { IfOk result (λ served. take (length L.opened.entries) served.record.entries ≡ L.opened.entries) }
    ensures track { IfOk result (λ served. served.record.track ≡ L.opened.track) }
    ensures begin { IfOk result (λ served. served.record.begin ≡ L.opened.begin) }
    ensures most { IfOk result (λ served. served.record.most ≡ L.opened.most) }
    ensures legal { IfOk result (λ served. IsLegal (begin_of served.record) served.record.entries) }

    // The clients that came, in order, were served from the seats, in order: what each said was answered to it, line by
    // line, and what is left of it tells how far, and why no further. What led to the entries that it was told of is kept.
    // Where there are workers, the sweep is of a history that goes on from all that these sessions were told, and what it
    // granted is kept too; where there are none, there is none. No receipt is lost, and nothing that a seat was told. What was
    // written tells what came of the sweep, and then how many entries the record has.
    ensures served { IfOk result (λ served. IsServed K.kept L.opened (P.coming port) (map C.parting served.clients.items)
        staff served.committers.items (W.written writer.old) (W.written writer.new) served.record) }
    ensures handed_on { OnOk result (W.held_back writer.new ≡ []) }

    // The record is what was told of it, or goes on from that.
    ensures book { IfOk result (λ served. served.told.book ≡ L.book) }
    ensures told { IfOk result (λ served. IsLater served.told.history served.record) }

    // Where a client could not be had, memory was refused or a request could not be kept, nothing is written; and where it is
    // known who comes, fewer come than are to be served. That a request could not be kept is told only where a committer knows that
    // keeping has failed. A write fault is answered exactly where the writer failed.
    ensures port { IfErr result (λ unserved. unserved.fault ≡ PortFault → writer.new ≡ writer.old) }
    ensures no_client { IfErr result (λ unserved. unserved.fault ≡ PortFault → FewerCome (P.coming port) (vec_len staff.sittings)) }
    ensures memory { IfErr result (λ unserved. unserved.fault ≡ NoMemory → writer.new ≡ writer.old) }
    ensures journal { IfErr result (λ unserved. unserved.fault ≡ JournalFault → writer.new ≡ writer.old) }
    ensures journal_failed { IfErr result (λ unserved. unserved.fault ≡ JournalFault → OneKnows K.failed unserved.committers.items) }
    ensures write { IsErrAnd result (λ unserved. unserved.fault ≡ WriteFault) ↔ IsTrue (W.failed writer.new) }

    // What stands behind a fault: of the clients that came, in order, all were served, line by line, but maybe the last one where
    // memory was refused. The committers come back, and what is left of these clients. Behind a write fault a part of the text is
    // written, from its start. Where the desk can't be closed the outcomes are told.
    ensures fault { IfErr result (λ unserved. IsServeFault K.kept L.opened (P.coming port) (P.coming (at_close unserved.port)) L.parts
        (map C.parting unserved.clients.items) staff unserved.committers.items (W.written writer.old) (W.written writer.new) unserved.fault) }
{
    let attended = attend(
        rt,
        alloc,
        port,
        &SessionContext::new(&desk, keeper, &OpenGate, rt),
        staff,
        writer,
    );
    match attended {
        Ok((visited, port)) => {
            let Parted {
                seats,
                committers,
                gone: clients,
            } = visited;
            let told = first_sight(seats.as_slice());
            match close_desk(rt, desk, seats, writer) {
                Ok(record) => Ok(Served {
                    record,
                    told,
                    committers,
                    clients,
                }),
                Err(fault) => Err(Unserved {
                    fault,
                    committers,
                    clients,
                    port,
                }),
            }
        }
        Err(unserved) => {
            desk.end(rt);
            Err(unserved)
        }
    }
}
