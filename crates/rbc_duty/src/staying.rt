//! A centre that stays up until its end is asked for.

ghost use Rattle.std.specs.Prelude.{◌≡◌, ◌≢◌, ◌↔◌, ◌≤◌, ◌<◌, ◌+◌, ◌^◌, ◌++◌, [], List, None, Some, All, false, take, map, length, vec_len, vec_capacity, IsTrue, IsErrAnd, IfOk, IfErr, IfSome, OnOk, option_to_list};
ghost use Rattle.std.specs.List.{list_any};
ghost use Rattle.rbc_model.specs.Histories.{IsLegal};
ghost use Rattle.rbc_server.specs.Connections.{OneKnows};
ghost use Rattle.rbc_server.specs.Later.{IsLater};
ghost use Rattle.rbc_server.specs.Looking.{LooksOn};
ghost use Rattle.rbc_server.specs.Records.{begin_of, HistoryOnTrack};
ghost use Rattle.rbc_server.specs.declared.serving.ServeFault.TheVariants.{Port as PortFault, Write as WriteFault, Memory as NoMemory, Journal as JournalFault};
ghost use Rattle.rbc_duty.specs.Stays.{AreRelieved, IsStayed, IsStayFault, StandsRelieved, duty_fault};

use crate::{Duty, Post, Stood, stand_all};
use rbc_port::{Client, Clients, Closing};
use rbc_server::{
    Desk, DeskName, Keeper, Onlooker, OpenGate, Record, Seat, ServeFault, SessionContext, Sight,
    Sitting, close_desk,
};
use rbc_streams::{Sink, Source};
use std::alloc::{AllocError, Global};
use std::io::Eprint;
use std::sync::Wait;
use std::thread::Threads;
use std::time::Clock;

/// The seats and the committers, each in order.
#[derive(Drop)]
struct Parted<L: DeskName, Q> {
    seats: Vec<Seat<L>>,
    committers: Vec<Q>,
}

/// The seats and the committers of these duties, in the room that is there for them.
fn part_all<L: DeskName, Q: Drop>(duties: Vec<Duty<L, Q>>, room: Parted<L, Q>) -> Parted<L, Q>
    requires no_seat { vec_len room.seats ≡ 0 }
    requires no_committer { vec_len room.committers ≡ 0 }
    requires room_for_seats { vec_len duties ≤ vec_capacity room.seats }
    requires room_for_committers { vec_len duties ≤ vec_capacity room.committers }
    ensures seats { result.seats.items ≡ map (λ duty. duty.sitting.seat) duties.items }
    ensures committers { result.committers.items ≡ map (λ duty. duty.sitting.committer) duties.items }
    ensures room { vec_capacity result.seats ≡ vec_capacity room.seats }
{
    let Parted {
        mut seats,
        mut committers,
    } = room;
    for duty in duties {
        let Duty { sitting, .. } = duty;
        let Sitting {
            seat,
            committer,
            ..
        } = sitting;
        seats.push_reserved(seat);
        committers.push_reserved(committer);
    }
    Parted { seats, committers }
}

/// Whether a request could not be kept in one of these duties.
fn any_failed<L: DeskName, Q>(duties: &[Duty<L, Q>]) -> bool
    ensures { result ≡ list_any (λ duty. duty.sitting.has_failed) duties.now }
{
    duties.iter().any(|duty| duty.sitting.has_failed)
}

/// Whether in one of these duties no client could be accepted any more.
fn any_lost<L: DeskName, Q>(duties: &[Duty<L, Q>]) -> bool
    ensures { result ≡ list_any (λ duty. duty.is_port_lost) duties.now }
{
    duties.iter().any(|duty| duty.is_port_lost)
}

/// The first fault of these duties, if there is one.
fn fault_in<L: DeskName, Q>(all_begun: bool, duties: &[Duty<L, Q>]) -> Option<ServeFault>
    ensures { result ≡ duty_fault all_begun (list_any (λ duty. duty.sitting.has_failed) duties.now)
        (list_any (λ duty. duty.is_port_lost) duties.now) }
{
    if !all_begun {
        Some(ServeFault::Memory)
    } else if any_failed(duties) {
        Some(ServeFault::Journal)
    } else if any_lost(duties) {
        Some(ServeFault::Port)
    } else {
        None
    }
}

/// Room for what duties leave.
struct Room<L: DeskName, Q> {
    duties: Vec<Duty<L, Q>>,
    parted: Parted<L, Q>,
}

/// Room for this number of duties, and for one seat more.
///
/// # Errors
///
/// The allocator refuses memory.
fn room_for<L: DeskName, Q: Drop>(alloc: Global, count: usize) -> Result<Room<L, Q>, AllocError>
    requires { count < 2 ^ 63 }
    ensures duties { IfOk result (λ room. (vec_len room.duties ≡ 0) × (vec_capacity room.duties ≡ count)) }
    ensures seats { IfOk result (λ room. (vec_len room.parted.seats ≡ 0) × (vec_capacity room.parted.seats ≡ count + 1)) }
    ensures committers { IfOk result (λ room. (vec_len room.parted.committers ≡ 0) × (vec_capacity room.parted.committers ≡ count)) }
{
    Ok(Room {
        duties: Vec::with_capacity(alloc, count)?,
        parted: Parted {
            seats: Vec::with_capacity(alloc, count + 1)?,
            committers: Vec::with_capacity(alloc, count)?,
        },
    })
}

/// The seats and the committers of those that were on duty, each in order, why the centre may not end well, and who looked on.
#[derive(Drop)]
struct Relieved<L: DeskName, Q, B> {
    parted: Parted<L, Q>,
    fault: Option<ServeFault>,
    onlooker: B,
}

/// Where there was no room for any duty.
fn none_relieved<L: DeskName, Q, B>(alloc: Global, onlooker: B) -> Relieved<L, Q, B>
    ensures committers { result.parted.committers.items ≡ [] }
    ensures fault { result.fault ≡ Some NoMemory }
{
    Relieved {
        parted: Parted {
            seats: Vec::new(alloc),
            committers: Vec::new(alloc),
        },
        fault: Some(ServeFault::Memory),
        onlooker,
    }
}

/// Serves the clients that come to each of these posts, until the end is asked for. Gives the seats and the committers back in their
/// order, and the first of these faults:
/// - `Memory`: no thread could be started for a post, or there was no room,
/// - `Journal`: a request could not be kept,
/// - `Port`: no client could be accepted any more.
fn attend<
    'a,
    L: DeskName + Send + Sync,
    Q: Send + Drop,
    X: Send + Drop,
    K: Keeper<L, Committer = Q, Text = X> + Send + Sync,
    I: Source + Send + Drop,
    O: Sink + Send + Drop,
    G: Send + Drop,
    C: Client<Reader = I, Writer = O, Gone = G> + Send + Drop,
    P: Clients<Each = C> + Send + Drop,
    B: Onlooker<L> + Drop,
    E: Closing + Sync,
    T: Threads + Wait + Clock + Eprint + Sync,
>(
    rt: &T,
    alloc: Global,
    context: &SessionContext<'a, L, K, OpenGate, T>,
    closing: &E,
    posts: Vec<Post<L, Q, P>>,
    onlooker: B,
) -> Relieved<L, Q, B>
    ensures relieved { result.fault ≡ None → AreRelieved K.kept (map (λ post. P.coming post.port) posts.items)
        (map (λ post. post.sitting) posts.items) result.parted.seats.items result.parted.committers.items }
    ensures count { result.fault ≡ None → vec_len result.parted.seats ≡ vec_len posts }
    ensures stands { IfSome result.fault (StandsRelieved K.kept (map (λ post. P.coming post.port) posts.items)
        (map (λ post. post.sitting) posts.items) result.parted.committers.items) }
    ensures journal { result.fault ≡ Some JournalFault → OneKnows K.failed result.parted.committers.items }
    ensures looks { result.fault ≡ None → LooksOn (B.seat onlooker) (B.seat result.onlooker) }
    ensures room { result.fault ≡ None → vec_len result.parted.seats < vec_capacity result.parted.seats }
{
    let Ok(Room { duties, parted }) = room_for(alloc, posts.len()) else {
        return none_relieved(alloc, onlooker);
    };
    let Stood {
        duties,
        all_begun,
        onlooker,
    } = stand_all(rt, alloc, context, closing, posts, duties, onlooker);
    let fault = fault_in(all_begun, duties.as_slice());
    Relieved {
        parted: part_all(duties, parted),
        fault,
        onlooker,
    }
}

/// These seats, and that of an onlooker behind them, in the room that is there for it.
fn with_looker<L: DeskName>(mut seats: Vec<Seat<L>>, looker: Option<Seat<L>>) -> Vec<Seat<L>>
    requires { vec_len seats < vec_capacity seats }
    ensures seats { result.items ≡ seats.items ++ option_to_list looker }
    ensures some { vec_len seats ≤ vec_len result }
{
    if let Some(looker) = looker {
        seats.push_reserved(looker);
    }
    seats
}

/// The last moment of the desk's history that one of these seats was told: by then it has all that any of them was told.
fn last_sight<L: DeskName>(seats: &[Seat<L>]) -> Sight
    requires { 0 < length seats.now }
    ensures book { result.book ≡ L.book }
    ensures earlier { (log : HistoryOnTrack) → All (λ seat. IsLater seat.told log) seats.now → IsLater result.history log }
{
    let mut last = seats[0].sight();
    for seat in seats {
        let sight = seat.sight();
        if last.is_behind(&sight) {
            last = sight;
        }
    }
    last
}

/// What a centre that stayed up leaves.
#[derive(Drop)]
pub struct Stayed<Q> {
    /// The record, with the receipts of all seats.
    pub record: Record,
    /// All that any seat was told before the desk was closed, as a moment of its history.
    pub told: Sight,
    /// The committers of the seats, in order.
    pub committers: Vec<Q>,
}

/// Where it ended with a fault: the fault, and what stands.
#[derive(Drop)]
pub struct Unstayed<Q> {
    /// The fault.
    pub fault: ServeFault,
    /// The committers of the seats that were on duty, in order, as the fault left them.
    pub committers: Vec<Q>,
}

/// Who has the seats of a desk that stays up.
#[derive(Drop)]
pub struct Company<L: DeskName, Q, P, B> {
    /// The posts, in order.
    pub posts: Vec<Post<L, Q, P>>,
    /// Who looks on, or nobody.
    pub onlooker: B,
}

/// Serves the clients that come to each post of this company at a desk, until the end is asked for, while its onlooker looks at it; then
/// closes the desk, and prints how many entries the record has. Each post serves its clients one after the other, in a thread of
/// its own. A fault of a session ends its connection, and no other. A reply that tells of an entry is written once the request
/// that led to it is kept. The desk is ended on each way out.
///
/// # Errors
///
/// The first of these. All seats have left their posts then, and the committers come back.
/// - `Memory`: the allocator refused it, or no thread could be started for a post; nothing was printed,
/// - `Journal`: a request could not be kept; nothing was printed,
/// - `Port`: no client could be accepted any more, though the end had not been asked for; nothing was printed,
/// - `Write`: the writer failed,
/// - `Close`: the desk could not be closed.
pub fn stay<
    L: DeskName + Send + Sync,
    Q: Send + Drop,
    X: Send + Drop,
    K: Keeper<L, Committer = Q, Text = X> + Send + Sync,
    I: Source + Send + Drop,
    O: Sink + Send + Drop,
    G: Send + Drop,
    C: Client<Reader = I, Writer = O, Gone = G> + Send + Drop,
    P: Clients<Each = C> + Send + Drop,
    B: Onlooker<L> + Drop,
    E: Closing + Sync,
    W: Sink,
    T: Threads + Wait + Clock + Eprint + Sync,
>(
    rt: &T,
    alloc: Global,
    keeper: &K,
    closing: &E,
    desk: Desk<L>,
    company: Company<L, Q, P, B>,
    writer: &mut W,
) -> Result<Stayed<Q>, Unstayed<Q>>
    requires going { W.failed writer.old ≡ false }
    requires some { 1 ≤ vec_len company.posts }

    // The record goes on from the one at the desk's opening, and is legal.
    ensures grown { IfOk result (λ stayed. take (length L.opened.entries) stayed.record.entries ≡ L.opened.entries) }
    ensures track { IfOk result (λ stayed. stayed.record.track ≡ L.opened.track) }
    ensures begin { IfOk result (λ stayed. stayed.record.begin ≡ L.opened.begin) }
    ensures most { IfOk result (λ stayed. stayed.record.most ≡ L.opened.most) }
    ensures legal { IfOk result (λ stayed. IsLegal (begin_of stayed.record) stayed.record.entries) }

    // The clients that came to each seat, in order, were served from it, each from what the one before left: what each said was
    // answered to it, line by line. None that was accepted is left out, and none was served twice. What led to the entries that
    // it was told of is kept, by what the committers that come back know. The receipts of all these clients are the entries since the
    // desk was opened: the seat of the onlooker, which is closed with theirs, has gained none. What was written tells how many
    // entries the record has.
    ensures stayed { IfOk result (λ stayed. IsStayed K.kept L.opened (map (λ post. P.coming post.port) company.posts.items)
        (map (λ post. post.sitting) company.posts.items) (B.seat company.onlooker) stayed.committers.items (W.written writer.old) (W.written writer.new) stayed.record) }
    ensures handed_on { OnOk result (W.held_back writer.new ≡ []) }

    // The record is what was told of it, or goes on from that.
    ensures book { IfOk result (λ stayed. stayed.told.book ≡ L.book) }
    ensures told { IfOk result (λ stayed. IsLater stayed.told.history stayed.record) }

    // Where a seat lost its port, memory was refused or a request could not be kept, nothing is written. That a request could not
    // be kept is told only where a committer knows that keeping has failed. A write fault is answered exactly where the writer failed.
    ensures port { IfErr result (λ unstayed. unstayed.fault ≡ PortFault → writer.new ≡ writer.old) }
    ensures memory { IfErr result (λ unstayed. unstayed.fault ≡ NoMemory → writer.new ≡ writer.old) }
    ensures journal { IfErr result (λ unstayed. unstayed.fault ≡ JournalFault → writer.new ≡ writer.old) }
    ensures journal_failed { IfErr result (λ unstayed. unstayed.fault ≡ JournalFault → OneKnows K.failed unstayed.committers.items) }
    ensures write { IsErrAnd result (λ unstayed. unstayed.fault ≡ WriteFault) ↔ IsTrue (W.failed writer.new) }

    // What stands behind a fault: the seats were on duty, and the clients that came to them were served, but for the seats for
    // which no thread could be started, and any behind them; and the committers are of those on duty. Where a port was lost, no more
    // clients come by it, where it is known who comes. Behind a write fault a part of the last line is written, from its start.
    ensures fault { IfErr result (λ unstayed. IsStayFault K.kept L.opened L.parts (map (λ post. P.coming post.port) company.posts.items)
        (map (λ post. post.sitting) company.posts.items) (B.seat company.onlooker) unstayed.committers.items (W.written writer.old) (W.written writer.new) unstayed.fault) }
{
    let Company { posts, onlooker } = company;
    let Relieved {
        parted,
        fault,
        onlooker,
    } = attend(
        rt,
        alloc,
        &SessionContext::new(&desk, keeper, &OpenGate, rt),
        closing,
        posts,
        onlooker,
    );
    let Parted { seats, committers } = parted;
    if let Some(fault) = fault {
        desk.end(rt);
        return Err(Unstayed { fault, committers });
    }
    let seats = with_looker(seats, onlooker.into_seat());
    let told = last_sight(seats.as_slice());
    match close_desk(rt, desk, seats, writer) {
        Ok(record) => Ok(Stayed {
            record,
            told,
            committers,
        }),
        Err(fault) => Err(Unstayed { fault, committers }),
    }
}
