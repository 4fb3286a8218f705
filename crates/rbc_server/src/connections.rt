//! Connections, each with a thread and a seat of its own.

ghost use Rattle.std.specs.Prelude.{◌≡◌, ◌+◌, ◌≤◌, ◌<◌, ◌^◌, List, [], All, false, map, IfOk, IfSome, Some, None, vec_len, vec_capacity};
ghost use Rattle.std.specs.List.{AllZip, list_any};
ghost use Rattle.std.specs.Thread.{IsSend, IsSync};
ghost use Rattle.rbc_port.specs.Clients.{at_close};
ghost use Rattle.rbc_server.specs.Connections.{AreParted, AreServed, IsConnection, OneKnows, StandsConnected, TellsFailure, fault_of};
ghost use Rattle.rbc_server.specs.declared.connections.ConnectFault.TheVariants.{Memory as NoThread, Journal as NotKeptInSession};

use rbc_port::{Client, Clients, Closed, Ends, PortFailed};
use rbc_sessions::{
    DeskName, Keeper, OpenGate, Seat, SessionContext, SessionEnd, Sitting, session,
};
use rbc_streams::{Sink, Source};
use std::alloc::{AllocError, Global};
use std::io::Eprint;
use std::marker::PhantomData;
use std::snapshot::Snapshot;
use std::sync::Wait;
use std::thread;
use std::thread::{Promise, PromisedHandle, Threads};
use std::time::Clock;

/// Why not all connections were served.
#[derive(Clone, Copy, Debug, PartialEq, Eq)]
pub(crate) enum ConnectFault {
    /// A connection could not be accepted.
    Port,
    /// No thread could be started for a connection, or there was no room for the seats.
    Memory,
    /// A request could not be kept.
    Journal,
}

impl From<PortFailed> for ConnectFault {
    ghost use Rattle.rbc_server.specs.declared.connections.ConnectFault.TheVariants.{Port as NoClient};

    ghost from_gives = { λ _ fault. fault ≡ NoClient };

    fn from(_failed: PortFailed) -> ConnectFault {
        ConnectFault::Port
    }
}

/// A sitting that a client was served from, and what is left of the client.
#[derive(Drop)]
pub struct Visit<L: DeskName, Q, G> {
    /// The sitting, after it.
    pub sitting: Sitting<L, Q>,
    /// What is left of the client, which tells how its session ended.
    pub gone: G,
}

/// The client is served from the sitting.
#[derive(Drop)]
struct Serves<L: DeskName, K, Q, C>(Snapshot<Sitting<L, Q>>, Snapshot<C>, PhantomData<K>);

impl<L: DeskName, K: Keeper<L, Committer = Q>, Q, G, C: Client<Gone = G>> Promise<Visit<L, Q, G>>
    for Serves<L, K, Q, C> {
    ghost use Rattle.rbc_server.specs.Connections.{IsConnection, TellsFailure};

    ghost kept_by = { λ promise visit. IsConnection K.kept (record {
      came = C.coming promise.1.value;
      before = promise.0.value;
      after = visit.sitting;
      went = C.parting visit.gone;
    }) × TellsFailure K.failed visit.sitting };
}

/// A session with a client, from this sitting. A fault of the session ends the connection, and nothing else.
pub fn connection<
    'a,
    L: DeskName,
    Q: Drop,
    X: Drop,
    K: Keeper<L, Committer = Q, Text = X>,
    I: Source + Drop,
    O: Sink + Drop,
    G,
    C: Client<Reader = I, Writer = O, Gone = G>,
    T: Threads + Wait + Clock + Eprint + Sync,
>(
    rt: &T,
    alloc: Global,
    context: &SessionContext<'a, L, K, OpenGate, T>,
    sitting: Sitting<L, Q>,
    client: C,
) -> Visit<L, Q, G>
    ensures served { IsConnection K.kept (record {
      came = C.coming client;
      before = sitting;
      after = result.sitting;
      went = C.parting result.gone;
    }) }
    ensures failed { TellsFailure K.failed result.sitting }
{
    let Sitting {
        seat,
        committer,
        ..
    } = sitting;
    let sitting = Sitting {
        seat,
        committer,
        has_failed: false,
    };
    let Ends {
        mut reader,
        mut writer,
        lines,
    } = match client.begin(rt, alloc) {
        Ok(ends) => ends,
        Err(gone) => return Visit { sitting, gone },
    };
    let SessionEnd { sitting, ended } = session(
        rt,
        alloc,
        lines,
        &mut reader,
        &mut writer,
        context,
        sitting,
    );
    let gone = C::let_go(rt, alloc, reader, writer, ended);
    Visit { sitting, gone }
}

/// Waits until these sessions have ended, and gives what came of them back in order, in the room that is there for them.
fn join_all<
    L: DeskName,
    Q: Drop,
    K: Keeper<L, Committer = Q>,
    G: Drop,
    C: Client<Gone = G>,
    T: Threads,
>(
    rt: &T,
    handles: Vec<PromisedHandle<Visit<L, Q, G>, Serves<L, K, Q, C>>>,
    mut back: Vec<Visit<L, Q, G>>,
) -> Vec<Visit<L, Q, G>>
    requires empty { vec_len back ≡ 0 }
    requires room { vec_len handles ≤ vec_capacity back }
    ensures served { AllZip (λ handle visit. IsConnection K.kept (record {
      came = C.coming handle.promise.1.value;
      before = handle.promise.0.value;
      after = visit.sitting;
      went = C.parting visit.gone;
    }) × TellsFailure K.failed visit.sitting) handles.items result.items }
    ensures length { vec_len result ≡ vec_len handles }
{
    for handle in handles {
        back.push_reserved(handle.join(rt));
    }
    back
}

/// The seats, the committers and what is left of the clients, each in order.
#[derive(Drop)]
pub(crate) struct Parted<L: DeskName, Q, G> {
    pub(crate) seats: Vec<Seat<L>>,
    pub(crate) committers: Vec<Q>,
    pub(crate) gone: Vec<G>,
}

/// The seats, the committers and what is left of the clients of these visits, each in order, in the room that is there for them.
fn part_all<L: DeskName, Q: Drop, G: Drop>(
    visits: Vec<Visit<L, Q, G>>,
    room: Parted<L, Q, G>,
) -> Parted<L, Q, G>
    requires no_seat { vec_len room.seats ≡ 0 }
    requires no_committer { vec_len room.committers ≡ 0 }
    requires none_gone { vec_len room.gone ≡ 0 }
    requires room_for_seats { vec_len visits ≤ vec_capacity room.seats }
    requires room_for_committers { vec_len visits ≤ vec_capacity room.committers }
    requires room_for_gone { vec_len visits ≤ vec_capacity room.gone }
    ensures seats { result.seats.items ≡ map (λ visit. visit.sitting.seat) visits.items }
    ensures committers { result.committers.items ≡ map (λ visit. visit.sitting.committer) visits.items }
    ensures gone { result.gone.items ≡ map (λ visit. visit.gone) visits.items }
    ensures room { vec_capacity result.seats ≡ vec_capacity room.seats }
{
    let Parted {
        mut seats,
        mut committers,
        mut gone,
    } = room;
    for visit in visits {
        let Visit {
            sitting,
            gone: left,
        } = visit;
        let Sitting {
            seat,
            committer,
            ..
        } = sitting;
        seats.push_reserved(seat);
        committers.push_reserved(committer);
        gone.push_reserved(left);
    }
    Parted {
        seats,
        committers,
        gone,
    }
}

/// Whether a request could not be kept in one of these visits.
fn any_failed<L: DeskName, Q, G>(visits: &[Visit<L, Q, G>]) -> bool
    ensures { result ≡ list_any (λ visit. visit.sitting.has_failed) visits.now }
{
    visits.iter().any(|visit| visit.sitting.has_failed)
}

/// The clients' visits, in order, and why there are not as many as sittings. No more clients are accepted.
#[derive(Drop)]
struct Visited<L: DeskName, P, Q, G> {
    visits: Vec<Visit<L, Q, G>>,
    fault: Option<ConnectFault>,
    port: Closed<P>,
}

/// Room for the threads of this number of connections; or the fault that memory was refused.
fn handles_for<L: DeskName, Q: Drop, K: Keeper<L, Committer = Q>, G: Drop, C: Client<Gone = G>>(
    alloc: Global,
    count: usize,
) -> (
    Vec<PromisedHandle<Visit<L, Q, G>, Serves<L, K, Q, C>>>,
    Option<ConnectFault>,
)
    ensures none { result.0.items ≡ [] }
    ensures room { result.1 ≡ None → vec_capacity result.0 ≡ count }
    ensures fault { IfSome result.1 (λ fault. fault ≡ NoThread) }
{
    match Vec::with_capacity(alloc, count) {
        Ok(handles) => (handles, None),
        Err(_) => (Vec::new(alloc), Some(ConnectFault::Memory)),
    }
}

/// Accepts a client for each of the sittings, and waits until all sessions have ended. The port is closed behind the last
/// client. There is room for what comes of them.
fn visit_all<
    'a,
    L: DeskName + Send + Sync,
    Q: Send + Drop,
    X: Send + Drop,
    K: Keeper<L, Committer = Q, Text = X> + Send + Sync,
    I: Source + Send + Drop,
    O: Sink + Send + Drop,
    G: Send + Drop,
    C: Client<Reader = I, Writer = O, Gone = G> + Send + Drop,
    P: Clients<Each = C> + Drop,
    T: Threads + Wait + Clock + Eprint + Sync,
>(
    rt: &T,
    alloc: Global,
    port: P,
    context: &SessionContext<'a, L, K, OpenGate, T>,
    sittings: Vec<Sitting<L, Q>>,
    visits: Vec<Visit<L, Q, G>>,
) -> Visited<L, P, Q, G>
    requires empty { vec_len visits ≡ 0 }
    requires room { vec_len sittings ≤ vec_capacity visits }
    ensures served { AreServed K.kept (P.coming port) (P.coming (at_close result.port)) sittings.items
        (map (λ visit. visit.sitting) result.visits.items) (map (λ visit. C.parting visit.gone) result.visits.items) result.fault }
    ensures count { vec_len result.visits ≤ vec_len sittings }
    ensures failed { All (λ visit. TellsFailure K.failed visit.sitting) result.visits.items }
    ensures not_kept { result.fault ≡ Some NotKeptInSession → ⊥ }
{
    thread::scope(
        thread::scope_env(),
        rt,
        move |scope| -> Visited<L, P, Q, G>
            requires { IsSync T.row × IsSend L.row × IsSync L.row × IsSend Q.row × IsSend X.row × IsSend K.row × IsSync K.row × IsSend I.row
                × IsSend O.row × IsSend G.row × IsSend C.row × (vec_len visits ≡ 0) × (vec_len sittings ≤ vec_capacity visits) }
            ensures served { AreServed K.kept (P.coming port) (P.coming (at_close result.port)) sittings.items
                (map (λ visit. visit.sitting) result.visits.items) (map (λ visit. C.parting visit.gone) result.visits.items) result.fault }
            ensures count { vec_len result.visits ≤ vec_len sittings }
            ensures failed { All (λ visit. TellsFailure K.failed visit.sitting) result.visits.items }
            ensures not_kept { result.fault ≡ Some NotKeptInSession → ⊥ }
        {
            let (mut handles, mut fault) = handles_for(alloc, sittings.len());
            let mut port = port;
            // What runs in a thread holds each type that it names.
            let types = PhantomData::<(X, I, O, G)>;
            for sitting in sittings {
                if fault.is_some() {
                    continue;
                }
                let client = match port.accept(rt, alloc) {
                    Ok(client) => client,
                    Err(failed) => {
                        fault = Some(ConnectFault::from(failed));
                        continue;
                    }
                };
                let serves = Serves(
                    Snapshot::of(&sitting),
                    Snapshot::of(&client),
                    PhantomData::<K>,
                );
                let spawned = scope.spawn_with(
                    serves,
                    move || -> Visit<L, Q, G>
                        requires { IsSync T.row × IsSend L.row × IsSync L.row × IsSend Q.row × IsSend X.row × IsSend K.row × IsSync K.row
                            × IsSend I.row × IsSend O.row × IsSend G.row × IsSend C.row }
                        ensures served { IsConnection K.kept (record {
                          came = C.coming client;
                          before = sitting;
                          after = result.sitting;
                          went = C.parting result.gone;
                        }) }
                        ensures failed { TellsFailure K.failed result.sitting }
                    {
                        let _types = types;
                        connection(rt, alloc, context, sitting, client)
                    },
                );
                match spawned.ok() {
                    Some(handle) => handles.push_reserved(handle),
                    None => fault = Some(ConnectFault::Memory),
                }
            }
            let port = Closed::new(port);
            let visits = join_all(rt, handles, visits);
            Visited {
                visits,
                fault,
                port,
            }
        },
    )
}

/// Room for what comes of connections, once their sessions have ended.
struct Room<L: DeskName, Q, G> {
    visits: Vec<Visit<L, Q, G>>,
    parted: Parted<L, Q, G>,
}

/// Room for this number of connections, and for as many seats more.
///
/// # Errors
///
/// The allocator refuses memory.
fn room_for<L: DeskName, Q: Drop, G: Drop>(
    alloc: Global,
    count: usize,
    more: usize,
) -> Result<Room<L, Q, G>, AllocError>
    requires { count + more < 2 ^ 64 }
    ensures visits { IfOk result (λ room. (vec_len room.visits ≡ 0) × (vec_capacity room.visits ≡ count)) }
    ensures seats { IfOk result (λ room. (vec_len room.parted.seats ≡ 0) × (vec_capacity room.parted.seats ≡ count + more)) }
    ensures committers { IfOk result (λ room. (vec_len room.parted.committers ≡ 0) × (vec_capacity room.parted.committers ≡ count)) }
    ensures gone { IfOk result (λ room. (vec_len room.parted.gone ≡ 0) × (vec_capacity room.parted.gone ≡ count)) }
{
    Ok(Room {
        visits: Vec::with_capacity(alloc, count)?,
        parted: Parted {
            seats: Vec::with_capacity(alloc, count + more)?,
            committers: Vec::with_capacity(alloc, count)?,
            gone: Vec::with_capacity(alloc, count)?,
        },
    })
}

/// What came of connections: the seats, the committers and what is left of the clients that were served, each in order, and why not
/// all were. No more clients are accepted.
#[derive(Drop)]
pub(crate) struct Connected<L: DeskName, P, Q, G> {
    pub(crate) parted: Parted<L, Q, G>,
    pub(crate) fault: Option<ConnectFault>,
    pub(crate) port: Closed<P>,
}

/// Where there was no room for any connection.
fn none_connected<L: DeskName, P: Drop, Q, G>(alloc: Global, port: P) -> Connected<L, P, Q, G>
    ensures seats { result.parted.seats.items ≡ [] }
    ensures committers { result.parted.committers.items ≡ [] }
    ensures gone { result.parted.gone.items ≡ [] }
    ensures fault { result.fault ≡ Some NoThread }
    ensures port { at_close result.port ≡ port }
{
    Connected {
        parted: Parted {
            seats: Vec::new(alloc),
            committers: Vec::new(alloc),
            gone: Vec::new(alloc),
        },
        fault: Some(ConnectFault::Memory),
        port: Closed::new(port),
    }
}

/// The fault that is there already, or that a request could not be kept in one of the visits.
fn fault_of<L: DeskName, Q, G>(
    fault: Option<ConnectFault>,
    visits: &[Visit<L, Q, G>],
) -> Option<ConnectFault>
    ensures { result ≡ fault_of fault (list_any (λ visit. visit.sitting.has_failed) visits.now) }
{
    match fault {
        None if any_failed(visits) => Some(ConnectFault::Journal),
        fault => fault,
    }
}

/// Accepts a client for each of the sittings, in order, each with a thread of its own, and closes the port. Once all
/// sessions have ended it gives the seats and the committers back in their order, with room for as many seats more, and what is
/// left of the clients; and the first of these faults:
/// - `Port`: a client could not be accepted,
/// - `Memory`: no thread could be started for a connection, or there was no room for the seats,
/// - `Journal`: a request could not be kept.
///
/// Behind one of the first two the other sittings have not served, and are let go.
pub(crate) fn connect<
    'a,
    L: DeskName + Send + Sync,
    Q: Send + Drop,
    X: Send + Drop,
    K: Keeper<L, Committer = Q, Text = X> + Send + Sync,
    I: Source + Send + Drop,
    O: Sink + Send + Drop,
    G: Send + Drop,
    C: Client<Reader = I, Writer = O, Gone = G> + Send + Drop,
    P: Clients<Each = C> + Drop,
    T: Threads + Wait + Clock + Eprint + Sync,
>(
    rt: &T,
    alloc: Global,
    port: P,
    context: &SessionContext<'a, L, K, OpenGate, T>,
    sittings: Vec<Sitting<L, Q>>,
    more: usize,
) -> Connected<L, P, Q, G>
    requires fits { vec_len sittings + more < 2 ^ 64 }
    ensures served { result.fault ≡ None → AreParted K.kept (P.coming port) sittings.items
        result.parted.seats.items result.parted.committers.items (map C.parting result.parted.gone.items) }
    ensures stands { StandsConnected K.kept (P.coming port) (P.coming (at_close result.port)) sittings.items
        result.parted.committers.items (map C.parting result.parted.gone.items) result.fault }
    ensures room { result.fault ≡ None → vec_len result.parted.seats + more ≤ vec_capacity result.parted.seats }
    ensures journal { result.fault ≡ Some NotKeptInSession → OneKnows K.failed result.parted.committers.items }
{
    let room = room_for(alloc, sittings.len(), more);
    let Ok(Room { visits, parted }) = room else {
        return none_connected(alloc, port);
    };
    let Visited {
        visits,
        fault,
        port,
    } = visit_all(rt, alloc, port, context, sittings, visits);
    let fault = fault_of(fault, visits.as_slice());
    Connected {
        parted: part_all(visits, parted),
        fault,
        port,
    }
}
