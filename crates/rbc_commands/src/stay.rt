//! A centre that stays up: a desk is made for it, with a seat for each place at its port.

ghost use Rattle.std.specs.Prelude.{◌≡◌, ◌+◌, ◌≤◌, false, length, option_to_list, IfOk, OnOk, vec_len};

use crate::end::watch_input;
use crate::failure::Failure;
use crate::page::{Showing, lookers, onlooker_of};
use crate::serve::{Opening, listener_of, print_listening};
use crate::watching::MinuteLog;
use rbc_command_line::Staying;
use rbc_duty::server::{ServeFault, no_committers};
use rbc_duty::{Company, Post, stay};
use rbc_model::OrMemory;
use rbc_port::{Client, Clients, Closing, Place, Port, PortEnd, Watch, open_places};
use rbc_show::sessions::{Desk, DeskName, NoJournal, Record};
use rbc_streams::{Sink, Source};
use std::alloc::Global;
use std::io::{BufRead, Eprint, Read, Write};
use std::marker::Brand;
use std::net::{Net, OpenListener, OpenStream, TcpListener, TcpStream};
use std::sync::{Arc, Wait};
use std::thread::Threads;
use std::time::Clock;

/// A port that stays open until its end is asked for, the places at it, and what is told of them each minute.
#[derive(Drop)]
pub(crate) struct Entrance<'a, T> {
    pub(crate) end: Arc<PortEnd>,
    pub(crate) ports: Vec<Port<Place<'a, T>>>,
    pub(crate) minutes: MinuteLog,
}

/// Opens the port that a centre is asked to stay at, which is watched so, tells that it is open, and has the standard input
/// watched for its end.
///
/// # Errors
///
/// `NoPort`, where the port can't be had; `Serve`, where it can't be stayed at, or no thread be started; `Memory`; `Session`, where
/// the writer fails.
pub(crate) fn open_entrance<
    'a,
    I: BufRead + Drop + Send + 'static,
    T: Net<Listener = TcpListener, Stream = TcpStream>
        + AllocGlobal
        + Input<Reader = I>
        + Threads
        + Wait
        + Clock
        + Eprint
        + Copy
        + Send
        + 'static,
    W: Sink,
>(rt: &'a T, staying: &Staying, watch: &Watch, writer: &mut W) -> Result<Entrance<'a, T>, Failure>
    requires { W.failed writer.old ≡ false }
    ensures going { OnOk result (W.failed writer.new ≡ false) }
    ensures places { IfOk result (λ entrance. vec_len entrance.ports ≡ staying.now.places) }
{
    let alloc = rt.alloc();
    let listener = listener_of(rt, staying.port)?;
    let Ok(end) = PortEnd::new(listener) else {
        return Err(Failure::Serve(ServeFault::Port));
    };
    let Ok(end) = Arc::new(alloc, end) else {
        return Err(Failure::Memory);
    };
    let ports = match open_places(rt, alloc, &end, staying.terms, watch, staying.places) {
        Ok(ports) => ports,
        Err(OrMemory::Refused(_)) => return Err(Failure::Serve(ServeFault::Port)),
        Err(OrMemory::Memory) => return Err(Failure::Memory),
    };
    print_listening(staying.port, writer)?;
    watch_input(rt, rt.reader(), &end)?;
    Ok(Entrance {
        end,
        ports,
        minutes: MinuteLog::begin(rt, watch)?,
    })
}

/// Serves clients that come and go over a record, and shows its page, if there is one.
///
/// # Errors
///
/// `Memory`, where there is none for the desk; `Serve`, where the page can't be opened, or with whatever [`stay`] answers.
pub(crate) fn stay_up<
    S: Read + Write + OpenStream + Send + Sync + Drop,
    N: OpenListener<Stream = S> + Send + Drop,
    U: Read + Write + OpenStream + Drop,
    M: OpenListener<Stream = U> + Drop,
    E: Closing + Sync,
    W: Sink,
    T: Threads + Wait + Clock + Eprint + Sync,
>(
    rt: &T,
    alloc: Global,
    closing: &E,
    ports: Vec<Port<N>>,
    page: Option<Showing<M>>,
    log: Record,
    writer: &mut W,
) -> Result<(), Failure>
    requires going { W.failed writer.old ≡ false }
    requires places { (1 ≤ vec_len ports) × (vec_len ports ≤ 64) }
{
    let opening = Opening::for_places(log, ports.len(), lookers(&page));
    open::<Brand, _, _, _, _, Port<N>, U, M, E, W, T>(
        rt, alloc, closing, ports, page, opening, writer,
    )
}

/// Serves clients that come and go at a desk over the record.
fn open<
    L: DeskName + Send + Sync,
    I: Source + Send + Drop,
    O: Sink + Send + Drop,
    G: Send + Drop,
    C: Client<Reader = I, Writer = O, Gone = G> + Send + Drop,
    P: Clients<Each = C> + Send + Drop,
    U: Read + Write + OpenStream + Drop,
    M: OpenListener<Stream = U> + Drop,
    E: Closing + Sync,
    W: Sink,
    T: Threads + Wait + Clock + Eprint + Sync,
>(
    rt: &T,
    alloc: Global,
    closing: &E,
    ports: Vec<P>,
    page: Option<Showing<M>>,
    opening: Opening<Record>,
    writer: &mut W,
) -> Result<(), Failure>
    requires going { W.failed writer.old ≡ false }
    requires opened { opening.history ≡ L.opened }
    requires name { opening.blank.ledger.name ≡ L.name }
    requires parts { opening.blank.ledger.parts ≡ L.parts }
    requires book { opening.blank.book ≡ L.book }
    requires one_each { opening.seats ≡ L.parts }
    requires places { vec_len ports + length (option_to_list page) ≡ opening.seats }
    requires few { (1 ≤ vec_len ports) × (opening.seats ≤ 65) }
{
    let Opening {
        history,
        seats,
        connections: _,
        blank,
    } = opening;
    let (desk, mut seats) = Desk::<L>::new(rt, alloc, history, seats, blank)?;
    let onlooker = match onlooker_of(rt, alloc, &mut seats, page) {
        Ok(onlooker) => onlooker,
        Err(failure) => {
            desk.end(rt);
            return Err(failure);
        }
    };
    let Ok(committers) = no_committers(alloc, seats.len()) else {
        drop(onlooker);
        desk.end(rt);
        return Err(Failure::Memory);
    };
    let Ok(posts) = Post::all(alloc, seats, committers, ports) else {
        drop(onlooker);
        desk.end(rt);
        return Err(Failure::Memory);
    };
    let company = Company { posts, onlooker };
    let _stayed = stay(rt, alloc, &NoJournal, closing, desk, company, writer)?;
    Ok(())
}
