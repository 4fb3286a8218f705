//! A centre that serves connections: a desk is made for it, with a seat for each connection and each worker.

ghost use Rattle.std.specs.Prelude.{◌≡◌, ◌+◌, ◌≤◌, false, [], OnOk};
ghost use Rattle.rbc_model.specs.Sessions.{Prints};
ghost use Rattle.rbc_commands.specs.Listening.{listening_line};

use crate::failure::Failure;
use crate::watching::MinuteLog;
use rbc_command_line::Service;
use rbc_duty::server::{self, Staff, no_committers};
use rbc_port::{Client, Clients, Port, Watch};
use rbc_show::sessions::{Blank, Desk, DeskName, NoJournal, Record};
use rbc_streams::{Sink, Source, WriteFailed};
use rbc_words::{Word, print_line};
use std::alloc::Global;
use std::io::Eprint;
use std::marker::Brand;
use std::net::{Ipv4Addr, Net, TcpListener, TcpStream};
use std::sync::Wait;
use std::thread::Threads;
use std::time::Clock;

/// The listener of this port of the machine.
///
/// # Errors
///
/// `NoPort`, where the port can't be had.
pub(crate) fn listener_of<N: Net<Listener = TcpListener, Stream = TcpStream> + AllocGlobal>(
    rt: &N,
    port: u16,
) -> Result<TcpListener, Failure> {
    listener_at(rt, Ipv4Addr::LOCALHOST, port)
}

/// The listener of this port at an address of the machine.
///
/// # Errors
///
/// `NoPort`, where the port can't be had.
pub(crate) fn listener_at<N: Net<Listener = TcpListener, Stream = TcpStream> + AllocGlobal>(
    rt: &N,
    address: Ipv4Addr,
    port: u16,
) -> Result<TcpListener, Failure> {
    match TcpListener::bind(rt, (address, port)) {
        Ok(listener) => Ok(listener),
        Err(error) => Err(Failure::no_port(rt.alloc(), port, &error)),
    }
}

/// A port that takes so many connections, and what is told of them each minute.
#[derive(Drop)]
pub(crate) struct Opened {
    pub(crate) port: Port<TcpListener>,
    pub(crate) minutes: MinuteLog,
}

/// Opens the port that a centre is asked to serve, which is watched so, and tells that it is open.
///
/// # Errors
///
/// `NoPort`, where the port can't be had; `Serve`, where no thread can be started; `Memory`; `Session`, where the writer fails.
pub(crate) fn open_port<
    N: Net<Listener = TcpListener, Stream = TcpStream>
        + AllocGlobal
        + Threads
        + Wait
        + Clock
        + Eprint
        + Copy
        + Send
        + 'static,
    W: Sink,
>(rt: &N, service: &Service, watch: &Watch, writer: &mut W) -> Result<Opened, Failure>
    requires { W.failed writer.old ≡ false }
    ensures { OnOk result (W.failed writer.new ≡ false) }
{
    let listener = listener_of(rt, service.port)?;
    let port = Port::new(listener, service.terms, watch.again()?);
    print_listening(service.port, writer)?;
    Ok(Opened {
        port,
        minutes: MinuteLog::begin(rt, watch)?,
    })
}

/// Tells that the port is open, and hands it on.
///
/// # Errors
///
/// `WriteFailed`, where the writer fails.
pub(crate) fn print_listening<W: Sink>(port: u16, writer: &mut W) -> Result<(), WriteFailed>
    requires { W.failed writer.old ≡ false }
    ensures text { Prints (W.written writer.old) (W.written writer.new) (W.failed writer.new)
        (listening_line port) result }
    ensures handed_on { OnOk result (W.held_back writer.new ≡ []) }
{
    print_port(port, writer)?;
    writer.flush()
}

fn print_port<W: Sink>(port: u16, writer: &mut W) -> Result<(), WriteFailed>
    requires { W.failed writer.old ≡ false }
    ensures { Prints (W.written writer.old) (W.written writer.new) (W.failed writer.new)
        (listening_line port) result }
{
    print_line(b"listening", &[Word::Number(u32::from(port))], writer)
}

/// Serves connections over a record.
///
/// # Errors
///
/// `Memory`, where there is none for the desk; `Serve` with whatever [`server::serve`] answers.
pub(crate) fn serve<
    I: Source + Send + Drop,
    O: Sink + Send + Drop,
    G: Send + Drop,
    C: Client<Reader = I, Writer = O, Gone = G> + Send + Drop,
    P: Clients<Each = C> + Drop,
    W: Sink,
    T: Threads + Wait + Clock + Eprint + Sync,
>(
    rt: &T,
    alloc: Global,
    port: P,
    log: Record,
    service: &Service,
    writer: &mut W,
) -> Result<(), Failure>
    requires { W.failed writer.old ≡ false }
{
    let opening = Opening::new(log, service);
    open::<Brand, I, O, G, C, P, W, T>(rt, alloc, port, opening, writer)
}

/// What a desk is opened with.
pub(crate) struct Opening<H> {
    /// The history that it goes on from.
    pub(crate) history: H,
    /// How many seats it has: one for each connection and each worker.
    pub(crate) seats: usize,
    /// How many of them serve connections, at least one.
    pub(crate) connections: usize,
    /// The blank of its ledger.
    pub(crate) blank: Blank,
}

impl<H> Opening<H> {
    /// Over the history, with the seats that are asked for.
    pub(crate) fn new(history: H, service: &Service) -> Opening<H>
        ensures history { result.history ≡ history }
        ensures parts { result.blank.ledger.parts ≡ result.seats }
        ensures connections { result.connections ≡ service.now.connections }
        ensures workers { result.seats ≡ service.now.connections + service.now.workers }
        ensures some { 1 ≤ result.connections }
        ensures few { result.seats ≤ 16 }
    {
        let seats = service.connections + service.workers;
        Opening {
            history,
            seats,
            connections: service.connections,
            blank: Blank::new(seats),
        }
    }

    /// Over the history, with a seat for each of these places and for whoever looks on, and no worker.
    pub(crate) fn for_places(history: H, places: usize, lookers: usize) -> Opening<H>
        requires { (places ≤ 64) × (lookers ≤ 1) }
        ensures history { result.history ≡ history }
        ensures parts { result.blank.ledger.parts ≡ result.seats }
        ensures seats { result.seats ≡ places + lookers }
        ensures connections { result.connections ≡ places }
    {
        let seats = places + lookers;
        let blank = if lookers == 0 {
            Blank::new(seats)
        } else {
            Blank::with_events(seats)
        };
        Opening {
            history,
            seats,
            connections: places,
            blank,
        }
    }
}

/// Serves connections at a desk over the record.
fn open<
    L: DeskName + Send + Sync,
    I: Source + Send + Drop,
    O: Sink + Send + Drop,
    G: Send + Drop,
    C: Client<Reader = I, Writer = O, Gone = G> + Send + Drop,
    P: Clients<Each = C> + Drop,
    W: Sink,
    T: Threads + Wait + Clock + Eprint + Sync,
>(rt: &T, alloc: Global, port: P, opening: Opening<Record>, writer: &mut W) -> Result<(), Failure>
    requires going { W.failed writer.old ≡ false }
    requires opened { opening.history ≡ L.opened }
    requires name { opening.blank.ledger.name ≡ L.name }
    requires parts { opening.blank.ledger.parts ≡ L.parts }
    requires book { opening.blank.book ≡ L.book }
    requires one_each { opening.seats ≡ L.parts }
    requires some { 1 ≤ opening.connections }
    requires workers { opening.connections ≤ opening.seats }
    requires few { opening.seats ≤ 16 }
{
    let Opening {
        history,
        seats,
        connections,
        blank,
    } = opening;
    let (desk, seats) = Desk::<L>::new(rt, alloc, history, seats, blank)?;
    let Ok(committers) = no_committers(alloc, connections) else {
        desk.end(rt);
        return Err(Failure::Memory);
    };
    let Ok(staff) = Staff::new(alloc, seats, committers) else {
        desk.end(rt);
        return Err(Failure::Memory);
    };
    let _served = server::serve(rt, alloc, port, &NoJournal, desk, staff, writer)?;
    Ok(())
}
