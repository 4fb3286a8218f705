//! A centre that stays up, and keeps its history in a journal.

ghost use Rattle.std.specs.Prelude.{◌≡◌, ◌+◌, ◌≤◌, false, length, option_to_list, vec_len, IfOk};
ghost use Rattle.rbc_journal_file.specs.Past.{may_leave, seen};
ghost use Rattle.rbc_journal_file.specs.Recorded.{past_of};
ghost use Rattle.rbc_show.specs.Journaled.{IsReady};

use crate::failure::{Failure, file_failed};
use crate::page::{Showing, lookers, onlooker_of};
use crate::serve::Opening;
use rbc_duty::server::ServeFault;
use rbc_duty::{Company, Post, Stayed, stay};
use rbc_group_commit::{BlankStamps, CommitName, Committer, GroupCommit};
use rbc_journal_file::{Calls, Recorded};
use rbc_page::Reception;
use rbc_port::{Client, Clients, Closing, Port};
use rbc_show::journaled::{self, DeskJournal, JournaledRecord, Opened, SeatTold, close};
use rbc_show::sessions::{Desk, DeskName, Onlooker};
use rbc_streams::{Sink, Source};
use std::alloc::Global;
use std::io::{Eprint, Read, Write};
use std::marker::Brand;
use std::net::{OpenListener, OpenStream};
use std::sync::Wait;
use std::thread::Threads;
use std::time::Clock;

/// Serves clients that come and go over the record that a journal tells, and keeps in the journal what led to each entry before
/// its reply is written; and shows its page, if there is one.
///
/// # Errors
///
/// `Memory`, where there is none for the desk; `Journal`, where the file has no room or fails; `Serve`, where the page can't be
/// opened, or with whatever else [`stay`] answers.
pub(crate) fn stay_journaled<
    S: Read + Write + OpenStream + Send + Sync + Drop,
    N: OpenListener<Stream = S> + Send + Drop,
    U: Read + Write + OpenStream + Drop,
    M: OpenListener<Stream = U> + Drop,
    D: Calls + Send + Drop,
    E: Closing + Sync,
    W: Sink,
    T: Threads + Wait + Clock + Eprint + Sync,
>(
    rt: &T,
    alloc: Global,
    closing: &E,
    ports: Vec<Port<N>>,
    page: Option<Showing<M>>,
    history: JournaledRecord<Recorded<D>>,
    writer: &mut W,
) -> Result<(), Failure>
    requires going { W.failed writer.old ≡ false }
    requires ready { IsReady (λ file. seen (past_of file)) (λ file. may_leave (past_of file)) history }
    requires places { (1 ≤ vec_len ports) × (vec_len ports ≤ 64) }
{
    let opening = Opening::for_places(history, ports.len(), lookers(&page));
    let journaled = Journaled {
        opening,
        stamps: BlankStamps::new(),
    };
    open::<Brand, Brand, _, _, _, _, Port<N>, U, M, D, E, W, T>(
        rt, alloc, closing, ports, page, journaled, writer,
    )
}

/// What a desk with a journal is opened with.
struct Journaled<D: Calls> {
    opening: Opening<JournaledRecord<Recorded<D>>>,
    /// The blank of the stamps that its committers are given.
    stamps: BlankStamps,
}

/// A desk over the record, with its group commit and with seats that have committers, and who looks on from a seat of its own, if there is a
/// page.
///
/// # Errors
///
/// `Memory`; `Journal`, where the file has no room; `Serve`, where the page's calls would wait, there is no clock, or no room for
/// clients.
fn open_desk<
    L: DeskName,
    N: CommitName,
    U: Read + Write + OpenStream + Drop,
    M: OpenListener<Stream = U> + Drop,
    D: Calls + Drop,
    T: Wait + Clock,
>(
    rt: &T,
    alloc: Global,
    page: Option<Showing<M>>,
    journaled: Journaled<D>,
) -> Result<
    (
        Opened<L, SeatTold<L>, Recorded<D>, N>,
        Option<Reception<L, M, U>>,
    ),
    Failure,
>
    requires ready { IsReady (λ file. seen (past_of file)) (λ file. may_leave (past_of file)) journaled.opening.history }
    requires opened { journaled.opening.history.history ≡ L.opened }
    requires name { journaled.opening.blank.ledger.name ≡ L.name }
    requires parts { journaled.opening.blank.ledger.parts ≡ L.parts }
    requires book { journaled.opening.blank.book ≡ L.book }
    requires stamps { journaled.stamps ≡ N.book }
    requires one_each { journaled.opening.seats ≡ L.parts }
    requires looker { length (option_to_list page) ≤ journaled.opening.seats }
    requires few { (1 ≤ journaled.opening.seats) × (journaled.opening.seats ≤ 65) }
    ensures seats { IfOk result (λ made. vec_len made.0.seats + length (option_to_list page) ≡ journaled.opening.seats) }
    ensures committers { IfOk result (λ made. vec_len made.0.committers ≡ vec_len made.0.seats) }
{
    let Journaled { opening, stamps } = journaled;
    let Opening {
        history,
        seats,
        connections: _,
        blank,
    } = opening;
    let opened = journaled::open::<L, _, N, T>(rt, alloc, history, seats, blank, stamps);
    let Opened {
        desk,
        mut seats,
        group_commit,
        mut committers,
    } = match opened {
        Ok(opened) => opened,
        Err((fault, _)) => return Err(fault.into()),
    };
    match onlooker_of(rt, alloc, &mut seats, page) {
        Ok(onlooker) => {
            // Who looks on keeps nothing.
            committers.truncate(seats.len());
            let opened = Opened {
                desk,
                seats,
                group_commit,
                committers,
            };
            Ok((opened, onlooker))
        }
        Err(failure) => {
            desk.end(rt);
            Err(failure)
        }
    }
}

/// Serves the clients that come to the posts of this company, until the end is asked for, while its onlooker looks at the desk. At the
/// end the journal is closed.
///
/// # Errors
///
/// `Journal` with the call on the file that failed, where a request could not be kept; else `Serve` with whatever [`stay`]
/// answers.
fn serve_company<
    L: DeskName + Send + Sync,
    N: CommitName + Send + Sync,
    I: Source + Send + Drop,
    O: Sink + Send + Drop,
    G: Send + Drop,
    C: Client<Reader = I, Writer = O, Gone = G> + Send + Drop,
    P: Clients<Each = C> + Send + Drop,
    B: Onlooker<L> + Drop,
    D: Calls + Send + Drop,
    E: Closing + Sync,
    W: Sink,
    T: Threads + Wait + Clock + Eprint + Sync,
>(
    rt: &T,
    alloc: Global,
    closing: &E,
    desk: Desk<L>,
    group_commit: GroupCommit<SeatTold<L>, Recorded<D>, N>,
    company: Company<L, Committer<N>, P, B>,
    writer: &mut W,
) -> Result<(), Failure>
    requires going { W.failed writer.old ≡ false }
    requires some { 1 ≤ vec_len company.posts }
{
    let journal = DeskJournal::over(&group_commit);
    match stay(rt, alloc, &journal, closing, desk, company, writer) {
        Ok(
            Stayed {
                told,
                committers,
                ..
            },
        ) => {
            let _page = close(
                rt,
                group_commit,
                &SeatTold::<L>::seen(told),
                committers.as_slice(),
            );
            Ok(())
        }
        Err(unstayed) if matches!(unstayed.fault, ServeFault::Journal) => {
            let (file, _) = group_commit.close().into_parts();
            Err(file_failed(&file))
        }
        Err(unstayed) => Err(unstayed.into()),
    }
}

/// Serves clients that come and go at a desk over the record, from seats with committers. At the end the journal is closed.
fn open<
    L: DeskName + Send + Sync,
    N: CommitName + Send + Sync,
    I: Source + Send + Drop,
    O: Sink + Send + Drop,
    G: Send + Drop,
    C: Client<Reader = I, Writer = O, Gone = G> + Send + Drop,
    P: Clients<Each = C> + Send + Drop,
    U: Read + Write + OpenStream + Drop,
    M: OpenListener<Stream = U> + Drop,
    D: Calls + Send + Drop,
    E: Closing + Sync,
    W: Sink,
    T: Threads + Wait + Clock + Eprint + Sync,
>(
    rt: &T,
    alloc: Global,
    closing: &E,
    ports: Vec<P>,
    page: Option<Showing<M>>,
    journaled: Journaled<D>,
    writer: &mut W,
) -> Result<(), Failure>
    requires going { W.failed writer.old ≡ false }
    requires ready { IsReady (λ file. seen (past_of file)) (λ file. may_leave (past_of file)) journaled.opening.history }
    requires opened { journaled.opening.history.history ≡ L.opened }
    requires name { journaled.opening.blank.ledger.name ≡ L.name }
    requires parts { journaled.opening.blank.ledger.parts ≡ L.parts }
    requires book { journaled.opening.blank.book ≡ L.book }
    requires stamps { journaled.stamps ≡ N.book }
    requires one_each { journaled.opening.seats ≡ L.parts }
    requires places { vec_len ports + length (option_to_list page) ≡ journaled.opening.seats }
    requires few { (1 ≤ vec_len ports) × (journaled.opening.seats ≤ 65) }
{
    let (opened, onlooker) = open_desk::<L, N, U, M, D, T>(rt, alloc, page, journaled)?;
    let Opened {
        desk,
        seats,
        group_commit,
        committers,
    } = opened;
    let Ok(posts) = Post::all(alloc, seats, committers, ports) else {
        drop(onlooker);
        desk.end(rt);
        return Err(Failure::Memory);
    };
    let company = Company { posts, onlooker };
    serve_company(rt, alloc, closing, desk, group_commit, company, writer)
}
