//! A centre that serves connections, and keeps its history in a journal.

ghost use Rattle.std.specs.Prelude.{◌≡◌, ◌≤◌, false};
ghost use Rattle.rbc_journal_file.specs.Past.{may_leave, seen};
ghost use Rattle.rbc_journal_file.specs.Recorded.{past_of};
ghost use Rattle.rbc_show.specs.Journaled.{IsReady};

use crate::failure::{Failure, file_failed};
use crate::serve::Opening;
use rbc_command_line::Service;
use rbc_duty::server::{ServeFault, Served, Staff, serve};
use rbc_group_commit::{BlankStamps, CommitName};
use rbc_journal_file::{Calls, Recorded};
use rbc_port::{Client, Clients, Port};
use rbc_show::journaled::{self, DeskJournal, JournaledRecord, Opened, SeatTold, close};
use rbc_show::sessions::DeskName;
use rbc_streams::{Sink, Source};
use std::alloc::Global;
use std::io::{Eprint, Read, Write};
use std::marker::Brand;
use std::net::{OpenListener, OpenStream};
use std::sync::Wait;
use std::thread::Threads;
use std::time::Clock;

/// Serves connections over the record that a journal tells, and keeps in the journal what led to each entry before its
/// reply is written.
///
/// # Errors
///
/// `Memory`, where there is none for the desk; `Journal`, where the file has no room or fails; `Serve` with whatever else
/// [`serve`] answers.
pub(crate) fn serve_journaled<
    S: Read + Write + OpenStream + Send + Sync + Drop,
    N: OpenListener<Stream = S> + Send + Drop,
    D: Calls + Send + Drop,
    W: Sink,
    T: Threads + Wait + Clock + Eprint + Sync,
>(
    rt: &T,
    alloc: Global,
    port: Port<N>,
    history: JournaledRecord<Recorded<D>>,
    service: &Service,
    writer: &mut W,
) -> Result<(), Failure>
    requires going { W.failed writer.old ≡ false }
    requires ready { IsReady (λ file. seen (past_of file)) (λ file. may_leave (past_of file)) history }
{
    let opening = Opening::new(history, service);
    let stamps = BlankStamps::new();
    open::<Brand, Brand, _, _, _, _, Port<N>, D, W, T>(rt, alloc, port, opening, stamps, writer)
}

/// Serves connections at a desk over the record, each from a seat with its committer. At the end the journal is closed.
fn open<
    L: DeskName + Send + Sync,
    N: CommitName + Send + Sync,
    I: Source + Send + Drop,
    O: Sink + Send + Drop,
    G: Send + Drop,
    C: Client<Reader = I, Writer = O, Gone = G> + Send + Drop,
    P: Clients<Each = C> + Drop,
    D: Calls + Send + Drop,
    W: Sink,
    T: Threads + Wait + Clock + Eprint + Sync,
>(
    rt: &T,
    alloc: Global,
    port: P,
    opening: Opening<JournaledRecord<Recorded<D>>>,
    stamps: BlankStamps,
    writer: &mut W,
) -> Result<(), Failure>
    requires going { W.failed writer.old ≡ false }
    requires ready { IsReady (λ file. seen (past_of file)) (λ file. may_leave (past_of file)) opening.history }
    requires opened { opening.history.history ≡ L.opened }
    requires name { opening.blank.ledger.name ≡ L.name }
    requires parts { opening.blank.ledger.parts ≡ L.parts }
    requires book { opening.blank.book ≡ L.book }
    requires stamps { stamps ≡ N.book }
    requires one_each { opening.seats ≡ L.parts }
    requires some { 1 ≤ opening.connections }
    requires workers { opening.connections ≤ opening.seats }
    requires few { opening.seats ≤ 16 }
{
    let Opening {
        history,
        seats,
        connections,
        blank,
    } = opening;
    let opened = journaled::open::<L, _, N, T>(rt, alloc, history, seats, blank, stamps);
    let Opened {
        desk,
        seats,
        group_commit,
        mut committers,
    } = match opened {
        Ok(opened) => opened,
        Err((fault, _)) => return Err(fault.into()),
    };
    committers.truncate(connections);
    let Ok(staff) = Staff::new(alloc, seats, committers) else {
        desk.end(rt);
        return Err(Failure::Memory);
    };
    let journal = DeskJournal::over(&group_commit);
    match serve(rt, alloc, port, &journal, desk, staff, writer) {
        Ok(
            Served {
                told,
                committers,
                ..
            },
        ) => {
            let _page = close(
                rt,
                group_commit,
                &SeatTold::<L>::seen(told),
                committers.as_slice(),
            );
            Ok(())
        }
        Err(unserved) if matches!(unserved.fault, ServeFault::Journal) => {
            let (file, _) = group_commit.close().into_parts();
            Err(file_failed(&file))
        }
        Err(unserved) => Err(unserved.into()),
    }
}
