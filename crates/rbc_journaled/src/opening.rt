//! A desk over a record that is kept in a journal.

ghost use Rattle.std.specs.Prelude.{◌≡◌, ◌≤◌, ◌⊎◌, ◌∷◌, [], length, replicate, IfOk, IfErr};
ghost use Rattle.rbc_journal.specs.Journal.{recovered};
ghost use Rattle.rbc_journaled.specs.Journaled.{IsReady};
ghost use Rattle.rbc_sessions.specs.Seats.{seated};
ghost use Rattle.rbc_group_commit.specs.Stamps.{stamp_of};

use crate::{JournaledRecord, OpeningFault, SeatTold};
use rbc_group_commit::{CommitName, Committer, GroupCommit, Start, ToldHistory};
use rbc_journal::Device;
use rbc_sessions::{Blank, Desk, DeskName, Seat};
use std::alloc::Global;
use std::sync::Wait;

/// A desk with its seats, and the group commit of its journal with a committer for each of them.
pub struct Opened<L: DeskName, T: ToldHistory + Drop, D: Device, N: CommitName> {
    /// The desk.
    pub desk: Desk<L>,
    /// Its seats.
    pub seats: Vec<Seat<L>>,
    /// The group commit, over the journal that tells the desk's record.
    pub group_commit: GroupCommit<T, D, N>,
    /// A committer for each seat.
    pub committers: Vec<Committer<N>>,
}

/// A desk over a record that its journal tells, with this number of seats, each with a committer. The file is not asked for
/// anything.
///
/// # Errors
///
/// `Memory`, or `Full`, where the file has no room for a line of each committer. The file comes back.
pub fn open<L: DeskName, D: Device, N: CommitName, R: Wait>(
    rt: &R,
    alloc: Global,
    journaled: JournaledRecord<D>,
    seats: usize,
    blank: Blank,
    stamps: rbc_group_commit::BlankStamps,
) -> Result<Opened<L, SeatTold<L>, D, N>, (OpeningFault, D)>
    requires ready { IsReady D.seen D.may_leave journaled }
    requires opened { journaled.history ≡ L.opened }
    requires name { blank.ledger.name ≡ L.name }
    requires parts { blank.ledger.parts ≡ L.parts }
    requires book { blank.book ≡ L.book }
    requires one_each { seats ≡ L.parts }
    requires some { (1 ≤ seats) × (seats ≤ 72) }
    requires stamps { stamps ≡ N.book }

    // The file has a line for each of the record's entries, and the committers have a stamp of them.
    ensures lines { length (recovered (D.seen journaled.journal.device)) ≡ length L.opened.entries }
    ensures seats { IfOk result (λ opened. opened.seats.items ≡ replicate seats (seated [] L.opened)) }
    ensures committers { IfOk result (λ opened. opened.committers.items ≡ replicate seats (stamp_of D.seen D.moment journaled.journal ∷ [])) }
    ensures back { IfErr result (λ fault. fault.1 ≡ journaled.journal.device) }
    ensures refused { IfErr result (λ fault. (fault.0 ≡ OpeningFault.Memory) ⊎ (fault.0 ≡ OpeningFault.Full)) }
{
    let (history, journal) = journaled.into_parts();
    let lines = history.version();
    let (desk, made) = match Desk::<L>::new(rt, alloc, history, seats, blank) {
        Ok(made) => made,
        Err(_) => return Err((OpeningFault::Memory, journal.into_device())),
    };
    let told = told_first(seats, made.as_slice());
    let start = Start {
        journal,
        told,
        lines,
    };
    match GroupCommit::open(rt, alloc, start, seats, stamps) {
        Ok((group_commit, committers)) => Ok(Opened {
            desk,
            seats: made,
            group_commit,
            committers,
        }),
        Err((fault, device)) => {
            desk.end(rt);
            Err((OpeningFault::from(fault), device))
        }
    }
}

/// What the first of the new seats was told.
#[tactic(auto, using(crate::proofs::OpeningLemmas::first_of_all, crate::proofs::OpeningLemmas::none_of_some))]
fn told_first<L: DeskName>(count: usize, seats: &[Seat<L>]) -> SeatTold<L>
    requires some { 1 ≤ count }
    requires new { seats.now ≡ replicate count (seated [] L.opened) }
    ensures { result ≡ L.opened }
{
    match seats {
        [first, ..] => SeatTold::of(first),
        [] => unreachable!(),
    }
}
