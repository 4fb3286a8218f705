//! The desk.

ghost use Rattle.std.specs.Prelude.{◌≡◌, ◌+◌, ◌-◌, ◌≤◌, ◌<◌, ◌++◌, ◌∷◌, [], length, take, vec_len, true};
ghost use Rattle.std.specs.Prelude.{map, replicate, slice_get, All, Some, Ok, Err, IfOk, IfErr, IfSome, OnErr};
ghost use Rattle.std.specs.Arc.{arc_value};
ghost use Rattle.rbc_model.specs.Histories.{Heard, IsLegal, Matches};
ghost use Rattle.rbc_snap.specs.Steps.{IsOfTrack};
ghost use Rattle.rbc_snap.specs.Later.{IsLater, scene_of};
ghost use Rattle.rbc_snap.specs.Records.{begin_of};
ghost use Rattle.rbc_desk.specs.Asking.{seen_by, IsAnsweredAt, IsAnsweredThen, IsMadeIn, IsTriedAt, IsViewIn};
ghost use Rattle.rbc_desk.specs.Closing.{all_receipts, IsUnmatched};
ghost use Rattle.rbc_desk.specs.Seats.{seated};
ghost use Rattle.rbc_desk.specs.States.{state_of};
ghost use Rattle.rbc_desk.specs.Telling.{IsToldAt};
ghost use Rattle.rbc_desk.specs.Trains.{numbers_of};
ghost use Rattle.rbc_desk.specs.declared.faults.CloseFault.TheVariants.{Missing};

use crate::shared::{Shared, fault_at};
use crate::{AskFault, Blank, CloseFault, DeskName, Gate, Granted, Hold, Seat, State};
use crossbeam_utils::Backoff;
use rbc_model::{Memory, OrMemory, Told, TrainId};
use rbc_snap::{ApplyFault, Candidate, Eye, EyeFault, Press, Receipt, Record, Scene, View};
use rbc_track::Track;
use std::alloc::Global;
use std::marker::PhantomData;
use std::sync::ledger::Share;
use std::sync::{Arc, Mutex, MutexGuard, Wait};
use std::thread::Threads;

/// How often a train's candidate is computed outside the lock before it is computed under it.
const TRIES: u32 = 3;

/// How often the lock is tried for before its thread sleeps until it is free.
const LOCK_TRIES: u32 = 100;

/// What stays as it was when the desk was opened, so that it needs no lock.
#[derive(Drop)]
struct Fixed<L: DeskName> {
    /// The track of the record.
    track: Arc<Track>,
    /// How many seats the desk was made with.
    seats: usize,
    of: PhantomData<L>,
    ghost of_record: { arc_value track ≡ L.opened.track },
    ghost all: { seats ≡ L.parts },
}

/// One record that many workers share, each from a seat of its own. It is no `Drop`: end it by [`Desk::close`] or by
/// [`Desk::end`].
pub struct Desk<L: DeskName> {
    shared: Mutex<Shared<L>>,
    fixed: Fixed<L>,
}

/// A seat for each eye, with one part of the ledger.
fn seats_with<L: DeskName>(
    alloc: Global,
    all: &mut Share<L>,
    eyes: Vec<Eye<L>>,
) -> Result<Vec<Seat<L>>, Memory>
    requires parts { vec_len eyes ≡ all.old.parts }
    requires amount { all.old.amount ≡ 0 }
    requires told { All (λ eye. IsLater L.opened eye.told) eyes.items }
    ensures seats { IfOk result (λ seats. seats.items ≡ map (λ eye. seated [] eye.told) eyes.items) }
    ensures parts { IfOk result (λ seats. all.new.parts ≡ 0) }
    ensures amount { all.new.amount ≡ 0 }
{
    let mut seats = Vec::new(alloc);
    for eye in eyes {
        seats.push(Seat::new(alloc, all.split_off(1, 0), eye))?;
    }
    Ok(seats)
}

/// What an eye shows, as a try.
fn seen_by(
    answer: Result<(View, u64), OrMemory<EyeFault>>,
) -> Result<Option<(View, u64)>, OrMemory<AskFault>>
    ensures { result ≡ seen_by answer }
{
    match answer {
        Ok(seen) => Ok(Some(seen)),
        Err(OrMemory::Refused(EyeFault::Behind(_))) => Ok(None),
        Err(OrMemory::Refused(EyeFault::Unshown(fault, version))) => {
            Err(OrMemory::Refused(fault_at(version, fault)))
        }
        Err(OrMemory::Memory) => Err(OrMemory::Memory),
    }
}

/// What the seat's eye shows the train, and the version. None where the eye is behind what the seat was told.
fn look_by_eye<L: DeskName, R: Wait>(
    rt: &R,
    alloc: Global,
    seat: &mut Seat<L>,
    train: TrainId,
) -> Result<Option<(View, u64)>, OrMemory<AskFault>>
    ensures later { IsLater seat.old.told seat.new.told }
    ensures receipts { seat.new.receipts ≡ seat.old.receipts }
    ensures seen { IfOk result (λ seen. IfSome seen (IsViewIn seat.new.told train)) }
    ensures denied { IfErr result (λ fault. IsAnsweredThen seat.old.told seat.new.told train (Err fault)) }
{
    seen_by(seat.eye.view(rt, alloc, train))
}

/// The published scene by the seat's eye, with its version. None where that is behind what the seat was told, or can't be
/// shared once more.
fn scene_by_eye<L: DeskName, R: Wait>(rt: &R, seat: &mut Seat<L>) -> Option<(Arc<Scene>, u64)>
    ensures scene { IfSome result (λ seen. arc_value seen.0 ≡ scene_of seat.new.told) }
    ensures version { IfSome result (λ seen. seen.1 ≡ length seat.new.told.entries) }
    ensures later { IsLater seat.old.told seat.new.told }
    ensures receipts { seat.new.receipts ≡ seat.old.receipts }
{
    seat.eye.scene(rt).ok()
}

impl<L: DeskName> Desk<L> {
    /// A desk over the record, with this number of seats. The blank is that of the desk's ledger, with a part for each
    /// seat, and of its history. Each seat is told all that the record has.
    ///
    /// # Errors
    ///
    /// [`Memory`], where the allocator refuses room for the seats, for the scene that is published, or for its readers, or
    /// where the track can't be shared once more.
    pub fn new<R: Wait>(
        rt: &R,
        alloc: Global,
        log: Record,
        seats: usize,
        blank: Blank,
    ) -> Result<(Desk<L>, Vec<Seat<L>>), Memory>
        requires name { blank.ledger.name ≡ L.name }
        requires parts { blank.ledger.parts ≡ L.parts }
        requires book { blank.book ≡ L.book }
        requires one_each { seats ≡ L.parts }
        requires some { (1 ≤ seats) × (seats ≤ 72) }
        requires opened { log ≡ L.opened }
        ensures { IfOk result (λ made. made.1.items ≡ replicate seats (seated [] L.opened)) }
    {
        let Blank { ledger, book } = blank;
        let (entries, mut rest) = ledger.open::<L>();
        log.right();
        let start = log.version();
        let track = Arc::try_clone(log.track())?;
        let (press, eyes) = Press::<L>::new(rt, alloc, book, &log, seats)?;
        let made = match seats_with(alloc, &mut rest, eyes) {
            Ok(made) => made,
            Err(fault) => {
                press.end(rt);
                return Err(fault);
            }
        };
        let shared = Shared {
            log,
            press,
            start,
            found: Vec::new(alloc),
            entries,
            rest,
        };
        let fixed = Fixed {
            track,
            seats,
            of: PhantomData,
        };
        let desk = Desk {
            shared: Mutex::new(shared),
            fixed,
        };
        Ok((desk, made))
    }

    /// The track of the desk's record. It is lent without the lock.
    pub fn track(&self) -> &Track
        ensures { result.now ≡ L.opened.track }
    {
        &self.fixed.track
    }

    /// Enters what a train or the interlocking tells, publishes it, and gives the seat the receipt. The seat is told all that
    /// there is then.
    ///
    /// # Errors
    ///
    /// `Refused` with `Full`, where the record has as many entries as it may have, or with the refusal of the scene, for a legal
    /// history that goes on from all that the seat was told, and that it is told then; `Memory`, where it is refused, comes in
    /// place of none that [`Record::refusal`] tells. The seat has no new receipt.
    pub fn event<R: Wait>(
        &self,
        rt: &R,
        alloc: Global,
        seat: &mut Seat<L>,
        told: Told,
    ) -> Result<Receipt, OrMemory<ApplyFault>>
        requires { IsOfTrack L.opened.track told }
        ensures { IsToldAt seat.old seat.new told result }
    {
        let mut hold = self.hold(rt);
        let answer = hold.event(rt, alloc, seat, &told);
        hold.publish(rt, alloc, seat);
        hold.leave();
        answer
    }

    /// What lies under the lock, which is tried for a hundred times before its thread sleeps.
    fn lock<R: Wait>(&self, rt: &R) -> MutexGuard<'_, Shared<L>> {
        let backoff = Backoff::new();
        for _try in 0..LOCK_TRIES {
            if let Some(shared) = self.shared.try_lock() {
                return shared;
            }
            backoff.snooze();
        }
        self.shared.lock(rt)
    }

    /// The desk in one hold of its lock, for a seat that has much to tell at once. Every other seat waits until it ends.
    pub fn hold<R: Wait>(&self, rt: &R) -> Hold<'_, L> {
        Hold {
            shared: self.lock(rt),
        }
    }

    /// Publishes what this seat was told and is not published yet, so that the eyes of all seats see it. Where there is no memory
    /// for the scene, they see what they saw.
    pub fn publish<R: Wait>(&self, rt: &R, alloc: Global, seat: &mut Seat<L>)
        ensures { seat.new ≡ seat.old }
    {
        if !seat.is_ahead {
            return;
        }
        let mut hold = self.hold(rt);
        hold.publish(rt, alloc, seat);
        hold.leave();
    }

    /// Why what is told is not entered, where its caller has no memory for it: what refuses it at once, or `Memory`. The seat
    /// is told the history that this speaks of, and has no new receipt.
    pub fn event_in_vain<R: Wait>(
        &self,
        rt: &R,
        seat: &mut Seat<L>,
        told: &Told,
    ) -> OrMemory<ApplyFault>
        requires { IsOfTrack L.opened.track told.now }
        ensures { IsToldAt seat.old seat.new told.now (Err result) }
    {
        let shared = self.lock(rt);
        let fault = (*shared).event_in_vain(rt, seat, told);
        // A guard that is dropped would need that the press may be.
        MutexGuard::unlock(shared);
        fault
    }

    /// Why a train that asks is granted nothing, where its caller has no memory for it: `UnknownTrain` or `Memory`. The seat
    /// is told the history that this speaks of, and has no new receipt.
    pub fn ask_in_vain<R: Wait>(
        &self,
        rt: &R,
        seat: &mut Seat<L>,
        train: TrainId,
    ) -> OrMemory<AskFault>
        ensures { IsAnsweredAt seat.old seat.new train (Err result) }
    {
        let shared = self.lock(rt);
        let fault = (*shared).ask_in_vain(rt, seat, train);
        // A guard that is dropped would need that the press may be.
        MutexGuard::unlock(shared);
        fault
    }

    /// Grants a train that asks the authority that is best for what it is shown, and gives the seat the receipt. It is shown by
    /// the seat's eye without the lock, or under it where the seat was told more than is published; the gate computes without
    /// it. Where the train is shown another view meanwhile, it is done again, and the fourth time all under the lock. The seat
    /// is told all that the answer speaks of. The grant is published later: by the next [`Desk::publish`] or [`Desk::event`] from
    /// this seat, or from another that was told of it.
    ///
    /// # Errors
    ///
    /// `Refused` with the first of these, for a legal history that goes on from all that the seat was told, and that it
    /// is told then:
    /// - `UnknownTrain`: there is no train of this number,
    /// - `Blocked` with what stands at the reach, the reach in metres from the train's group, and the version of the
    ///   history, where no safe end can be given by a message,
    /// - `Full`: the record has as many entries as it may have.
    ///
    /// `Memory`, where there is a train of this number, and no memory for the view, the receipt or the entry, or the gate
    /// finds none. After a fault the seat has no new receipt.
    pub fn ask<R: Threads + Wait + Sync, G: Gate>(
        &self,
        rt: &R,
        alloc: Global,
        seat: &mut Seat<L>,
        train: TrainId,
        gate: &G,
    ) -> Result<Granted, OrMemory<AskFault>>
        ensures { IsAnsweredAt seat.old seat.new train result }
    {
        self.ask_by(rt, rt, alloc, seat, train, gate)
    }

    /// Grants a train that asks the authority that is best for what it is shown, as [`Desk::ask`] does, by two runtimes: one has
    /// the threads of the computation, the other waits for the lock.
    ///
    /// # Errors
    ///
    /// `Refused` with `UnknownTrain`, `Blocked` or `Full`, for a legal history that goes on from all that the seat was told, and
    /// that it is told then; `Memory`, where there is none for the view, the receipt or the entry, or the gate finds none. After
    /// a fault the seat has no new receipt.
    pub fn ask_by<T: Threads + Sync, R: Wait, G: Gate>(
        &self,
        rt: &T,
        waiting: &R,
        alloc: Global,
        seat: &mut Seat<L>,
        train: TrainId,
        gate: &G,
    ) -> Result<Granted, OrMemory<AskFault>>
        ensures { IsAnsweredAt seat.old seat.new train result }
    {
        match self.try_outside(rt, waiting, alloc, seat, train, gate) {
            Ok(Some(granted)) => Ok(granted),
            Ok(None) => self.grant(rt, waiting, alloc, seat, train),
            Err(fault) => Err(fault),
        }
    }

    /// What the train is shown, and the version: by the seat's eye, or under the lock where the seat was told more than is
    /// published.
    fn look<R: Wait>(
        &self,
        rt: &R,
        alloc: Global,
        seat: &mut Seat<L>,
        train: TrainId,
    ) -> Result<(View, u64), OrMemory<AskFault>>
        ensures later { IsLater seat.old.told seat.new.told }
        ensures receipts { seat.new.receipts ≡ seat.old.receipts }
        ensures seen { IfOk result (IsViewIn seat.new.told train) }
        ensures denied { IfErr result (λ fault. IsAnsweredThen seat.old.told seat.new.told train (Err fault)) }
    {
        if !seat.is_ahead {
            if let Some(seen) = look_by_eye(rt, alloc, seat, train)? {
                return Ok(seen);
            }
        }
        let shared = self.lock(rt);
        let answer = (*shared).look(rt, alloc, seat, train);
        MutexGuard::unlock(shared);
        answer
    }

    /// The tries outside the lock. None where each was overtaken.
    #[tactic(auto, using(rbc_snap::proofs::LaterLemmas::later_still, crate::proofs::AskingLemmas::since_before, crate::proofs::AskingLemmas::known_shown))]
    fn try_outside<T: Threads + Sync, R: Wait, G: Gate>(
        &self,
        rt: &T,
        waiting: &R,
        alloc: Global,
        seat: &mut Seat<L>,
        train: TrainId,
        gate: &G,
    ) -> Result<Option<Granted>, OrMemory<AskFault>>
        ensures { IsTriedAt seat.old seat.new train result }
    {
        seat.known();
        for _try in 0..TRIES {
            let (view, version) = self.look(waiting, alloc, seat, train)?;
            let candidate = gate.pass(rt, alloc, view, version)?;
            match self.commit(waiting, alloc, seat, candidate) {
                Ok(Some(granted)) => return Ok(Some(granted)),
                Ok(None) => {}
                Err(fault) => return Err(fault),
            }
        }
        Ok(None)
    }

    /// Enters what the candidate would grant, if its train is still shown its view.
    fn commit<R: Wait>(
        &self,
        rt: &R,
        alloc: Global,
        seat: &mut Seat<L>,
        candidate: Candidate,
    ) -> Result<Option<Granted>, OrMemory<AskFault>>
        requires { IsMadeIn seat.old.told candidate }
        ensures { IsTriedAt seat.old seat.new candidate.view.train result }
    {
        let mut shared = self.lock(rt);
        let answer = (*shared).commit(rt, alloc, seat, candidate);
        MutexGuard::unlock(shared);
        answer
    }

    /// The fourth try, in one hold of the lock.
    fn grant<T: Threads + Sync, R: Wait>(
        &self,
        rt: &T,
        waiting: &R,
        alloc: Global,
        seat: &mut Seat<L>,
        train: TrainId,
    ) -> Result<Granted, OrMemory<AskFault>>
        ensures { IsAnsweredAt seat.old seat.new train result }
    {
        let mut shared = self.lock(waiting);
        let answer = (*shared).grant(rt, waiting, alloc, seat, train);
        MutexGuard::unlock(shared);
        answer
    }

    /// The numbers of all trains that have reported and not left, in order of arrival. The seat is told the history that
    /// they are of.
    ///
    /// # Errors
    ///
    /// [`Memory`], where the allocator refuses room for them.
    pub fn trains<R: Wait>(
        &self,
        rt: &R,
        alloc: Global,
        seat: &mut Seat<L>,
    ) -> Result<Vec<TrainId>, Memory>
        ensures trains { IfOk result (λ numbers. numbers.items ≡ numbers_of seat.new.told) }
        ensures later { IsLater seat.old.told seat.new.told }
        ensures receipts { seat.new.receipts ≡ seat.old.receipts }
    {
        let shared = self.lock(rt);
        let answer = (*shared).trains(rt, alloc, seat);
        MutexGuard::unlock(shared);
        answer
    }

    /// The scene that the history has led to, with its version: that which is published, by the seat's eye and without the lock,
    /// or a copy under the lock where the seat was told more than is published. The seat is told that history.
    ///
    /// # Errors
    ///
    /// [`Memory`], where the allocator refuses room for the copy.
    pub fn scene<R: Wait>(
        &self,
        rt: &R,
        alloc: Global,
        seat: &mut Seat<L>,
    ) -> Result<(Arc<Scene>, u64), Memory>
        ensures scene { IfOk result (λ seen. arc_value seen.0 ≡ scene_of seat.new.told) }
        ensures version { IfOk result (λ seen. seen.1 ≡ length seat.new.told.entries) }
        ensures later { IsLater seat.old.told seat.new.told }
        ensures receipts { seat.new.receipts ≡ seat.old.receipts }
    {
        if !seat.is_ahead
            && let Some(seen) = scene_by_eye(rt, seat)
        {
            return Ok(seen);
        }
        let shared = self.lock(rt);
        let answer = (*shared).scene(rt, alloc, seat);
        MutexGuard::unlock(shared);
        answer
    }

    /// How far the history is: its version, and how many trains and locked sections its scene has. The seat is told that
    /// history. It takes no memory.
    pub fn state<R: Wait>(&self, rt: &R, seat: &mut Seat<L>) -> State
        ensures state { result ≡ state_of seat.new.told }
        ensures later { IsLater seat.old.told seat.new.told }
        ensures receipts { seat.new.receipts ≡ seat.old.receipts }
    {
        let shared = self.lock(rt);
        let state = (*shared).state(rt, seat);
        MutexGuard::unlock(shared);
        state
    }

    /// Ends the desk, and gives the record back if the receipts of all seats are exactly its entries since the desk
    /// was made.
    ///
    /// # Errors
    ///
    /// The first of these; record and seats are gone then:
    /// - `Missing` with the number of seats that are not handed in,
    /// - `Unmatched` with the first receipt, seat by seat, that is not at its place.
    pub fn close<R: Wait>(self, rt: &R, seats: Vec<Seat<L>>) -> Result<Record, CloseFault>
        ensures matches { IfOk result (λ log.
            Matches (all_receipts seats.items) log.entries (length L.opened.entries)) }
        ensures grown { IfOk result (λ log. take (length L.opened.entries) log.entries ≡ L.opened.entries) }
        ensures track { IfOk result (λ log. log.track ≡ L.opened.track) }
        ensures begin { IfOk result (λ log. log.begin ≡ L.opened.begin) }
        ensures most { IfOk result (λ log. log.most ≡ L.opened.most) }
        ensures legal { IfOk result (λ log. IsLegal (begin_of log) log.entries) }
        ensures told { IfOk result (λ log. All (λ seat. IsLater seat.told log) seats.items) }
        ensures missing { vec_len seats < L.parts → result ≡ Err (Missing (L.parts - vec_len seats)) }
        ensures unmatched { IfErr result (IsUnmatched L.opened L.parts seats.items) }
    {
        let Desk { shared, fixed } = self;
        let Fixed { seats: parts, .. } = fixed;
        let shared = shared.into_inner();
        if seats.len() < parts {
            shared.end(rt);
            return Err(CloseFault::Missing(parts - seats.len()));
        }
        shared.close(rt, seats)
    }

    /// Ends a desk that its caller can't close. The record is gone then, and so is what the seats' receipts stand for.
    pub fn end<R: Wait>(self, rt: &R) {
        let Desk { shared, fixed: _ } = self;
        shared.into_inner().end(rt);
    }
}
