//! What lies under the desk's lock.

ghost use Rattle.std.specs.Prelude.{◌≡◌, ◌≢◌, ◌+◌, ◌≤◌, ◌<◌, ◌++◌, ◌∷◌, [], length, take, vec_len, true, false};
ghost use Rattle.std.specs.Prelude.{All, None, Ok, Err, IfOk, IfErr, IfSome, IfNone, MatchResult, OnErr};
ghost use Rattle.std.specs.Arc.{arc_value};
ghost use Rattle.std.specs.List.{list_any};
ghost use Rattle.rbc_model.specs.Histories.{IsLegal, Matches};
ghost use Rattle.rbc_model.specs.declared.memory.OrMemory.TheVariants.{Memory as NoMemory};
ghost use Rattle.rbc_grant_laws.specs.Candidates.{IsCandidateOf};
ghost use Rattle.rbc_snap.specs.Candidates.{HasChosenProfiles};
ghost use Rattle.rbc_snap.specs.Entering.{EntersOrMemory, entry_told, refused_at_once};
ghost use Rattle.rbc_snap.specs.Ends.{pressed};
ghost use Rattle.rbc_snap.specs.Present.{has_train};
ghost use Rattle.rbc_snap.specs.Steps.{IsOfTrack};
ghost use Rattle.rbc_snap.specs.Records.{begin_of, is_full};
ghost use Rattle.rbc_desk.specs.Closing.{all_receipts, IsUnmatchedIn};
ghost use Rattle.rbc_desk.specs.States.{state_of};
ghost use Rattle.rbc_desk.specs.Trains.{numbers_of};
ghost use Rattle.rbc_snap.specs.Later.{IsLater, scene_of};
ghost use Rattle.rbc_desk.specs.Asking.{fault_at, shown, tried, IsAnsweredAt, IsMadeIn, IsRefused, IsTriedAt, IsViewIn, Tries};
ghost use Rattle.rbc_desk.specs.Telling.{IsToldAt, IsToldThen};

use crate::closing::take_all;
use crate::{AskFault, CloseFault, DeskName, Granted, Seat, State};
use rbc_model::{Memory, OrMemory, Told, TrainId, ViewFault};
use rbc_snap::{
    ApplyFault, Candidate, CommitFault, Eye, Grant, Press, Receipt, Record, Scene, View, candidate,
};
use std::alloc::Global;
use std::sync::ledger::{Book, Share};
use std::sync::{Arc, Wait};
use std::thread::Threads;

/// What lies under the lock: the record, the press that publishes it, and the book that counts its entries from the desk's
/// start on. It is no `Drop`, since the press is none.
pub(crate) struct Shared<L: DeskName> {
    /// The record.
    pub(crate) log: Record,
    /// The press. It tells each entry in the hold that entered it, and publishes it there or later.
    pub(crate) press: Press<L>,
    /// How many entries the record had when the desk was made.
    pub(crate) start: u64,
    /// For each entry from the start on, whether a receipt for it was found. All this is for closing.
    pub(crate) found: Vec<bool>,
    /// The book with the number of entries from the start on.
    pub(crate) entries: Book<L>,
    /// A share with no part, into which the seats' shares are put when the desk is closed.
    pub(crate) rest: Share<L>,
    pub(crate) ghost published: { press.told ≡ log },
    pub(crate) ghost track: { log.track ≡ L.opened.track },
    pub(crate) ghost begin: { log.begin ≡ L.opened.begin },
    pub(crate) ghost most: { log.most ≡ L.opened.most },
    pub(crate) ghost base: { take start log.entries ≡ L.opened.entries },
    pub(crate) ghost starts: { start ≡ length L.opened.entries },
    pub(crate) ghost counted: { entries.total + start ≡ length log.entries },
    pub(crate) ghost places: { vec_len found ≡ entries.total },
    pub(crate) ghost none_found: { list_any (λ b. b) found.items ≡ false },
    pub(crate) ghost no_part: { rest.parts ≡ 0 },
    pub(crate) ghost no_amount: { rest.amount ≡ 0 },
}

/// Whether the train that was shown the candidate's view is there.
fn is_there(log: &Record, candidate: &Candidate) -> bool
    ensures { result ≡ has_train log.now candidate.now.view.train }
{
    log.has_train(candidate.view().train())
}

/// What a try is answered.
fn tried(
    answer: Result<Receipt, OrMemory<CommitFault>>,
) -> Result<Option<Receipt>, OrMemory<AskFault>>
    ensures { result ≡ tried answer }
{
    match answer {
        Ok(receipt) => Ok(Some(receipt)),
        Err(OrMemory::Refused(CommitFault::Full)) => Err(OrMemory::Refused(AskFault::Full)),
        Err(OrMemory::Refused(CommitFault::Stale(_))) => Ok(None),
        Err(OrMemory::Memory) => Err(OrMemory::Memory),
    }
}

/// Why what is told is not entered, where there is no memory for it: what refuses it at once, or else the want of memory.
fn in_vain(log: &Record, told: &Told) -> OrMemory<ApplyFault>
    requires { IsOfTrack log.now.track told.now }
    ensures refused { EntersOrMemory (Err result) log.now log.now (entry_told log.now told.now) }
    ensures needed { result ≡ NoMemory → refused_at_once log.now told.now ≡ None }
{
    match log.refusal(told) {
        Some(fault) => OrMemory::Refused(fault),
        None => OrMemory::Memory,
    }
}

/// Enters what the candidate would grant to a train that is there, if it is still shown its view: so it is where nothing
/// was entered since.
fn enter(
    log: &mut Record,
    alloc: Global,
    candidate: &Candidate,
) -> Result<Option<Receipt>, OrMemory<AskFault>>
    requires known { has_train log.old candidate.now.view.train ≡ true }
    requires room { is_full log.old ≡ false }
    requires shown { candidate.now.version ≡ length log.old.entries → IsMadeIn log.old candidate.now }
    ensures { Tries result log.old log.new candidate.now }
{
    if candidate.version() == log.version() {
        return tried(log.grant(alloc, candidate));
    }
    tried(log.commit(alloc, candidate))
}

/// Why the train is shown no end, told with the version of the history.
pub(crate) fn fault_at(version: u64, fault: ViewFault) -> AskFault
    ensures { result ≡ fault_at version fault }
{
    match fault {
        ViewFault::UnknownTrain => AskFault::UnknownTrain,
        ViewFault::Blocked(obstacle, at) => AskFault::Blocked(obstacle, at, version),
    }
}

/// What the record shows the train, and its version.
fn look(log: &Record, alloc: Global, train: TrainId) -> Result<(View, u64), OrMemory<AskFault>>
    ensures seen { IfOk result (IsViewIn log.now train) }
    ensures refused { IfErr result (IsRefused log.now train) }
{
    let version = log.version();
    match log.view(alloc, train) {
        Ok(view) => Ok((view, version)),
        Err(OrMemory::Refused(fault)) => Err(OrMemory::Refused(fault_at(version, fault))),
        Err(OrMemory::Memory) => Err(OrMemory::Memory),
    }
}

/// Why a full record grants the train nothing: it shows it no end; or it is full.
fn full_refusal(log: &Record, alloc: Global, train: TrainId) -> OrMemory<AskFault>
    requires { is_full log.now ≡ true }
    ensures { IsRefused log.now train result }
{
    match look(log, alloc, train) {
        Ok(_seen) => OrMemory::Refused(AskFault::Full),
        Err(fault) => fault,
    }
}

/// The numbers of the trains in the scene that the record leads to, in order of arrival.
fn trains_of(alloc: Global, log: &Record) -> Result<Vec<TrainId>, Memory>
    ensures { IfOk result (λ numbers. numbers.items ≡ numbers_of log.now) }
{
    let mut numbers = Vec::new(alloc);
    for train in log.scene().book().trains() {
        numbers.push(train.id())?;
    }
    Ok(numbers)
}

/// The press follows the record, which goes on from what it told, and tells the eye all of it.
fn follow<L: DeskName, R: Wait>(rt: &R, log: &Record, press: &mut Press<L>, eye: &mut Eye<L>)
    requires track { log.now.track ≡ press.old.told.track }
    requires begin { log.now.begin ≡ press.old.told.begin }
    requires most { log.now.most ≡ press.old.told.most }
    requires opening { take (length press.old.told.entries) log.now.entries ≡ press.old.told.entries }
    ensures press { press.new ≡ pressed log.now press.old.published }
    ensures told { eye.new.told ≡ log.now }
    ensures later { IsLater eye.old.told log.now }
{
    press.follow(rt, log);
    press.bring(rt, eye);
}

impl<L: DeskName> Shared<L> {
    /// What lies under the lock is a legal history, which goes on from the one that the desk was opened with.
    fn goes_on(&self)
        ensures { IsLater L.opened self.now.log }
    {
        self.log.right();
    }

    /// Tells the seat all that the record has.
    fn bring<R: Wait>(&self, rt: &R, seat: &mut Seat<L>)
        ensures told { seat.new.told ≡ self.now.log }
        ensures later { IsLater seat.old.told self.now.log }
        ensures receipts { seat.new.receipts ≡ seat.old.receipts }
    {
        self.goes_on();
        self.press.bring(rt, &mut seat.eye);
        seat.is_ahead = self.press.is_behind();
    }

    /// Enters what is told, and gives the seat the receipt. The seat is told all that the record then has. It is published
    /// later.
    pub(crate) fn event<R: Wait>(
        &mut self,
        rt: &R,
        alloc: Global,
        seat: &mut Seat<L>,
        told: &Told,
    ) -> Result<Receipt, OrMemory<ApplyFault>>
        requires { IsOfTrack L.opened.track told.now }
        ensures told { IsToldThen seat.old.told seat.new.told told.now result }
        ensures later { IsLater seat.old.told seat.new.told }
        ensures receipt { IfOk result (λ receipt. seat.new.receipts ≡ seat.old.receipts ++ receipt ∷ []) }
        ensures refused { OnErr result (seat.new.receipts ≡ seat.old.receipts) }
    {
        self.goes_on();
        let Shared {
            log,
            press,
            found,
            entries,
            ..
        } = self;
        let Seat {
            receipts,
            share,
            eye,
            is_ahead,
        } = seat;
        press.bring(rt, eye);
        *is_ahead = press.is_behind();
        if found.reserve(1).is_err() || receipts.reserve(1).is_err() {
            return Err(in_vain(log, told));
        }
        let receipt = log.apply(alloc, told)?;
        follow(rt, log, press, eye);
        found.push_reserved(false);
        receipts.push_reserved(Receipt::of_told(receipt.place(), *told));
        entries.add(share, 1);
        *is_ahead = true;
        Ok(receipt)
    }

    /// Publishes what is not published yet.
    ///
    /// # Errors
    ///
    /// [`Memory`], where there is none for it. What was published stays.
    pub(crate) fn publish<R: Wait>(
        &mut self,
        rt: &R,
        alloc: Global,
        seat: &mut Seat<L>,
    ) -> Result<(), Memory>
        ensures seat { seat.new ≡ seat.old }
        ensures log { self.new.log ≡ self.old.log }
        ensures published { MatchResult result (λ _. self.new.press.published ≡ self.new.log)
            (λ _. self.new.press.published ≡ self.old.press.published) }
    {
        seat.is_ahead = false;
        self.press.show(rt, alloc, &self.log)
    }

    /// Why what is told is not entered, where there is no memory for it: what refuses it at once, or else the want of memory.
    /// The seat is told all that the record has.
    pub(crate) fn event_in_vain<R: Wait>(
        &self,
        rt: &R,
        seat: &mut Seat<L>,
        told: &Told,
    ) -> OrMemory<ApplyFault>
        requires { IsOfTrack L.opened.track told.now }
        ensures { IsToldAt seat.old seat.new told.now (Err result) }
    {
        self.bring(rt, seat);
        in_vain(&self.log, told)
    }

    /// Why a train that asks is granted nothing, where there is no memory for it: it is not there, or memory is refused. The
    /// seat is told all that the record has.
    pub(crate) fn ask_in_vain<R: Wait>(
        &self,
        rt: &R,
        seat: &mut Seat<L>,
        train: TrainId,
    ) -> OrMemory<AskFault>
        ensures { IsAnsweredAt seat.old seat.new train (Err result) }
    {
        self.bring(rt, seat);
        if self.log.has_train(train) {
            return OrMemory::Memory;
        }
        OrMemory::Refused(AskFault::UnknownTrain)
    }

    /// What the train is shown, and the version of the history. The seat is told all that the record has.
    pub(crate) fn look<R: Wait>(
        &self,
        rt: &R,
        alloc: Global,
        seat: &mut Seat<L>,
        train: TrainId,
    ) -> Result<(View, u64), OrMemory<AskFault>>
        ensures told { seat.new.told ≡ self.now.log }
        ensures later { IsLater seat.old.told seat.new.told }
        ensures receipts { seat.new.receipts ≡ seat.old.receipts }
        ensures seen { IfOk result (IsViewIn self.now.log train) }
        ensures refused { IfErr result (IsRefused self.now.log train) }
    {
        self.bring(rt, seat);
        look(&self.log, alloc, train)
    }

    /// Enters what the candidate would grant, and gives the seat the receipt. None where the record shows its train
    /// another view. The seat is told all that the record then has. It is published later.
    pub(crate) fn commit<R: Wait>(
        &mut self,
        rt: &R,
        alloc: Global,
        seat: &mut Seat<L>,
        candidate: Candidate,
    ) -> Result<Option<Granted>, OrMemory<AskFault>>
        requires { IsMadeIn seat.old.told candidate }
        ensures comes { IsTriedAt seat.old seat.new candidate.view.train result }
        ensures current { shown self.old.log candidate.view.train ≡ Ok candidate.view → result ≢ Ok None }
    {
        candidate.known();
        match self.commit_now(rt, alloc, seat, &candidate)? {
            Some(receipt) => Ok(Some(Granted { receipt, candidate })),
            None => Ok(None),
        }
    }

    /// Enters what the candidate would grant, if its train is still shown its view, and gives the seat the receipt.
    fn commit_now<R: Wait>(
        &mut self,
        rt: &R,
        alloc: Global,
        seat: &mut Seat<L>,
        candidate: &Candidate,
    ) -> Result<Option<Receipt>, OrMemory<AskFault>>
        requires { IsMadeIn seat.old.told candidate.now }
        ensures tries { Tries result self.old.log self.new.log candidate.now }
        ensures told { seat.new.told ≡ self.new.log }
        ensures before { IsLater seat.old.told self.old.log }
        ensures later { IsLater seat.old.told seat.new.told }
        ensures receipt { IfOk result (λ tried. IfSome tried (λ receipt.
            seat.new.receipts ≡ seat.old.receipts ++ receipt ∷ [])) }
        ensures stale { IfOk result (λ tried. IfNone tried (seat.new.receipts ≡ seat.old.receipts)) }
        ensures refused { OnErr result (seat.new.receipts ≡ seat.old.receipts) }
    {
        self.goes_on();
        let Shared {
            log,
            press,
            found,
            entries,
            ..
        } = self;
        let Seat {
            receipts,
            share,
            eye,
            is_ahead,
        } = seat;
        press.bring(rt, eye);
        *is_ahead = press.is_behind();
        if log.is_full() {
            return Err(full_refusal(log, alloc, candidate.view().train()));
        }
        if !is_there(log, candidate) {
            return Err(OrMemory::Refused(AskFault::UnknownTrain));
        }
        found.reserve(1)?;
        receipts.reserve(1)?;
        let grant = Grant::of(candidate)?;
        let Some(entered) = enter(log, alloc, candidate)? else {
            // The next look is under the lock, and sees what overtook this one.
            *is_ahead = true;
            return Ok(None);
        };
        follow(rt, log, press, eye);
        found.push_reserved(false);
        receipts.push_reserved(Receipt::of_grant(entered.place(), grant));
        entries.add(share, 1);
        *is_ahead = true;
        Ok(Some(entered))
    }

    /// Grants the train the best authority for what it is shown now, and gives the seat the receipt.
    pub(crate) fn grant<R: Wait>(
        &mut self,
        rt: &(impl Threads + Sync),
        waiting: &R,
        alloc: Global,
        seat: &mut Seat<L>,
        train: TrainId,
    ) -> Result<Granted, OrMemory<AskFault>>
        ensures { IsAnsweredAt seat.old seat.new train result }
    {
        let (view, version) = self.look(waiting, alloc, seat, train)?;
        let candidate = candidate(rt, alloc, view, version)?;
        match self.commit(waiting, alloc, seat, candidate) {
            Ok(Some(granted)) => Ok(granted),
            Ok(None) => unreachable!(),
            Err(fault) => Err(fault),
        }
    }

    /// The numbers of the scene's trains, in order of arrival. The seat is told of the scene.
    pub(crate) fn trains<R: Wait>(
        &self,
        rt: &R,
        alloc: Global,
        seat: &mut Seat<L>,
    ) -> Result<Vec<TrainId>, Memory>
        ensures trains { IfOk result (λ numbers. numbers.items ≡ numbers_of seat.new.told) }
        ensures later { IsLater seat.old.told seat.new.told }
        ensures receipts { seat.new.receipts ≡ seat.old.receipts }
    {
        self.bring(rt, seat);
        trains_of(alloc, &self.log)
    }

    /// A copy of the scene, with the version of the history. The seat is told all that the record has.
    pub(crate) fn scene<R: Wait>(
        &self,
        rt: &R,
        alloc: Global,
        seat: &mut Seat<L>,
    ) -> Result<(Arc<Scene>, u64), Memory>
        ensures scene { IfOk result (λ seen. arc_value seen.0 ≡ scene_of seat.new.told) }
        ensures version { IfOk result (λ seen. seen.1 ≡ length seat.new.told.entries) }
        ensures later { IsLater seat.old.told seat.new.told }
        ensures receipts { seat.new.receipts ≡ seat.old.receipts }
    {
        self.bring(rt, seat);
        let scene = Arc::new(alloc, self.log.snapshot(alloc)?)?;
        Ok((scene, self.log.version()))
    }

    /// How far the history is. The seat is told all that the record has.
    pub(crate) fn state<R: Wait>(&self, rt: &R, seat: &mut Seat<L>) -> State
        ensures state { result ≡ state_of seat.new.told }
        ensures later { IsLater seat.old.told seat.new.told }
        ensures receipts { seat.new.receipts ≡ seat.old.receipts }
    {
        self.bring(rt, seat);
        State::of(self.log.version(), self.log.scene())
    }

    /// Gives the record back if the receipts of all seats are exactly its entries from the desk's start on.
    ///
    /// # Errors
    ///
    /// `Unmatched` with the first receipt, seat by seat, that is not at its place.
    pub(crate) fn close<R: Wait>(self, rt: &R, seats: Vec<Seat<L>>) -> Result<Record, CloseFault>
        requires { L.parts ≤ vec_len seats }
        ensures log { IfOk result (λ log. log ≡ self.log) }
        ensures legal { IfOk result (λ log. IsLegal (begin_of log) log.entries) }
        ensures matches { IfOk result (λ log.
            Matches (all_receipts seats.items) self.log.entries (length L.opened.entries)) }
        ensures told { IfOk result (λ log. All (λ seat. IsLater seat.told log) seats.items) }
        ensures unmatched { IfErr result (IsUnmatchedIn self.log L.opened (all_receipts seats.items)) }
    {
        let Shared {
            log,
            press,
            start: _,
            mut found,
            mut entries,
            mut rest,
        } = self;
        log.known();
        log.right();
        let misplaced = take_all(rt, &log, &mut found, &press, &mut rest, seats);
        press.end(rt);
        entries.audit(&mut rest);
        match misplaced {
            None => Ok(log),
            Some(receipt) => Err(CloseFault::Unmatched(receipt)),
        }
    }

    /// Ends what lies under the lock of a desk whose seats are not all there.
    pub(crate) fn end<R: Wait>(self, rt: &R) {
        let Shared {
            log: _,
            press,
            start: _,
            found: _,
            entries: _,
            rest: _,
        } = self;
        press.end(rt);
    }
}
