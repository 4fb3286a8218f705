//! What a sweep granted is kept before it is told.

ghost use Rattle.std.specs.Prelude.{◌≡◌, ◌<◌, ℕ, All, IsPermutation, Err, IfOk, OnErr, OnOk, length};
ghost use Rattle.std.specs.List.Sorted.{IsNonDecreasingBy};
ghost use Rattle.rbc_model.specs.SessionText.{Ask, IsSayable};
ghost use Rattle.rbc_sweep.specs.Outcomes.{granted};
ghost use Rattle.rbc_sessions.specs.Keeping.{HasGrant, HasOutcome};
ghost use Rattle.rbc_sessions.specs.declared.keeping.KeepFault.TheVariants.{Journal as KeeperFailed};
ghost use Rattle.rbc_sessions.specs.Sittings.{AreKeptOf, HasRank, IsKeptAt, StaysKept, rank_place};

use crate::{KeepFault, Keeper, NotKept, SessionContext};
use rbc_model::limits::LAST_TRAIN;
use rbc_model::{Memory, TrainId};
use rbc_replies::words::Request;
use rbc_sweep::{Answer, DeskName, Gate, Granted, Outcome, Seat};
use std::alloc::{AllocError, Global};
use std::sync::Wait;

/// An outcome, by its number in a list, with the place of the entry that it tells of: the last number where it tells of none.
#[derive(Clone, Copy)]
struct Rank {
    place: u64,
    number: usize,
}

/// The place of the entry that an outcome tells of, or the last number.
fn place_of(outcome: &Outcome) -> u64 {
    match &outcome.answer {
        Answer::Granted(granted) => granted.receipt.place(),
        _ => u64::MAX,
    }
}

/// The ranks in the order of the places.
fn sorted(mut ranks: Vec<Rank>) -> Vec<Rank>
    ensures permutation { IsPermutation ranks.items result.items }
    ensures sorted { IsNonDecreasingBy rank_place result.items }
{
    ranks.sort_unstable_by_key(|rank| rank.place);
    ranks
}

/// A rank for each of these outcomes, in the order of the entries that they tell of.
///
/// # Errors
///
/// The allocator refuses memory.
fn ranked(alloc: Global, outcomes: &[Outcome]) -> Result<Vec<Rank>, AllocError>
    ensures each { IfOk result (λ ranks. (number : ℕ) → number < length outcomes.now → HasRank ranks.items number) }
    ensures sorted { IfOk result (λ ranks. IsNonDecreasingBy rank_place ranks.items) }
{
    let mut ranks = Vec::with_capacity(alloc, outcomes.len())?;
    for number in 0..outcomes.len() {
        let place = place_of(&outcomes[number]);
        ranks.push_reserved(Rank { place, number });
    }
    Ok(sorted(ranks))
}

impl<'a, L: DeskName, K: Keeper<L>, G: Gate, R: Wait> SessionContext<'a, L, K, G, R> {
    /// The request of a train, ready to be kept.
    ///
    /// # Errors
    ///
    /// `Memory`: there is none for it.
    fn text_of(&self, alloc: Global, train: TrainId) -> Result<K::Text, Memory>
        ensures sayable { OnOk result (IsSayable (Ask train)) }
        ensures says { IfOk result (λ text. K.says text (Ask train)) }
    {
        // Every train has a number from 1 to the last, so the first try succeeds. No line says another.
        for _ in self.waiting.forever() {
            if train.number() < 1 {
                continue;
            }
            if train.number() > LAST_TRAIN {
                continue;
            }
            return self.keeper.prepare(alloc, &Request::Ask(train));
        }
        unreachable!()
    }

    /// Lays the line of the request of a train that led to what it was granted.
    ///
    /// # Errors
    ///
    /// `Memory`: there is none for it.
    fn lay_grant(
        &self,
        alloc: Global,
        seat: &Seat<L>,
        train: TrainId,
        granted: &Granted,
    ) -> Result<(), Memory>
        requires told { HasGrant seat.now.told train granted.now }
    {
        // What the seat was told is on the desk's track, in form.
        self.track.known();
        seat.known();
        let text = self.text_of(alloc, train)?;
        self.keeper.lay(self.waiting, seat, &granted.receipt, text);
        Ok(())
    }

    /// Lays the lines of the requests of all trains that were granted something, in the order of these ranks of their outcomes.
    ///
    /// # Errors
    ///
    /// `Memory`: there is none for one.
    fn lay_ranked(
        &self,
        alloc: Global,
        seat: &Seat<L>,
        ranks: &[Rank],
        outcomes: &[Outcome],
    ) -> Result<(), Memory>
        requires told { All (HasOutcome seat.now.told) outcomes.now }
    {
        for rank in ranks {
            if let Some(outcome) = outcomes.get(rank.number) {
                self.lay_outcome(alloc, seat, outcome)?;
            }
        }
        Ok(())
    }

    /// Lays the line of the request of a train that led to what an outcome tells that it was granted, if it was.
    ///
    /// # Errors
    ///
    /// `Memory`: there is none for it.
    fn lay_outcome(&self, alloc: Global, seat: &Seat<L>, outcome: &Outcome) -> Result<(), Memory>
        requires told { HasOutcome seat.now.told outcome.now }
    {
        match &outcome.answer {
            Answer::Granted(granted) => self.lay_grant(alloc, seat, outcome.train, granted),
            _ => Ok(()),
        }
    }

    /// Lays the lines of the requests of all trains that were granted something, and gives the ranks in whose order it did.
    ///
    /// # Errors
    ///
    /// `Memory`: there is none for a request, or for the ranks.
    fn lay_grants(
        &self,
        alloc: Global,
        seat: &Seat<L>,
        outcomes: &[Outcome],
    ) -> Result<Vec<Rank>, Memory>
        requires told { All (HasOutcome seat.now.told) outcomes.now }
        ensures each { IfOk result (λ ranks. (number : ℕ) → number < length outcomes.now → HasRank ranks.items number) }
    {
        let ranks = ranked(alloc, outcomes)?;
        self.lay_ranked(alloc, seat, ranks.as_slice(), outcomes)?;
        Ok(ranks)
    }

    /// Returns once the request of a train is kept that led to what an outcome tells that it was granted, if it was. Its line was laid.
    ///
    /// # Errors
    ///
    /// It could not be kept.
    fn keep_outcome(&self, committer: &mut K::Committer, outcome: &Outcome) -> Result<(), NotKept>
        ensures kept { OnOk result (AreKeptOf (K.kept committer.new) outcome.now) }
        ensures failed { OnErr result (K.failed committer.new) }
        ensures stays { StaysKept K.kept committer.old committer.new }
    {
        match &outcome.answer {
            Answer::Granted(granted) => {
                self.keeper.keep(self.waiting, committer, &granted.receipt)
            }
            _ => Ok(()),
        }
    }

    /// Returns once the request of a train is kept that led to what the outcome with this number tells that it was granted, if it was.
    ///
    /// # Errors
    ///
    /// It could not be kept.
    fn keep_numbered(
        &self,
        committer: &mut K::Committer,
        number: usize,
        outcomes: &[Outcome],
    ) -> Result<(), NotKept>
        ensures kept { OnOk result (IsKeptAt (K.kept committer.new) outcomes.now number) }
        ensures failed { OnErr result (K.failed committer.new) }
        ensures stays { StaysKept K.kept committer.old committer.new }
    {
        match outcomes.get(number) {
            Some(outcome) => self.keep_outcome(committer, outcome),
            None => Ok(()),
        }
    }

    /// Returns once the requests of all trains are kept that were granted something, in the order of these ranks of their outcomes. Their lines were
    /// laid.
    ///
    /// # Errors
    ///
    /// A request could not be kept.
    fn keep_ranked(
        &self,
        committer: &mut K::Committer,
        ranks: &[Rank],
        outcomes: &[Outcome],
    ) -> Result<(), NotKept>
        requires each { (number : ℕ) → number < length outcomes.now → HasRank ranks.now number }
        ensures kept { OnOk result (All (λ receipt. K.kept committer.new receipt.place) (granted outcomes.now)) }
        ensures failed { OnErr result (K.failed committer.new) }
        ensures stays { StaysKept K.kept committer.old committer.new }
    {
        for rank in ranks {
            self.keep_numbered(committer, rank.number, outcomes)?;
        }
        Ok(())
    }

    /// Keeps the requests of all trains that were granted something: their lines are laid in the order of its entries, and then it waits for all of
    /// them. The seat was told all.
    ///
    /// # Errors
    ///
    /// `Memory`: there is none for a request, or for the ranks. `Journal`: a request could not be kept.
    pub fn keep_grants(
        &self,
        alloc: Global,
        committer: &mut K::Committer,
        seat: &Seat<L>,
        outcomes: &[Outcome],
    ) -> Result<(), KeepFault>
        requires told { All (HasOutcome seat.now.told) outcomes.now }
        ensures kept { OnOk result (All (λ receipt. K.kept committer.new receipt.place) (granted outcomes.now)) }
        ensures journal { result ≡ Err KeeperFailed → K.failed committer.new }
        ensures stays { StaysKept K.kept committer.old committer.new }
    {
        let Ok(ranks) = self.lay_grants(alloc, seat, outcomes) else {
            return Err(KeepFault::Memory);
        };
        match self.keep_ranked(committer, ranks.as_slice(), outcomes) {
            Ok(()) => Ok(()),
            Err(_) => Err(KeepFault::Journal),
        }
    }
}
