//! Candidates: what may be granted for a view.

ghost use Rattle.std.specs.Prelude.{◌≡◌, IfOk};
ghost use Rattle.std.specs.Arc.{arc_value};
ghost use Rattle.rbc_model.specs.Messages.{message_bytes};
ghost use Rattle.rbc_grant_laws.specs.Candidates.{IsCandidateOf};
ghost use Rattle.rbc_grant.specs.Candidates.{HasChosenProfiles, AreLosses, AreGreatestTables};

use crate::{Losses, Offer, PriceTables};
use rbc_model::{Memory, Obstacle, TrainId};
use rbc_packet::Authority;
use rbc_reach::View;
use std::marker::Model;
use std::sync::Arc;

pub(crate) mod of_view;
mod reductions;

/// What may be granted to a train that was shown a view: the authority that is best for it, with its message 3 and
/// the tables of prices that show that no profiles lose less. It knows the version of the history that the view is of.
/// All of it lies apart, so that a candidate is moved as a pointer, and its offer by itself, so that what keeps the grant
/// shares it.
#[derive(Drop)]
pub struct Candidate {
    made: Box<Made>,
}

/// What a candidate is made of.
#[derive(Drop)]
struct Made {
    view: View,
    version: u64,
    offer: Arc<Offer>,
    message: Vec<u8>,
    losses: Losses,
    prices: PriceTables,
}

impl Model for Candidate {
    ghost use Rattle.std.specs.Arc.{arc_value};
    ghost use Rattle.rbc_grant.specs.Candidates.{Candidate, IsCandidate};

    ghost Value = { Candidate };

    ghost view = { λ c. record { view = c.made.value.view; version = c.made.value.version; grant = arc_value c.made.value.offer } };

    ghost invariant = { λ c. IsCandidate c.made.value.view (arc_value c.made.value.offer) c.made.value.message.items c.made.value.losses
        c.made.value.prices };
}

impl Candidate {
    /// It is the best for its view, with the profiles that the rules choose. This does nothing.
    pub fn known(&self)
        ensures best { IsCandidateOf self.now.view self.now.grant }
        ensures chosen { HasChosenProfiles self.now.view self.now.grant }
    {
        let _ = &self.made.view;
    }

    /// The view that it is made for.
    pub fn view(&self) -> &View
        ensures view { result.now ≡ self.now.view }
    {
        &self.made.view
    }

    /// The version of the history that the view is of.
    pub fn version(&self) -> u64
        ensures { result ≡ self.now.version }
    {
        self.made.version
    }

    /// The number of the train that is to be granted the authority.
    pub fn train(&self) -> TrainId
        ensures { result ≡ self.now.grant.train }
    {
        self.made.offer.train()
    }

    /// Where the authority begins, in metres from the group; it is negative before the group.
    pub fn from(&self) -> i64
        ensures { result ≡ self.now.grant.from }
    {
        self.made.offer.from()
    }

    /// The authority.
    pub fn authority(&self) -> &Authority
        ensures authority { result.now ≡ self.now.grant.authority }
    {
        self.made.offer.authority()
    }

    /// The offer, for what keeps it beyond the candidate. It is not copied.
    ///
    /// # Errors
    ///
    /// [`Memory`] where more keep it than can be counted.
    pub fn shared_offer(&self) -> Result<Arc<Offer>, Memory>
        ensures { IfOk result (λ shared. arc_value shared ≡ self.now.grant) }
    {
        Ok(self.made.offer.clone()?)
    }

    /// What stands beyond the authority's end.
    pub fn obstacle(&self) -> Obstacle
        ensures { result ≡ self.now.grant.obstacle }
    {
        self.made.offer.obstacle()
    }

    /// The authority as message 3: 39 to 234 bytes.
    pub fn message(&self) -> &[u8]
        ensures { result.now ≡ message_bytes self.now.grant.authority }
    {
        self.made.message.as_slice()
    }

    /// What the authority's profiles lose against the view's speeds and gradients.
    pub fn losses(&self) -> Losses
        ensures { AreLosses self.now.view self.now.grant result }
    {
        self.made.losses
    }

    /// The tables of prices that show that no profiles lose less.
    pub fn prices(&self) -> &PriceTables
        ensures { AreGreatestTables self.now.view self.now.grant result.now }
    {
        &self.made.prices
    }
}
