//! What was granted to a train.

ghost use Rattle.std.specs.Prelude.{◌≡◌, IfOk};

use rbc_grant::{Candidate, Offer};
use rbc_model::{Memory, Obstacle, TrainId};
use rbc_packet::Authority;
use std::marker::Model;
use std::sync::Arc;

/// What was granted to a train: from where on, which authority, and what stands beyond its end. All of it lies apart, and
/// is shared with the candidate and with the same grant elsewhere, so that an entry is small.
#[derive(Drop)]
pub struct Grant {
    offer: Arc<Offer>,
}

impl Model for Grant {
    ghost use Rattle.std.specs.Arc.{arc_value};
    ghost use Rattle.rbc_model.specs.Histories.{Grants};

    ghost Value = { Grants };

    ghost view = { λ g. arc_value g.offer };
}

impl Grant {
    /// What the candidate would grant. It is shared, not copied.
    ///
    /// # Errors
    ///
    /// `Memory`, where more keep it than can be counted.
    pub fn of(candidate: &Candidate) -> Result<Grant, Memory>
        ensures { IfOk result (λ grant. grant ≡ candidate.now.grant) }
    {
        Ok(Grant {
            offer: candidate.shared_offer()?,
        })
    }

    /// The train's number.
    pub fn train(&self) -> TrainId
        ensures { result ≡ self.now.train }
    {
        self.offer.train()
    }

    /// Where the authority begins, in metres from the group; it is negative before the group.
    pub fn from(&self) -> i64
        ensures { result ≡ self.now.from }
    {
        self.offer.from()
    }

    /// The authority.
    pub fn authority(&self) -> &Authority
        ensures { result.now ≡ self.now.authority }
    {
        self.offer.authority()
    }

    /// What stands beyond the authority's end.
    pub fn obstacle(&self) -> Obstacle
        ensures { result ≡ self.now.obstacle }
    {
        self.offer.obstacle()
    }
}
