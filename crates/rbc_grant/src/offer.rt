//! What a candidate offers.

ghost use Rattle.std.specs.Prelude.{◌≡◌};
ghost use Rattle.rbc_grant.specs.Candidates.{granted};

use rbc_model::{Obstacle, TrainId};
use rbc_packet::Authority;
use rbc_reach::View;
use std::marker::Model;

/// What a train would be granted: from where on, which authority, and what stands beyond its end. It is a grant once it is
/// entered.
#[derive(Drop)]
pub struct Offer {
    train: TrainId,
    from: i64,
    authority: Authority,
    obstacle: Obstacle,
}

impl Model for Offer {
    ghost use Rattle.rbc_model.specs.Histories.{Grants};

    ghost Value = { Grants };

    ghost view = { λ o. record {
      train = o.train;
      from = o.from;
      authority = o.authority;
      obstacle = o.obstacle;
    } };
}

impl Offer {
    /// The authority, granted to the train that was shown the view.
    pub(crate) fn of(view: &View, authority: Authority) -> Offer
        ensures { result ≡ granted view.now authority }
    {
        Offer {
            train: view.train(),
            from: i64::from(view.start()) - i64::from(view.origin()),
            authority,
            obstacle: view.obstacle(),
        }
    }

    /// The train's number.
    pub fn train(&self) -> TrainId
        ensures { result ≡ self.now.train }
    {
        self.train
    }

    /// Where the authority begins, in metres from the group; it is negative before the group.
    pub fn from(&self) -> i64
        ensures { result ≡ self.now.from }
    {
        self.from
    }

    /// The authority.
    pub fn authority(&self) -> &Authority
        ensures { result.now ≡ self.now.authority }
    {
        &self.authority
    }

    /// What stands beyond the authority's end.
    pub fn obstacle(&self) -> Obstacle
        ensures { result ≡ self.now.obstacle }
    {
        self.obstacle
    }
}
