//! Gradients, a kind of level.
ghost use Rattle.std.specs.Prelude.{ℤ, ◌≡◌, ◌↔◌, IsSome, IfSome, neg_ℤ};
ghost use Rattle.rbc_model.specs.Levels.{IsInRange, grade_levels};
ghost use Rattle.rbc_model.proofs.LevelLemmas.{grade_lawful};
ghost use Rattle.rbc_model.proofs.OrderLemmas.{grade_in_order};

use crate::Level;
use rbc_model::limits::STEEPEST;
use std::marker::Model;

/// A gradient of -254 to 254 per mille, uphill positive. The radio message has each of them (Q_GDIR, G_A).
#[derive(Clone, Copy, Debug, PartialEq, Eq, PartialOrd, Ord)]
pub struct Grade {
    per_mille: i16,
}

impl Model for Grade {
    ghost Value = { ℤ };

    ghost view = { λ g. g.per_mille };

    ghost invariant = { λ g. IsInRange grade_levels g.per_mille };

    ghost inverse = { λ per_mille. record { per_mille = per_mille } };
}

impl Grade {
    /// The gradient with this value in per mille, if that is -254 to 254.
    pub fn new(per_mille: i16) -> Option<Grade>
        ensures valid { IsSome result ↔ IsInRange grade_levels per_mille }
        ensures value { IfSome result (λ g. g ≡ per_mille) }
    {
        if (-STEEPEST..=STEEPEST).contains(&per_mille) {
            Some(Grade { per_mille })
        } else {
            None
        }
    }

    /// The gradient in per mille.
    pub fn per_mille(self) -> i16
        ensures value { result ≡ self }
        ensures in_range { IsInRange grade_levels result }
    {
        self.per_mille
    }

    /// The gradient of the metre where it is run the other way: uphill is downhill.
    pub fn negated(self) -> Grade
        ensures { result ≡ neg_ℤ self }
    {
        Grade {
            per_mille: -self.per_mille,
        }
    }
}

impl Level for Grade {
    ghost levels = { grade_levels };

    fn known(self) {
        let _ = self.per_mille;
    }

    fn floor(self) -> Grade {
        self
    }

    fn expressible(self) -> bool {
        true
    }

    fn price(self, given: Grade) -> u64 {
        (self.per_mille - given.per_mille) as u64
    }

    ghost lawful = { grade_lawful };

    ghost in_order = { grade_in_order };
}
