//! Speeds, a kind of level.
ghost use Rattle.std.specs.Prelude.{ℕ, ◌≡◌, ◌↔◌, IsSome, IfSome};
ghost use Rattle.rbc_model.specs.Levels.{IsInRange, speed_levels};
ghost use Rattle.rbc_model.proofs.LevelLemmas.{speed_lawful};
ghost use Rattle.rbc_model.proofs.OrderLemmas.{speed_in_order};

use crate::Level;
use rbc_model::limits::{FASTEST, SLOWEST};
use std::marker::Model;

/// A speed of 5 to 600 km/h. The radio message has the multiples of 5 km/h (V_STATIC).
#[derive(Clone, Copy, Debug, PartialEq, Eq, PartialOrd, Ord)]
pub struct Speed {
    kmh: u16,
}

impl Model for Speed {
    ghost Value = { ℕ };

    ghost view = { λ s. s.kmh };

    ghost invariant = { λ s. IsInRange speed_levels s.kmh };

    ghost inverse = { λ kmh. record { kmh = kmh } };
}

impl Speed {
    /// The speed with this value in km/h, if that is 5 to 600.
    pub fn new(kmh: u16) -> Option<Speed>
        ensures valid { IsSome result ↔ IsInRange speed_levels kmh }
        ensures value { IfSome result (λ s. s ≡ kmh) }
    {
        if (SLOWEST..=FASTEST).contains(&kmh) {
            Some(Speed { kmh })
        } else {
            None
        }
    }

    /// The speed in km/h.
    pub fn kmh(self) -> u16
        ensures value { result ≡ self }
        ensures in_range { IsInRange speed_levels result }
    {
        self.kmh
    }
}

impl Level for Speed {
    ghost levels = { speed_levels };

    fn known(self) {
        let _ = self.kmh;
    }

    fn floor(self) -> Speed {
        Speed {
            kmh: self.kmh / 5 * 5,
        }
    }

    fn expressible(self) -> bool {
        self.kmh % 5 == 0
    }

    fn price(self, given: Speed) -> u64 {
        u64::from(self.kmh - given.kmh)
    }

    ghost lawful = { speed_lawful };

    ghost in_order = { speed_in_order };
}
