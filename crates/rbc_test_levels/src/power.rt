//! A third kind of level, of which a message has the powers of two, and whose prices are high and do not add up.

ghost use Rattle.std.specs.Prelude.{ℕ, ◌≡◌, ◌↔◌, IsSome, IfSome};
ghost use Rattle.rbc_model.specs.Levels.{IsInRange};
ghost use Rattle.rbc_test_levels.specs.PowerLevels.{power_levels};
ghost use Rattle.rbc_test_levels.specs.PowerLaws.{power_lawful, power_in_order};

use rbc_reduce::Priced;
use rbc_steps::Level;
use std::marker::Model;

/// A number of 1 to 1,000, of which a message has the powers of two. It stands for no quantity of the railway.
#[derive(Clone, Copy, Debug, PartialEq, Eq, PartialOrd, Ord)]
pub struct Power {
    number: u16,
}

impl Model for Power {
    ghost Value = { ℕ };

    ghost view = { λ p. p.number };

    ghost invariant = { λ p. IsInRange power_levels p.number };

    ghost inverse = { λ number. record { number = number } };
}

impl Power {
    /// This number, if it is 1 to 1,000.
    pub fn new(number: u16) -> Option<Power>
        ensures valid { IsSome result ↔ IsInRange power_levels number }
        ensures value { IfSome result (λ p. p ≡ number) }
    {
        if number >= 1 && number <= 1000 {
            Some(Power { number })
        } else {
            None
        }
    }

    /// The number.
    pub fn number(self) -> u16
        ensures value { result ≡ self }
        ensures in_range { IsInRange power_levels result }
    {
        self.number
    }
}

impl Level for Power {
    ghost levels = { power_levels };

    fn known(self) {
        let _ = self.number;
    }

    fn floor(self) -> Power {
        Power {
            number: 1 << self.number.ilog2(),
        }
    }

    fn expressible(self) -> bool {
        self.number.is_power_of_two()
    }

    fn price(self, given: Power) -> u64 {
        let less = u64::from(self.number - given.number);
        less * less
    }

    ghost lawful = { power_lawful };

    ghost in_order = { power_in_order };
}

/// What is lost on a long track needs 64 bits.
impl Priced for Power {
    fn is_low() -> bool {
        false
    }
}
