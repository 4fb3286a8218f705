//! What the prices of a kind of level allow.
ghost use Rattle.std.specs.Prelude.{IsTrue};
ghost use Rattle.rbc_costs.specs.Prices.{ArePricesAtMost};

use rbc_steps::{Grade, Level, Speed};

/// What the prices of a kind of level allow, beyond the laws of levels. Where they allow more a table of prices is filled
/// faster; it is the same table.
pub trait Priced: Level {
    /// Whether no price is above 20,000. Then what is lost on a whole track fits in 32 bits, and so do two such totals.
    fn is_low() -> bool
        ensures { IsTrue result → ArePricesAtMost Self.levels 20000 };
}

impl Priced for Speed {
    fn is_low() -> bool {
        true
    }
}

impl Priced for Grade {
    fn is_low() -> bool {
        true
    }
}
