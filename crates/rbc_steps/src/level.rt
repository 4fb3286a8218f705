//! What a kind of level is: a trait with laws.
ghost use Rattle.std.specs.Prelude.{◌≡◌, IsTrue};
ghost use Rattle.std.specs.Ordering.{is_le};
ghost use Rattle.rbc_model.specs.Levels.{Levels, IsLawful, IsInRange, IsAtMost};

/// What a step of a profile holds over its metres: a speed or a gradient. Higher is less restrictive.
pub trait Level: Copy + Ord + Send + Sync {
    /// The kind of level: its range, its order, what a message can express of it, and what is lost by less.
    ghost levels: { Levels Self };

    /// Each value of the type is in range. This does nothing.
    fn known(self)
        ensures { IsInRange levels self };

    /// The greatest value that a message can express and that is no higher.
    fn floor(self) -> Self
        ensures { result ≡ levels.floor self };

    /// Whether a message can express it.
    fn expressible(self) -> bool
        ensures { result ≡ levels.is_expressible self };

    /// What is lost on one metre of this level where `given`, which is no higher, is given: at most 1,000,000.
    fn price(self, given: Self) -> u64
        requires { IsAtMost levels given self }
        ensures { result ≡ levels.price self given };

    /// The laws of a kind of level.
    ghost lawful: { IsLawful levels };

    /// Values compare as levels do.
    ghost in_order: { (a b : Self) → IsInRange levels a → IsInRange levels b
        → is_le (Self.cmp a b) ≡ levels.at_most a b };
}
