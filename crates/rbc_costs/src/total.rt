//! Numbers that totals are kept in.
ghost use Rattle.std.specs.Prelude.{◌≡◌, ℕ, ◌+◌, ◌≤◌, nat_le, min};
ghost use Rattle.rbc_model.specs.declared.limits.TheConstants.{MOST_LOSS};

use rbc_model::limits::MOST_LOSS;

/// A number that a total is kept in, as narrow as a kind of level allows: the narrower the more of them a processor
/// compares at once.
pub trait Total: Copy + Send + Sync {
    /// The number.
    ghost number: { Self → ℕ };

    /// The greatest number that a total may have.
    ghost most: { ℕ };

    /// Whether a total may have this number.
    fn has(total: u64) -> bool
        ensures { result ≡ nat_le total most };

    /// The total of this number.
    fn of(total: u64) -> Self
        requires { total ≤ most }
        ensures { number result ≡ total };

    /// Both totals together.
    fn plus(self, other: Self) -> Self
        requires one { number self ≤ most }
        requires two { number other ≤ most }
        ensures { number result ≡ number self + number other };

    /// The lower one of two totals.
    fn least(self, other: Self) -> Self
        ensures { number result ≡ min (number self) (number other) };

    /// The number, in 64 bits.
    fn wide(self) -> u64
        ensures { result ≡ number self };
}

impl Total for u32 {
    ghost number = { λ n. n };

    ghost most = { 2000000000 };

    fn has(total: u64) -> bool {
        total <= 2_000_000_000
    }

    fn of(total: u64) -> u32 {
        total as u32
    }

    fn plus(self, other: u32) -> u32 {
        self + other
    }

    fn least(self, other: u32) -> u32 {
        self.min(other)
    }

    fn wide(self) -> u64 {
        u64::from(self)
    }
}

impl Total for u64 {
    ghost number = { λ n. n };

    ghost most = { MOST_LOSS };

    fn has(total: u64) -> bool {
        total <= MOST_LOSS
    }

    fn of(total: u64) -> u64 {
        total
    }

    fn plus(self, other: u64) -> u64 {
        self + other
    }

    fn least(self, other: u64) -> u64 {
        self.min(other)
    }

    fn wide(self) -> u64 {
        self
    }
}
