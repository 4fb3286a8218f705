//! A seat with its committer.

ghost use Rattle.std.specs.Prelude.{◌≡◌, false};

use rbc_sweep::{DeskName, Seat};

/// A seat at a desk, with the committer by which the requests are kept that led to its entries.
#[derive(Drop)]
pub struct Sitting<L: DeskName, P> {
    /// The seat.
    pub seat: Seat<L>,
    /// Its committer.
    pub committer: P,
    /// Whether a request could not be kept. Then the last lines were not answered.
    pub has_failed: bool,
}

impl<L: DeskName, P> Sitting<L, P> {
    /// The seat with a committer.
    pub fn new(seat: Seat<L>, committer: P) -> Sitting<L, P>
        ensures seat { result.seat ≡ seat }
        ensures committer { result.committer ≡ committer }
        ensures whole { result.has_failed ≡ false }
    {
        Sitting {
            seat,
            committer,
            has_failed: false,
        }
    }
}
