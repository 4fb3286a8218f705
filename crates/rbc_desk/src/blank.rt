//! What a desk is opened with.

ghost use Rattle.std.specs.Prelude.{◌≡◌};

use rbc_snap::NewHistory;
use std::sync::ledger;

/// A ledger and a history that no desk stands for yet. It takes no memory.
pub struct Blank {
    /// The ledger, which counts what is entered.
    pub ledger: ledger::Blank,
    /// The history, in which nothing stands yet.
    pub book: NewHistory,
}

impl Blank {
    /// For a desk with this number of seats, none of which reads events.
    pub fn new(seats: usize) -> Blank
        ensures { result.ledger.parts ≡ seats }
    {
        Blank {
            ledger: ledger::Blank::new(seats as u64),
            book: NewHistory::new(),
        }
    }

    /// For a desk with this number of seats, from which the events of its history can be read: each takes 64 bytes, and there is room for 100,000
    /// from the beginning on.
    pub fn with_events(seats: usize) -> Blank
        ensures { result.ledger.parts ≡ seats }
    {
        Blank {
            ledger: ledger::Blank::new(seats as u64),
            book: NewHistory::with_events(),
        }
    }
}
