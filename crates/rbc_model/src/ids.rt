//! The numbers of sections and routes in their track, and the numbers of trains.
ghost use Rattle.std.specs.Prelude.{◌≡◌};

use std::marker::Model;

/// The number of a section: its index in its track's list of sections.
#[derive(Clone, Copy, Debug, PartialEq, Eq)]
pub struct SectionId {
    index: usize,
}

impl Model for SectionId {
    ghost use Rattle.std.specs.Prelude.{ℕ};

    ghost Value = { ℕ };

    ghost view = { λ id. id.index };

    ghost inverse = { λ index. record { index = index } };
}

impl SectionId {
    /// The section of this index.
    pub fn new(index: usize) -> SectionId
        ensures { result ≡ index }
    {
        SectionId { index }
    }

    /// The section's index.
    pub fn index(self) -> usize
        ensures { result ≡ self }
    {
        self.index
    }
}

/// The number of a route: its index in its track's list of routes.
#[derive(Clone, Copy, Debug, PartialEq, Eq)]
pub struct RouteId {
    index: usize,
}

impl Model for RouteId {
    ghost use Rattle.std.specs.Prelude.{ℕ};

    ghost Value = { ℕ };

    ghost view = { λ id. id.index };

    ghost inverse = { λ index. record { index = index } };
}

impl RouteId {
    /// The route of this index.
    pub fn new(index: usize) -> RouteId
        ensures { result ≡ index }
    {
        RouteId { index }
    }

    /// The route's index.
    pub fn index(self) -> usize
        ensures { result ≡ self }
    {
        self.index
    }
}

/// The number of a train, by which the reports, the requests and the replies name it. A report tells one from 1 to
/// 9,999,999.
#[derive(Clone, Copy, Debug, PartialEq, Eq)]
pub struct TrainId {
    number: u32,
}

impl Model for TrainId {
    ghost use Rattle.std.specs.Prelude.{ℕ};

    ghost Value = { ℕ };

    ghost view = { λ id. id.number };

    ghost inverse = { λ number. record { number = number } };
}

impl TrainId {
    /// The train of this number.
    pub fn new(number: u32) -> TrainId
        ensures { result ≡ number }
    {
        TrainId { number }
    }

    /// The train's number.
    pub fn number(self) -> u32
        ensures { result ≡ self }
    {
        self.number
    }
}
