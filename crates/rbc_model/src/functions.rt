//! Why rows make no function of the metres.

use thiserror::Error;

/// Why rows of (start, value) make no track function.
#[derive(Clone, Copy, Debug, PartialEq, Eq, Error)]
pub enum RunsFault {
    /// There is no row.
    #[error("there is no run")]
    Empty,
    /// The first start is not 0, or the starts do not rise.
    #[error("the starts do not rise from 0")]
    NotRising,
    /// A start is not below the end, or the end is above 100,000 m.
    #[error("a start is not below the end, or the end is above 100000 m")]
    OutOfRange,
}

/// Why steps of (start, value) make no profile.
#[derive(Clone, Copy, Debug, PartialEq, Eq, Error)]
pub enum ProfileFault {
    /// There is no step.
    #[error("there is no step")]
    Empty,
    /// The first start is not 0, or the starts do not rise.
    #[error("the starts do not rise from 0")]
    NotRising,
    /// A start is not below the end, the end is above 100,000 m, or there are more than 31 steps.
    #[error("a start is not below the end, the end is above 100000 m, or there are more than 31 steps")]
    OutOfRange,
    /// The radio message has no such value.
    #[error("a value that the radio message does not have")]
    NotExpressible,
}

/// Why a track is not put behind another.
#[derive(Clone, Copy, Debug, PartialEq, Eq, Error)]
pub enum AppendFault {
    /// The two together are longer than 100,000 m.
    #[error("the two together are longer than 100000 m")]
    OutOfRange,
    /// The allocator refused memory.
    #[error("out of memory")]
    Memory,
}
