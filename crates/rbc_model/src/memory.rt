//! Want of memory, by itself or beside a refusal.
ghost use Rattle.std.specs.Prelude.{◌≡◌};
ghost use Rattle.rbc_model.specs.declared.memory.OrMemory.TheVariants.{Refused, Memory as NoMemory};

use crate::{FileFault, LineFault, Refusal, TrackRefusal};
use std::alloc::{AllocError, AllocFailed};
use thiserror::Error;

/// The allocator refused what a call asked for.
#[derive(Clone, Copy, Debug, PartialEq, Eq, Error)]
#[error("out of memory")]
pub struct Memory;

impl From<AllocError> for Memory {
    fn from(_refused: AllocError) -> Memory {
        Memory
    }
}

impl<T: Drop> From<AllocFailed<T>> for Memory {
    fn from(_refused: AllocFailed<T>) -> Memory {
        Memory
    }
}

/// Why a call has no answer: it is refused, as its definition says, or the allocator refused memory.
#[derive(Debug, PartialEq, Eq, Drop, Error)]
pub enum OrMemory<E> {
    /// The refusal.
    #[error("refused")]
    Refused(E),
    /// The allocator refused memory.
    #[error("out of memory")]
    Memory,
}

impl<E> From<Memory> for OrMemory<E> {
    ghost from_gives = { λ _ fault. fault ≡ NoMemory };

    fn from(_refused: Memory) -> OrMemory<E> {
        OrMemory::Memory
    }
}

impl<E> From<AllocError> for OrMemory<E> {
    ghost from_gives = { λ _ fault. fault ≡ NoMemory };

    fn from(_refused: AllocError) -> OrMemory<E> {
        OrMemory::Memory
    }
}

impl<E, T: Drop> From<AllocFailed<T>> for OrMemory<E> {
    ghost from_gives = { λ _ fault. fault ≡ NoMemory };

    fn from(_refused: AllocFailed<T>) -> OrMemory<E> {
        OrMemory::Memory
    }
}

impl From<TrackRefusal> for OrMemory<TrackRefusal> {
    ghost from_gives = { λ refusal fault. fault ≡ Refused refusal };

    fn from(refusal: TrackRefusal) -> OrMemory<TrackRefusal> {
        OrMemory::Refused(refusal)
    }
}

impl From<FileFault> for OrMemory<FileFault> {
    ghost from_gives = { λ refusal fault. fault ≡ Refused refusal };

    fn from(refusal: FileFault) -> OrMemory<FileFault> {
        OrMemory::Refused(refusal)
    }
}

impl From<LineFault> for OrMemory<LineFault> {
    ghost from_gives = { λ refusal fault. fault ≡ Refused refusal };

    fn from(refusal: LineFault) -> OrMemory<LineFault> {
        OrMemory::Refused(refusal)
    }
}

impl From<Refusal> for OrMemory<Refusal> {
    ghost from_gives = { λ refusal fault. fault ≡ Refused refusal };

    fn from(refusal: Refusal) -> OrMemory<Refusal> {
        OrMemory::Refused(refusal)
    }
}
