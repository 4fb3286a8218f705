//! Why a journal is not opened, or ends a session.

ghost use Rattle.std.specs.Prelude.{◌≡◌};
ghost use Rattle.rbc_journaled.specs.Faults.{opening_fault};

use rbc_journal::JournalFault;
use rbc_model::{Memory, SessionFault};
use thiserror::Error;

/// Why a journal is not opened.
#[derive(Clone, Copy, Debug, PartialEq, Eq, Error)]
pub enum OpeningFault {
    /// The allocator refused memory.
    #[error("out of memory")]
    Memory,
    /// The file has 2^60 bytes.
    #[error("journal fault")]
    Full,
    /// The file failed.
    #[error("journal fault")]
    Device,
    /// The line of this number, from 1 on, adds nothing: the journal is of another track, or was written by hand.
    #[error("journal: Foreign {0}")]
    Foreign(u64),
    /// The journal tells more entries than the history may have, which is this number.
    #[error("journal: Entries {0}")]
    Entries(u64),
    /// The line of this number, from 1 on, leads to another grant than is noted behind it, or to none.
    #[error("journal: Differs {0}")]
    Differs(u64),
}

impl From<JournalFault> for OpeningFault {
    ghost from_gives = { λ fault kept. kept ≡ opening_fault fault };

    fn from(fault: JournalFault) -> OpeningFault {
        match fault {
            JournalFault::Memory => OpeningFault::Memory,
            JournalFault::Full => OpeningFault::Full,
            JournalFault::Device => OpeningFault::Device,
        }
    }
}

impl From<Memory> for OpeningFault {
    ghost use Rattle.rbc_journaled.specs.declared.fault.OpeningFault.TheVariants.{Memory as NoMemory};

    ghost from_gives = { λ _ kept. kept ≡ NoMemory };

    fn from(_: Memory) -> OpeningFault {
        OpeningFault::Memory
    }
}

/// Why a session ends before the end of its input.
#[derive(Clone, Copy, Debug, PartialEq, Eq, Error)]
pub enum RunFault {
    /// As a session without a journal does.
    #[error("{0}")]
    Session(SessionFault),
    /// The journal failed. The last line that was treated has no reply.
    #[error("journal fault")]
    Journal,
}
