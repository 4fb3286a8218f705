//! Why a line is not staged, or a file not opened.

ghost use Rattle.std.specs.Prelude.{◌≡◌};

use crate::DeviceFailed;
use std::alloc::AllocError;

/// Why a line is not staged, or a file not opened.
#[derive(Clone, Copy, Debug, PartialEq, Eq)]
pub enum JournalFault {
    /// The allocator refused memory.
    Memory,
    /// The file has 2^60 bytes.
    Full,
    /// The file failed.
    Device,
}

impl From<AllocError> for JournalFault {
    ghost use Rattle.rbc_journal.specs.declared.fault.JournalFault.TheVariants.{Memory};

    ghost from_gives = { λ _ e. e ≡ Memory };

    fn from(_: AllocError) -> Self {
        JournalFault::Memory
    }
}

impl From<DeviceFailed> for JournalFault {
    ghost use Rattle.rbc_journal.specs.declared.fault.JournalFault.TheVariants.{Device as File};

    ghost from_gives = { λ _ e. e ≡ File };

    fn from(_: DeviceFailed) -> Self {
        JournalFault::Device
    }
}
