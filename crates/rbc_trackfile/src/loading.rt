//! A track from the bytes of its file.

ghost use Rattle.std.specs.Prelude.{◌≡◌, false};
ghost use Rattle.rbc_trackfile.specs.Loading.{IsLoaded, load_fault, file_fault};

use crate::{FileFault, read};
use rbc_model::OrMemory;
use rbc_model::limits::LONGEST_FILE;
use rbc_streams::{Source, WholeFault, read_whole};
use rbc_track::Track;
use std::alloc::Global;
use std::fmt;

/// Why no track was loaded.
#[derive(Debug, Drop)]
pub enum LoadFault {
    /// The file can't be read, or it has more than 16,777,216 bytes.
    Unreadable,
    /// It tells no track.
    File(FileFault),
    /// The allocator refused memory.
    Memory,
}

/// The track that a source's bytes tell, at most 16,777,216 of them.
///
/// # Errors
///
/// - `Unreadable`: the reader failed, or there are more bytes.
/// - `File`: the first fault of the bytes as a track file.
/// - `Memory`, where the reader did not fail.
pub fn load<R: Source>(alloc: Global, reader: &mut R) -> Result<Track, LoadFault>
    requires { R.failed reader.old ≡ false }
    ensures { IsLoaded (R.left reader.old) (R.left reader.new) (R.failed reader.new) (R.ended reader.new) result }
{
    let bytes = read_whole(alloc, reader, LONGEST_FILE)?;
    Ok(read(alloc, bytes.as_slice())?)
}

impl fmt::Display for LoadFault {
    fn fmt<W: fmt::Write>(&self, f: &mut fmt::Formatter<W>) -> fmt::Result {
        match self {
            LoadFault::Unreadable => write!(f, "track: Unreadable"),
            LoadFault::File(fault) => write!(f, "track: {fault}"),
            LoadFault::Memory => write!(f, "out of memory"),
        }
    }
}

impl From<WholeFault> for LoadFault {
    ghost from_gives = { λ whole fault. fault ≡ load_fault whole };

    fn from(fault: WholeFault) -> LoadFault {
        match fault {
            WholeFault::Read | WholeFault::TooLong => LoadFault::Unreadable,
            WholeFault::Memory => LoadFault::Memory,
        }
    }
}

impl From<OrMemory<FileFault>> for LoadFault {
    ghost from_gives = { λ file fault. fault ≡ file_fault file };

    fn from(fault: OrMemory<FileFault>) -> LoadFault {
        match fault {
            OrMemory::Refused(fault) => LoadFault::File(fault),
            OrMemory::Memory => LoadFault::Memory,
        }
    }
}
