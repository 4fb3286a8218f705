//! The track of a centre.

ghost use Rattle.std.specs.Prelude.{IfOk};
ghost use Rattle.rbc_journal.specs.Gates.{IsLine};

use crate::failure::Failure;
use crate::reason::Reason;
use rbc_journal::track_digest;
use rbc_model::OrMemory;
use rbc_model::limits::LONGEST_FILE;
use rbc_streams::{Stream, WholeFault, read_whole};
use rbc_track_hints::hints;
use rbc_trackfile::{FileFault, LoadFault, Track, read};
use std::alloc::Global;
use std::fmt::Display;
use std::fs;
use std::fs::Files;

/// A track, and the digest of its file, by which a journal names it.
#[derive(Drop)]
pub(crate) struct TrackFile {
    pub(crate) track: Track,
    pub(crate) digest: [u8; 64],
}

/// Reads a track file.
///
/// # Errors
///
/// `Load`, where it can't be read, or has no track, with what mends it; `Memory` is one of those.
pub(crate) fn read_track(rt: &(impl Files + AllocGlobal), path: &str) -> Result<TrackFile, Failure>
    ensures { IfOk result (λ file. IsLine file.digest) }
{
    let alloc = rt.alloc();
    let file = match fs::open(rt, path) {
        Ok(file) => file,
        Err(error) => return Err(unreadable(alloc, path, &error)),
    };
    let bytes = match read_whole(alloc, &mut Stream::reader(file), LONGEST_FILE) {
        Ok(bytes) => bytes,
        Err(fault) => return Err(unread(alloc, path, fault)),
    };
    let track = match read(alloc, bytes.as_slice()) {
        Ok(track) => track,
        Err(fault) => return Err(told(alloc, bytes.as_slice(), fault)),
    };
    Ok(TrackFile {
        track,
        digest: track_digest(bytes.as_slice()),
    })
}

/// The bytes of the track file of this path can't be had.
pub(crate) fn unread(alloc: Global, path: &str, fault: WholeFault) -> Failure {
    match fault {
        WholeFault::Read => unreadable(alloc, path, &"a read failed"),
        WholeFault::TooLong => unreadable(alloc, path, &"more than 16777216 bytes"),
        WholeFault::Memory => Failure::Load(LoadFault::Memory, Reason::none()),
    }
}

/// The track file of this path can't be read, and this is said of it.
pub(crate) fn unreadable<D: Display>(alloc: Global, path: &str, said: &D) -> Failure {
    Failure::Load(LoadFault::Unreadable, Reason::of_file(alloc, path, said))
}

/// The fault of the bytes of a track file, with what mends it, where there is memory for that.
fn told(alloc: Global, bytes: &[u8], fault: OrMemory<FileFault>) -> Failure {
    match fault {
        OrMemory::Memory => Failure::Load(LoadFault::Memory, Reason::none()),
        OrMemory::Refused(fault) => {
            let reason = match hints(alloc, bytes, &fault) {
                Ok(lines) => Reason::of_lines(lines),
                Err(_) => Reason::none(),
            };
            Failure::Load(LoadFault::File(fault), reason)
        }
    }
}
