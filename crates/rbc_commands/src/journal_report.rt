//! What is told of the file of a journal, and new journals with lines of an old one.

ghost use Rattle.std.specs.Prelude.{◌≡◌, [], IfOk, IfSome};
ghost use Rattle.rbc_journal.specs.Gates.{IsLine};
ghost use Rattle.rbc_journal.specs.Device.{Only};
ghost use Rattle.rbc_journal_file.specs.Past.{may_leave, seen};
ghost use Rattle.rbc_journal_file.specs.Recorded.{past_of};

use crate::failure::{Failure, at_place, file_failed};
use crate::journal_fault::JournalFault;
use crate::journal_follow::follow_file;
use crate::output::{ended, standard_output};
use crate::reason::Reason;
use crate::track::{unread, unreadable};
use rbc_command_line::{JournalWork, Journaled};
use rbc_journal::JournalFault as PutFault;
use rbc_journal_file::{JournalPaths, OpenFault, Recorded, Role, SystemFile, create};
use rbc_journal_report::{
    CopyFault, check, copy_first, digest_of, print_lines, print_report, renew,
};
use rbc_streams::Stream;
use rbc_trackfile::LoadFault;
use std::fs::{self, File, Files};
use std::io::ErrorKind;
use std::sync::Wait;
use std::time::Clock;

/// Tells of the file of a journal, or takes lines over from it. The file is only read.
///
/// # Errors
///
/// `Journal`; `Load`, where the track's file can't be read; `Session`, where a write fails; `Memory`.
pub(crate) fn tell_journal(
    rt: &(impl Files<File = File> + Print + Wait + Clock + AllocGlobal),
    asked: &Journaled,
) -> Result<(), Failure> {
    let bytes = match fs::read(rt, asked.file) {
        Ok(bytes) => bytes,
        Err(error) if error.kind() == ErrorKind::OutOfMemory => return Err(Failure::Memory),
        Err(_) => return Err(JournalFault::Unreadable.into()),
    };
    let given = match asked.track {
        Some(path) => Some(digest_in(rt, path)?),
        None => None,
    };
    match asked.work {
        JournalWork::Report => report(rt, bytes.as_slice(), given),
        JournalWork::Lines => write_lines(rt, bytes.as_slice(), given),
        JournalWork::Follow => follow_file(rt, asked.file, given),
        JournalWork::First(lines, out) => {
            let place = JournalPaths::at(rt, out)?;
            let taken = take_first(rt, bytes.as_slice(), given, lines, &place);
            at_place(taken, place)
        }
        JournalWork::Renew(out) => {
            let place = JournalPaths::at(rt, out)?;
            let taken = take_all(rt, bytes.as_slice(), given, &place);
            at_place(taken, place)
        }
    }
}

/// The digest of the track of this file.
fn digest_in(rt: &(impl Files + AllocGlobal), path: &str) -> Result<[u8; 64], Failure>
    ensures { IfOk result (λ digest. IsLine digest) }
{
    let alloc = rt.alloc();
    let file = match fs::open(rt, path) {
        Ok(file) => file,
        Err(error) => return Err(unreadable(alloc, path, &error)),
    };
    match digest_of(alloc, &mut Stream::reader(file)) {
        Ok(digest) => Ok(digest),
        Err(fault) => Err(unread(alloc, path, fault)),
    }
}

/// Whether a centre of the track that is given, or of the one that the file names, would go on from it.
fn checked(bytes: &[u8], given: Option<[u8; 64]>) -> Result<(), Failure> {
    match check(bytes, given) {
        Ok(()) => Ok(()),
        Err(fault) => Err(Failure::unread(fault, given)),
    }
}

/// Writes a report of a file.
fn report(
    rt: &(impl Print + AllocGlobal),
    bytes: &[u8],
    given: Option<[u8; 64]>,
) -> Result<(), Failure> {
    let mut output = standard_output(rt)?;
    let written = print_report(bytes, given, &mut output);
    ended(output, written.map_err(Failure::from))?;
    checked(bytes, given)
}

/// Writes the lines that a file tells.
fn write_lines(
    rt: &(impl Print + AllocGlobal),
    bytes: &[u8],
    given: Option<[u8; 64]>,
) -> Result<(), Failure> {
    let mut output = standard_output(rt)?;
    let written = print_lines(bytes, &mut output);
    ended(output, written.map_err(Failure::from))?;
    checked(bytes, given)
}

/// Makes a new file, which has nothing.
pub(crate) fn created(
    rt: &impl Files<File = File>,
    place: &JournalPaths,
) -> Result<Recorded<SystemFile>, Failure>
    ensures seen { IfOk result (λ file. seen (past_of file) ≡ []) }
    ensures durable { IfOk result (λ file. Only (seen (past_of file)) (may_leave (past_of file))) }
{
    match create(rt, place) {
        Ok(file) => Ok(Recorded::opened(file, b"")),
        Err(OpenFault::InUse) => Err(JournalFault::IsThere.into()),
        Err(fault) => Err(fault.into()),
    }
}

/// Puts the first lines that a file tells into a new journal. Where a track is given, the file has to be of it.
fn take_first(
    rt: &(impl Files<File = File> + AllocGlobal),
    bytes: &[u8],
    given: Option<[u8; 64]>,
    lines: u64,
    place: &JournalPaths,
) -> Result<(), Failure> {
    let device = created(rt, place)?;
    match copy_first(rt.alloc(), bytes, lines, given, device) {
        Ok(_) => Ok(()),
        Err((fault, device)) => {
            remove(rt, place);
            Err(copy_failure(fault, given, &device))
        }
    }
}

/// Puts the lines of a journal of format 1 into a new journal of a track. The command line names one.
fn take_all(
    rt: &(impl Files<File = File> + AllocGlobal),
    bytes: &[u8],
    given: Option<[u8; 64]>,
    place: &JournalPaths,
) -> Result<(), Failure>
    requires { IfSome given (λ digest. IsLine digest) }
{
    let Some(track) = given else {
        return Err(Failure::Load(LoadFault::Unreadable, Reason::none()));
    };
    let device = created(rt, place)?;
    match renew(rt.alloc(), bytes, &track, device) {
        Ok(_) => Ok(()),
        Err((fault, device)) => {
            remove(rt, place);
            Err(copy_failure(fault, given, &device))
        }
    }
}

/// Takes away a new file, which was made for lines that it does not have.
pub(crate) fn remove(rt: &impl Files, place: &JournalPaths) {
    let _ = fs::remove_file(rt, place.of(Role::Journal));
}

/// How the program ends where lines are not taken over, into this new file.
fn copy_failure(
    fault: CopyFault,
    given: Option<[u8; 64]>,
    device: &Recorded<SystemFile>,
) -> Failure {
    match fault {
        CopyFault::Read(fault) => Failure::unread(fault, given),
        CopyFault::Few(lines) => JournalFault::Few(lines).into(),
        CopyFault::Renewed => JournalFault::Renewed.into(),
        CopyFault::New(PutFault::Memory) => Failure::Memory,
        CopyFault::New(_) => file_failed(device),
    }
}
