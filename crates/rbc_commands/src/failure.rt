//! How the program ends where it could not do all that it was asked for.

ghost use Rattle.std.specs.Prelude.{◌≡◌, ◌≢◌, ◌⊎◌};
ghost use Rattle.rbc_model.specs.declared.sessions.SessionFault.TheVariants.{Write};
ghost use Rattle.rbc_commands.specs.Statuses.{is_help_lost, status_of};
ghost use Rattle.rbc_commands.specs.declared.failure.Failure.TheVariants.{Session};

use crate::beginning::BeginFault;
use crate::history::HistoryFault;
use crate::journal_fault::{JournalFault, Misread};
use crate::output::is_reader_gone;
use crate::reason::Reason;
use clap::error::ErrorKind;
use rbc_duty::Unstayed;
use rbc_duty::server::{ServeFault, Unserved};
use rbc_journal::ReadFault;
use rbc_journal_file::{Calls, JournalPaths, OpenFault, Recorded};
use rbc_model::Memory;
use rbc_show::journaled::OpeningFault;
use rbc_streams::{SessionFault, WriteFailed};
use rbc_trackfile::LoadFault;
use std::alloc::{AllocError, Global};
use std::fmt::Display;
use std::io;

/// The exit status after a certificate that is refused.
const NOT_CERTIFIED: u8 = 1;
/// The exit status after a message or packet that is refused.
const NOT_READ: u8 = 1;
/// The exit status after a command line that is refused.
const REFUSED: u8 = 2;
/// The exit status after a track or a scene that can't be had, or a journal that is not one of this track.
const NO_TRACK: u8 = 3;
/// The exit status after a fault of a session, of a port, or of the file of a history or of a journal.
const SESSION_FAULT: u8 = 4;
/// The exit status after memory was refused.
const NO_MEMORY: u8 = 5;
/// The exit status where the receipts of a centre's seats are not its history.
const UNMATCHED: u8 = 6;

/// Why the program ends before its work is done.
#[derive(Debug, Drop)]
pub enum Failure {
    /// The command line is refused, or asks for help.
    CommandLine(clap::Error),
    /// A word of the command line is not UTF-8.
    NotText,
    /// There is no track.
    Load(LoadFault, Reason),
    /// There is no scene to begin with.
    Begin(BeginFault, Reason),
    /// A session ended before its input.
    Session(SessionFault),
    /// The file of the history is not written.
    History(HistoryFault, Reason),
    /// A journal is not opened, not gone on with, not told of, or its lines are not taken over; and where its files stand,
    /// if one of them may have failed.
    Journal(JournalFault, Option<JournalPaths>),
    /// The port of a centre that serves connections can't be opened.
    NoPort(Reason),
    /// A centre that serves connections ended early.
    Serve(ServeFault),
    /// A certificate was refused, as the output tells.
    NotCertified,
    /// A message or packet was refused, as the output tells.
    NotRead,
    /// Memory was refused.
    Memory,
}

impl Failure {
    /// The program's exit status: 0 after help, 1 for a certificate, message or packet, 2 for a command line, 3 for a track, a
    /// scene or a foreign journal, 4 for a fault of a session, of a port, or of the file of a history or of a journal, 5 for want of
    /// memory and 6 for receipts that are not the history.
    pub fn status(&self) -> u8
        ensures { result ≡ status_of self.now }
    {
        match self {
            Failure::CommandLine(error) => match error.kind() {
                ErrorKind::DisplayHelp | ErrorKind::DisplayVersion => 0,
                _ => REFUSED,
            },
            Failure::NotText => REFUSED,
            Failure::NotCertified => NOT_CERTIFIED,
            Failure::NotRead => NOT_READ,
            Failure::Load(LoadFault::Memory, _)
            | Failure::Session(SessionFault::Memory)
            | Failure::Serve(ServeFault::Memory)
            | Failure::Memory => NO_MEMORY,
            Failure::Journal(fault, _) => fault.status(),
            Failure::Session(_) | Failure::History(_, _) | Failure::NoPort(_) => SESSION_FAULT,
            Failure::Load(_, _) | Failure::Begin(_, _) => NO_TRACK,
            Failure::Serve(ServeFault::Close(_)) => UNMATCHED,
            Failure::Serve(ServeFault::Port | ServeFault::Write | ServeFault::Journal) =>
                SESSION_FAULT,
        }
    }

    /// That this port of the machine can't be opened, and what the system says.
    pub(crate) fn no_port<D: Display>(alloc: Global, port: u16, said: &D) -> Failure {
        Failure::NoPort(Reason::of_port(alloc, port, said))
    }

    /// That a file is not read as a journal of the track with this digest, if one is given.
    pub(crate) fn unread(fault: ReadFault, given: Option<[u8; 64]>) -> Failure {
        JournalFault::Read(Misread { fault, given }).into()
    }

    /// Prints what went wrong, or the help that is asked for, and gives what the program ends with: a write fault where help
    /// can't be printed, unless its reader has gone. There is nobody to tell where a fault can't be printed.
    pub fn told(self, rt: &(impl Print + Eprint)) -> Failure
        ensures fault { status_of self ≢ 0 → result ≡ self }
        ensures help { (result ≡ self) ⊎ (result ≡ Session Write) }
    {
        let printed = self.tell(rt);
        if !self.is_help_lost(&printed) {
            return self;
        }
        let unprinted = Failure::Session(SessionFault::Write);
        let _ = unprinted.tell(rt);
        unprinted
    }

    /// Whether help that is asked for could not be printed, though there is a reader.
    fn is_help_lost(&self, printed: &io::Result<()>) -> bool
        ensures { result ≡ is_help_lost (status_of self.now) printed.now }
    {
        match printed {
            Ok(()) => false,
            Err(error) => self.status() == 0 && !is_reader_gone(error),
        }
    }

    /// Prints it.
    fn tell(&self, rt: &(impl Print + Eprint)) -> io::Result<()> {
        match self {
            Failure::CommandLine(error) => error.print(rt),
            Failure::NotText => eprintln!(rt;
                "error: invalid UTF-8 was detected in one or more arguments"
            ),
            Failure::Load(fault, reason) => eprint!(rt; "rbc: {fault}\n{reason}"),
            Failure::Begin(fault, reason) => eprint!(rt; "rbc: {fault}\n{reason}"),
            Failure::Session(fault) => eprintln!(rt; "rbc: {fault}"),
            Failure::History(fault, reason) => eprint!(rt; "rbc: {fault}\n{reason}"),
            Failure::Journal(fault, place) => tell_journal_fault(rt, fault, place.as_ref()),
            Failure::NoPort(reason) => eprint!(rt; "rbc: no port\n{reason}"),
            Failure::Serve(fault) => eprintln!(rt; "rbc: {fault}"),
            Failure::NotCertified | Failure::NotRead => Ok(()),
            Failure::Memory => eprintln!(rt; "rbc: out of memory"),
        }
    }
}

/// Prints what is wrong with a journal, and then which call failed on which of its files, where that is known.
fn tell_journal_fault(
    rt: &impl Eprint,
    fault: &JournalFault,
    place: Option<&JournalPaths>,
) -> io::Result<()> {
    eprintln!(rt; "rbc: {fault}")?;
    let (Some(failed), Some(place)) = (fault.call_failed(), place) else {
        return Ok(());
    };
    let path = place.of(failed.role);
    eprintln!(rt; "rbc: journal: {} of {path}: {}", failed.call, failed.error)
}

/// That the file of a journal failed.
pub(crate) fn file_failed<C: Calls>(file: &Recorded<C>) -> Failure {
    JournalFault::Failed(file.failed().copied()).into()
}

/// An outcome with the place of the journal's files, if it is a fault of them.
pub(crate) fn at_place(outcome: Result<(), Failure>, place: JournalPaths) -> Result<(), Failure> {
    match outcome {
        Ok(()) => Ok(()),
        Err(failure) => Err(failed_at(failure, place)),
    }
}

/// A failure with the place of the journal's files, if it is a fault of them.
pub(crate) fn failed_at(failure: Failure, place: JournalPaths) -> Failure {
    match &failure {
        Failure::Journal(fault, _) => Failure::Journal(*fault, Some(place)),
        _ => failure,
    }
}

impl From<JournalFault> for Failure {
    fn from(fault: JournalFault) -> Failure {
        Failure::Journal(fault, None)
    }
}

impl From<LoadFault> for Failure {
    fn from(fault: LoadFault) -> Failure {
        Failure::Load(fault, Reason::none())
    }
}

impl From<SessionFault> for Failure {
    fn from(fault: SessionFault) -> Failure {
        Failure::Session(fault)
    }
}

impl<P: Drop, Q: Drop, G: Drop> From<Unserved<P, Q, G>> for Failure {
    fn from(unserved: Unserved<P, Q, G>) -> Failure {
        Failure::Serve(unserved.fault)
    }
}

impl<Q: Drop> From<Unstayed<Q>> for Failure {
    fn from(unstayed: Unstayed<Q>) -> Failure {
        Failure::Serve(unstayed.fault)
    }
}

impl From<OpenFault> for Failure {
    fn from(fault: OpenFault) -> Failure {
        match fault {
            OpenFault::InUse => JournalFault::InUse.into(),
            OpenFault::OtherName => JournalFault::OtherName.into(),
            OpenFault::File(failed) => JournalFault::Failed(Some(failed)).into(),
            OpenFault::Memory => Failure::Memory,
        }
    }
}

impl From<OpeningFault> for Failure {
    fn from(fault: OpeningFault) -> Failure {
        match fault {
            OpeningFault::Foreign(line) => JournalFault::Foreign(line).into(),
            OpeningFault::Differs(line) => JournalFault::Differs(line).into(),
            OpeningFault::Entries(most) => JournalFault::Entries(most).into(),
            OpeningFault::Full | OpeningFault::Device => JournalFault::Failed(None).into(),
            OpeningFault::Memory => Failure::Memory,
        }
    }
}

impl From<WriteFailed> for Failure {
    fn from(_failed: WriteFailed) -> Failure {
        Failure::Session(SessionFault::Write)
    }
}

impl From<Memory> for Failure {
    fn from(_refused: Memory) -> Failure {
        Failure::Memory
    }
}

impl From<AllocError> for Failure {
    fn from(_refused: AllocError) -> Failure {
        Failure::Memory
    }
}

/// What fails before a session begins is a word of the command line that is not UTF-8, or finds no memory.
impl From<io::Error> for Failure {
    fn from(error: io::Error) -> Failure {
        match error.kind() {
            io::ErrorKind::InvalidData => Failure::NotText,
            _ => Failure::Memory,
        }
    }
}

/// A command line that finds no memory is told as such.
impl From<clap::Error> for Failure {
    fn from(error: clap::Error) -> Failure {
        match error.kind() {
            ErrorKind::OutOfMemory => Failure::Memory,
            _ => Failure::CommandLine(error),
        }
    }
}
