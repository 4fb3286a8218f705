//! Why there is no journal, or nothing is told of one.

ghost use Rattle.std.specs.Prelude.{◌≡◌};
ghost use Rattle.rbc_commands.specs.Statuses.{status_of_journal};

use rbc_journal::ReadFault;
use rbc_journal_file::CallFailed;
use rbc_scene_reading::SceneFault;
use std::fmt;
use std::fmt::Display;
use thiserror::Error;

/// Why a journal is not opened, not gone on with, not told of, or its lines are not taken over.
#[derive(Clone, Copy, Debug, Error)]
pub enum JournalFault {
    /// Another centre has its file.
    #[error("journal: in use")]
    InUse,
    /// Its file has another name, a hard link.
    #[error("journal: has another name (hard link)")]
    OtherName,
    /// The file is no journal from which one can go on.
    #[error("journal: {0}")]
    Read(Misread),
    /// The line of this number, of those that it tells, from 1 on, adds nothing to the history: it was written by hand, or by
    /// another program.
    #[error("journal: Foreign {0}")]
    Foreign(u64),
    /// The grant that is noted behind the line of this number, of those that it tells, from 1 on, comes out otherwise: another
    /// program granted it.
    #[error("journal: Differs {0}")]
    Differs(u64),
    /// It tells entries, and a scene is named to begin with.
    #[error("journal: tells entries already; --from begins a new one")]
    Begun,
    /// It begins with another scene than the one that is named to begin with, or with none.
    #[error("journal: begins with another scene")]
    OtherBeginning,
    /// What it begins with is no scene of the track: the line of this number, counted from 1, can't stand where it stands.
    #[error("journal: beginning: line {0}: {1}")]
    Beginning(u64, SceneFault),
    /// Its file failed in this call, or takes no more.
    #[error("journal fault")]
    Failed(Option<CallFailed>),
    /// Its file can't be read.
    #[error("journal: Unreadable")]
    Unreadable,
    /// It tells more entries than the history may have, which is this number.
    #[error("journal: tells more than {0} entries; name more by --entries")]
    Entries(u64),
    /// It tells only so many lines.
    #[error("journal: tells only {0} lines")]
    Few(u64),
    /// It is of this format, and need not be renewed.
    #[error("journal: format 2 already")]
    Renewed,
    /// It is followed, and does not go on from the lines that were written of it.
    #[error("journal: another journal took its place")]
    Another,
    /// The file of the new journal is there already.
    #[error("journal: the new file is there already")]
    IsThere,
}

impl JournalFault {
    /// The exit status: 4 where a file failed, is in use, or is there already, and else 3.
    pub(crate) fn status(&self) -> u8
        ensures { result ≡ status_of_journal self.now }
    {
        match self {
            JournalFault::InUse
            | JournalFault::Failed(_)
            | JournalFault::Unreadable
            | JournalFault::IsThere => 4,
            JournalFault::OtherName
            | JournalFault::Read(_)
            | JournalFault::Foreign(_)
            | JournalFault::Differs(_)
            | JournalFault::Begun
            | JournalFault::OtherBeginning
            | JournalFault::Beginning(_, _)
            | JournalFault::Entries(_)
            | JournalFault::Few(_)
            | JournalFault::Renewed
            | JournalFault::Another => 3,
        }
    }

    /// The call that failed, if one did.
    pub(crate) fn call_failed(&self) -> Option<CallFailed> {
        match self {
            JournalFault::Failed(failed) => *failed,
            _ => None,
        }
    }
}

/// Why a file is not read as a journal.
#[derive(Clone, Copy, Debug)]
pub struct Misread {
    /// It is no journal of this format, or is damaged, or is of another track.
    pub fault: ReadFault,
    /// The digest of the track that is given.
    pub given: Option<[u8; 64]>,
}

impl Display for Misread {
    fn fmt<W: fmt::Write>(&self, f: &mut fmt::Formatter<W>) -> fmt::Result {
        match self.fault {
            ReadFault::NotAJournal => write!(f, "not a journal"),
            ReadFault::FirstFormat => {
                write!(f, "format 1; renew it with rbc journal FILE --renew OUT")
            }
            ReadFault::OtherFormat(format) => {
                write!(f, "format {format}, and this program writes 2")
            }
            ReadFault::Damaged(line) => write!(
                f,
                "damaged at line {line}; the {} lines before it stand",
                line.saturating_sub(1)
            ),
            ReadFault::OtherTrack(own) => self.tell_tracks(own, f),
        }
    }
}

impl Misread {
    /// Tells that a journal is of the track with this digest, and not of the one that is given.
    fn tell_tracks<W: fmt::Write>(&self, own: [u8; 64], f: &mut fmt::Formatter<W>) -> fmt::Result {
        write!(f, "of another track ({}), not of this", Digest(own))?;
        match self.given {
            Some(given) => write!(f, " ({})", Digest(given)),
            None => Ok(()),
        }
    }
}

/// A digest, to be printed.
#[derive(Clone, Copy)]
struct Digest([u8; 64]);

impl Display for Digest {
    fn fmt<W: fmt::Write>(&self, f: &mut fmt::Formatter<W>) -> fmt::Result {
        for digit in &self.0 {
            let shown = if digit.is_ascii_hexdigit() {
                *digit
            } else {
                b'?'
            };
            f.write_char(char::from(shown))?;
        }
        Ok(())
    }
}
