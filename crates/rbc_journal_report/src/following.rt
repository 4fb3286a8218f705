//! A journal that is followed: its lines are written as they come to be kept.

ghost use Rattle.std.specs.Prelude.{◌≡◌, List, ℕ, false, IfOk, IfErr};
ghost use Rattle.rbc_model.specs.Sessions.{WritesPart};
ghost use Rattle.rbc_journal.specs.Journal.{told_of};
ghost use Rattle.rbc_journal_report.specs.Following.{EndsIn, is_write_fault};
ghost use Rattle.rbc_journal_report.specs.Telling.{telling_beside, text_of};

use crate::follower::Follower;
use rbc_journal::ReadFault;
use rbc_words::{Sink, WriteFailed};
use std::alloc::{AllocError, Global};
use std::sync::Wait;

/// Why a journal can't be followed, by what a look at its file found.
#[derive(Clone, Copy, Debug, PartialEq, Eq)]
pub enum Doubt {
    /// It is no journal of format 2, is damaged, or is of another track.
    Unread(ReadFault),
    /// It does not go on from what was written: another journal took its place.
    Another,
}

/// Why a file is not looked at.
#[derive(Clone, Copy, Debug, PartialEq, Eq)]
pub enum LookFailed {
    /// It can't be read.
    Unreadable,
    /// The allocator refused memory.
    Memory,
}

/// Why the following of a journal failed.
#[derive(Clone, Copy, Debug, PartialEq, Eq)]
pub enum FollowFault {
    /// Its file can't be read.
    Unreadable,
    /// The allocator refused memory.
    Memory,
    /// The writer failed.
    Write,
}

impl From<LookFailed> for FollowFault {
    ghost use Rattle.rbc_journal_report.specs.Following.{fault_of_look};

    ghost from_gives = { λ failed fault. fault ≡ fault_of_look failed };

    fn from(failed: LookFailed) -> FollowFault {
        match failed {
            LookFailed::Unreadable => FollowFault::Unreadable,
            LookFailed::Memory => FollowFault::Memory,
        }
    }
}

impl From<WriteFailed> for FollowFault {
    ghost use Rattle.rbc_journal_report.specs.declared.following.FollowFault.TheVariants.{Write};

    ghost from_gives = { λ _ fault. fault ≡ Write };

    fn from(_failed: WriteFailed) -> FollowFault {
        FollowFault::Write
    }
}

impl From<AllocError> for FollowFault {
    ghost use Rattle.rbc_journal_report.specs.declared.following.FollowFault.TheVariants.{Memory};

    ghost from_gives = { λ _ fault. fault ≡ Memory };

    fn from(_refused: AllocError) -> FollowFault {
        FollowFault::Memory
    }
}

/// The file of a journal that is looked at again and again, also while its centre writes it.
pub trait Watched {
    /// The bytes that the last look found.
    ghost found: { Self → List ℕ };

    /// Looks at the file: but for the first look, once some time has gone. Tells whether it has other bytes than at the look
    /// before.
    ///
    /// # Errors
    /// Its cases: [`LookFailed`].
    fn look(&mut self) -> Result<bool, LookFailed>
        ensures same { IfOk result (λ is_new. is_new ≡ false → found self.new ≡ found self.old) };

    /// The bytes that the last look found.
    fn bytes(&self) -> &[u8]
        ensures { result.now ≡ found self.now };
}

/// Follows the file of a journal, which should be of the track of the digest that is given, if one is: writes each line that
/// it tells once a right seal vouches for it, and hands it on. Tells why it is followed no further, once two looks in a row
/// give the same reason: a look while the centre writes may find damage that is none.
///
/// # Errors
/// `Unreadable`, `Memory` or `Write`. Then a part of the lines was written, from their start.
pub fn follow<F: Watched, W: Sink, R: Wait>(
    rt: &R,
    alloc: Global,
    watched: &mut F,
    given: Option<[u8; 64]>,
    writer: &mut W,
) -> Result<Doubt, FollowFault>
    requires { W.failed writer.old ≡ false }
    ensures why { IfOk result (λ why. EndsIn (W.written writer.old) (W.written writer.new)
        (telling_beside given (F.found watched.new)) why) }
    ensures part { IfErr result (λ _. (lines : List (List ℕ))
        × WritesPart (W.written writer.old) (W.written writer.new) (text_of (told_of lines))) }
    ensures failed { W.failed writer.new ≡ is_write_fault result }
{
    let mut follower = Follower::new(alloc);
    let mut doubt = None;
    for _ in rt.forever() {
        let is_new = watched.look()?;
        if is_new || doubt.is_some() {
            let found = follower.look(watched.bytes(), given, writer)?;
            if let Some(why) = found {
                if doubt == found {
                    return Ok(why);
                }
            }
            doubt = found;
        }
    }
    unreachable!()
}
