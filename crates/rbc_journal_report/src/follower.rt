//! What was written of a journal that is followed, and what a look at its file adds.

ghost use Rattle.std.specs.Prelude.{◌≡◌, ◌++◌, [], false, IfOk, IfErr};
ghost use Rattle.std.specs.Io.KnownBytes.{Appends};
ghost use Rattle.rbc_model.specs.Sessions.{WritesPart};
ghost use Rattle.rbc_journal.specs.Gates.{counted};
ghost use Rattle.rbc_journal.specs.Journal.{told_of};
ghost use Rattle.rbc_journal_report.specs.Following.{standing, go_on, shown_after, text_behind, doubt_by, doubt_of, is_write_fault};
ghost use Rattle.rbc_journal_report.specs.Telling.{IsText, telling_beside, text_of};

use crate::following::{Doubt, FollowFault};
use crate::printing::emit_text;
use crate::telling::{FileState, tell_beside};
use rbc_journal::ReadFault;
use rbc_streams::outcome;
use rbc_words::Sink;
use std::alloc::Global;

/// What was written of a journal: its lines so far, with gates, comments and seals.
#[derive(Drop)]
pub(crate) struct Follower {
    shown: Vec<u8>,
}

impl Follower {
    /// Nothing was written.
    pub(crate) fn new(alloc: Global) -> Follower
        ensures { result.shown.items ≡ [] }
    {
        Follower {
            shown: Vec::new(alloc),
        }
    }

    /// Writes what a file with these bytes tells behind what was written, if it goes on from that, and hands it on. The file
    /// should be of the track of the digest that is given, if one is. Tells why it can't be followed, if it can't.
    ///
    /// # Errors
    /// `Memory` or `Write`. Then a part of it was written, from its start.
    pub(crate) fn look<W: Sink>(
        &mut self,
        bytes: &[u8],
        given: Option<[u8; 64]>,
        writer: &mut W,
    ) -> Result<Option<Doubt>, FollowFault>
        requires going { W.failed writer.old ≡ false }
        requires text { IsText self.old.shown.items }
        ensures text { IfOk result (λ _. IsText self.new.shown.items) }
        ensures lines { IfOk result (λ _. counted self.new.shown.items
            ≡ shown_after (counted self.old.shown.items) (standing (telling_beside given bytes.now))) }
        ensures written { IfOk result (λ _. Appends (W.written writer.old) (W.written writer.new)
            (text_behind (counted self.old.shown.items) (standing (telling_beside given bytes.now)))) }
        ensures part { IfErr result (λ _. WritesPart (W.written writer.old) (W.written writer.new)
            (text_behind (counted self.old.shown.items) (standing (telling_beside given bytes.now)))) }
        ensures all { text_of (told_of (shown_after (counted self.old.shown.items) (standing (telling_beside given bytes.now))))
            ≡ text_of (told_of (counted self.old.shown.items)) ++ text_behind (counted self.old.shown.items) (standing (telling_beside given bytes.now)) }
        ensures doubt { IfOk result (λ doubt. doubt ≡ doubt_of (counted self.old.shown.items) (telling_beside given bytes.now)) }
        ensures failed { W.failed writer.new ≡ is_write_fault result }
    {
        match tell_beside(bytes, given) {
            Ok(told) => {
                let goes_on = self.show(told.text, writer)?;
                Ok(doubt_by(goes_on, told.state))
            }
            Err(fault) => Ok(Some(Doubt::Unread(fault))),
        }
    }

    /// Writes the lines that a text tells behind what was written, if it goes on from that, and hands them on. Tells whether
    /// it does.
    ///
    /// # Errors
    ///
    /// `Memory`, before anything is written; or `Write`: then a part of it was written, from its start.
    fn show<W: Sink>(&mut self, told: &[u8], writer: &mut W) -> Result<bool, FollowFault>
        requires going { W.failed writer.old ≡ false }
        requires text { IsText self.old.shown.items }
        requires told { IsText told.now }
        ensures goes_on { IfOk result (λ goes_on. goes_on ≡ go_on (counted self.old.shown.items) (counted told.now)) }
        ensures text { IfOk result (λ _. IsText self.new.shown.items) }
        ensures lines { IfOk result (λ _. counted self.new.shown.items
            ≡ shown_after (counted self.old.shown.items) (counted told.now)) }
        ensures written { IfOk result (λ _. Appends (W.written writer.old) (W.written writer.new)
            (text_behind (counted self.old.shown.items) (counted told.now))) }
        ensures part { IfErr result (λ _. WritesPart (W.written writer.old) (W.written writer.new)
            (text_behind (counted self.old.shown.items) (counted told.now))) }
        ensures all { text_of (told_of (shown_after (counted self.old.shown.items) (counted told.now)))
            ≡ text_of (told_of (counted self.old.shown.items)) ++ text_behind (counted self.old.shown.items) (counted told.now) }
        ensures failed { W.failed writer.new ≡ is_write_fault result }
    {
        let Some(rest) = told.strip_prefix(self.shown.as_slice()) else {
            return Ok(false);
        };
        self.shown.extend_from_slice(rest)?;
        emit_text(rest, writer);
        outcome(writer)?;
        writer.flush()?;
        Ok(true)
    }
}

/// Why a file can't be followed that ends so, and that goes on from what was written or does not.
fn doubt_by(goes_on: bool, state: FileState) -> Option<Doubt>
    ensures { result ≡ doubt_by goes_on state }
{
    match state {
        FileState::Damaged(line) => Some(Doubt::Unread(ReadFault::Damaged(line))),
        _ if goes_on => None,
        _ => Some(Doubt::Another),
    }
}
