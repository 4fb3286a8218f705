//! Replies are said: each once the entries of its line and of those before it are on the disk. Up to then it rests.

ghost use Rattle.std.specs.Prelude.{◌≡◌, ◌||◌, ◌+◌, ◌<◌, ◌≤◌, ◌++◌, [], ℕ, List, None, true, false, is_err, IsTrue, OnOk, OnErr, MatchBool};
ghost use Rattle.std.specs.Io.KnownBytes.{Keeps};
ghost use Rattle.rbc_sessions.specs.Records.{begin_of};
ghost use Rattle.rbc_journal.specs.Device.{LeavesOnly};
ghost use Rattle.rbc_journal.specs.Journal.{recovered, IsBeforeOrAfter};
ghost use Rattle.rbc_journal.specs.Settled.{staged, IsSettled};
ghost use Rattle.rbc_model.specs.Sessions.{Prints};
ghost use Rattle.rbc_sessions.specs.Replies.{reply_text, ReplyIsWhole};
ghost use Rattle.rbc_session_laws.specs.Turns.{AnswersInquiry};
ghost use Rattle.rbc_journaled.specs.Advances.{Holds, IsSaid, RestsOnly};
ghost use Rattle.rbc_journaled.specs.declared.journaled_record.TheConstants.{MOST_TOGETHER};

use crate::JournaledRecord;
use crate::journaled_record::MOST_TOGETHER;
use rbc_journal::Device;
use rbc_model::Inquiry;
use rbc_sessions::replies::{SessionReply, print};
use rbc_sessions::show;
use rbc_streams::{Sink, WriteFailed, put};
use std::alloc::Global;

impl<D: Device> JournaledRecord<D> {
    /// Says the reply to a line, whose entry is staged if it has one. Where a further line has been read the reply may rest;
    /// else what is staged is put, and the replies are written.
    ///
    /// # Errors
    ///
    /// The journal failed, and nothing is written: what was written before is handed on, if the writer takes it. Or the writer
    /// failed.
    pub(crate) fn say<W: Sink>(
        &mut self,
        reply: &SessionReply,
        more: bool,
        writer: &mut W,
    ) -> Result<(), WriteFailed>
        requires works { W.failed writer.old ≡ false }
        requires whole { self.old.has_failed ≡ false }
        requires settled { IsSettled D.seen D.may_leave self.old.journal }
        requires few { self.old.batch < MOST_TOGETHER }
        requires holds { self.old.replies.failed ≡ false }
        requires reply { ReplyIsWhole self.old.history.track reply.now }
        ensures rests { RestsOnly more result self.new }
        ensures said { (text : List ℕ)
            × IsSaid D.seen D.may_leave D.moment D.left_since D.faults self.old (reply_text self.old.history.track reply.now) text self.new
            × Prints (W.written writer.old) (W.written writer.new) (self.new.has_failed || W.failed writer.new) text result }
    {
        if self.rest(reply, more) {
            return Ok(());
        }
        self.settle(writer)?;
        print(self.history.track(), reply, writer)
    }

    /// Shows what is asked for, once all that is staged is on the disk: the reply does not rest.
    ///
    /// # Errors
    ///
    /// The journal failed, and nothing is written: what was written before is handed on, if the writer takes it. Or the writer
    /// failed.
    pub(crate) fn show<W: Sink>(
        &mut self,
        alloc: Global,
        inquiry: Inquiry,
        writer: &mut W,
    ) -> Result<(), WriteFailed>
        requires works { W.failed writer.old ≡ false }
        requires whole { self.old.has_failed ≡ false }
        requires settled { IsSettled D.seen D.may_leave self.old.journal }
        requires holds { self.old.replies.failed ≡ false }
        ensures none_rests { self.new.batch ≡ 0 }
        ensures shown { (reply : List ℕ) × (text : List ℕ)
            × AnswersInquiry (begin_of self.old.history) self.old.history.entries reply None inquiry
            × IsSaid D.seen D.may_leave D.moment D.left_since D.faults self.old reply text self.new
            × Prints (W.written writer.old) (W.written writer.new) (self.new.has_failed || W.failed writer.new) text result }
    {
        self.settle(writer)?;
        show(alloc, &self.history, inquiry, writer)
    }

    /// Lets a reply rest behind the others, if it may, and tells whether it does.
    fn rest(&mut self, reply: &SessionReply, more: bool) -> bool
        requires few { self.old.batch < MOST_TOGETHER }
        requires holds { self.old.replies.failed ≡ false }
        requires reply { ReplyIsWhole self.old.history.track reply.now }
        ensures may { IsTrue result → more ≡ true }
        ensures few { self.new.batch < MOST_TOGETHER }
        ensures history { self.new.history ≡ self.old.history }
        ensures journal { self.new.journal ≡ self.old.journal }
        ensures whole { self.new.has_failed ≡ self.old.has_failed }
        ensures holds { self.new.replies.failed ≡ false }
        ensures rests { MatchBool result (Holds self.old (reply_text self.old.history.track reply.now) self.new)
            (self.new.replies.bytes.items ≡ self.old.replies.bytes.items) }
    {
        if !more || !self.has_room() {
            return false;
        }
        self.hold(reply)
    }

    /// Whether a reply may rest.
    fn has_room(&self) -> bool
        requires { self.now.batch < MOST_TOGETHER }
        ensures { IsTrue result → self.now.batch + 1 < MOST_TOGETHER }
    {
        self.batch + 1 < MOST_TOGETHER
    }

    /// Keeps the text of a reply behind those that rest, and tells whether there was memory for it.
    fn hold(&mut self, reply: &SessionReply) -> bool
        requires few { self.old.batch + 1 < MOST_TOGETHER }
        requires holds { self.old.replies.failed ≡ false }
        requires reply { ReplyIsWhole self.old.history.track reply.now }
        ensures few { self.new.batch < MOST_TOGETHER }
        ensures history { self.new.history ≡ self.old.history }
        ensures journal { self.new.journal ≡ self.old.journal }
        ensures whole { self.new.has_failed ≡ self.old.has_failed }
        ensures holds { self.new.replies.failed ≡ false }
        ensures rests { MatchBool result (Holds self.old (reply_text self.old.history.track reply.now) self.new)
            (self.new.replies.bytes.items ≡ self.old.replies.bytes.items) }
    {
        let length = self.replies.bytes.len();
        if print(self.history.track(), reply, &mut self.replies).is_err() {
            self.replies.cut(length);
            return false;
        }
        self.batch += 1;
        true
    }

    /// Puts the lines that are staged, all at once, and then writes the replies that rest.
    ///
    /// # Errors
    ///
    /// The journal failed, and nothing is written: what was written before is handed on, if the writer takes it. Or the writer
    /// failed.
    fn settle<W: Sink>(&mut self, writer: &mut W) -> Result<(), WriteFailed>
        requires works { W.failed writer.old ≡ false }
        requires whole { self.old.has_failed ≡ false }
        requires settled { IsSettled D.seen D.may_leave self.old.journal }
        requires holds { self.old.replies.failed ≡ false }
        ensures history { self.new.history ≡ self.old.history }
        ensures acknowledged { self.new.has_failed ≡ false → IsSettled D.seen D.may_leave self.new.journal
            × (recovered (D.seen self.new.journal.device) ≡ recovered (D.seen self.old.journal.device) ++ staged self.old.journal)
            × (staged self.new.journal ≡ []) × (self.new.replies.bytes.items ≡ []) }
        ensures any_moment { LeavesOnly D.moment D.left_since self.old.journal.device self.new.journal.device
            (IsBeforeOrAfter (recovered (D.seen self.old.journal.device)) (staged self.old.journal)) }
        ensures later { D.faults self.old.journal.device ≤ D.faults self.new.journal.device }
        ensures failed { self.new.has_failed ≡ true → D.faults self.old.journal.device < D.faults self.new.journal.device }
        ensures holds { self.new.replies.failed ≡ false }
        ensures none_rests { self.new.batch ≡ 0 }
        ensures going { OnOk result ((self.new.has_failed ≡ false) × (W.failed writer.new ≡ false)) }
        ensures written { self.new.has_failed ≡ false
            → Prints (W.written writer.old) (W.written writer.new) (W.failed writer.new) self.old.replies.bytes.items result }
        ensures unwritten { self.new.has_failed ≡ true → Keeps (W.written writer.old) (W.written writer.new) × (is_err result ≡ true) }
    {
        self.batch = 0;
        self.commit(writer)?;
        let written = put(writer, self.replies.bytes.as_slice());
        self.replies.cut(0);
        written
    }

    /// Puts the lines that are staged into the journal, all at once.
    ///
    /// # Errors
    ///
    /// The journal failed. What was written so far is handed on, if the writer takes it.
    fn commit<W: Sink>(&mut self, writer: &mut W) -> Result<(), WriteFailed>
        requires works { W.failed writer.old ≡ false }
        requires whole { self.old.has_failed ≡ false }
        requires settled { IsSettled D.seen D.may_leave self.old.journal }
        ensures history { self.new.history ≡ self.old.history }
        ensures replies { self.new.replies ≡ self.old.replies }
        ensures batch { self.new.batch ≡ self.old.batch }
        ensures acknowledged { OnOk result (IsSettled D.seen D.may_leave self.new.journal
            × (recovered (D.seen self.new.journal.device) ≡ recovered (D.seen self.old.journal.device) ++ staged self.old.journal)
            × (staged self.new.journal ≡ [])) }
        ensures any_moment { LeavesOnly D.moment D.left_since self.old.journal.device self.new.journal.device
            (IsBeforeOrAfter (recovered (D.seen self.old.journal.device)) (staged self.old.journal)) }
        ensures later { D.faults self.old.journal.device ≤ D.faults self.new.journal.device }
        ensures failed { OnErr result (D.faults self.old.journal.device < D.faults self.new.journal.device) }
        ensures broken { self.new.has_failed ≡ is_err result }
        ensures writer { OnOk result (writer.new ≡ writer.old) }
        ensures written { Keeps (W.written writer.old) (W.written writer.new) }
    {
        if self.journal.commit().is_ok() {
            return Ok(());
        }
        self.has_failed = true;
        writer.flush()?;
        Err(WriteFailed)
    }
}
