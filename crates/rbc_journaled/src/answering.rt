//! The centre with a journal answers lines: a reply that tells of an entry is written once the entry is on the disk.

ghost use Rattle.std.specs.Prelude.{◌≡◌, ◌||◌, ◌+◌, ◌++◌, ◌∷◌, [], ℕ, List, false, length, nat_lt, Ok, IfOk, MatchBool, MatchOption};
ghost use Rattle.std.specs.Thread.{IsSync};
ghost use Rattle.rbc_journal.specs.Journal.{IsTold};
ghost use Rattle.rbc_journal.specs.Settled.{staged_lines, staged, IsSettled, HasRoom};
ghost use Rattle.rbc_model.specs.HistoryText.{IsToldOfTrack};
ghost use Rattle.rbc_model.specs.SessionText.{parse_session, IsSayable};
ghost use Rattle.rbc_model.specs.Sessions.{Prints};
ghost use Rattle.rbc_model.specs.Views.{view};
ghost use Rattle.rbc_sessions.specs.Records.{scene_now};
ghost use Rattle.rbc_session_laws.specs.declared.command.Command.TheVariants.{Event, Authority};
ghost use Rattle.rbc_session_laws.specs.Commands.{resolve};
ghost use Rattle.rbc_words.specs.SessionLines.{request_view};
ghost use Rattle.rbc_group_commit.specs.Pages.{with_note};
ghost use Rattle.rbc_group_commit.specs.declared.line.TheConstants.{LONGEST_NOTE};
ghost use Rattle.rbc_journaled.specs.Journaled.{IsGoing};
ghost use Rattle.rbc_journaled.specs.Advances.{Advances, RestsOnly};
ghost use Rattle.rbc_journaled.specs.Notes.{note_behind};

use crate::JournaledRecord;
use crate::entry_line::line_text;
use crate::note::note_behind;
use rbc_group_commit::LONGEST_NOTE;
use rbc_journal::Device;
use rbc_model::limits::LONGEST_LINE;
use rbc_model::{LineFault, Memory, Told, TrainId};
use rbc_session_laws::Command;
use rbc_sessions::replies::{SessionRefusal, SessionReply};
use rbc_sessions::{View, candidate, commit, in_vain, resolve, stopped, tell};
use rbc_streams::{LineHandler, Sink, WriteFailed};
use rbc_words::{Request, parse};
use std::alloc::Global;
use std::thread::Threads;

/// The centre: what is told to it and asked of it, line by line, is answered by a record that is kept.
#[derive(Drop)]
pub(crate) struct JournaledCentre;

impl<D: Device> LineHandler<JournaledCentre> for JournaledRecord<D> {
    type State = JournaledRecord<D>;

    ghost use Rattle.std.specs.Prelude.{◌≡◌, ◌≤◌};
    ghost use Rattle.rbc_model.specs.declared.limits.TheConstants.{LONGEST_CHECK_LINE, LONGEST_LINE};
    ghost use Rattle.rbc_journaled.specs.Advances.{Advances, goes_on};
    ghost use Rattle.rbc_journaled.specs.Journaled.{IsGoing};

    ghost longest = { LONGEST_LINE };

    ghost state = { λ journaled. journaled };

    ghost answers = { Advances D.seen D.may_leave D.moment D.left_since D.faults };

    ghost rests = { λ journaled. journaled.batch };

    ghost ready = { IsGoing D.seen D.may_leave };

    ghost broken = { λ journaled. journaled.has_failed };

    ghost works = { λ now ready. ready.whole };

    ghost goes_on = { λ now next line reply advances whole. goes_on D.seen D.may_leave D.moment D.left_since D.faults now next line reply advances whole };

    fn longest_line() -> usize
        ensures value { result ≡ LONGEST_LINE }
        ensures bound { result ≤ LONGEST_CHECK_LINE }
    {
        LONGEST_LINE
    }

    fn answer<T: Threads + Sync, W: Sink>(
        &mut self,
        rt: &T,
        alloc: Global,
        _centre: &JournaledCentre,
        line: &[u8],
        more: bool,
        writer: &mut W,
    ) -> Result<(), WriteFailed> {
        match parse(line) {
            Ok(request) => self.treat(rt, alloc, request, more, writer),
            Err(fault) => {
                let refused = SessionReply::Refused(SessionRefusal::BadLine(fault));
                self.say(&refused, more, writer)
            }
        }
    }

    fn refuse<W: Sink>(
        &mut self,
        _centre: &JournaledCentre,
        writer: &mut W,
    ) -> Result<(), WriteFailed> {
        let overlong = SessionReply::Refused(SessionRefusal::BadLine(LineFault::Overlong));
        self.say(&overlong, false, writer)
    }
}

impl<D: Device> JournaledRecord<D> {
    /// Treats what a line says.
    ///
    /// # Errors
    ///
    /// The reply is not written whole: the writer failed, or the journal did.
    fn treat<W: Sink>(
        &mut self,
        rt: &(impl Threads + Sync),
        alloc: Global,
        request: Request,
        more: bool,
        writer: &mut W,
    ) -> Result<(), WriteFailed>
        requires works { W.failed writer.old ≡ false }
        requires going { IsGoing D.seen D.may_leave self.old }
        requires sayable { IsSayable (request_view request) }
        ensures rests { RestsOnly more result self.new }
        ensures text { (text : List ℕ)
            × ((line : List ℕ) → parse_session line ≡ Ok (request_view request)
            → Advances D.seen D.may_leave D.moment D.left_since D.faults self.old line text self.new)
            × Prints (W.written writer.old) (W.written writer.new) (self.new.has_failed || W.failed writer.new) text result }
    {
        match resolve(self.history.track(), request) {
            Ok(Command::Nothing) => self.say(&SessionReply::Nothing, more, writer),
            Ok(Command::Event(told)) => self.hear(alloc, &request, &told, more, writer),
            Ok(Command::Authority(number)) => {
                let train = TrainId::new(number);
                self.ask(rt, alloc, &request, train, more, writer)
            }
            Ok(Command::Show(inquiry)) => self.show(alloc, inquiry, writer),
            Err(refusal) => self.say(&SessionReply::Refused(refusal), more, writer),
        }
    }

    /// Treats what is told.
    ///
    /// # Errors
    ///
    /// The reply is not written whole: the writer failed, or the journal did.
    fn hear<W: Sink>(
        &mut self,
        alloc: Global,
        request: &Request,
        told: &Told,
        more: bool,
        writer: &mut W,
    ) -> Result<(), WriteFailed>
        requires works { W.failed writer.old ≡ false }
        requires going { IsGoing D.seen D.may_leave self.old }
        requires sayable { IsSayable (request_view request.now) }
        requires command { resolve self.old.history.track (request_view request.now) ≡ Ok (Event told.now) }
        requires of_track { IsToldOfTrack self.old.history.track told.now }
        ensures rests { RestsOnly more result self.new }
        ensures text { (text : List ℕ)
            × ((line : List ℕ) → parse_session line ≡ Ok (request_view request.now)
            → Advances D.seen D.may_leave D.moment D.left_since D.faults self.old line text self.new)
            × Prints (W.written writer.old) (W.written writer.new) (self.new.has_failed || W.failed writer.new) text result }
    {
        // The track is in form.
        self.history.known();
        let before = self.history.version();
        let Ok(text) = self.make_room(alloc, request) else {
            let reply = in_vain(&self.history, told);
            return self.say(&reply, more, writer);
        };
        let reply = tell(alloc, &mut self.history, told);
        self.stage(before, text.as_slice());
        self.say(&reply, more, writer)
    }

    /// Treats a train that asks for an authority.
    ///
    /// # Errors
    ///
    /// The reply is not written whole: the writer failed, or the journal did.
    fn ask<W: Sink>(
        &mut self,
        rt: &(impl Threads + Sync),
        alloc: Global,
        request: &Request,
        train: TrainId,
        more: bool,
        writer: &mut W,
    ) -> Result<(), WriteFailed>
        requires works { W.failed writer.old ≡ false }
        requires going { IsGoing D.seen D.may_leave self.old }
        requires sayable { IsSayable (request_view request.now) }
        requires command { resolve self.old.history.track (request_view request.now) ≡ Ok (Authority train) }
        ensures rests { RestsOnly more result self.new }
        ensures text { (text : List ℕ)
            × ((line : List ℕ) → parse_session line ≡ Ok (request_view request.now)
            → Advances D.seen D.may_leave D.moment D.left_since D.faults self.old line text self.new)
            × Prints (W.written writer.old) (W.written writer.new) (self.new.has_failed || W.failed writer.new) text result }
    {
        match self.history.view(alloc, train) {
            Ok(shown) => self.grant(rt, alloc, request, shown, more, writer),
            Err(fault) => {
                let reply = stopped(&self.history, train, fault);
                self.say(&reply, more, writer)
            }
        }
    }

    /// Treats a train that asks, and that is shown this view.
    ///
    /// # Errors
    ///
    /// The reply is not written whole: the writer failed, or the journal did.
    fn grant<W: Sink>(
        &mut self,
        rt: &(impl Threads + Sync),
        alloc: Global,
        request: &Request,
        shown: View,
        more: bool,
        writer: &mut W,
    ) -> Result<(), WriteFailed>
        requires works { W.failed writer.old ≡ false }
        requires going { IsGoing D.seen D.may_leave self.old }
        requires sayable { IsSayable (request_view request.now) }
        requires command { resolve self.old.history.track (request_view request.now) ≡ Ok (Authority shown.train) }
        requires shown { view self.old.history.track (scene_now self.old.history) shown.train ≡ Ok shown }
        ensures rests { RestsOnly more result self.new }
        ensures text { (text : List ℕ)
            × ((line : List ℕ) → parse_session line ≡ Ok (request_view request.now)
            → Advances D.seen D.may_leave D.moment D.left_since D.faults self.old line text self.new)
            × Prints (W.written writer.old) (W.written writer.new) (self.new.has_failed || W.failed writer.new) text result }
    {
        self.history.known();
        let before = self.history.version();
        let Ok(text) = self.make_room(alloc, request) else {
            return self.say(&SessionReply::Refused(SessionRefusal::Memory), more, writer);
        };
        let Ok(candidate) = candidate(rt, alloc, shown, before) else {
            return self.say(&SessionReply::Refused(SessionRefusal::Memory), more, writer);
        };
        let reply = commit(alloc, &mut self.history, &candidate);
        self.stage(before, text.as_slice());
        self.say(&reply, more, writer)
    }

    /// Makes room for the line of a request in the journal, and for a note behind it, and tells that line.
    ///
    /// # Errors
    ///
    /// `Memory`, where there is none, or where the journal takes no more.
    fn make_room(&mut self, alloc: Global, request: &Request) -> Result<Vec<u8>, Memory>
        requires settled { IsSettled D.seen D.may_leave self.old.journal }
        requires sayable { IsSayable (request_view request.now) }
        ensures history { self.new.history ≡ self.old.history }
        ensures whole { self.new.has_failed ≡ self.old.has_failed }
        ensures replies { self.new.replies ≡ self.old.replies }
        ensures batch { self.new.batch ≡ self.old.batch }
        ensures device { self.new.journal.device ≡ self.old.journal.device }
        ensures staged { staged self.new.journal ≡ staged self.old.journal }
        ensures lines { staged_lines self.new.journal ≡ staged_lines self.old.journal }
        ensures settled { IsSettled D.seen D.may_leave self.new.journal }
        ensures room { IfOk result (λ text. HasRoom self.new.journal (length text.items + 2 + LONGEST_NOTE)) }
        ensures line { IfOk result (λ text. IsTold text.items) }
        ensures says { IfOk result (λ text. parse_session text.items ≡ Ok (request_view request.now)) }
    {
        let text = line_text(alloc, request)?;
        match self.journal.reserve(text.len() + 2 + LONGEST_NOTE) {
            Ok(()) => Ok(text),
            Err(_) => Err(Memory),
        }
    }

    /// Stages the line of an entry, for which there is room, and what is noted of it, if the record has gained one since it was at
    /// a version.
    fn stage(&mut self, before: u64, text: &[u8])
        requires settled { IsSettled D.seen D.may_leave self.old.journal }
        requires room { HasRoom self.old.journal (length text.now + 2 + LONGEST_NOTE) }
        requires line { IsTold text.now }
        ensures history { self.new.history ≡ self.old.history }
        ensures whole { self.new.has_failed ≡ self.old.has_failed }
        ensures replies { self.new.replies ≡ self.old.replies }
        ensures batch { self.new.batch ≡ self.old.batch }
        ensures device { self.new.journal.device ≡ self.old.journal.device }
        ensures settled { IsSettled D.seen D.may_leave self.new.journal }
        ensures staged { MatchBool (nat_lt before (length self.old.history.entries))
            (staged self.new.journal ≡ staged self.old.journal ++ text.now ∷ []) (staged self.new.journal ≡ staged self.old.journal) }
        ensures lines { MatchBool (nat_lt before (length self.old.history.entries))
            (staged_lines self.new.journal ≡ staged_lines self.old.journal ++ with_note text.now (note_behind self.old.history.entries))
            (staged_lines self.new.journal ≡ staged_lines self.old.journal) }
    {
        if self.history.version() > before {
            self.journal.stage(text);
            self.note();
        }
    }

    /// Stages what is noted of the record's last entry, for which there is room, behind its line.
    fn note(&mut self)
        requires settled { IsSettled D.seen D.may_leave self.old.journal }
        requires room { HasRoom self.old.journal LONGEST_NOTE }
        ensures history { self.new.history ≡ self.old.history }
        ensures whole { self.new.has_failed ≡ self.old.has_failed }
        ensures replies { self.new.replies ≡ self.old.replies }
        ensures batch { self.new.batch ≡ self.old.batch }
        ensures device { self.new.journal.device ≡ self.old.journal.device }
        ensures settled { IsSettled D.seen D.may_leave self.new.journal }
        ensures staged { staged self.new.journal ≡ staged self.old.journal }
        ensures lines { MatchOption (note_behind self.old.history.entries) (staged_lines self.new.journal ≡ staged_lines self.old.journal)
            (λ note. staged_lines self.new.journal ≡ staged_lines self.old.journal ++ note ∷ []) }
    {
        if let Some(note) = note_behind(&self.history) {
            self.journal.note(note.bytes());
        }
    }
}
