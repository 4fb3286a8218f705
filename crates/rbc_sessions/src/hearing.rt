//! A sitting in a session answers lines. What is told or asked rests, so that all of it is kept at once, and what is told is entered in one hold of the
//! desk's lock.

ghost use Rattle.std.specs.Prelude.{◌≡◌, ◌≤◌, ◌||◌, [], ℕ, List, true, false, length, MatchBool};
ghost use Rattle.rbc_model.specs.Sessions.{Prints};
ghost use Rattle.rbc_session_laws.specs.Commands.{command_in};
ghost use Rattle.rbc_sessions.specs.Hearings.{CatchesUp, IsGoing, Rests};
ghost use Rattle.rbc_sessions.specs.SaidLines.{asked_by, IsReadOn};

use crate::batch::{Batch, MOST_RESTING, Resting, rested_of};
use crate::command::{Said, said_in};
use crate::null_sink::NullSink;
use crate::{Keeper, SessionContext, Sitting};
use rbc_model::LineFault;
use rbc_model::limits::LONGEST_LINE;
use rbc_replies::{SessionRefusal, SessionReply, print};
use rbc_streams::{LineHandler, Sink, WriteFailed};
use rbc_sweep::{DeskName, Gate};
use std::alloc::Global;
use std::sync::Wait;
use std::thread::Threads;

/// A sitting in a session, and what was told or asked at it and rests.
#[derive(Drop)]
pub(crate) struct Hearing<L: DeskName, P, T> {
    pub(crate) sitting: Sitting<L, P>,
    batch: Batch<T>,
}

impl<L: DeskName, P: Drop, T: Drop> Hearing<L, P, T> {
    /// The sitting, at which nothing was told yet.
    pub(crate) fn new(alloc: Global, sitting: Sitting<L, P>) -> Hearing<L, P, T>
        ensures sitting { result.sitting ≡ sitting }
        ensures none_rests { result.batch ≡ [] }
    {
        Hearing {
            sitting,
            batch: Batch::new(alloc),
        }
    }

    /// Lets a line rest, of which this was read, if it is told or asks for an authority, and there is memory for it. It tells whether it does.
    fn rest<'a, K: Keeper<L, Committer = P, Text = T>, G: Gate, R: Wait>(
        &mut self,
        alloc: Global,
        context: &SessionContext<'a, L, K, G, R>,
        read: &Result<Said, SessionRefusal>,
    ) -> bool
        requires read { IsReadOn L.opened.track read.now }
        ensures { MatchBool result ((line : List ℕ) → command_in L.opened.track line ≡ asked_by read.now
            → Rests L.opened.track K.says self.old line self.new) (self.new ≡ self.old) }
    {
        // What the seat was told is on the desk's track.
        self.sitting.seat.known();
        let Ok(said) = read else {
            return false;
        };
        let Some(rested) = rested_of(said.command) else {
            return false;
        };
        match context.keeper.prepare(alloc, &said.request) {
            Ok(text) => self.batch.push(Resting { rested, text }),
            Err(_) => false,
        }
    }

    /// Publishes what was told or granted before the connection is read again, or ends.
    fn publish<'a, K: Keeper<L, Committer = P, Text = T>, G: Gate, R: Wait>(
        &mut self,
        alloc: Global,
        context: &SessionContext<'a, L, K, G, R>,
        more: bool,
        said: &Result<(), WriteFailed>,
    )
        ensures { self.new ≡ self.old }
    {
        if !more || said.is_err() {
            context.publish(alloc, &mut self.sitting.seat);
        }
    }

    /// Enters what rests, and then answers a line that does not rest, of which this was read. Where the replies to what rested could not be printed, the
    /// reply to the line is not either.
    ///
    /// # Errors
    ///
    /// What was entered could not be kept; or the writer failed. All is entered.
    fn reply<
        'a,
        K: Keeper<L, Committer = P, Text = T>,
        G: Gate,
        R: Wait,
        H: Threads + Sync,
        W: Sink,
    >(
        &mut self,
        rt: &H,
        alloc: Global,
        context: &SessionContext<'a, L, K, G, R>,
        read: &Result<Said, SessionRefusal>,
        writer: &mut W,
    ) -> Result<(), WriteFailed>
        requires going { W.failed writer.old ≡ false }
        requires ready { IsGoing L.opened.track K.says self.old }
        requires read { IsReadOn L.opened.track read.now }
        ensures none_rests { self.new.batch ≡ [] }
        ensures why { self.new.sitting.has_failed ≡ true → K.failed self.new.sitting.committer }
        ensures entered { (text : List ℕ) × ((line : List ℕ) → command_in L.opened.track line ≡ asked_by read.now → CatchesUp K.kept self.old line text self.new)
            × Prints (W.written writer.old) (W.written writer.new) (self.new.sitting.has_failed || W.failed writer.new) text result }
    {
        // What the seat was told is on the desk's track.
        self.sitting.seat.known();
        let Hearing { sitting, batch } = self;
        let said = batch.enter(rt, alloc, context, sitting, true, writer);
        match said {
            Ok(()) => context.reply(alloc, &mut sitting.seat, read, writer),
            Err(failed) => {
                let _ = context.reply(alloc, &mut sitting.seat, read, &mut NullSink);
                Err(failed)
            }
        }
    }
}

impl<
    'a,
    L: DeskName,
    P: Drop,
    T: Drop,
    K: Keeper<L, Committer = P, Text = T>,
    G: Gate,
    R: Wait,
> LineHandler<SessionContext<'a, L, K, G, R>> for Hearing<L, P, T> {
    type State = Hearing<L, P, T>;

    ghost use Rattle.std.specs.Prelude.{◌≡◌, ◌≤◌, false, length};
    ghost use Rattle.rbc_model.specs.declared.limits.TheConstants.{LONGEST_CHECK_LINE, LONGEST_LINE};
    ghost use Rattle.rbc_sessions.specs.Hearings.{Advances, IsGoing};

    ghost longest = { LONGEST_LINE };

    ghost state = { λ hearing. hearing };

    ghost answers = { Advances L.opened.track K.says K.kept K.failed };

    ghost rests = { λ hearing. length hearing.batch };

    ghost ready = { IsGoing L.opened.track K.says };

    ghost broken = { λ hearing. hearing.sitting.has_failed };

    ghost works = { λ now ready. ready.whole };

    ghost goes_on = { λ now next line reply advances whole. advances.goes_on whole };

    fn longest_line() -> usize
        ensures value { result ≡ LONGEST_LINE }
        ensures bound { result ≤ LONGEST_CHECK_LINE }
    {
        LONGEST_LINE
    }

    fn answer<H: Threads + Sync, W: Sink>(
        &mut self,
        rt: &H,
        alloc: Global,
        context: &SessionContext<'a, L, K, G, R>,
        line: &[u8],
        more: bool,
        writer: &mut W,
    ) -> Result<(), WriteFailed> {
        let read = said_in(context.track, line);
        if self.rest(alloc, context, &read) {
            if more && self.batch.len() < MOST_RESTING {
                return Ok(());
            }
            let Hearing { sitting, batch } = self;
            let said = batch.enter(rt, alloc, context, sitting, more, writer);
            self.publish(alloc, context, more, &said);
            return said;
        }
        let said = self.reply(rt, alloc, context, &read, writer);
        self.publish(alloc, context, more, &said);
        said
    }

    fn refuse<W: Sink>(
        &mut self,
        context: &SessionContext<'a, L, K, G, R>,
        writer: &mut W,
    ) -> Result<(), WriteFailed> {
        // What the seat was told is on the desk's track.
        self.sitting.seat.known();
        let overlong = SessionReply::Refused(SessionRefusal::BadLine(LineFault::Overlong));
        print(context.track, &overlong, writer)
    }
}
