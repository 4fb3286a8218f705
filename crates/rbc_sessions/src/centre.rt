//! The centre answers lines.

use crate::asking::ask;
use crate::command::command_in;
use crate::showing::show;
use crate::telling::tell;
use rbc_model::limits::LONGEST_LINE;
use rbc_model::{LineFault, TrainId};
use rbc_replies::{SessionRefusal, SessionReply, print};
use rbc_session_laws::Command;
use rbc_streams::{LineHandler, Sink, WriteFailed};
use rbc_sweep::Record;
use std::alloc::Global;
use std::thread::Threads;

/// The centre: what is told to it and asked of it, line by line, is answered by a record.
#[derive(Drop)]
pub struct Centre;

impl LineHandler<Centre> for Record {
    type State = Record;

    ghost use Rattle.std.specs.Prelude.{◌≡◌, ◌≤◌, ⊤, false, refl};
    ghost use Rattle.rbc_model.specs.declared.limits.TheConstants.{LONGEST_CHECK_LINE, LONGEST_LINE};
    ghost use Rattle.rbc_sessions.specs.Changes.{Goes};

    ghost longest = { LONGEST_LINE };

    ghost state = { λ history. history };

    ghost answers = { Goes };

    // A record never fails.
    ghost ready = { λ _. ⊤ };

    ghost broken = { λ _. false };

    ghost works = { λ _ _. refl };

    ghost goes_on = { λ _ _ _ _ _ _. tt };

    ghost rests = { λ _. 0 };

    fn longest_line() -> usize
        ensures value { result ≡ LONGEST_LINE }
        ensures bound { result ≤ LONGEST_CHECK_LINE }
    {
        LONGEST_LINE
    }

    fn answer<T: Threads + Sync, W: Sink>(
        &mut self,
        rt: &T,
        alloc: Global,
        _centre: &Centre,
        line: &[u8],
        _more: bool,
        writer: &mut W,
    ) -> Result<(), WriteFailed> {
        match command_in(self.track(), line) {
            Ok(Command::Nothing) => print(self.track(), &SessionReply::Nothing, writer),
            Ok(Command::Event(told)) => {
                let reply = tell(alloc, self, &told);
                print(self.track(), &reply, writer)
            }
            Ok(Command::Authority(number)) => ask(rt, alloc, self, TrainId::new(number), writer),
            Ok(Command::Show(inquiry)) => show(alloc, self, inquiry, writer),
            Err(refusal) => print(self.track(), &SessionReply::Refused(refusal), writer),
        }
    }

    fn refuse<W: Sink>(&mut self, _centre: &Centre, writer: &mut W) -> Result<(), WriteFailed> {
        let overlong = SessionReply::Refused(SessionRefusal::BadLine(LineFault::Overlong));
        print(self.track(), &overlong, writer)
    }
}
