//! What is told: it is added to the record, or refused.

ghost use Rattle.std.specs.Prelude.{◌≡◌};
ghost use Rattle.rbc_replies.specs.Replies.{reply_text, ReplyIsWhole};
ghost use Rattle.rbc_sessions.specs.Changes.{Comes};
ghost use Rattle.rbc_model.specs.HistoryText.{IsToldOfTrack};
ghost use Rattle.rbc_sessions.specs.Shown.{told_refusal};
ghost use Rattle.rbc_session_laws.specs.Turns.{AnswersEvent};

use rbc_model::{OrMemory, Told};
use rbc_replies::{SessionRefusal, SessionReply};
use rbc_sweep::{ApplyFault, Record};
use std::alloc::Global;

/// The reply to what is told. Where it is accepted, the record gains an entry; where it is refused, nothing changes.
pub fn tell(alloc: Global, history: &mut Record, told: &Told) -> SessionReply<'static>
    requires { IsToldOfTrack history.old.track told.now }
    ensures comes { Comes (λ begin entries reply added. AnswersEvent begin entries reply added told.now)
        history.old (reply_text history.old.track result) history.new }
    ensures whole { ReplyIsWhole history.old.track result }
{
    // Every record is of a sound track, and its entries can be counted.
    history.track().known();
    history.right();
    match history.apply(alloc, told) {
        Ok(receipt) => SessionReply::Accepted(receipt.place() + 1),
        Err(fault) => SessionReply::Refused(refusal_of(fault)),
    }
}

/// The reply to what is told where there is no memory for it: what refuses it at once, or else the want of memory. Nothing
/// changes.
pub fn in_vain(history: &Record, told: &Told) -> SessionReply<'static>
    requires { IsToldOfTrack history.now.track told.now }
    ensures comes { Comes (λ begin entries reply added. AnswersEvent begin entries reply added told.now)
        history.now (reply_text history.now.track result) history.now }
    ensures whole { ReplyIsWhole history.now.track result }
{
    // Every record is of a sound track.
    history.track().known();
    match history.refusal(told) {
        Some(fault) => SessionReply::Refused(refusal_of(OrMemory::Refused(fault))),
        None => SessionReply::Refused(SessionRefusal::Memory),
    }
}

/// Why the record does not take what is told.
pub(crate) fn refusal_of(fault: OrMemory<ApplyFault>) -> SessionRefusal
    ensures { result ≡ told_refusal fault }
{
    match fault {
        OrMemory::Refused(ApplyFault::Full) => SessionRefusal::Full,
        OrMemory::Refused(ApplyFault::Refused(refusal)) => SessionRefusal::BadEvent(refusal),
        OrMemory::Memory => SessionRefusal::Memory,
    }
}
