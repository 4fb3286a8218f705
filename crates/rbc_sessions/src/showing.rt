//! What is asked to be shown.

ghost use Rattle.std.specs.Prelude.{◌≡◌, ℕ, List, None, false};
ghost use Rattle.rbc_sweep.specs.Records.{begin_of};
ghost use Rattle.rbc_model.specs.Sessions.{Prints};
ghost use Rattle.rbc_session_laws.specs.Turns.{AnswersInquiry};

use rbc_lines::{print_shown, print_state};
use rbc_model::Inquiry;
use rbc_streams::{Sink, WriteFailed};
use rbc_sweep::{Record, State};
use std::alloc::Global;

/// Prints what is asked to be shown of a record.
///
/// # Errors
///
/// `WriteFailed`, where the writer fails.
pub fn show<W: Sink>(
    alloc: Global,
    history: &Record,
    inquiry: Inquiry,
    writer: &mut W,
) -> Result<(), WriteFailed>
    requires { W.failed writer.old ≡ false }
    ensures { (reply : List ℕ) × AnswersInquiry (begin_of history.now) history.now.entries reply None inquiry
        × Prints (W.written writer.old) (W.written writer.new) (W.failed writer.new) reply result }
{
    let scene = history.scene();
    match inquiry {
        Inquiry::State => {
            let state = State::of(history.version(), scene);
            print_state(state.version, state.trains, state.locked, writer)
        }
        Inquiry::Scene => print_shown(alloc, history.version(), scene, writer),
    }
}
