//! Line handlers, which answer the lines of a session.

ghost use Rattle.std.specs.Prelude.{◌≡◌, ◌<◌, ◌≤◌, ◌||◌, ℕ, List, Bool, length, false, OnErr};
ghost use Rattle.std.specs.Thread.{IsSync};
ghost use Rattle.rbc_model.specs.Sessions.{Prints};
ghost use Rattle.rbc_model.specs.declared.limits.TheConstants.{LONGEST_CHECK_LINE};

use crate::{Sink, WriteFailed};
use std::alloc::Global;
use std::thread::Threads;

/// A line handler: it answers lines, one after the other, with the help of a `C`.
pub trait LineHandler<C> {
    /// What a line changes. It is only spoken of: no value of it is made.
    type State;

    /// The state now.
    ghost state: { Self → Self.State };

    /// In a state a line is answered by a text, and the next state follows. The text is the reply to the line, behind
    /// those that rested before it; or it is empty, and the reply rests too, as a part of the next state.
    ghost answers: { Self.State → List ℕ → List ℕ → Self.State → Type 0 };

    /// How many lines were answered whose replies rest in a state, and are not written yet.
    ghost rests: { Self.State → ℕ };

    /// What holds of a state in which a line can be answered.
    ghost ready: { Self.State → Type 0 };

    /// Whether the line handler has failed for good, in a state. Then the session ends.
    ghost broken: { Self.State → Bool };

    /// It has not failed where a line can be answered.
    ghost works: { (now : Self.State) → ready now → broken now ≡ false };

    /// And where it has not failed in a line, the next one can be answered.
    ghost goes_on: { (now next : Self.State) (line reply : List ℕ) → answers now line reply next → broken next ≡ false → ready next };

    /// How many bytes a line may have.
    ghost longest: { ℕ };

    /// How many bytes a line may have, a carriage return counted: at most [`rbc_model::limits::LONGEST_CHECK_LINE`].
    fn longest_line() -> usize
        ensures value { result ≡ longest }
        ensures bound { result ≤ LONGEST_CHECK_LINE };

    /// Prints the reply to a line, which has no line feed. The session hands it on. Where a whole line more has been read
    /// the reply may rest, up to one of the next calls.
    ///
    /// # Errors
    /// The reply is not written whole: the writer failed, or the line handler did. The state is the next one nevertheless.
    fn answer<T: Threads + Sync, W: Sink>(
        &mut self,
        rt: &T,
        alloc: Global,
        help: &C,
        line: &[u8],
        more: bool,
        writer: &mut W,
    ) -> Result<(), WriteFailed>
        requires going { W.failed writer.old ≡ false }
        requires ready { ready (state self.old) }
        requires runtime { IsSync T.row }
        ensures none_rests { more ≡ false → rests (state self.new) ≡ 0 }
        ensures none_rests_at_fault { OnErr result (rests (state self.new) ≡ 0) }
        ensures reply { (reply : List ℕ) × answers (state self.old) line.now reply (state self.new)
            × Prints (W.written writer.old) (W.written writer.new) (broken (state self.new) || W.failed writer.new) reply result };

    /// Prints the reply to a line that is too long, whatever it says. None rests before it, nor then.
    ///
    /// # Errors
    /// The reply is not written whole: the writer failed, or the line handler did.
    fn refuse<W: Sink>(&mut self, help: &C, writer: &mut W) -> Result<(), WriteFailed>
        requires going { W.failed writer.old ≡ false }
        requires ready { ready (state self.old) }
        requires none_rests { rests (state self.old) ≡ 0 }
        ensures none_rests { rests (state self.new) ≡ 0 }
        ensures reply { (reply : List ℕ)
            × ((line : List ℕ) → longest < length line → answers (state self.old) line reply (state self.new))
            × Prints (W.written writer.old) (W.written writer.new) (broken (state self.new) || W.failed writer.new) reply result };
}
