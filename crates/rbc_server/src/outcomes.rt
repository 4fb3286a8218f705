//! What a centre that serves connections prints at the end: the outcomes of the sweep, and how many entries there are.

ghost use Rattle.std.specs.Prelude.{◌≡◌, ◌<◌, ◌∷◌, ◌++◌, [], ℕ, List, All, false, take, decimal, OnOk, OnErr, is_err};
ghost use Rattle.std.specs.Io.KnownBytes.{Appends};
ghost use Rattle.rbc_model.specs.Sessions.{Prints, WritesPart};
ghost use Rattle.rbc_model.specs.declared.limits.TheConstants.{MOST_ENTRIES};
ghost use Rattle.rbc_sessions.specs.Replies.{ObstacleIsOfTrack};
ghost use Rattle.rbc_server.specs.Serving.{TellsAll, TellsAnswer, TellsGrant, AnswerIsTellable, IsTellable, closed_line};

use rbc_model::TrainId;
use rbc_sessions::replies::{SessionRefusal, SessionReply, print};
use rbc_sessions::words::emit_number;
use rbc_sessions::{Answer, Granted, Outcome, Track, told_of};
use rbc_streams::{Sink, WriteFailed, emit, outcome};

/// Prints what the trains of a sweep were answered, in order, and hands it on.
///
/// # Errors
///
/// `WriteFailed`, where the writer fails. Then a part of the text stands, from its start.
pub(crate) fn print_outcomes<W: Sink>(
    track: &Track,
    outcomes: &[Outcome],
    writer: &mut W,
) -> Result<(), WriteFailed>
    requires going { W.failed writer.old ≡ false }
    requires tellable { All (IsTellable track.now) outcomes.now }
    ensures text { OnOk result ((text : List ℕ) × TellsAll track.now outcomes.now text
        × Appends (W.written writer.old) (W.written writer.new) text) }
    ensures part { OnErr result ((count : ℕ) × (text : List ℕ) × TellsAll track.now (take count outcomes.now) text
        × WritesPart (W.written writer.old) (W.written writer.new) text) }
    ensures failed { W.failed writer.new ≡ is_err result }
{
    for outcome in outcomes {
        print_answer(track, outcome.train, &outcome.answer, writer)?;
    }
    writer.flush()
}

/// Prints what a train was answered.
fn print_answer<W: Sink>(
    track: &Track,
    train: TrainId,
    answer: &Answer,
    writer: &mut W,
) -> Result<(), WriteFailed>
    requires going { W.failed writer.old ≡ false }
    requires tellable { AnswerIsTellable track.now answer.now }
    ensures { (text : List ℕ) × TellsAnswer track.now train text answer.now
        × Prints (W.written writer.old) (W.written writer.new) (W.failed writer.new) text result }
{
    match answer {
        Answer::Granted(grant) => print_grant(track, grant, writer),
        Answer::Blocked(obstacle, at, version) => {
            let blocked = SessionReply::Blocked(train, *obstacle, *at, *version);
            print(track, &blocked, writer)
        }
        Answer::Gone => print_count(b"gone ", u64::from(train.number()), writer),
        Answer::Full => print(track, &SessionReply::Refused(SessionRefusal::Full), writer),
        Answer::Memory => print(
            track,
            &SessionReply::Refused(SessionRefusal::Memory),
            writer,
        ),
    }
}

/// Prints what a train was granted, with the version after it.
fn print_grant<W: Sink>(track: &Track, grant: &Granted, writer: &mut W) -> Result<(), WriteFailed>
    requires going { W.failed writer.old ≡ false }
    requires named { ObstacleIsOfTrack track.now grant.now.candidate.view.obstacle }
    requires within { grant.now.receipt.place < MOST_ENTRIES }
    ensures { (text : List ℕ) × TellsGrant track.now grant.now text
        × Prints (W.written writer.old) (W.written writer.new) (W.failed writer.new) text result }
{
    let told = told_of(&grant.candidate, grant.receipt.place() + 1);
    print(track, &SessionReply::Granted(told), writer)
}

/// Prints how many entries the history has, and hands it on.
///
/// # Errors
///
/// `WriteFailed`, where the writer fails.
pub(crate) fn print_closed<W: Sink>(count: u64, writer: &mut W) -> Result<(), WriteFailed>
    requires { W.failed writer.old ≡ false }
    ensures text { Prints (W.written writer.old) (W.written writer.new) (W.failed writer.new)
        (closed_line count) result }
    ensures handed_on { OnOk result (W.held_back writer.new ≡ []) }
{
    print_count(b"closed ", count, writer)?;
    writer.flush()
}

/// Prints a line: a word with a space behind it, and a number.
fn print_count<W: Sink>(word: &[u8], number: u64, writer: &mut W) -> Result<(), WriteFailed>
    requires { W.failed writer.old ≡ false }
    ensures { Prints (W.written writer.old) (W.written writer.new) (W.failed writer.new)
        (word.now ++ (decimal number ++ 10 ∷ [])) result }
{
    emit(writer, word);
    emit_number(number, writer);
    emit(writer, b"\n");
    outcome(writer)
}
