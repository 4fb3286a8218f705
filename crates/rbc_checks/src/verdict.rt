//! What is said of a block, and how it is printed.

ghost use Rattle.std.specs.Prelude.{◌≡◌, false};
ghost use Rattle.rbc_model.specs.CheckText.{AnswersBlock, refusal_text};
ghost use Rattle.rbc_model.specs.Sessions.{Prints};
ghost use Rattle.rbc_streams.specs.Emitting.{Emits};
ghost use Rattle.rbc_checks.specs.Blocks.{block_lines};
ghost use Rattle.rbc_checks.specs.Verdicts.{verdict_line, said_text, is_refusal, is_bad, told_as, Judges};

use crate::block::Block;
use crate::certify::{certify_grades, certify_speeds};
use crate::lines::ToldProfile;
use crate::{CheckLine, Rows, Spare};
use rbc_model::{OrMemory, Reason};
use rbc_streams::{Sink, WriteFailed, emit, outcome};
use rbc_words::{emit_last, emit_number};

/// What is said of a block.
#[derive(Clone, Copy, Debug, PartialEq, Eq)]
pub enum Verdict {
    /// It certifies a profile of speeds, which loses so much: no other loses less.
    Speed(u64),
    /// It certifies a profile of gradients, which loses so much: no other loses less.
    Grade(u64),
    /// It is refused for this reason.
    Refused(Reason),
    /// Memory was refused for it.
    Memory,
}

impl Verdict {
    /// Whether the block is not certified.
    pub fn is_refusal(self) -> bool
        ensures { result ≡ is_refusal self }
    {
        match self {
            Verdict::Speed(_) | Verdict::Grade(_) => false,
            Verdict::Refused(_) | Verdict::Memory => true,
        }
    }
}

/// What is said of a block; nothing, if none is open.
pub fn judge(spare: &mut Spare, block: Block) -> Option<Verdict>
    ensures { AnswersBlock (block_lines block) (said_text result) (is_bad result) }
{
    match block {
        Block::None => None,
        Block::Head(_) => Some(Verdict::Refused(Reason::Shape)),
        Block::Profile(head, profile, rows) => Some(judge_parts(spare, head, profile, rows)),
    }
}

/// What is said of a head, a line behind it, and rows, whose memory is used again.
fn judge_parts(spare: &mut Spare, head: CheckLine, profile: CheckLine, rows: Rows) -> Verdict
    ensures { Judges head profile rows result }
{
    let CheckLine::Profile(profile) = profile else {
        return Verdict::Refused(Reason::Shape);
    };
    let verdict = judge_profile(spare, head, &profile, &rows);
    spare.keep_told(profile.steps);
    spare.keep_table(rows.into_table());
    verdict
}

/// What is said of a head, a profile, and rows.
fn judge_profile(spare: &mut Spare, head: CheckLine, profile: &ToldProfile, rows: &Rows) -> Verdict
    ensures { Judges head (CheckLine.Profile profile.now) rows.now result }
{
    match head {
        CheckLine::SpeedHead(track) => told_as(
            certify_speeds(spare, track, profile, rows),
            Verdict::Speed(profile.loss),
        ),
        CheckLine::GradeHead(track) => told_as(
            certify_grades(spare, track, profile, rows),
            Verdict::Grade(profile.loss),
        ),
        _ => Verdict::Refused(Reason::Shape),
    }
}

/// What a check came to, as it is told.
fn told_as(checked: Result<(), OrMemory<Reason>>, certified: Verdict) -> Verdict
    ensures { result ≡ told_as checked certified }
{
    match checked {
        Ok(()) => certified,
        Err(OrMemory::Refused(reason)) => Verdict::Refused(reason),
        Err(OrMemory::Memory) => Verdict::Memory,
    }
}

/// Writes what is said of a block; nothing, if none is open.
///
/// # Errors
///
/// `WriteFailed`, where the writer fails. Then a part of the text stands, from its start.
pub fn print_said<W: Sink>(said: Option<Verdict>, writer: &mut W) -> Result<(), WriteFailed>
    requires { W.failed writer.old ≡ false }
    ensures { Prints (W.written writer.old) (W.written writer.new) (W.failed writer.new) (said_text said) result }
{
    emit_said(said, writer);
    outcome(writer)
}

/// Writes what is said of a block; nothing, if none is open. A fault of the writer is kept by it.
#[inline(always)]
pub(crate) fn emit_said<W: Sink>(said: Option<Verdict>, writer: &mut W)
    ensures { Emits W.written W.failed writer.old writer.new (said_text said) }
{
    match said {
        Some(verdict) => emit_verdict(verdict, writer),
        None => {}
    }
}

fn emit_verdict<W: Sink>(verdict: Verdict, writer: &mut W)
    ensures { Emits W.written W.failed writer.old writer.new (verdict_line verdict) }
{
    match verdict {
        Verdict::Speed(loss) => emit_last(b"certified speed ", loss, writer),
        Verdict::Grade(loss) => emit_last(b"certified grade ", loss, writer),
        Verdict::Refused(reason) => emit_reason(reason, writer),
        Verdict::Memory => emit(writer, b"refused Memory\n"),
    }
}

fn emit_reason<W: Sink>(reason: Reason, writer: &mut W)
    ensures { Emits W.written W.failed writer.old writer.new (refusal_text reason) }
{
    match reason {
        Reason::Shape => emit(writer, b"refused Shape\n"),
        Reason::Above(metre) => emit_last(b"refused Above ", u64::from(metre), writer),
        Reason::Inequality(row, from, to) => emit_inequality(row as u64, from, to, writer),
        Reason::NotAttained => emit(writer, b"refused NotAttained\n"),
        Reason::Steps => emit(writer, b"refused Steps\n"),
    }
}

fn emit_inequality<W: Sink>(row: u64, from: u32, to: u32, writer: &mut W)
    ensures { Emits W.written W.failed writer.old writer.new
        (refusal_text (Reason.Inequality row from to)) }
{
    emit(writer, b"refused Inequality ");
    emit_number(row, writer);
    emit(writer, b" ");
    emit_number(u64::from(from), writer);
    emit_last(b" ", u64::from(to), writer);
}
