//! The session over a text with certificates: each block is judged where it ends.

ghost use Rattle.std.specs.Prelude.{◌≡◌, ◌↔◌, ◌||◌, ℕ, List, [], true, false, IsTrue, OnOk, IfOk, Ok, Err};
ghost use Rattle.std.specs.Io.KnownBytes.{Consumes, IsAtEnd};
ghost use Rattle.rbc_model.specs.declared.places.Format.TheVariants.{Far};
ghost use Rattle.rbc_model.specs.declared.sessions.SessionFault.TheVariants.{Read, Write, Memory as NoMemory};
ghost use Rattle.rbc_model.specs.CheckText.{AnswersBlock, AnswersShort, LeavesOpen, IsChecked, Checking, unchecked};
ghost use Rattle.rbc_streams.specs.Emitting.{Emits};
ghost use Rattle.rbc_checks.specs.Answered.{AnswersAllBlocks};
ghost use Rattle.rbc_checks.specs.Verdicts.{said_text, is_bad};
ghost use Rattle.rbc_checks.specs.Replies.{reply_text, lost_text, Keeps};

use crate::block::{Block, is_head, part_read};
use crate::verdict::{Verdict, emit_said, judge, print_said};
use crate::{CheckLine, Spare, parse_check};
use rbc_model::Part;
use rbc_model::limits::LONGEST_CHECK_LINE;
use rbc_streams::{
    LineHandler, SessionFault, Sink, Source, WriteFailed, emit, outcome, serve_lines,
};
use std::alloc::Global;
use std::marker::Model;
use std::mem;
use std::thread::Threads;

/// What is kept from line to line: the open block, whether a block was refused so far, and memory that is used again.
#[derive(Drop)]
struct Checker {
    spare: Spare,
    block: Block,
    refused: bool,
}

impl Model for Checker {
    ghost use Rattle.rbc_model.specs.CheckText.{Checking};

    ghost Value = { Checking };

    ghost use Rattle.rbc_checks.specs.Blocks.{block_lines};

    ghost view = { λ c. record { block = block_lines c.block; refused = c.refused } };
}

/// The reply to a line: what is said of the block that it ends, and whether memory was refused for the one that it
/// belongs to.
#[derive(Clone, Copy)]
struct Reply {
    said: Option<Verdict>,
    lost: bool,
}

impl Checker {
    /// Nothing is checked yet.
    fn new(alloc: Global) -> Checker
        ensures { result ≡ unchecked }
    {
        Checker {
            spare: Spare::new(alloc),
            block: Block::None,
            refused: false,
        }
    }

    /// Ends the open block: what is said of it.
    #[inline(always)]
    fn close(&mut self) -> Option<Verdict>
        ensures said { AnswersBlock self.old.block (said_text result) (is_bad result) }
        ensures closed { self.new ≡ record { block = []; refused = self.old.refused || is_bad result } }
    {
        if matches!(self.block, Block::None) {
            return None;
        }
        let said = judge(&mut self.spare, mem::replace(&mut self.block, Block::None));
        self.refused = self.refused || said.is_some_and(Verdict::is_refusal);
        said
    }

    /// Puts a line behind the open block, and answers whether memory was refused for it. Then no block is open.
    fn keep(&mut self, read: Result<CheckLine, Part>) -> bool
        ensures { Keeps self.old read result self.new }
    {
        if let Ok(line) = read
            && self.block.add(&mut self.spare, line)
        {
            return false;
        }
        self.block = Block::None;
        self.refused = true;
        true
    }

    /// Takes a line, which is not too long.
    fn read(&mut self, line: &[u8]) -> Reply
        ensures { AnswersShort Far self.old line.now (reply_text result) self.new }
    {
        let read = parse_check(&mut self.spare, line);
        let part = part_read(&read);
        if self.block.goes_on(part) {
            let lost = self.keep(read);
            return Reply { said: None, lost };
        }
        let said = self.close();
        if is_head(part) {
            let lost = self.keep(read);
            return Reply { said, lost };
        }
        Reply { said, lost: false }
    }
}

impl LineHandler<()> for Checker {
    type State = Checker;

    ghost use Rattle.std.specs.Prelude.{⊤, false, refl};
    ghost use Rattle.rbc_model.specs.declared.limits.TheConstants.{LONGEST_CHECK_LINE};
    ghost use Rattle.rbc_model.specs.declared.places.Format.TheVariants.{Far};
    ghost use Rattle.rbc_model.specs.CheckText.{AnswersCheck};

    ghost longest = { LONGEST_CHECK_LINE };

    ghost state = { λ c. c };

    ghost answers = { AnswersCheck Far };

    // A check never fails.
    ghost ready = { λ _. ⊤ };

    ghost broken = { λ _. false };

    ghost works = { λ _ _. refl };

    ghost goes_on = { λ _ _ _ _ _ _. tt };

    ghost rests = { λ _. 0 };

    fn longest_line() -> usize {
        LONGEST_CHECK_LINE
    }

    fn answer<T: Threads + Sync, W: Sink>(
        &mut self,
        _rt: &T,
        _alloc: Global,
        help: &(),
        line: &[u8],
        _more: bool,
        writer: &mut W,
    ) -> Result<(), WriteFailed> {
        if line.len() > LONGEST_CHECK_LINE {
            return self.refuse(help, writer);
        }
        emit_reply(self.read(line), writer);
        outcome(writer)
    }

    fn refuse<W: Sink>(&mut self, _help: &(), writer: &mut W) -> Result<(), WriteFailed> {
        emit_said(self.close(), writer);
        emit(writer, b"refused Overlong\n");
        outcome(writer)
    }
}

/// Writes a reply.
fn emit_reply<W: Sink>(reply: Reply, writer: &mut W)
    ensures { Emits W.written W.failed writer.old writer.new (reply_text reply) }
{
    emit_said(reply.said, writer);
    emit_lost(reply.lost, writer);
}

/// Writes that memory was refused for a block, if it was.
fn emit_lost<W: Sink>(lost: bool, writer: &mut W)
    ensures { Emits W.written W.failed writer.old writer.new (lost_text lost) }
{
    if lost {
        emit(writer, b"refused Memory\n");
    }
}

/// Judges each block of certificates in the text that is read, and writes for each whether it is certified, or the
/// first reason why not. Answers whether each was certified. A block that is open at the end of the input, or before a
/// line that is too long, is judged too.
///
/// # Errors
/// `Memory` before anything is read or written. Then, for each line in order: `Read` where the reader fails, `Write`
/// where the writer does, `Overlong` behind the reply to a line that is too long; `Lines` where a further byte comes
/// after the last line that a session treats.
pub fn check<R: Source, W: Sink>(
    rt: &(impl Threads + Sync),
    alloc: Global,
    reader: &mut R,
    writer: &mut W,
) -> Result<bool, SessionFault>
    requires reader { R.failed reader.old ≡ false }
    requires writer { W.failed writer.old ≡ false }

    // A read or write fault is answered exactly where the reader or the writer failed.
    ensures read { (result ≡ Err Read) ↔ IsTrue (R.failed reader.new) }
    ensures write { (result ≡ Err Write) ↔ IsTrue (W.failed writer.new) }

    // Without memory nothing begins.
    ensures memory { result ≡ Err NoMemory → (reader.new ≡ reader.old) × (writer.new ≡ writer.old) }

    // Ok is answered at the end of the input, which the last read found.
    ensures end { OnOk result (IsAtEnd (R.left reader.new)) }
    ensures ended { OnOk result (R.ended reader.new ≡ true) }

    // What was written tells the verdicts on the blocks of what was read, and Ok tells whether each was certified.
    ensures checked { (input : List ℕ) × Consumes (R.left reader.old) (R.left reader.new) input
        × IsChecked Far input (W.written writer.old) (W.written writer.new) result }

    // At the end of the input, where memory was never refused, what was written, and whether each block was
    // certified, is one function of what was read.
    ensures answers { IfOk result (λ all. AnswersAllBlocks all (R.left reader.old) (W.written writer.old) (W.written writer.new)) }

    // And it was handed on, unless the writer failed.
    ensures handed_on { W.failed writer.new ≡ false → W.held_back writer.old ≡ [] → W.held_back writer.new ≡ [] }
{
    let mut checker = Checker::new(alloc);
    serve_lines(rt, alloc, reader, writer, &mut checker, &())?;
    print_said(checker.close(), writer)?;
    writer.flush()?;
    Ok(!checker.refused)
}
