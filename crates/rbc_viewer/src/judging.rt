//! The blocks of certificates in a text, judged line by line, and what is said of them, kept in memory.

ghost use Rattle.std.specs.Prelude.{◌≡◌, ◌++◌, ◌∷◌, ◌||◌, [], ℕ, false, IfOk, OnOk};
ghost use Rattle.rbc_model.specs.declared.places.Format.TheVariants.{Far};
ghost use Rattle.rbc_model.specs.CheckText.{CheckLine as Said, check_line, goes_on};
ghost use Rattle.rbc_checks.specs.Blocks.{block_lines};
ghost use Rattle.rbc_checks.specs.Lines.{IsSaid};
ghost use Rattle.rbc_checks.specs.Verdicts.{said_text};
ghost use Rattle.rbc_viewer.specs.Judged.{unjudged, behind_line, at_end, is_memory};

use rbc_checks::{
    Block, CheckLine, Spare, Verdict, is_head, judge, parse_check, part_read, print_said,
};
use rbc_model::{Memory, Part};
use rbc_streams::{Text, WriteFailed};
use std::alloc::Global;
use std::marker::Model;
use std::mem;

/// The verdicts with what is said of one block more.
///
/// # Errors
///
/// There is no memory for it. The verdicts are gone then.
fn with_said(verdicts: Vec<u8>, said: Option<Verdict>) -> Result<Vec<u8>, Memory>
    ensures { IfOk result (λ all. all.items ≡ verdicts.items ++ said_text said) }
{
    let mut text = Text {
        bytes: verdicts,
        failed: false,
    };
    match print_said(said, &mut text) {
        Ok(()) => Ok(text.bytes),
        Err(WriteFailed) => Err(Memory),
    }
}

/// Whether memory was refused for a block.
fn is_lost(said: Option<Verdict>) -> bool
    ensures { result ≡ is_memory said }
{
    matches!(said, Some(Verdict::Memory))
}

/// What is kept from line to line: the open block, whether a block was refused so far, what was said of those that ended, and
/// memory that is used again.
#[derive(Drop)]
pub(crate) struct Judging {
    alloc: Global,
    spare: Spare,
    block: Block,
    refused: bool,
    verdicts: Vec<u8>,
}

impl Model for Judging {
    ghost use Rattle.rbc_viewer.specs.Judged.{Judged};

    ghost Value = { Judged };

    ghost use Rattle.rbc_checks.specs.Blocks.{block_lines};

    ghost view = { λ j. record { block = block_lines j.block; refused = j.refused; verdicts = j.verdicts.items } };
}

impl Judging {
    /// Nothing is judged yet.
    pub(crate) fn new(alloc: Global) -> Judging
        ensures { result ≡ unjudged }
    {
        Judging {
            alloc,
            spare: Spare::new(alloc),
            block: Block::None,
            refused: false,
            verdicts: Vec::new(alloc),
        }
    }

    /// Whether a block was refused.
    pub(crate) fn has_refused(&self) -> bool
        ensures { result ≡ self.now.refused }
    {
        self.refused
    }

    /// What was said of the blocks that ended, a line each.
    pub(crate) fn verdicts(&self) -> &[u8]
        ensures { result.now ≡ self.now.verdicts }
    {
        self.verdicts.as_slice()
    }

    /// Whether a line that is this part of a block goes on with the open one.
    fn goes_on(&self, part: Option<Part>) -> bool
        ensures { result ≡ goes_on self.now.block part }
    {
        self.block.goes_on(part)
    }

    /// Puts a line behind the open block.
    ///
    /// # Errors
    ///
    /// Memory was refused for it.
    fn keep(&mut self, read: Result<CheckLine, Part>) -> Result<(), Memory>
        ensures { (said : Said) → IsSaid read said → OnOk result
            (self.new ≡ record { block = self.old.block ++ said ∷ []; refused = self.old.refused; verdicts = self.old.verdicts }) }
    {
        if let Ok(line) = read
            && self.block.add(&mut self.spare, line)
        {
            return Ok(());
        }
        Err(Memory)
    }

    /// Judges the open block, and opens none.
    ///
    /// # Errors
    ///
    /// Memory was refused for it, or for what is said of it.
    pub(crate) fn close(&mut self) -> Result<(), Memory>
        ensures { OnOk result (self.new ≡ at_end self.old) }
    {
        let over = mem::replace(&mut self.block, Block::None);
        let said = judge(&mut self.spare, over);
        if is_lost(said) {
            return Err(Memory);
        }
        self.refused = self.refused || said.is_some_and(Verdict::is_refusal);
        let verdicts = mem::replace(&mut self.verdicts, Vec::new(self.alloc));
        self.verdicts = with_said(verdicts, said)?;
        Ok(())
    }

    /// Takes a line, which has no line feed, and judges the block that it ends.
    ///
    /// # Errors
    ///
    /// Memory was refused for the line, for the block that it ends, or for what is said of that.
    pub(crate) fn take(&mut self, line: &[u8]) -> Result<(), Memory>
        ensures { OnOk result (self.new ≡ behind_line self.old (check_line Far line.now)) }
    {
        let read = parse_check(&mut self.spare, line);
        let part = part_read(&read);
        if self.goes_on(part) {
            return self.keep(read);
        }
        self.close()?;
        if is_head(part) {
            return self.keep(read);
        }
        Ok(())
    }
}
