//! The block of lines that is open: a certificate that is being read.

ghost use Rattle.std.specs.Prelude.{◌≡◌, true, [], ◌∷◌, ◌++◌, IfSome};
ghost use Rattle.rbc_model.specs.CheckText.{CheckLine as Said, part_of, is_head, goes_on};
ghost use Rattle.rbc_checks.specs.Lines.{line_view, IsSaid};
ghost use Rattle.rbc_checks.specs.Blocks.{block_lines};

use crate::{CheckLine, Rows, Spare};
use rbc_model::Part;
use std::mem;

/// The lines of the block that is open.
#[derive(Drop)]
pub enum Block {
    /// No block is open.
    None,
    /// A head.
    Head(CheckLine),
    /// A head, a profile, and the rows behind it.
    Profile(CheckLine, CheckLine, Rows),
}

impl Block {
    /// Whether a line that is this part of a block goes on with it.
    pub fn goes_on(&self, part: Option<Part>) -> bool
        ensures { result ≡ goes_on (block_lines self.now) part }
    {
        match (self, part) {
            (Block::Head(_), Some(Part::Profile)) => true,
            (Block::Profile(..), Some(Part::Row)) => true,
            _ => false,
        }
    }

    /// The block with one line more, or nothing where memory is refused.
    #[inline(always)]
    pub fn with_line(self, spare: &mut Spare, line: CheckLine) -> Option<Block>
        ensures { IfSome result (λ block. block_lines block ≡ block_lines self ++ line_view line ∷ []) }
    {
        match self {
            Block::None => Some(Block::Head(line)),
            Block::Head(head) => Some(Block::Profile(head, line, Rows::new(spare))),
            Block::Profile(head, profile, rows) => {
                let mut rows = rows;
                if !rows.push(line) {
                    return None;
                }
                Some(Block::Profile(head, profile, rows))
            }
        }
    }

    /// Puts a line behind the block, and answers whether there was memory for it.
    pub fn add(&mut self, spare: &mut Spare, line: CheckLine) -> bool
        ensures { result ≡ true → block_lines self.new ≡ block_lines self.old ++ line_view line ∷ [] }
    {
        if let Block::Profile(_, _, rows) = self {
            return rows.push(line);
        }
        match mem::replace(self, Block::None).with_line(spare, line) {
            Some(block) => {
                *self = block;
                true
            }
            None => false,
        }
    }
}

impl CheckLine {
    /// The part of a block that the line is, if it is one.
    pub fn part(&self) -> Option<Part>
        ensures { result ≡ part_of (line_view self.now) }
    {
        match self {
            CheckLine::SpeedHead(_) | CheckLine::GradeHead(_) => Some(Part::Head),
            CheckLine::Profile(_) => Some(Part::Profile),
            CheckLine::Row(_) => Some(Part::Row),
            CheckLine::Bad(part) => Some(*part),
            CheckLine::Other => None,
        }
    }
}

/// The part of a block that was read, also where memory was refused for what it says.
pub fn part_read(read: &Result<CheckLine, Part>) -> Option<Part>
    ensures { (said : Said) → IsSaid read.now said → result ≡ part_of said }
{
    match read {
        Ok(line) => line.part(),
        Err(part) => Some(*part),
    }
}

/// Whether a line of this part begins a block.
pub fn is_head(part: Option<Part>) -> bool
    ensures { result ≡ is_head part }
{
    matches!(part, Some(Part::Head))
}
