//! Lines of what passes, piece by piece.

use rbc_model::Memory;
use rbc_model::limits::LONGEST_LINE;
use rbc_words::{is_blank, next_word, without_return};
use std::alloc::Global;
use std::mem;

/// How many bytes are kept of the first line of a reply. A refusal has fewer.
const LONGEST_REFUSAL: usize = 64;

/// Which way lines pass.
#[derive(Clone, Copy, Debug, PartialEq, Eq)]
pub(crate) enum Side {
    /// To the session.
    Requests,
    /// From it.
    Replies,
}

impl Side {
    /// How many bytes are kept of a line.
    fn longest(self) -> usize {
        match self {
            Side::Requests => LONGEST_LINE + 1,
            Side::Replies => LONGEST_REFUSAL,
        }
    }

    /// Whether a line has a reply, or is the first one of a reply.
    fn counts(self, line: &[u8]) -> bool {
        match self {
            Side::Requests => line.len() > LONGEST_LINE || !is_blank(without_return(line)),
            Side::Replies => begins_reply(line),
        }
    }
}

/// Whether a line is the first one of a reply.
fn begins_reply(line: &[u8]) -> bool {
    matches!(
        next_word(line),
        Some((
            b"ok" | b"granted" | b"blocked" | b"state" | b"scene" | b"refused",
            _
        ))
    )
}

/// The lines that have passed one way, and what has passed of the next one.
#[derive(Drop)]
pub(crate) struct Passing {
    alloc: Global,
    side: Side,
    lines: Vec<Vec<u8>>,
    begun: Vec<u8>,
}

impl Passing {
    /// Nothing has passed.
    pub(crate) fn new(alloc: Global, side: Side) -> Passing {
        Passing {
            alloc,
            side,
            lines: Vec::new(alloc),
            begun: Vec::new(alloc),
        }
    }

    /// Whether a part of a line has passed.
    pub(crate) fn has_begun(&self) -> bool {
        !self.begun.is_empty()
    }

    /// These bytes pass.
    ///
    /// # Errors
    ///
    /// The allocator refused memory.
    pub(crate) fn pass(&mut self, bytes: &[u8]) -> Result<(), Memory> {
        for byte in bytes {
            if *byte == b'\n' {
                self.end_line()?;
            } else if self.begun.len() < self.side.longest() {
                self.begun.push(*byte)?;
            }
        }
        Ok(())
    }

    /// The line ends that has begun.
    ///
    /// # Errors
    ///
    /// The allocator refused memory.
    pub(crate) fn end_line(&mut self) -> Result<(), Memory> {
        let line = mem::replace(&mut self.begun, Vec::new(self.alloc));
        if self.side.counts(line.as_slice()) {
            self.lines.push(line)?;
        }
        Ok(())
    }

    /// The lines that have a reply, or begin one, since they were taken last.
    pub(crate) fn take(&mut self) -> Vec<Vec<u8>> {
        mem::replace(&mut self.lines, Vec::new(self.alloc))
    }
}
