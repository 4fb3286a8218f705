//! What was said at a terminal since the last prompt: requests, and the replies to them.

use crate::locks::Locks;
use crate::passing::{Passing, Side};
use crate::refused::Refused;
use rbc_model::{Lock, Memory, SectionId};
use rbc_track::Track;
use rbc_words::{next_word, parse};
use std::alloc::Global;
use std::sync::Arc;

/// The requests and replies that have passed, and the locks that they led to.
#[derive(Drop)]
pub(crate) struct Talk {
    alloc: Global,
    track: Arc<Track>,
    locks: Locks,
    requests: Passing,
    replies: Passing,
}

impl Talk {
    /// A session on this track, with no section locked.
    pub(crate) fn new(alloc: Global, track: Arc<Track>) -> Talk {
        Talk {
            alloc,
            track,
            locks: Locks::new(alloc),
            requests: Passing::new(alloc, Side::Requests),
            replies: Passing::new(alloc, Side::Replies),
        }
    }

    /// The section is locked so before the session.
    ///
    /// # Errors
    ///
    /// The allocator refused memory.
    pub(crate) fn add_lock(&mut self, section: SectionId, lock: &Lock) -> Result<(), Memory> {
        self.locks.add(&self.track, section, lock)
    }

    /// Whether a part of a line has been read.
    pub(crate) fn has_begun(&self) -> bool {
        self.requests.has_begun()
    }

    /// These bytes pass.
    ///
    /// # Errors
    ///
    /// The allocator refused memory.
    pub(crate) fn pass(&mut self, side: Side, bytes: &[u8]) -> Result<(), Memory> {
        match side {
            Side::Requests => self.requests.pass(bytes),
            Side::Replies => self.replies.pass(bytes),
        }
    }

    /// The input has ended, and with it a line that has begun.
    ///
    /// # Errors
    ///
    /// The allocator refused memory.
    pub(crate) fn end(&mut self) -> Result<(), Memory> {
        self.requests.end_line()
    }

    /// The lines behind the refusals that have passed, each indented by two spaces. All that has passed is let go.
    ///
    /// # Errors
    ///
    /// The allocator refused memory.
    pub(crate) fn hints(&mut self) -> Result<String, Memory> {
        let (requests, replies) = (self.requests.take(), self.replies.take());
        let mut hints = String::new(self.alloc);
        for (request, reply) in requests.iter().zip(replies.iter()) {
            if let Some(hint) = self.answered(request.as_slice(), reply.as_slice())? {
                hints.push_str("  ")?;
                hints.push_str(hint.as_str())?;
                hints.push_str("\n")?;
            }
        }
        Ok(hints)
    }

    /// Treats a request with its reply: a route or a section that was accepted changes the locks, and a refusal gives a line.
    fn answered(&mut self, request: &[u8], reply: &[u8]) -> Result<Option<String>, Memory> {
        match next_word(reply) {
            Some((b"ok", _)) => {
                if let Ok(request) = parse(request) {
                    self.locks.hear(&self.track, &request)?;
                }
                Ok(None)
            }
            Some((b"refused", rest)) => self.refused(request, rest),
            _ => Ok(None),
        }
    }

    /// The line behind a refusal.
    fn refused(&self, line: &[u8], refusal: &[u8]) -> Result<Option<String>, Memory> {
        let Some((name, named)) = next_word(refusal) else {
            return Ok(None);
        };
        let refused = Refused {
            alloc: self.alloc,
            track: &self.track,
            locks: &self.locks,
            line,
            named,
        };
        refused.hint(name)
    }
}
