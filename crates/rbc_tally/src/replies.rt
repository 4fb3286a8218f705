//! Replies, found in the bytes that are written to a client.

ghost use Rattle.std.specs.Prelude.{◌≤◌, length};

use crate::{RefusalKind, Tally};
use memchr::{memchr, memmem};
use std::str;

/// How much of a line is looked at, in bytes: enough for `granted`, a train and a version.
const HEAD: usize = 32;

/// What the first line of a reply tells.
#[derive(Clone, Copy, Debug, PartialEq, Eq)]
pub enum Reply {
    /// An event was entered, which led to this version.
    Ok(u64),
    /// An authority was granted, which led to this version.
    Granted(u64),
    /// A train may run no further.
    Blocked,
    /// The state or the scene is shown.
    Shown,
    /// The line was refused.
    Refused(RefusalKind),
}

impl Reply {
    /// The one that a line begins. None where the line begins none, such as the further lines of a grant or a scene.
    fn begun_by(line: &[u8]) -> Option<Reply> {
        // Most further lines are known by their first bytes.
        match (line.first()?, line.get(1)?, line.get(2)?) {
            (b'o', b'k', _)
            | (b'g', b'r', b'a')
            | (b'b', b'l', b'o')
            | (b's', b't', b'a')
            | (b's', b'c', b'e')
            | (b'r', b'e', b'f') => Reply::told_by(line),
            _ => None,
        }
    }

    /// The one that the line's words tell.
    fn told_by(line: &[u8]) -> Option<Reply> {
        let mut words = line.split(|byte| *byte == b' ');
        match words.next()? {
            b"ok" => Some(Reply::Ok(number(words.next()?)?)),
            b"granted" => {
                let _train = words.next()?;
                Some(Reply::Granted(number(words.next()?)?))
            }
            b"blocked" => Some(Reply::Blocked),
            b"state" | b"scene" => Some(Reply::Shown),
            b"refused" => Some(Reply::Refused(RefusalKind::named(words.next()?))),
            _ => None,
        }
    }
}

/// The number that a word writes.
fn number(word: &[u8]) -> Option<u64> {
    str::from_utf8(word).ok()?.parse().ok()
}

/// How far the line has come that is written to a client.
#[derive(Drop)]
pub struct Replies {
    head: [u8; HEAD],
    length: usize,
}

impl Replies {
    /// A line that has not begun.
    pub fn new() -> Replies {
        Replies {
            head: [0; HEAD],
            length: 0,
        }
    }

    /// Goes on through bytes that were written, and counts each reply whose first line ends in them.
    pub fn pass(&mut self, bytes: &[u8], tally: &Tally) {
        let mut rest = bytes;
        while let Some(end) = memchr(b'\n', rest) {
            let reply = self.end(&rest[..end]);
            rest = &rest[end.saturating_add(1)..];
            if let Some(reply) = reply {
                tally.replied(reply);
                rest = behind_further_lines(reply, rest);
            }
        }
        self.take(rest);
    }

    /// Goes on with a part of the line.
    fn take(&mut self, part: &[u8]) {
        let Some(free) = self.head.get_mut(self.length..) else {
            return;
        };
        let count = free.len().min(part.len());
        free[..count].copy_from_slice(&part[..count]);
        self.length = self.length.saturating_add(count);
    }

    /// Ends the line with its last part, and tells which reply it begins. A line that comes whole is not copied.
    fn end(&mut self, part: &[u8]) -> Option<Reply> {
        if self.length == 0 {
            return Reply::begun_by(part);
        }
        self.take(part);
        let reply = Reply::begun_by(self.head.get(..self.length).unwrap_or(&[]));
        self.length = 0;
        reply
    }
}

/// The end of a grant, from the line feed before its last line.
const END: &[u8] = b"\ndone\n";

/// What stands behind the further lines of a reply, if they have come whole. None of them begins a reply.
fn behind_further_lines(reply: Reply, rest: &[u8]) -> &[u8]
    ensures { length result.now ≤ length rest.now }
{
    let Reply::Granted(_) = reply else {
        return rest;
    };
    match memmem::find(rest, END) {
        Some(at) => &rest[at + END.len()..],
        None => rest,
    }
}
