//! What was counted.

use crate::{KINDS, RefusalKind};
use std::time::Duration;

/// What a centre has done so far. Each number was true at some moment while it was asked for, and not all of them at one.
#[derive(Clone, Copy, Debug, PartialEq, Eq)]
pub struct Counts {
    /// Connections that are open.
    pub open: u64,
    /// Connections that have begun, those that are open among them.
    pub connections: u64,
    /// Line feeds that were read of connections.
    pub lines: u64,
    /// Replies `ok`.
    pub ok: u64,
    /// Replies `granted`.
    pub granted: u64,
    /// Replies `blocked`.
    pub blocked: u64,
    /// Replies to `state` and `scene`.
    pub shown: u64,
    /// Replies `refused`, of each kind, in the order of [`RefusalKind::ALL`].
    pub refused: [u64; KINDS],
    /// Entries of the history: those that it had at the start, and those that a reply has told of.
    pub entries: u64,
    /// How many entries it may have.
    pub most_entries: u64,
    /// Puts into the journal, each of which is on the disk.
    pub commits: u64,
    /// How long all of them took, from the first write to the last sync, in whole microseconds each.
    pub commit_time: Duration,
    /// How long the longest of them took.
    pub longest_commit: Duration,
}

impl Counts {
    /// How many replies refused a line for this reason.
    pub fn refused_for(&self, refusal: RefusalKind) -> u64 {
        self.refused.get(refusal as usize).copied().unwrap_or(0)
    }

    /// How many replies refused a line.
    pub fn all_refused(&self) -> u64 {
        let mut sum = 0_u64;
        for count in self.refused.as_slice() {
            sum = sum.saturating_add(*count);
        }
        sum
    }

    /// How many entries there is room for.
    pub fn entries_left(&self) -> u64 {
        self.most_entries.saturating_sub(self.entries)
    }
}
