//! The numbers themselves, which any thread counts on without a lock.

use crate::{Counts, KINDS, RefusalKind, Reply};
use std::array;
use std::sync::atomic::{AtomicU64, Ordering};
use std::time::Duration;

/// What a centre does, counted as it happens. A count begins anew at 0 behind 2^64 - 1.
#[derive(Drop)]
pub struct Tally {
    open: AtomicU64,
    connections: AtomicU64,
    lines: AtomicU64,
    ok: AtomicU64,
    granted: AtomicU64,
    blocked: AtomicU64,
    shown: AtomicU64,
    refused: [AtomicU64; KINDS],
    entries: AtomicU64,
    most_entries: u64,
    commits: AtomicU64,
    // In microseconds.
    commit_time: AtomicU64,
    longest: AtomicU64,
    longest_of_log: AtomicU64,
    longest_of_page: AtomicU64,
}

/// Who asks for the longest commit since it asked last. Each has a number of its own.
#[derive(Clone, Copy, Debug, PartialEq, Eq)]
pub enum Reader {
    /// The log.
    Log,
    /// A page of numbers.
    Page,
}

impl Tally {
    /// Nothing so far, at a centre whose history may have this many entries.
    pub fn new(most_entries: u64) -> Tally {
        Tally {
            open: AtomicU64::new(0),
            connections: AtomicU64::new(0),
            lines: AtomicU64::new(0),
            ok: AtomicU64::new(0),
            granted: AtomicU64::new(0),
            blocked: AtomicU64::new(0),
            shown: AtomicU64::new(0),
            refused: array::from_fn(|_kind| AtomicU64::new(0)),
            entries: AtomicU64::new(0),
            most_entries,
            commits: AtomicU64::new(0),
            commit_time: AtomicU64::new(0),
            longest: AtomicU64::new(0),
            longest_of_log: AtomicU64::new(0),
            longest_of_page: AtomicU64::new(0),
        }
    }

    /// A connection begins.
    pub fn began(&self) {
        add(&self.connections, 1);
        add(&self.open, 1);
    }

    /// A connection that began has ended.
    pub fn ended(&self) {
        self.open.fetch_sub(1, Ordering::SeqCst);
    }

    /// This many lines were read.
    pub fn read(&self, lines: u64) {
        add(&self.lines, lines);
    }

    /// A reply was written.
    pub fn replied(&self, reply: Reply) {
        match reply {
            Reply::Ok(version) => {
                add(&self.ok, 1);
                self.reached(version);
            }
            Reply::Granted(version) => {
                add(&self.granted, 1);
                self.reached(version);
            }
            Reply::Blocked => add(&self.blocked, 1),
            Reply::Shown => add(&self.shown, 1),
            Reply::Refused(refusal) => self.refused_for(refusal),
        }
    }

    /// The history has this many entries at least.
    pub fn reached(&self, version: u64) {
        self.entries.fetch_max(version, Ordering::SeqCst);
    }

    /// What was put into the journal is on the disk, which took so long.
    pub fn committed(&self, took: Duration) {
        let micros = in_micros(took);
        add(&self.commits, 1);
        add(&self.commit_time, micros);
        for longest in [&self.longest, &self.longest_of_log, &self.longest_of_page] {
            longest.fetch_max(micros, Ordering::SeqCst);
        }
    }

    /// How long the longest commit took since this reader asked last, in whole microseconds. The longest one of all stays known.
    pub fn take_longest(&self, reader: Reader) -> Duration {
        let longest = match reader {
            Reader::Log => &self.longest_of_log,
            Reader::Page => &self.longest_of_page,
        };
        Duration::from_micros(longest.swap(0, Ordering::SeqCst))
    }

    /// What was counted so far.
    pub fn counts(&self) -> Counts {
        let mut refused = [0; KINDS];
        for (count, refusal) in refused.iter_mut().zip(&self.refused) {
            *count = seen(refusal);
        }
        Counts {
            open: seen(&self.open),
            connections: seen(&self.connections),
            lines: seen(&self.lines),
            ok: seen(&self.ok),
            granted: seen(&self.granted),
            blocked: seen(&self.blocked),
            shown: seen(&self.shown),
            refused,
            entries: seen(&self.entries),
            most_entries: self.most_entries,
            commits: seen(&self.commits),
            commit_time: Duration::from_micros(seen(&self.commit_time)),
            longest_commit: Duration::from_micros(seen(&self.longest)),
        }
    }

    // A line was refused.
    fn refused_for(&self, refusal: RefusalKind) {
        if let Some(count) = self.refused.get(refusal as usize) {
            add(count, 1);
        }
    }
}

// Counts so many more.
fn add(count: &AtomicU64, more: u64) {
    count.fetch_add(more, Ordering::SeqCst);
}

// What was counted.
fn seen(count: &AtomicU64) -> u64 {
    count.load(Ordering::SeqCst)
}

// A time in whole microseconds, as far as they can be told.
fn in_micros(time: Duration) -> u64 {
    time.as_secs()
        .saturating_mul(1_000_000)
        .saturating_add(u64::from(time.subsec_micros()))
}
