//! The file of a journal, with a watch that tells how long its commits take.

use crate::{Calls, SystemFile};
use rbc_tally::Tally;
use std::io;
use std::time::{Clock, Instant};

/// How many syncs a commit has.
const SYNCS: u32 = 2;

/// A file of the system whose commits are counted, if a tally is kept: how many there were, and how long each took, from its first
/// write to its last sync.
#[derive(Drop)]
pub struct Timed<'r, 't, T> {
    file: SystemFile,
    rt: &'r T,
    tally: Option<&'t Tally>,
    // When the commit began that is under way, and how many syncs it has had.
    began: Option<Instant>,
    syncs: u32,
}

impl<'r, 't, T> Timed<'r, 't, T> {
    /// The file, before its first commit.
    pub fn new(file: SystemFile, rt: &'r T, tally: Option<&'t Tally>) -> Timed<'r, 't, T> {
        Timed {
            file,
            rt,
            tally,
            began: None,
            syncs: 0,
        }
    }
}

impl<'r, 't, T: Clock> Timed<'r, 't, T> {
    // A write begins a commit, if none is under way.
    fn begin(&mut self) {
        if self.tally.is_some() && self.began.is_none() {
            self.began = Instant::now(self.rt).ok();
            self.syncs = 0;
        }
    }

    // A sync ends it, if it is its last.
    fn end(&mut self) {
        self.syncs = self.syncs.saturating_add(1);
        let (Some(tally), Some(began)) = (self.tally, self.began) else {
            return;
        };
        if self.syncs >= SYNCS {
            if let Ok(took) = began.elapsed(self.rt) {
                tally.committed(took);
            }
            self.began = None;
        }
    }
}

impl<'r, 't, T: Clock> Calls for Timed<'r, 't, T> {
    fn write(&mut self, at: u64, bytes: &[u8]) -> io::Result<()> {
        self.begin();
        self.file.write(at, bytes)
    }

    fn sync(&mut self) -> io::Result<()> {
        self.file.sync()?;
        self.end();
        Ok(())
    }

    fn replace(&mut self, front: &[u8], rest: &[u8]) -> io::Result<()> {
        self.file.replace(front, rest)
    }
}
