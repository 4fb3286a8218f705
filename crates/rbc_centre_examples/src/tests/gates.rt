//! Gates that do more than compute.

ghost use Rattle.std.specs.Prelude.{◌≡◌};

use super::telling::tell;
use rbc_model::Memory;
use rbc_sweep::{Candidate, Desk, DeskName, Gate, Seat, View, candidate};
use rbc_track::Track;
use std::alloc::Global;
use std::process::Abort;
use std::sync::atomic::{AtomicU64, Ordering};
use std::sync::{Mutex, Wait};
use std::thread;
use std::thread::Threads;

/// How often it is looked whether a thread may go on, before it gives up.
const MOST_TURNS: u32 = 1_000_000;

/// Waits until another thread has counted there.
pub(super) fn wait_for(rt: &impl Abort, count: &AtomicU64) {
    for _turn in 0..MOST_TURNS {
        if count.load(Ordering::SeqCst) != 0 {
            return;
        }
        thread::yield_now();
    }
    panic!(rt; "the other thread did not come so far")
}

/// A gate that waits until a seat was answered.
#[derive(Drop)]
pub(super) struct Waits<'a, A> {
    pub(super) rt: &'a A,
    pub(super) answered: &'a AtomicU64,
}

impl<'a, A: Abort> Gate for Waits<'a, A> {
    fn pass<R: Threads + Sync>(
        &self,
        rt: &R,
        alloc: Global,
        view: View,
        version: u64,
    ) -> Result<Candidate, Memory> {
        wait_for(self.rt, self.answered);
        candidate(rt, alloc, view, version)
    }
}

/// A gate at which another seat tells the next of some lines each time that it is passed, as long as there are some.
#[derive(Drop)]
pub(super) struct Tells<'a, L: DeskName, A> {
    pub(super) rt: &'a A,
    pub(super) track: &'a Track,
    pub(super) desk: &'a Desk<L>,
    pub(super) seat: &'a Mutex<Seat<L>>,
    pub(super) lines: &'a [&'a str],
    pub(super) passes: &'a AtomicU64,
    /// The version at the first pass.
    pub(super) first: u64,
    pub(super) ghost same: { track.now ≡ L.opened.track },
}

impl<'a, L: DeskName, A: Abort + Wait> Tells<'a, L, A> {
    /// The other seat tells this line, and is not refused.
    fn tell(&self, alloc: Global, line: &str) {
        let mut seat = self.seat.lock(self.rt);
        let told = tell(self.rt, alloc, self.desk, self.track, &mut *seat, line);
        assert!(self.rt; told.is_ok());
    }
}

impl<'a, L: DeskName, A: Abort + Wait> Gate for Tells<'a, L, A> {
    fn pass<R: Threads + Sync>(
        &self,
        rt: &R,
        alloc: Global,
        view: View,
        version: u64,
    ) -> Result<Candidate, Memory> {
        let pass = self.passes.fetch_add(1, Ordering::SeqCst);
        assert!(self.rt; version.checked_sub(self.first) == Some(pass));
        if let Some(line) = self.lines.get(pass as usize) {
            self.tell(alloc, line);
        }
        candidate(rt, alloc, view, version)
    }
}

/// A gate at which the first train waits for the second, and the second for the first.
#[derive(Drop)]
pub(super) struct Meets<'a, A> {
    pub(super) rt: &'a A,
    /// How often the first train passed.
    pub(super) first: &'a AtomicU64,
    /// How often any other passed.
    pub(super) second: &'a AtomicU64,
}

impl<'a, A: Abort> Gate for Meets<'a, A> {
    fn pass<R: Threads + Sync>(
        &self,
        rt: &R,
        alloc: Global,
        view: View,
        version: u64,
    ) -> Result<Candidate, Memory> {
        let (own, other) = match view.train().number() {
            1 => (self.first, self.second),
            _ => (self.second, self.first),
        };
        own.fetch_add(1, Ordering::SeqCst);
        wait_for(self.rt, other);
        candidate(rt, alloc, view, version)
    }
}

/// A gate that keeps how often it was passed, and with which version last.
#[derive(Drop)]
pub(super) struct Passes {
    pub(super) count: AtomicU64,
    pub(super) version: AtomicU64,
}

impl Gate for Passes {
    fn pass<R: Threads + Sync>(
        &self,
        rt: &R,
        alloc: Global,
        view: View,
        version: u64,
    ) -> Result<Candidate, Memory> {
        self.version.store(version, Ordering::SeqCst);
        self.count.fetch_add(1, Ordering::SeqCst);
        candidate(rt, alloc, view, version)
    }
}

/// A gate that finds no memory.
#[derive(Clone, Copy, Drop)]
pub(super) struct Refuses;

impl Gate for Refuses {
    fn pass<R: Threads + Sync>(
        &self,
        _rt: &R,
        _alloc: Global,
        _view: View,
        _version: u64,
    ) -> Result<Candidate, Memory> {
        Err(Memory)
    }
}
