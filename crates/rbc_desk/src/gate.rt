//! What is computed for a train that asks, outside the lock.

ghost use Rattle.std.specs.Prelude.{◌≡◌, IfOk};
ghost use Rattle.std.specs.Thread.{IsSync};

use rbc_model::Memory;
use rbc_snap::{Candidate, View, candidate};
use std::alloc::Global;
use std::thread::Threads;

/// Makes the candidate for what a train was shown. A gate is passed without the lock, so that other seats go on
/// meanwhile.
pub trait Gate {
    /// The candidate for the view, which is that of the history's first `version` entries.
    ///
    /// # Errors
    ///
    /// [`Memory`], where there is none for the candidate.
    fn pass<R: Threads + Sync>(
        &self,
        rt: &R,
        alloc: Global,
        view: View,
        version: u64,
    ) -> Result<Candidate, Memory>
        requires { IsSync R.row }
        ensures view { IfOk result (λ c. c.view ≡ view) }
        ensures version { IfOk result (λ c. c.version ≡ version) };
}

/// The gate that computes, and does nothing else.
#[derive(Clone, Copy, Debug)]
pub struct OpenGate;

impl Gate for OpenGate {
    fn pass<R: Threads + Sync>(
        &self,
        rt: &R,
        alloc: Global,
        view: View,
        version: u64,
    ) -> Result<Candidate, Memory> {
        candidate(rt, alloc, view, version)
    }
}
