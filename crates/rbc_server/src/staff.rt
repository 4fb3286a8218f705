//! Those who serve clients.

ghost use Rattle.std.specs.Prelude.{◌≡◌, ◌+◌, ◌≤◌, map, take, drop, IfOk, vec_len};

use rbc_sessions::{DeskName, Seat, Sitting};
use std::alloc::{AllocError, Global};

/// Those who serve clients at a desk: each connection has a seat with its committer, and each worker of the sweep behind them a
/// seat.
#[derive(Drop)]
pub struct Staff<L: DeskName, Q> {
    /// For each connection.
    pub sittings: Vec<Sitting<L, Q>>,
    /// For each worker.
    pub workers: Vec<Seat<L>>,
}

impl<L: DeskName, Q: Drop> Staff<L, Q> {
    /// The first of the seats, in order, with the committers, in order, for connections; the other seats for workers.
    ///
    /// # Errors
    ///
    /// The allocator refuses memory.
    pub fn new(
        alloc: Global,
        mut seats: Vec<Seat<L>>,
        committers: Vec<Q>,
    ) -> Result<Staff<L, Q>, AllocError>
        requires { vec_len committers ≤ vec_len seats }
        ensures seats { IfOk result (λ staff.
            map (λ sitting. sitting.seat) staff.sittings.items ≡ take (vec_len committers) seats.items) }
        ensures committers { IfOk result (λ staff. map (λ sitting. sitting.committer) staff.sittings.items ≡ committers.items) }
        ensures workers { IfOk result (λ staff. staff.workers.items ≡ drop (vec_len committers) seats.items) }
        ensures connections { IfOk result (λ staff. vec_len staff.sittings ≡ vec_len committers) }
        ensures others { IfOk result (λ staff. vec_len committers + vec_len staff.workers ≡ vec_len seats) }
    {
        let mut sittings = Vec::with_capacity(alloc, committers.len())?;
        let workers = seats.split_off(committers.len())?;
        let mut committers = committers.into_iter();
        for seat in seats {
            if let Some(committer) = committers.next() {
                sittings.push_reserved(Sitting::new(seat, committer));
            }
        }
        Ok(Staff { sittings, workers })
    }
}

/// This number of committers that keep nothing.
///
/// # Errors
///
/// The allocator refuses memory.
pub fn no_committers(alloc: Global, count: usize) -> Result<Vec<()>, AllocError>
    ensures { IfOk result (λ committers. vec_len committers ≡ count) }
{
    let mut committers = Vec::with_capacity(alloc, count)?;
    for _ in 0..count {
        committers.push_reserved(());
    }
    Ok(committers)
}
