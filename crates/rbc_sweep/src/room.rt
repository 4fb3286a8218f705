//! The room that a sweep needs.

ghost use Rattle.std.specs.Prelude.{◌≡◌, ◌<◌, ◌≤◌, [], All, IfOk, vec_capacity, vec_len};
ghost use Rattle.crossbeam_queue.specs.Passes.{IsPassOf, ruled_capacity};
ghost use Rattle.rbc_sweep.specs.Jobs.{all_parts, tally};
ghost use Rattle.rbc_sweep.specs.Serving.{tally_of};

use crate::Outcome;
use crate::jobs::{JobPass, Queue, queue_for};
use crate::order::Done;
use crate::worker::Worker;
use rbc_desk::{DeskName, Seat};
use rbc_model::Memory;
use std::alloc::Global;

/// The room for the workers of a sweep.
#[derive(Drop)]
pub(crate) struct CrewRoom<L: DeskName> {
    /// How many seats it is for.
    pub(crate) seat_count: usize,
    /// For the workers.
    pub(crate) workers: Vec<Worker<L>>,
    /// For the seats, when the workers give them back.
    pub(crate) seats: Vec<Seat<L>>,
    /// A list for each worker, with room for all trains.
    pub(crate) lists: Vec<Vec<Done>>,
    /// For these lists, when the workers give them back.
    pub(crate) filled: Vec<Vec<Done>>,
    pub(crate) ghost no_worker: { workers.items ≡ [] },
    pub(crate) ghost room_for_workers: { seat_count ≤ vec_capacity workers },
    pub(crate) ghost no_seat: { seats.items ≡ [] },
    pub(crate) ghost room_for_seats: { seat_count ≤ vec_capacity seats },
    pub(crate) ghost list_each: { vec_len lists ≡ seat_count },
    pub(crate) ghost empty_lists: { All (λ list. list.items ≡ []) lists.items },
    pub(crate) ghost none_filled: { filled.items ≡ [] },
    pub(crate) ghost room_for_filled: { seat_count ≤ vec_capacity filled },
}

/// The room for a sweep, which is made before a train is served.
#[derive(Drop)]
pub(crate) struct Room<L: DeskName> {
    /// How many trains it is for.
    pub(crate) train_count: usize,
    /// The queue, and its pass with all parts.
    pub(crate) queue: Queue,
    pub(crate) pass: JobPass,
    /// For the workers.
    pub(crate) crew: CrewRoom<L>,
    /// For all that was done.
    pub(crate) done: Vec<Done>,
    /// For all outcomes.
    pub(crate) outcomes: Vec<Outcome>,
    pub(crate) ghost capacity: { ruled_capacity queue ≡ train_count },
    pub(crate) ghost tied: { IsPassOf queue pass },
    pub(crate) ghost none_put: { tally_of pass ≡ tally all_parts [] [] },
    pub(crate) ghost none_done: { done.items ≡ [] },
    pub(crate) ghost room_for_done: { train_count ≤ vec_capacity done },
    pub(crate) ghost no_outcome: { outcomes.items ≡ [] },
    pub(crate) ghost room_for_outcomes: { train_count ≤ vec_capacity outcomes },
}

/// An empty list for each seat, with room for all trains.
fn lists_for(alloc: Global, seats: usize, trains: usize) -> Result<Vec<Vec<Done>>, Memory>
    ensures many { IfOk result (λ lists. vec_len lists ≡ seats) }
    ensures empty { IfOk result (λ lists. All (λ list. list.items ≡ []) lists.items) }
{
    let mut lists = Vec::new(alloc);
    for _seat in 0..seats {
        lists.push(Vec::with_capacity(alloc, trains)?)?;
    }
    Ok(lists)
}

/// The room for this number of seats and of trains.
pub(crate) fn room_for<L: DeskName>(
    alloc: Global,
    seats: usize,
    trains: usize,
) -> Result<Room<L>, Memory>
    requires { 0 < trains }
    ensures seats { IfOk result (λ room. room.crew.seat_count ≡ seats) }
    ensures trains { IfOk result (λ room. room.train_count ≡ trains) }
{
    let (queue, pass) = queue_for(alloc, trains)?;
    let crew = CrewRoom {
        seat_count: seats,
        workers: Vec::with_capacity(alloc, seats)?,
        seats: Vec::with_capacity(alloc, seats)?,
        lists: lists_for(alloc, seats, trains)?,
        filled: Vec::with_capacity(alloc, seats)?,
    };
    Ok(Room {
        train_count: trains,
        queue,
        pass,
        crew,
        done: Vec::with_capacity(alloc, trains)?,
        outcomes: Vec::with_capacity(alloc, trains)?,
    })
}
