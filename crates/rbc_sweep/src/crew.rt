//! The workers of a sweep, one for each seat.

ghost use Rattle.std.specs.Prelude.{◌≡◌, ℕ, ◌-◌, ◌<◌, ◌≤◌, ◌++◌, [], All, fold};
ghost use Rattle.std.specs.Prelude.{length, map, slice_index_or, vec_capacity, vec_len};
ghost use Rattle.std.specs.List.{AllZip};
ghost use Rattle.crossbeam_queue.specs.Passes.{IsPassOf};
ghost use Rattle.rbc_sweep.specs.Jobs.{all_parts, tally, AreSameJobs};
ghost use Rattle.rbc_sweep.specs.declared.worker.Worker.{Worker};
ghost use Rattle.rbc_sweep.specs.Outcomes.{IsToldToOne};
ghost use Rattle.rbc_sweep.specs.Serving.{HasServed, HaveGained, HaveWorked, all_of, joined, jobs, receipts_in, tally_of};

use crate::jobs::{JobPass, Queue, join, part_of};
use crate::order::Done;
use crate::post::Post;
use crate::room::CrewRoom;
use crate::worker::Worker;
use rbc_desk::{DeskName, Gate, Seat};
use std::sync::Wait;
use std::thread::{Threads, for_each_mut};

/// A worker for each seat, with a part of the pass and a list for what it does.
fn hire<L: DeskName>(
    queue: &Queue,
    pass: &mut JobPass,
    seats: Vec<Seat<L>>,
    mut lists: Vec<Vec<Done>>,
    mut workers: Vec<Worker<L>>,
) -> Vec<Worker<L>>
    requires pass { IsPassOf queue.now pass.old }
    requires parts { vec_len seats < (tally_of pass.old).parts }
    requires lists { vec_len lists ≡ vec_len seats }
    requires empty { All (λ list. list.items ≡ []) lists.items }
    requires none { workers.items ≡ [] }
    requires room { vec_len seats ≤ vec_capacity workers }
    ensures pass { IsPassOf queue.now pass.new }
    ensures left { tally_of pass.new
        ≡ tally ((tally_of pass.old).parts - vec_len seats) (tally_of pass.old).put (tally_of pass.old).taken }
    ensures seats { map (λ w. w.seat) result.items ≡ seats.items }
    ensures ready { All (λ w. IsPassOf queue.now w.pass × (tally_of w.pass ≡ tally 1 [] []) × (w.done.items ≡ []))
        result.items }
{
    for seat in seats {
        let done = lists.pop().unwrap();
        let pass = part_of(queue, pass);
        workers.push_reserved(Worker { seat, pass, done });
    }
    workers
}

/// The seats of the workers, and what each has done. The pass gets what theirs know.
fn gather<L: DeskName>(
    queue: &Queue,
    pass: &mut JobPass,
    workers: Vec<Worker<L>>,
    mut seats: Vec<Seat<L>>,
    mut lists: Vec<Vec<Done>>,
) -> (Vec<Seat<L>>, Vec<Vec<Done>>)
    requires pass { IsPassOf queue.now pass.old }
    requires passes { All (λ w. IsPassOf queue.now w.pass) workers.items }
    requires none { (seats.items ≡ []) × (lists.items ≡ []) }
    requires room { (vec_len workers ≤ vec_capacity seats) × (vec_len workers ≤ vec_capacity lists) }
    ensures pass { IsPassOf queue.now pass.new }
    ensures joined { tally_of pass.new
        ≡ fold joined (tally_of pass.old) (map (λ w. tally_of w.pass) workers.items) }
    ensures seats { result.0.items ≡ map (λ w. w.seat) workers.items }
    ensures lists { result.1.items ≡ map (λ w. w.done) workers.items }
{
    for worker in workers {
        join(queue, pass, worker.pass);
        seats.push_reserved(worker.seat);
        lists.push_reserved(worker.done);
    }
    (seats, lists)
}

impl<'a, L: DeskName + Send + Sync, R: Threads + Wait + Sync, G: Gate + Sync> Post<'a, L, R, G> {
    /// Lets each worker serve, in a thread of its own where one can be started.
    fn serve_each(&self, queue: &Queue, workers: &mut [Worker<L>])
        requires { All (λ w. IsPassOf queue.now w.pass × (tally_of w.pass ≡ tally 1 [] []) × (w.done.items ≡ []))
            workers.old }
        ensures { (i : ℕ) (d : Worker L) → i < length workers.old → IsPassOf queue.now (slice_index_or workers.new i d).pass
            × HasServed (tally 1 [] []) (slice_index_or workers.old i d).seat
            (tally_of (slice_index_or workers.new i d).pass) (slice_index_or workers.new i d).seat
            (slice_index_or workers.new i d).done.items }
    {
        let threads = workers.len();
        if threads == 0 {
            return;
        }
        for_each_mut(
            self.rt,
            workers,
            threads,
            &|_i: usize, worker: &mut Worker<L>|
                requires { IsPassOf queue.now worker.now.pass × (tally_of worker.now.pass ≡ tally 1 [] [])
                    × (worker.now.done.items ≡ []) }
                ensures { IsPassOf queue.entry.now worker.exit.now.pass
                    × HasServed (tally 1 [] []) worker.entry.now.seat (tally_of worker.exit.now.pass)
                    worker.exit.now.seat worker.exit.now.done.items }
            { self.serve(queue, worker) },
        );
    }

    /// Lets each of these workers, which are owned, serve, in a thread of its own where one can be started.
    fn serve_all(&self, queue: &Queue, mut workers: Vec<Worker<L>>) -> Vec<Worker<L>>
        requires { All (λ w. IsPassOf queue.now w.pass × (tally_of w.pass ≡ tally 1 [] []) × (w.done.items ≡ []))
            workers.items }
        ensures passes { All (λ w. IsPassOf queue.now w.pass) result.items }
        ensures served { AllZip (λ w v. HasServed (tally 1 [] []) w.seat (tally_of v.pass) v.seat v.done.items)
            workers.items result.items }
    {
        self.serve_each(queue, workers.as_mut_slice());
        workers
    }

    /// Lets a worker from each of the seats serve the trains that wait. The seats come back, with what was done from each.
    /// The pass, which has all parts, knows what they know.
    pub(crate) fn work(
        &self,
        queue: &Queue,
        pass: &mut JobPass,
        seats: Vec<Seat<L>>,
        crew_room: CrewRoom<L>,
    ) -> (Vec<Seat<L>>, Vec<Vec<Done>>)
        requires pass { IsPassOf queue.now pass.old }
        requires all { (tally_of pass.old).parts ≡ all_parts }
        requires none { (tally_of pass.old).taken ≡ [] }
        requires room { crew_room.seat_count ≡ vec_len seats }
        ensures pass { IsPassOf queue.now pass.new }
        ensures worked { HaveWorked (tally_of pass.old).put seats.items result.0.items (tally_of pass.new) (all_of result.1.items) }
    {
        let CrewRoom {
            workers,
            seats: back,
            lists,
            filled,
            ..
        } = crew_room;
        let workers = hire(queue, pass, seats, lists, workers);
        let workers = self.serve_all(queue, workers);
        gather(queue, pass, workers, back, filled)
    }

    /// Serves from the last seat what still waits, with a pass that has all parts.
    pub(crate) fn finish(
        &self,
        queue: &Queue,
        pass: JobPass,
        mut seats: Vec<Seat<L>>,
        done: Vec<Done>,
    ) -> (Vec<Seat<L>>, Vec<Done>)
        requires pass { IsPassOf queue.now pass }
        requires all { (tally_of pass).parts ≡ all_parts }
        requires some { 0 < vec_len seats }
        requires empty { done.items ≡ [] }
        ensures gained { HaveGained seats.items result.0.items (receipts_in result.1.items) }
        ensures told { All (λ d. IsToldToOne seats.items result.0.items d.outcome) result.1.items }
        ensures settled { AreSameJobs (tally_of pass).put ((tally_of pass).taken ++ jobs result.1.items) }
        ensures room { vec_capacity done ≤ vec_capacity result.1 }
    {
        let seat = seats.pop().unwrap();
        let mut worker = Worker { seat, pass, done };
        self.serve(queue, &mut worker);
        let Worker { seat, done, .. } = worker;
        seats.push_reserved(seat);
        (seats, done)
    }
}
