//! A worker, who serves trains from a seat.

ghost use Rattle.std.specs.Prelude.{◌≡◌, ◌<◌, ◌≤◌, ◌++◌, [], vec_capacity};
ghost use Rattle.crossbeam_queue.specs.Passes.{IsPassOf};
ghost use Rattle.rbc_sweep.specs.Jobs.{all_parts, IsSettled};
ghost use Rattle.rbc_desk.specs.Later.{IsLater};
ghost use Rattle.rbc_sweep.specs.Outcomes.{IsTold, receipts_of};
ghost use Rattle.rbc_sweep.specs.Serving.{HasServed, tally_of};

use crate::jobs::{JobPass, Queue, take};
use crate::order::Done;
use crate::post::Post;
use crate::{Answer, Outcome};
use rbc_desk::{DeskName, Gate, Seat};
use rbc_model::TrainId;
use std::sync::Wait;
use std::thread::Threads;

/// A worker's seat, its pass of the queue, and what it has done.
#[derive(Drop)]
pub(crate) struct Worker<L: DeskName> {
    pub(crate) seat: Seat<L>,
    pub(crate) pass: JobPass,
    pub(crate) done: Vec<Done>,
}

impl<'a, L: DeskName, R: Threads + Wait + Sync, G: Gate> Post<'a, L, R, G> {
    /// Asks for the train at the desk.
    fn outcome(&self, seat: &mut Seat<L>, train: TrainId) -> Outcome
        ensures train { result.train ≡ train }
        ensures receipts { seat.new.receipts ≡ seat.old.receipts ++ receipts_of result.answer }
        ensures later { IsLater seat.old.told seat.new.told }
        ensures told { IsTold seat.old seat.new result }
    {
        let asked = self.desk.ask(self.rt, self.alloc, seat, train, self.gate);
        let answer = Answer::of(asked);
        Outcome { train, answer }
    }

    /// Serves trains until none waits.
    pub(crate) fn serve(&self, queue: &Queue, worker: &mut Worker<L>)
        requires pass { IsPassOf queue.now worker.old.pass }
        requires part { 0 < (tally_of worker.old.pass).parts }
        requires empty { worker.old.done.items ≡ [] }
        ensures pass { IsPassOf queue.now worker.new.pass }
        ensures served { HasServed (tally_of worker.old.pass) worker.old.seat (tally_of worker.new.pass)
            worker.new.seat worker.new.done.items }
        ensures settled { (tally_of worker.old.pass).parts ≡ all_parts → IsSettled (tally_of worker.new.pass) }
        ensures room { vec_capacity worker.old.done ≤ vec_capacity worker.new.done }
    {
        let Worker { seat, pass, done } = worker;
        for _ in self.rt.forever() {
            // The list was made with room for all trains, and each is taken once. So nothing has to grow here, memory is never
            // refused, and no worker goes round for ever.
            if done.reserve(1).is_err() {
                continue;
            }
            let Some(job) = take(self.rt, queue, pass) else {
                return;
            };
            let outcome = self.outcome(seat, job.train);
            done.push_reserved(Done {
                place: job.place,
                outcome,
            });
        }
        unreachable!()
    }
}
