//! The sweep.

ghost use Rattle.std.specs.Prelude.{◌≡◌, ◌<◌, ◌≤◌, ◌++◌, [], All, IfOk, IsPermutation, OnErr, length, map, vec_len};
ghost use Rattle.std.specs.List.{AllZip};
ghost use Rattle.rbc_desk.specs.Closing.{all_receipts};
ghost use Rattle.rbc_sweep.specs.Outcomes.{AreFirst, AreTrainsOfFirst, IsToldToOne, granted, receipts_each, train_of};
ghost use Rattle.rbc_sweep.specs.Serving.{HaveGained};

use crate::Outcome;
use crate::jobs::put_all;
use crate::order::{in_order, put_together};
use crate::post::Post;
use crate::room::{Room, room_for};
use rbc_desk::{Desk, DeskName, Gate, Seat};
use rbc_model::{Memory, TrainId};
use std::alloc::Global;
use std::sync::Wait;
use std::thread::Threads;

impl<'a, L: DeskName + Send + Sync, R: Threads + Wait + Sync, G: Gate + Sync> Post<'a, L, R, G> {
    /// Serves the trains of the list, for which there is room.
    fn serve_list(
        &self,
        seats: Vec<Seat<L>>,
        trains: &[TrainId],
        room: Room<L>,
    ) -> (Vec<Seat<L>>, Vec<Outcome>)
        requires some { 0 < vec_len seats }
        requires seats { room.crew.seat_count ≡ vec_len seats }
        requires trains { room.train_count ≡ length trains.now }
        ensures gained { HaveGained seats.items result.0.items (granted result.1.items) }
        ensures trains { map train_of result.1.items ≡ trains.now }
        ensures told { All (IsToldToOne seats.items result.0.items) result.1.items }
    {
        let Room {
            queue,
            mut pass,
            crew,
            done,
            outcomes,
            ..
        } = room;
        put_all(self.rt, &queue, &mut pass, trains);
        let (seats, others) = self.work(&queue, &mut pass, seats, crew);
        let (seats, done) = self.finish(&queue, pass, seats, done);
        let done = put_together(done, others);
        (seats, in_order(done, outcomes))
    }

    /// Serves each train of the list once.
    fn sweep_list(
        &self,
        seats: Vec<Seat<L>>,
        trains: &[TrainId],
    ) -> (Vec<Seat<L>>, Result<Vec<Outcome>, Memory>)
        requires some { 0 < vec_len seats }
        ensures gained { IfOk result.1 (λ outcomes. HaveGained seats.items result.0.items (granted outcomes.items)) }
        ensures trains { IfOk result.1 (λ outcomes. map train_of outcomes.items ≡ trains.now) }
        ensures told { IfOk result.1 (λ outcomes. All (IsToldToOne seats.items result.0.items) outcomes.items) }
        ensures refused { OnErr result.1 (result.0.items ≡ seats.items) }
    {
        if trains.is_empty() {
            return (seats, Ok(Vec::new(self.alloc)));
        }
        match room_for(self.alloc, seats.len(), trains.len()) {
            Ok(room) => {
                let (seats, outcomes) = self.serve_list(seats, trains, room);
                (seats, Ok(outcomes))
            }
            Err(fault) => (seats, Err(fault)),
        }
    }
}

/// The numbers of the desk's trains. The first of the seats is told the history that they are of.
fn list_trains<L: DeskName, R: Wait>(
    rt: &R,
    alloc: Global,
    desk: &Desk<L>,
    mut seats: Vec<Seat<L>>,
) -> (Vec<Seat<L>>, Result<Vec<TrainId>, Memory>)
    requires { 0 < vec_len seats }
    ensures gained { HaveGained seats.items result.0.items [] }
    ensures count { vec_len result.0 ≡ vec_len seats }
    ensures receipts { receipts_each result.0.items ≡ receipts_each seats.items }
    ensures trains { IfOk result.1 (λ trains. AreTrainsOfFirst seats.items result.0.items trains.items) }
{
    let first = &mut seats[0];
    let trains = desk.trains(rt, alloc, first);
    (seats, trains)
}

/// Serves each train of the desk's scene once, by one worker for each of the seats, and gives the seats back in their
/// order. The trains are the trains of a history that goes on from what the first seat had been told, and each outcome is
/// that of a history that goes on from what one of the seats had been told. The outcomes stand in the trains' order of
/// arrival.
///
/// # Errors
///
/// [`Memory`], where the allocator refuses room for the list of trains, for the queue or for the outcomes, all of which
/// is made before the first train is served. Then no seat has a new receipt.
pub fn sweep<L: DeskName + Send + Sync, R: Threads + Wait + Sync, G: Gate + Sync>(
    rt: &R,
    alloc: Global,
    desk: &Desk<L>,
    seats: Vec<Seat<L>>,
    gate: &G,
) -> (Vec<Seat<L>>, Result<Vec<Outcome>, Memory>)
    requires { 1 ≤ vec_len seats }
    ensures seats { AllZip AreFirst seats.items result.0.items }
    ensures trains { IfOk result.1 (λ outcomes.
        AreTrainsOfFirst seats.items result.0.items (map train_of outcomes.items)) }
    ensures told { IfOk result.1 (λ outcomes. All (IsToldToOne seats.items result.0.items) outcomes.items) }
    ensures gained { IfOk result.1 (λ outcomes.
        IsPermutation (all_receipts seats.items ++ granted outcomes.items) (all_receipts result.0.items)) }
    ensures refused { OnErr result.1 (receipts_each result.0.items ≡ receipts_each seats.items) }
{
    let (seats, trains) = list_trains(rt, alloc, desk, seats);
    match trains {
        Ok(trains) => {
            let post = Post {
                rt,
                alloc,
                desk,
                gate,
            };
            post.sweep_list(seats, trains.as_slice())
        }
        Err(fault) => (seats, Err(fault)),
    }
}
