//! The queue of the trains that are to be served. Who uses it has a pass, which knows what was put and taken with it.

ghost use Rattle.std.specs.Prelude.{◌≡◌, ◌+◌, ◌-◌, ◌<◌, ◌≤◌, ◌++◌, ◌∷◌, [], length, IfNone, IfOk, IfSome};
ghost use Rattle.crossbeam_queue.specs.Passes.{view, IsPassOf, ruled_capacity};
ghost use Rattle.rbc_sweep.specs.Jobs.{all_parts, tally, numbered, IsSettled};

use crossbeam_queue::protocol::{Join, Lesson, Outcome, Protocol, Split};
use crossbeam_queue::{Pass, RuledArrayQueue};
use rbc_model::{Memory, TrainId};
use std::alloc::Global;
use std::collections::LinkedList;
use std::sync::Wait;

/// A train that is to be served, and its place in the list.
#[derive(Clone, Copy)]
pub(crate) struct Job {
    pub(crate) place: usize,
    pub(crate) train: TrainId,
}

/// What was put and taken with a pass, and its parts of the right to know the whole. No value of it is made.
pub(crate) struct Tally {
    pub(crate) parts: u128,
    pub(crate) put: LinkedList<Job>,
    pub(crate) taken: LinkedList<Job>,
}

/// What is put is taken or waits, each as often as it was put.
pub(crate) struct Balanced;

impl Protocol<Job, Tally> for Balanced {
    ghost use Rattle.std.specs.Prelude.{[]};
    ghost use Rattle.rbc_sweep.specs.Jobs.{all_parts, tally, IsBalanced};

    ghost holds = { IsBalanced };

    ghost first = { tally all_parts [] [] };
}

/// A pass is made of one part of another, and gives it back.
struct Parts;

impl Split<Tally> for Parts {
    ghost use Rattle.std.specs.Prelude.{◌-◌, []};
    ghost use Rattle.rbc_sweep.specs.Jobs.{tally};

    ghost left = { λ v. tally (v.parts - 1) v.put v.taken };

    ghost right = { λ v. tally 1 [] [] };
}

impl Join<Tally> for Parts {
    ghost use Rattle.std.specs.Prelude.{◌+◌, ◌++◌, []};
    ghost use Rattle.rbc_sweep.specs.Jobs.{tally};

    ghost both = { λ v w. tally (v.parts + w.parts) (v.put ++ w.put) (v.taken ++ w.taken) };

    ghost spent = { tally 0 [] [] };
}

/// A job is put.
struct Puts;

impl Outcome<Job, Tally> for Puts {
    ghost use Rattle.std.specs.Prelude.{◌≡◌, ◌++◌, ◌∷◌, []};
    ghost use Rattle.rbc_sweep.specs.Jobs.{tally};

    ghost then = { λ v job w. w ≡ tally v.parts (v.put ++ job ∷ []) v.taken };
}

impl Lesson<Job, Tally> for Puts {
    ghost use Rattle.rbc_sweep.specs.Jobs.{Knows};

    ghost fact = { Knows };
}

/// A job is taken.
struct Takes;

impl Outcome<Job, Tally> for Takes {
    ghost use Rattle.std.specs.Prelude.{◌≡◌, ◌++◌, ◌∷◌, []};
    ghost use Rattle.rbc_sweep.specs.Jobs.{tally};

    ghost then = { λ v job w. w ≡ tally v.parts v.put (v.taken ++ job ∷ []) };
}

impl Lesson<Job, Tally> for Takes {
    ghost use Rattle.rbc_sweep.specs.Jobs.{Knows};

    ghost fact = { Knows };
}

pub(crate) type Queue = RuledArrayQueue<Job, Tally, Balanced>;

pub(crate) type JobPass = Pass<Job, Tally>;

/// A queue with room for this number of jobs, and its pass with all parts.
pub(crate) fn queue_for(alloc: Global, count: usize) -> Result<(Queue, JobPass), Memory>
    requires { 0 < count }
    ensures room { IfOk result (λ made. ruled_capacity made.0 ≡ count) }
    ensures pass { IfOk result (λ made. IsPassOf made.0 made.1) }
    ensures none { IfOk result (λ made. view made.1 ≡ tally all_parts [] []) }
{
    Ok(Queue::ruled(alloc, count)?)
}

/// A pass of the queue, made of one part of this one.
pub(crate) fn part_of(queue: &Queue, pass: &mut JobPass) -> JobPass
    requires pass { IsPassOf queue.now pass.old }
    requires parts { 1 < (view pass.old).parts }
    ensures pass { IsPassOf queue.now pass.new }
    ensures part { IsPassOf queue.now result }
    ensures left { view pass.new ≡ tally ((view pass.old).parts - 1) (view pass.old).put (view pass.old).taken }
    ensures right { view result ≡ tally 1 [] [] }
{
    queue.another::<Parts>(pass)
}

/// Puts what another pass knows to what this one knows.
pub(crate) fn join(queue: &Queue, pass: &mut JobPass, other: JobPass)
    requires pass { IsPassOf queue.now pass.old }
    requires other { IsPassOf queue.now other }
    ensures pass { IsPassOf queue.now pass.new }
    ensures joined { view pass.new ≡ tally ((view pass.old).parts + (view other).parts)
        ((view pass.old).put ++ (view other).put) ((view pass.old).taken ++ (view other).taken) }
{
    queue.absorb::<Parts>(pass, other);
}

/// Takes a job, if one waits.
pub(crate) fn take<R: Wait>(rt: &R, queue: &Queue, pass: &mut JobPass) -> Option<Job>
    requires pass { IsPassOf queue.now pass.old }
    requires parts { 0 < (view pass.old).parts }
    ensures pass { IsPassOf queue.now pass.new }
    ensures taken { IfSome result (λ job. view pass.new
        ≡ tally (view pass.old).parts (view pass.old).put ((view pass.old).taken ++ job ∷ [])) }
    ensures none { IfNone result (view pass.new ≡ view pass.old) }
    ensures settled { (view pass.old).parts ≡ all_parts → IfNone result (IsSettled (view pass.old)) }
{
    queue.pop_as::<Takes, R>(rt, pass)
}

/// Puts a job, where there is room for it.
fn put<R: Wait>(rt: &R, queue: &Queue, pass: &mut JobPass, job: Job)
    requires pass { IsPassOf queue.now pass.old }
    requires all { (view pass.old).parts ≡ all_parts }
    requires none { (view pass.old).taken ≡ [] }
    requires room { length (view pass.old).put < ruled_capacity queue.now }
    ensures pass { IsPassOf queue.now pass.new }
    ensures put { view pass.new ≡ tally all_parts ((view pass.old).put ++ job ∷ []) [] }
{
    match queue.push_as::<Puts, R>(rt, pass, job) {
        Ok(()) => {}
        Err(_) => unreachable!(),
    }
}

/// Puts all trains, in their order.
pub(crate) fn put_all<R: Wait>(rt: &R, queue: &Queue, pass: &mut JobPass, trains: &[TrainId])
    requires pass { IsPassOf queue.now pass.old }
    requires none { view pass.old ≡ tally all_parts [] [] }
    requires room { length trains.now ≤ ruled_capacity queue.now }
    ensures pass { IsPassOf queue.now pass.new }
    ensures all { view pass.new ≡ tally all_parts (numbered 0 trains.now) [] }
{
    for (place, train) in trains.iter().enumerate() {
        let job = Job {
            place,
            train: *train,
        };
        put(rt, queue, pass, job);
    }
}
