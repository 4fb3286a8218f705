//! The reductions of a view's speeds and gradients.

ghost use Rattle.std.specs.Prelude.{IfOk};
ghost use Rattle.rbc_grant.specs.Reductions.{ReducesSpeeds, ReducesGrades};

use rbc_model::Memory;
use rbc_reach::View;
use rbc_reduce::{Reduced, reduce};
use rbc_steps::{Grade, Speed};
use std::alloc::Global;
use std::thread;
use std::thread::Threads;

/// A thread takes some 50 microseconds to begin; a reduction of as many runs, some half a millisecond.
const MANY_RUNS: usize = 400;

/// As many runs are reduced in threads already, each of both tables in all of them.
const MOST_RUNS: usize = 2_048;

/// The chosen profile of the speeds that a view shows.
fn reduced_speeds(
    rt: &(impl Threads + Sync),
    alloc: Global,
    view: &View,
) -> Result<Reduced<Speed>, Memory>
    ensures { IfOk result (λ r. ReducesSpeeds view.now r.profile r.loss r.prices.items) }
{
    view.known();
    let reduced = reduce(rt, alloc, view.speeds(), view.speed_steps())?;
    Ok(reduced)
}

/// The chosen profile of the gradients that a view shows.
fn reduced_grades(
    rt: &(impl Threads + Sync),
    alloc: Global,
    view: &View,
) -> Result<Reduced<Grade>, Memory>
    ensures { IfOk result (λ r. ReducesGrades view.now r.profile r.loss r.prices.items) }
{
    view.known();
    let reduced = reduce(rt, alloc, view.grades(), view.grade_steps())?;
    Ok(reduced)
}

/// Both chosen profiles for a view, side by side in two threads where its speeds and its gradients have many runs, but not
/// so many that each is computed in threads.
pub(crate) fn reduced(
    rt: &(impl Threads + Sync),
    alloc: Global,
    view: &View,
) -> (
    Result<Reduced<Speed>, Memory>,
    Result<Reduced<Grade>, Memory>,
)
    ensures speeds { IfOk result.0 (λ r. ReducesSpeeds view.now r.profile r.loss r.prices.items) }
    ensures grades { IfOk result.1 (λ r. ReducesGrades view.now r.profile r.loss r.prices.items) }
{
    let runs = view.speeds().runs().len().min(view.grades().runs().len());
    if runs < MANY_RUNS || MOST_RUNS <= runs {
        return (
            reduced_speeds(rt, alloc, view),
            reduced_grades(rt, alloc, view),
        );
    }
    thread::join(
        rt,
        || -> Result<Reduced<Speed>, Memory>
            ensures { IfOk result (λ r. ReducesSpeeds view.entry.now r.profile r.loss r.prices.items) }
        { reduced_speeds(rt, alloc, view) },
        || -> Result<Reduced<Grade>, Memory>
            ensures { IfOk result (λ r. ReducesGrades view.entry.now r.profile r.loss r.prices.items) }
        { reduced_grades(rt, alloc, view) },
    )
}
