//! Whether a profile stays at or below its track.
ghost use Rattle.std.specs.Prelude.{◌≡◌, ℕ, ◌+◌, ◌<◌, ◌≤◌, length, slice_index_or, OnOk};
ghost use Rattle.rbc_model.specs.Profiles.{IsStepList};
ghost use Rattle.rbc_model.specs.PriceChecks.{first_above, unless_some};
ghost use Rattle.rbc_price.specs.Metres.{AreWithin, IsFirstAbove};

use rbc_costs::is_at_most;
use rbc_model::Reason;
use rbc_steps::{Level, Profile, Runs};

/// The metre at which the row of this index stops: where the next one starts, or the end.
pub(crate) fn stop<V: Level>(rows: &[(u32, V)], index: usize, end: u32) -> u32
    requires index { index < length rows.now }
    requires listed { IsStepList end rows.now }
    ensures before_end { result ≤ end }
    ensures next { (d : ℕ × V) → index + 1 < length rows.now → result ≡ (slice_index_or rows.now (index + 1) d).0 }
    ensures last { length rows.now ≤ index + 1 → result ≡ end }
{
    match rows.get(index + 1) {
        Some(next) => next.0,
        None => end,
    }
}

/// The first metre at which the steps are above the runs. It goes from change to change.
fn first_above<V: Level>(runs: &[(u32, V)], steps: &[(u32, V)], end: u32) -> Option<u32>
    requires runs { IsStepList end runs.now }
    requires steps { IsStepList end steps.now }
    ensures { IsFirstAbove V.levels runs.now steps.now end result }
{
    let mut run = 0;
    let mut step = 0;
    let mut from = 0;
    while from < end {
        if !is_at_most(steps[step].1, runs[run].1) {
            return Some(from);
        }
        let run_stop = stop(runs, run, end);
        let step_stop = stop(steps, step, end);
        let to = run_stop.min(step_stop);
        run += usize::from(run_stop == to);
        step += usize::from(step_stop == to);
        from = to;
    }
    None
}

/// A refusal at the first metre at which the profile is above the track.
pub(crate) fn stays_below<V: Level>(track: &Runs<V>, profile: &Profile<V>) -> Result<(), Reason>
    requires { track.now.end ≡ profile.now.end }
    ensures above { result ≡ unless_some (first_above V.levels track.now profile.now) }
    ensures below { OnOk result (AreWithin V.levels track.now.steps profile.now.steps track.now.end) }
{
    track.known();
    profile.known();
    match first_above(track.runs(), profile.steps(), track.end()) {
        Some(metre) => Err(Reason::Above(metre)),
        None => Ok(()),
    }
}
