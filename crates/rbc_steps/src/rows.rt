//! Rows of (start, level), which tracks and profiles are made of.
ghost use Rattle.std.specs.Prelude.{ℕ, ◌≡◌, ◌<◌, ◌≤◌, ◌+◌, ◌*◌, ◌^◌, nat_lt, ◌++◌, length, map, neg_ℤ, slice_index_or, Some, true, IsTrue, IfOk, OnErr, is_ok, if◌then◌else◌};
ghost use Rattle.std.specs.List.{list_all};
ghost use Rattle.rbc_model.specs.Levels.{is_same, IsAtMost};
ghost use Rattle.rbc_model.specs.Profiles.{starts_of, rises_from_zero, are_inside, joined_steps, value_at, is_within, loss, IsStepList};
ghost use Rattle.rbc_model.specs.declared.limits.TheConstants.{LONGEST_TRACK, MOST_PRICE};
ghost use Rattle.rbc_steps.specs.Mirrored.{mirrored};

use crate::{Grade, Level};
use rbc_model::Memory;
use rbc_model::limits::LONGEST_TRACK;
use std::alloc::Global;

/// Whether the starts rise from 0. Each value is in range, and the caller learns it here.
pub(crate) fn rise_from_zero<V: Level>(rows: &[(u32, V)]) -> bool
    ensures rise { result ≡ rises_from_zero (starts_of rows.now) }
    ensures in_range { IsTrue result → IsTrue (list_all (λ row. V.levels.in_range row.1) rows.now) }
{
    let [first, later @ ..] = rows else {
        return false;
    };
    first.1.known();
    let mut before = 0;
    for row in later {
        row.1.known();
        if row.0 <= before {
            return false;
        }
        before = row.0;
    }
    first.0 == 0
}

/// Whether the starts lie below the end, and the end is not too far.
pub(crate) fn lie_below<V: Level>(rows: &[(u32, V)], end: u32) -> bool
    ensures { result ≡ are_inside end (starts_of rows.now) }
{
    end <= LONGEST_TRACK && start_below(rows, end)
}

/// Whether each start lies below the end.
fn start_below<V: Level>(rows: &[(u32, V)], end: u32) -> bool
    ensures { result ≡ list_all (λ row. nat_lt row.0 end) rows.now }
{
    rows.iter().all(|row| row.0 < end)
}

/// Whether the two values are one.
pub(crate) fn same<V: Level>(a: V, b: V) -> bool
    ensures same { result ≡ is_same V.levels a b }
    ensures alike { a ≡ b → result ≡ true }
{
    a.known();
    b.known();
    a == b
}

/// Leaves out each row with the value of the one before it.
pub(crate) fn join<V: Level>(rows: &mut Vec<(u32, V)>)
    ensures { rows.new.items ≡ joined_steps V.levels rows.old.items }
{
    rows.dedup_by(|next, kept| same(next.1, kept.1));
}

/// Whether the radio message can express each value.
pub(crate) fn expressible<V: Level>(rows: &[(u32, V)]) -> bool
    ensures { result ≡ list_all (λ row. V.levels.is_expressible row.1) rows.now }
{
    rows.iter().all(|row| row.1.expressible())
}

/// The value at a metre: that of the last row that starts at or before it.
pub(crate) fn at<V: Level>(rows: &[(u32, V)], x: u32) -> V
    requires { IsTrue (rises_from_zero (starts_of rows.now)) }
    ensures { value_at rows.now x ≡ Some result }
{
    let begun = rows.partition_point(|row| row.0 <= x);
    rows[begun - 1].1
}

/// The metre at which the row of this index stops: where the next one starts, or the end.
pub(crate) fn stop<V: Level>(rows: &[(u32, V)], index: usize, end: u32) -> u32
    requires index { index < length rows.now }
    requires listed { IsStepList end rows.now }
    ensures before_end { result ≤ end }
    ensures next { (d : ℕ × V) → index + 1 < length rows.now → result ≡ (slice_index_or rows.now (index + 1) d).0 }
    ensures last { length rows.now ≤ index + 1 → result ≡ end }
{
    match rows.get(index + 1) {
        Some(next) => next.0,
        None => end,
    }
}

/// What is lost on a number of metres of one level where a level that is no higher is given.
fn loss_over<V: Level>(metres: u32, track: V, given: V) -> u64
    requires within_limit { metres ≤ LONGEST_TRACK }
    requires below { IsAtMost V.levels given track }
    ensures loss { result ≡ metres * V.levels.price track given }
    ensures bound { result ≤ metres * MOST_PRICE }
{
    track.known();
    given.known();
    u64::from(metres) * track.price(given)
}

/// What is lost up to the end where the steps, which are nowhere above the runs, are given for them. It goes from
/// change to change.
pub(crate) fn loss<V: Level>(runs: &[(u32, V)], steps: &[(u32, V)], end: u32) -> u64
    requires within_limit { end ≤ LONGEST_TRACK }
    requires runs { IsStepList end runs.now }
    requires steps { IsStepList end steps.now }
    requires below { (x : ℕ) → x < end → IsTrue (is_within V.levels (value_at runs.now x) (value_at steps.now x)) }
    ensures { result ≡ loss V.levels end (value_at runs.now) steps.now }
{
    let mut sum = 0;
    let mut run = 0;
    let mut step = 0;
    let mut from = 0;
    while from < end {
        let run_stop = stop(runs, run, end);
        let step_stop = stop(steps, step, end);
        let to = run_stop.min(step_stop);
        sum += loss_over(to - from, runs[run].1, steps[step].1);
        run += usize::from(run_stop == to);
        step += usize::from(step_stop == to);
        from = to;
    }
    sum
}

/// Puts rows behind, each start moved on by a number of metres. Where memory is refused the rows stay as they are.
pub(crate) fn extend_moved<V: Level>(
    rows: &mut Vec<(u32, V)>,
    later: &[(u32, V)],
    by: u32,
) -> Result<(), Memory>
    requires { (k : ℕ) (d : ℕ × V) → k < length later.now → (slice_index_or later.now k d).0 + by < 2 ^ 32 }
    ensures rows { rows.new.items
        ≡ (if is_ok result then rows.old.items ++ map (λ row. (row.0 + by, row.1)) later.now else rows.old.items) }
    ensures memory { OnErr result (0 < length later.now) }
{
    rows.reserve(later.len())?;
    for row in later {
        rows.push((row.0 + by, row.1))?;
    }
    Ok(())
}

/// The rows run the other way: each starts where it stopped, counted from the end.
pub(crate) fn reversed<V: Level>(
    alloc: Global,
    rows: &[(u32, V)],
    end: u32,
) -> Result<Vec<(u32, V)>, Memory>
    requires { IsStepList end rows.now }
    ensures { IfOk result (λ back. back.items ≡ mirrored end rows.now) }
{
    let mut back = Vec::with_capacity(alloc, rows.len())?;
    for index in (0..rows.len()).rev() {
        back.push((end - stop(rows, index, end), rows[index].1))?;
    }
    Ok(back)
}

/// The rows with each gradient negated.
pub(crate) fn negated(alloc: Global, rows: &[(u32, Grade)]) -> Result<Vec<(u32, Grade)>, Memory>
    ensures { IfOk result (λ v. v.items ≡ map (λ run. (run.0, neg_ℤ run.1)) rows.now) }
{
    Ok(
        rows.iter()
            .map(|row| (row.0, row.1.negated()))
            .collect(alloc)?,
    )
}
