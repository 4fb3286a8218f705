//! What one step costs up to the next break, from what it costs up to the one before.
ghost use Rattle.std.specs.Prelude.{◌≡◌, ℕ, ◌+◌, ◌-◌, ◌<◌, ◌≤◌, map, IfOk, OnErr, length, slice_index, vec_capacity};
ghost use Rattle.rbc_model.specs.Scales.{unit_of};
ghost use Rattle.rbc_table_laws.specs.Stretches.{cost_of_step};
ghost use Rattle.rbc_costs.specs.Stretches.{AreCosts, AreLowFrom, AreStretches, IsLowFrom};

use crate::total::Total;
use rbc_model::Memory;
use rbc_steps::{Level, Runs};
use rbc_stretches::{Stretch, is_at_most, price_on};
use std::alloc::Global;

/// The first stretch from which on none is lower than that of the index `stretch`, where `firsts` has it for each before.
fn low_up_to<V: Level>(
    track: &Runs<V>,
    stretches: &[(Stretch, V)],
    firsts: &[usize],
    stretch: usize,
) -> usize
    requires stretches { AreStretches V.levels (unit_of track.now.end) track.now stretches.now }
    requires inside { stretch < length stretches.now }
    requires room { stretch ≤ length firsts.now }
    requires firsts { AreLowFrom V.levels (unit_of track.now.end) track.now stretches.now stretch (slice_index firsts.now) }
    ensures { IsLowFrom V.levels (unit_of track.now.end) track.now stretches.now stretch result }
{
    track.known();
    let least = stretches[stretch].1;
    let mut first = stretch;
    while 0 < first {
        if !is_at_most(least, stretches[first - 1].1) {
            return first;
        }
        first = firsts[first - 1];
    }
    first
}

/// Writes for each stretch the first one from which on up to there none is lower.
pub fn low_from<V: Level>(track: &Runs<V>, stretches: &[(Stretch, V)], firsts: &mut [usize])
    requires stretches { AreStretches V.levels (unit_of track.now.end) track.now stretches.now }
    requires room { length stretches.now ≤ length firsts.old }
    ensures { AreLowFrom V.levels (unit_of track.now.end) track.now stretches.now (length stretches.now)
        (slice_index firsts.new) }
{
    for stretch in 0..stretches.len() {
        firsts[stretch] = low_up_to(track, stretches, firsts, stretch);
    }
}

/// For each stretch the first one from which on up to there none is lower.
pub fn firsts_of<V: Level>(
    alloc: Global,
    track: &Runs<V>,
    stretches: &[(Stretch, V)],
) -> Result<Vec<usize>, Memory>
    requires { AreStretches V.levels (unit_of track.now.end) track.now stretches.now }
    ensures count { IfOk result (λ firsts. length firsts.items ≡ length stretches.now) }
    ensures firsts { IfOk result (λ firsts. AreLowFrom V.levels (unit_of track.now.end) track.now stretches.now
        (length stretches.now) (slice_index firsts.items)) }
{
    let mut firsts = vec![in alloc; 0; stretches.len()]?;
    low_from(track, stretches, firsts.as_mut_slice());
    Ok(firsts)
}

/// Writes what one step costs up to the break behind the last stretch, from each break from `first` on: no stretch from
/// there on is lower than the last one, so the step has that one's floor.
fn write_level<V: Level, N: Total>(
    track: &Runs<V>,
    stretches: &[(Stretch, V)],
    first: usize,
    costs: &mut [N],
)
    requires stretches { AreStretches V.levels (unit_of track.now.end) track.now stretches.now }
    requires some { first < length costs.old }
    requires inside { length costs.old ≤ length stretches.now }
    requires low { IsLowFrom V.levels (unit_of track.now.end) track.now stretches.now (length costs.old - 1) first }
    requires small { (i : ℕ) → i < length costs.old
        → cost_of_step V.levels (unit_of track.now.end) track.now i (length costs.old) ≤ N.most }
    ensures { (i : ℕ) → first ≤ i → i < length costs.old → slice_index (map N.number costs.new) i
        ≡ cost_of_step V.levels (unit_of track.now.end) track.now i (length costs.old) }
{
    track.known();
    let to = costs.len();
    let given = stretches[to - 1].1.floor();
    let mut price = 0;
    for i in (first..to).rev() {
        price += price_on(track, stretches[i].0, given);
        costs[i] = N::of(price);
    }
}

/// Writes from the one index up to the other what one step cost, and what it loses besides.
fn write_more<N: Total>(before: &[N], costs: &mut [N], from: usize, to: usize, lost: N)
    requires rises { from ≤ to }
    requires room { to ≤ length costs.old }
    requires room_before { to ≤ length before.now }
    requires small { (i : ℕ) → from ≤ i → i < to → slice_index (map N.number before.now) i ≤ N.most }
    requires lost { N.number lost ≤ N.most }
    ensures written { (i : ℕ) → from ≤ i → i < to → slice_index (map N.number costs.new) i
        ≡ slice_index (map N.number before.now) i + N.number lost }
    ensures others { (i : ℕ) → to ≤ i → slice_index (map N.number costs.new) i ≡ slice_index (map N.number costs.old) i }
{
    for i in from..to {
        costs[i] = before[i].plus(lost);
    }
}

/// Writes what one step costs from each break up to the one behind, where `before` has what it costs up to the break
/// before that one. As far back as no stretch is lower than the last one the step has that one's floor; before, its least
/// value stays as it was, from one lower stretch to the next, and it costs what it cost and what its floor loses on the
/// last stretch.
pub fn next_costs<V: Level, N: Total>(
    track: &Runs<V>,
    stretches: &[(Stretch, V)],
    firsts: &[usize],
    before: &[N],
    costs: &mut [N],
)
    requires stretches { AreStretches V.levels (unit_of track.now.end) track.now stretches.now }
    requires some { 0 < length costs.old }
    requires inside { length costs.old ≤ length stretches.now }
    requires room { length stretches.now ≤ length firsts.now }
    requires room_before { length costs.old ≤ length before.now + 1 }
    requires firsts { AreLowFrom V.levels (unit_of track.now.end) track.now stretches.now (length stretches.now)
        (slice_index firsts.now) }
    requires before { (i : ℕ) → i < length costs.old - 1 → slice_index (map N.number before.now) i
        ≡ cost_of_step V.levels (unit_of track.now.end) track.now i (length costs.old - 1) }
    requires small { (i to : ℕ) → i < to → to ≤ length stretches.now
        → cost_of_step V.levels (unit_of track.now.end) track.now i to ≤ N.most }
    ensures { (i : ℕ) → i < length costs.old → slice_index (map N.number costs.new) i
        ≡ cost_of_step V.levels (unit_of track.now.end) track.now i (length costs.old) }
{
    track.known();
    let to = costs.len();
    let last = stretches[to - 1].0;
    let mut end = firsts[to - 1];
    write_level(track, stretches, end, costs);
    while 0 < end {
        let from = firsts[end - 1];
        let lost = price_on(track, last, stretches[end - 1].1.floor());
        write_more(before, costs, from, end, N::of(lost));
        end = from;
    }
}

/// What one step costs up to the break behind that up to which `before` has it. It is kept in `room`, whatever that has.
///
/// # Errors
///
/// `Memory` where `room` has to grow, and there is no memory for it.
pub fn costs_behind<V: Level, N: Total>(
    track: &Runs<V>,
    stretches: &[(Stretch, V)],
    firsts: &[usize],
    before: &[N],
    room: Vec<N>,
) -> Result<Vec<N>, Memory>
    requires stretches { AreStretches V.levels (unit_of track.now.end) track.now stretches.now }
    requires inside { length before.now < length stretches.now }
    requires room { length stretches.now ≤ length firsts.now }
    requires firsts { AreLowFrom V.levels (unit_of track.now.end) track.now stretches.now (length stretches.now)
        (slice_index firsts.now) }
    requires before { AreCosts (cost_of_step V.levels (unit_of track.now.end) track.now) (map N.number before.now) }
    requires small { (i to : ℕ) → i < to → to ≤ length stretches.now
        → cost_of_step V.levels (unit_of track.now.end) track.now i to ≤ N.most }
    ensures count { IfOk result (λ costs. length costs.items ≡ length before.now + 1) }
    ensures costs { IfOk result (λ costs. AreCosts (cost_of_step V.levels (unit_of track.now.end) track.now)
        (map N.number costs.items)) }
    ensures full { OnErr result (vec_capacity room < length before.now + 1) }
{
    track.known();
    let mut costs = room;
    costs.resize(before.len() + 1, N::of(0))?;
    next_costs(track, stretches, firsts, before, costs.as_mut_slice());
    Ok(costs)
}
