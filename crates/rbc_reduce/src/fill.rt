//! The table of prices of a track.
ghost use Rattle.std.specs.Prelude.{◌≡◌, ℕ, ◌+◌, ◌-◌, ◌<◌, ◌≤◌, [], map, min, IfOk, OnOk, length, slice_index};
ghost use Rattle.rbc_model.specs.declared.limits.TheConstants.{MOST_LOSS};
ghost use Rattle.rbc_model.specs.PriceTables.{IsGreatestSoundTable};
ghost use Rattle.rbc_model.specs.Scales.{unit_of};
ghost use Rattle.rbc_table_laws.specs.PriceRows.{prices_of, AreWide};
ghost use Rattle.rbc_table_laws.specs.Stretches.{cost_of_step};
ghost use Rattle.rbc_reduce.specs.Rows.{AreFilled, AreSmall, price_in, row_at, row_in};
ghost use Rattle.rbc_costs.specs.Stretches.{AreLowFrom, AreStretches};

use crate::parts::fill_in_threads;
use crate::table::{add_column, empty_rows};
use crate::tiles::fill_by_fours;
use rayon::current_num_threads;
use rbc_costs::{Priced, Stretch, Total, low_from, next_costs};
use rbc_model::Memory;
use rbc_steps::{Level, Runs};
use std::alloc::Global;
use std::thread::Threads;

/// With at most this number of stretches a table is filled in totals of 64 bits: narrower ones would save less than it
/// takes to widen them. And what one step costs from each of their breaks is kept in place.
pub(crate) const FEW: usize = 16;

/// From this number of stretches on a table is filled in threads, where there is more than one processor. Below, they save
/// less than wide tiles take longer to finish.
const WIDE: usize = 2_048;

/// The numbers of totals.
fn numbers_of<N: Total>(alloc: Global, totals: &[N]) -> Result<Vec<u64>, Memory>
    ensures { IfOk result (λ numbers. numbers.items ≡ map N.number totals.now) }
{
    Ok(totals.iter().map(|total| total.wide()).collect(alloc)?)
}

/// The rows in numbers of 64 bits.
fn widened<N: Total>(alloc: Global, rows: &[Vec<N>]) -> Result<Vec<Vec<u64>>, Memory>
    ensures count { IfOk result (λ wide. length wide.items ≡ length rows.now) }
    ensures rows { IfOk result (λ wide. (j : ℕ) → row_at wide.items j ≡ row_in N.number rows.now j) }
{
    let mut wide = Vec::with_capacity(alloc, rows.len())?;
    for row in rows {
        wide.push(numbers_of(alloc, row)?)?;
    }
    Ok(wide)
}

/// What one step costs from each break before that of the number `to` up to there, kept in place, where `before` has it up
/// to the break before that one.
fn costs_in_place<V: Level>(
    track: &Runs<V>,
    stretches: &[(Stretch, V)],
    firsts: &[usize],
    before: &[u64],
    to: usize,
) -> [u64; FEW]
    requires stretches { AreStretches V.levels (unit_of track.now.end) track.now stretches.now }
    requires few { length stretches.now ≤ 16 }
    requires some { 0 < to }
    requires inside { to ≤ length stretches.now }
    requires room { length stretches.now ≤ length firsts.now }
    requires room_before { to ≤ length before.now + 1 }
    requires firsts { AreLowFrom V.levels (unit_of track.now.end) track.now stretches.now (length stretches.now)
        (slice_index firsts.now) }
    requires before { (i : ℕ) → i < to - 1
        → slice_index before.now i ≡ cost_of_step V.levels (unit_of track.now.end) track.now i (to - 1) }
    requires small { (i to : ℕ) → i < to → to ≤ length stretches.now
        → cost_of_step V.levels (unit_of track.now.end) track.now i to ≤ MOST_LOSS }
    ensures { (i : ℕ) → i < to
        → slice_index result i ≡ cost_of_step V.levels (unit_of track.now.end) track.now i to }
{
    let mut costs = [0; FEW];
    next_costs(track, stretches, firsts, before, &mut costs[..to]);
    costs
}

/// Fills rows, which are empty, with the prices up to each break but the first, break by break: what one step costs takes
/// no memory.
fn fill_rows<V: Level>(
    track: &Runs<V>,
    stretches: &[(Stretch, V)],
    rows: &mut Vec<Vec<u64>>,
) -> Result<(), Memory>
    requires stretches { AreStretches V.levels (unit_of track.now.end) track.now stretches.now }
    requires few { length stretches.now ≤ 16 }
    requires some { 0 < length rows.old.items }
    requires empty { (j : ℕ) → row_in (λ n. n) rows.old.items j ≡ [] }
    requires small { (i to : ℕ) → i < to → to ≤ length stretches.now
        → cost_of_step V.levels (unit_of track.now.end) track.now i to ≤ MOST_LOSS }
    ensures size { length rows.new.items ≡ length rows.old.items }
    ensures filled { OnOk result (AreFilled (cost_of_step V.levels (unit_of track.now.end) track.now)
        (length rows.old.items) (row_in (λ n. n) rows.new.items) (length stretches.now)) }
{
    track.known();
    let mut firsts = [0; FEW];
    low_from(track, stretches, &mut firsts);
    let mut costs = [0; FEW];
    for last in 0..stretches.len() {
        costs = costs_in_place(track, stretches, &firsts, &costs, last + 1);
        add_column(rows, &costs[..last + 1])?;
    }
    Ok(())
}

/// Fills rows, which are empty, with the prices up to each break but the first, in threads where that pays.
fn fill_table<V: Level, N: Total>(
    rt: &(impl Threads + Sync),
    alloc: Global,
    track: &Runs<V>,
    stretches: &[(Stretch, V)],
    rows: &mut Vec<Vec<N>>,
) -> Result<(), Memory>
    requires stretches { AreStretches V.levels (unit_of track.now.end) track.now stretches.now }
    requires some { 0 < length rows.old.items }
    requires empty { (j : ℕ) → row_in N.number rows.old.items j ≡ [] }
    requires small { (i to : ℕ) → i < to → to ≤ length stretches.now
        → cost_of_step V.levels (unit_of track.now.end) track.now i to ≤ N.most }
    ensures size { length rows.new.items ≡ length rows.old.items }
    ensures filled { OnOk result (AreFilled (cost_of_step V.levels (unit_of track.now.end) track.now)
        (length rows.old.items) (row_in N.number rows.new.items) (length stretches.now)) }
{
    if stretches.len() < WIDE || current_num_threads(rt) == 1 {
        return fill_by_fours(alloc, track, stretches, rows);
    }
    fill_in_threads(rt, alloc, track, stretches, rows)
}

/// `count` rows of prices up to each break but the first.
fn filled<V: Level, N: Total>(
    rt: &(impl Threads + Sync),
    alloc: Global,
    track: &Runs<V>,
    stretches: &[(Stretch, V)],
    count: usize,
) -> Result<Vec<Vec<N>>, Memory>
    requires stretches { AreStretches V.levels (unit_of track.now.end) track.now stretches.now }
    requires some { 0 < count }
    requires small { (i to : ℕ) → i < to → to ≤ length stretches.now
        → cost_of_step V.levels (unit_of track.now.end) track.now i to ≤ N.most }
    ensures count { IfOk result (λ rows. length rows.items ≡ count) }
    ensures filled { IfOk result (λ rows. AreFilled (cost_of_step V.levels (unit_of track.now.end) track.now) count
        (row_in N.number rows.items) (length stretches.now)) }
{
    let mut rows = empty_rows(alloc, count, stretches.len())?;
    fill_table(rt, alloc, track, stretches, &mut rows)?;
    Ok(rows)
}

/// `count` rows of prices up to each break but the first, where there are few stretches.
fn filled_of_few<V: Level>(
    alloc: Global,
    track: &Runs<V>,
    stretches: &[(Stretch, V)],
    count: usize,
) -> Result<Vec<Vec<u64>>, Memory>
    requires stretches { AreStretches V.levels (unit_of track.now.end) track.now stretches.now }
    requires some { 0 < count }
    requires few { length stretches.now ≤ 16 }
    requires small { (i to : ℕ) → i < to → to ≤ length stretches.now
        → cost_of_step V.levels (unit_of track.now.end) track.now i to ≤ MOST_LOSS }
    ensures count { IfOk result (λ rows. length rows.items ≡ count) }
    ensures filled { IfOk result (λ rows. AreFilled (cost_of_step V.levels (unit_of track.now.end) track.now) count
        (row_in (λ n. n) rows.items) (length stretches.now)) }
{
    let mut rows = empty_rows(alloc, count, stretches.len())?;
    fill_rows(track, stretches, &mut rows)?;
    Ok(rows)
}

/// A row of prices for each number of steps from 1 to `limit`, but no more rows than there are stretches, and in it a
/// price for each break but the first. The rows are filled in totals of the kind `N`.
fn fill_in<V: Level, N: Total>(
    rt: &(impl Threads + Sync),
    alloc: Global,
    track: &Runs<V>,
    stretches: &[(Stretch, V)],
    limit: usize,
) -> Result<Vec<Vec<u64>>, Memory>
    requires stretches { AreStretches V.levels (unit_of track.now.end) track.now stretches.now }
    requires limit { 1 ≤ limit }
    requires small { (i to : ℕ) → i < to → to ≤ length stretches.now
        → cost_of_step V.levels (unit_of track.now.end) track.now i to ≤ N.most }
    ensures count { IfOk result (λ rows. length rows.items ≡ min limit (length stretches.now)) }
    ensures filled { IfOk result (λ rows. AreFilled (cost_of_step V.levels (unit_of track.now.end) track.now)
        (length rows.items) (row_at rows.items) (length stretches.now)) }
{
    let count = limit.min(stretches.len());
    let rows: Vec<Vec<N>> = filled(rt, alloc, track, stretches, count)?;
    Ok(widened(alloc, &rows)?)
}

/// The table of prices: a row for each number of steps from 1 to `limit`, but no more rows than there are stretches,
/// and in it a price for each break but the first.
pub(crate) fn fill<V: Priced>(
    rt: &(impl Threads + Sync),
    alloc: Global,
    track: &Runs<V>,
    stretches: &[(Stretch, V)],
    limit: usize,
) -> Result<Vec<Vec<u64>>, Memory>
    requires stretches { AreStretches V.levels (unit_of track.now.end) track.now stretches.now }
    requires limit { 1 ≤ limit }
    ensures table { IfOk result
        (λ rows. IsGreatestSoundTable V.levels (unit_of track.now.end) limit track.now.end track.now.steps (prices_of rows.items)) }
    ensures wide { IfOk result (λ rows. AreWide (length stretches.now) rows.items) }
    ensures small { IfOk result (λ rows. (j : ℕ) → AreSmall (price_in rows.items j)) }
{
    track.known();
    let count = limit.min(stretches.len());
    if stretches.len() <= FEW {
        return filled_of_few(alloc, track, stretches, count);
    }
    if V::is_low() {
        return fill_in::<V, u32>(rt, alloc, track, stretches, limit);
    }
    filled::<V, u64>(rt, alloc, track, stretches, count)
}
