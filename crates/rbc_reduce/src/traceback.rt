//! The profile that is read off the table, from its last column backwards.
ghost use Rattle.std.specs.Prelude.{◌≡◌, ◌≢◌, ℕ, ◌+◌, ◌%◌, ◌<◌, ◌≤◌, IfOk, length, slice_index};
ghost use Rattle.rbc_model.specs.PriceTables.{IsGreatestSoundTable};
ghost use Rattle.rbc_model.specs.Scales.{unit_of};
ghost use Rattle.rbc_model.specs.declared.limits.TheConstants.{MOST_LOSS};
ghost use Rattle.rbc_table_laws.specs.Tracebacks.{IsReadOff};
ghost use Rattle.rbc_table_laws.specs.PriceRows.{prices_of, AreAsWideAs};
ghost use Rattle.rbc_reduce.specs.Rows.{AreSmall, price_in};
ghost use Rattle.rbc_costs.specs.Stretches.{AreStretches};

use crate::fill::FEW;
use rbc_costs::{Stretch, costs_to, least_of, price_at};
use rbc_model::Memory;
use rbc_steps::{Level, Runs};
use std::alloc::Global;

/// The least number of steps whose last price is the table's.
fn fewest(rows: &[Vec<u64>], columns: usize) -> usize
    requires some { 0 < length rows.now }
    requires wide { AreAsWideAs columns rows.now }
    ensures some { 1 ≤ result }
    ensures inside { result ≤ length rows.now }
    ensures price { price_in rows.now result columns ≡ price_in rows.now (length rows.now) columns }
    ensures first { (j : ℕ) → 1 ≤ j → j < result
        → price_in rows.now j columns ≢ price_in rows.now (length rows.now) columns }
{
    let price = price_at(rows, rows.len(), columns);
    for steps in 1..rows.len() {
        if price_at(rows, steps, columns) == price {
            return steps;
        }
    }
    rows.len()
}

/// The first break from which one step more than `steps` adds up to the price in this column.
fn first_break(rows: &[Vec<u64>], costs: &[u64], steps: usize, column: usize) -> usize
    requires inside { steps < length rows.now }
    requires wide { AreAsWideAs column rows.now }
    requires room { column ≤ length costs.now }
    requires small { (j : ℕ) → AreSmall (price_in rows.now j) }
    requires small_costs { (i : ℕ) → i < column → slice_index costs.now i ≤ MOST_LOSS }
    requires some { (i : ℕ) × (i < column)
        × (price_in rows.now steps i + slice_index costs.now i ≡ price_in rows.now (steps + 1) column) }
    ensures inside { result < column }
    ensures adds_up { price_in rows.now steps result + slice_index costs.now result
        ≡ price_in rows.now (steps + 1) column }
    ensures first { (i : ℕ) → i < result
        → price_in rows.now steps i + slice_index costs.now i ≢ price_in rows.now (steps + 1) column }
{
    let price = price_at(rows, steps + 1, column);
    for i in 0..column {
        if price_at(rows, steps, i) + costs[i] == price {
            return i;
        }
    }
    unreachable!()
}

/// The steps that are read off the table of the prices of at most `limit` steps: each starts at a break, and has the
/// floor of the least value there. `costs` is room for what one step costs from each break.
fn read_off<V: Level>(
    alloc: Global,
    track: &Runs<V>,
    stretches: &[(Stretch, V)],
    rows: &[Vec<u64>],
    limit: usize,
    costs: &mut [u64],
) -> Result<Vec<(u32, V)>, Memory>
    requires whole { track.now.end % unit_of track.now.end ≡ 0 }
    requires stretches { AreStretches V.levels (unit_of track.now.end) track.now stretches.now }
    requires some { 1 ≤ limit }
    requires table { IsGreatestSoundTable V.levels (unit_of track.now.end) limit track.now.end track.now.steps (prices_of rows.now) }
    requires wide { AreAsWideAs (length stretches.now) rows.now }
    requires small { (j : ℕ) → AreSmall (price_in rows.now j) }
    requires room { length stretches.now ≤ length costs.old }
    ensures { IfOk result
        (λ steps. IsReadOff V.levels (unit_of track.now.end) limit track.now.end track.now.steps (prices_of rows.now) steps.items) }
{
    track.known();
    let mut to = stretches.len();
    let mut steps = Vec::with_capacity(alloc, limit)?;
    let count = fewest(rows, to);
    for before in (0..count).rev() {
        costs_to(track, stretches, to, costs);
        let from = first_break(rows, costs, before, to);
        let least = least_of(track, stretches, from, to);
        steps.push((stretches[from].0.from, least.floor()))?;
        to = from;
    }
    steps.reverse();
    Ok(steps)
}

/// The steps that are read off the table of the prices of at most `limit` steps: each starts at a break, and has the
/// floor of the least value there.
pub(crate) fn steps_of<V: Level>(
    alloc: Global,
    track: &Runs<V>,
    stretches: &[(Stretch, V)],
    rows: &[Vec<u64>],
    limit: usize,
) -> Result<Vec<(u32, V)>, Memory>
    requires whole { track.now.end % unit_of track.now.end ≡ 0 }
    requires stretches { AreStretches V.levels (unit_of track.now.end) track.now stretches.now }
    requires some { 1 ≤ limit }
    requires table { IsGreatestSoundTable V.levels (unit_of track.now.end) limit track.now.end track.now.steps (prices_of rows.now) }
    requires wide { AreAsWideAs (length stretches.now) rows.now }
    requires small { (j : ℕ) → AreSmall (price_in rows.now j) }
    ensures { IfOk result
        (λ steps. IsReadOff V.levels (unit_of track.now.end) limit track.now.end track.now.steps (prices_of rows.now) steps.items) }
{
    if stretches.len() <= FEW {
        return read_off(alloc, track, stretches, rows, limit, &mut [0; FEW]);
    }
    let mut costs = vec![in alloc; 0; stretches.len()]?;
    read_off(alloc, track, stretches, rows, limit, costs.as_mut_slice())
}
