//! Whether no price of a table is too high, column by column.
//!
//! A column is judged by what one step costs up to its break from each earlier one: no price may be above the least of
//! those of the row before with that cost. Prices are compared as totals, several at once.
ghost use Rattle.std.specs.Prelude.{◌≡◌, ℕ, suc, ◌+◌, ◌%◌, ◌<◌, ◌≤◌, map, length, slice_index, None, IfOk, IfSome, IsTrue};
ghost use Rattle.rbc_model.specs.Scales.{unit_of};
ghost use Rattle.rbc_table_laws.specs.PriceRows.{prices_of, AreWide};
ghost use Rattle.rbc_table_laws.specs.Stretches.{cost_of_step};
ghost use Rattle.rbc_costs.specs.Sums.{row_in};
ghost use Rattle.rbc_price.specs.Columns.{stretches_of};
ghost use Rattle.rbc_price.specs.Places.{IsFirst};
ghost use Rattle.rbc_price.specs.Totals.{AreTotals, IsSoundColumn};

use rbc_costs::{Priced, Total, cheapest, costs_behind, firsts_of, stretches_of};
use rbc_model::Memory;
use rbc_steps::{Level, Runs};
use std::alloc::Global;

/// The prices of a row as totals, if each fits in one.
fn totals_of<N: Total>(alloc: Global, row: &[u64]) -> Result<Option<Vec<N>>, Memory>
    ensures same { IfOk result (λ found. IfSome found (λ totals. map N.number totals.items ≡ row.now)) }
    ensures small { IfOk result (λ found. IfSome found (λ totals. (i : ℕ) → slice_index (map N.number totals.items) i ≤ N.most)) }
{
    let mut totals = Vec::with_capacity(alloc, row.len())?;
    for price in row {
        if !N::has(*price) {
            return Ok(None);
        }
        totals.push(N::of(*price))?;
    }
    Ok(Some(totals))
}

/// The rows as totals, if each price fits in one.
fn rows_of<N: Total>(alloc: Global, rows: &[Vec<u64>]) -> Result<Option<Vec<Vec<N>>>, Memory>
    ensures { IfOk result (λ found. IfSome found (λ table. AreTotals N.number N.most (prices_of rows.now) table.items)) }
{
    let mut table = Vec::with_capacity(alloc, rows.len())?;
    for row in rows {
        match totals_of(alloc, row)? {
            Some(totals) => table.push(totals)?,
            None => return Ok(None),
        }
    }
    Ok(Some(table))
}

/// Whether no price in the column up to the break behind those that `costs` has is too high, where one step costs so much
/// up to there.
fn is_sound_column<N: Total>(rows: &[Vec<N>], costs: &[N]) -> bool
    requires some { 0 < length rows.now }
    requires some_costs { 0 < length costs.now }
    requires wide { (j : ℕ) → j < length rows.now → length costs.now ≤ length (row_in N.number rows.now j) }
    requires small { (j i : ℕ) → slice_index (row_in N.number rows.now j) i ≤ N.most }
    requires small_costs { (i : ℕ) → slice_index (map N.number costs.now) i ≤ N.most }
    ensures { IsTrue result → IsSoundColumn (row_in N.number rows.now) (length rows.now) (length costs.now)
        (slice_index (map N.number costs.now)) }
{
    let to = costs.len() - 1;
    if rows[0][to].wide() > costs[0].wide() {
        return false;
    }
    for row in 1..rows.len() {
        let most = cheapest(rows[row - 1].as_slice(), costs);
        if rows[row][to].wide() > most.wide() {
            return false;
        }
    }
    true
}

/// Whether no price is too high. Prices are compared as totals of the kind `N`: where one does not fit, this says no.
fn is_sound_in<V: Level, N: Total>(
    alloc: Global,
    track: &Runs<V>,
    rows: &[Vec<u64>],
) -> Result<bool, Memory>
    requires whole { track.now.end % unit_of track.now.end ≡ 0 }
    requires wide { AreWide (stretches_of track.now) rows.now }
    requires small { (i to : ℕ) → i < to → to ≤ stretches_of track.now
        → cost_of_step V.levels (unit_of track.now.end) track.now i to ≤ N.most }
    ensures { IfOk result (λ sound. IsTrue sound
        → IsFirst V.levels track.now (prices_of rows.now) (λ from to. Unit {0}) None) }
{
    track.known();
    if rows.is_empty() {
        return Ok(false);
    }
    let Some(table) = rows_of::<N>(alloc, rows)? else {
        return Ok(false);
    };
    let stretches = stretches_of(alloc, track)?;
    let firsts = firsts_of(alloc, track, &stretches)?;
    let mut room = Vec::with_capacity(alloc, stretches.len())?;
    let mut before = Vec::with_capacity(alloc, stretches.len())?;
    for _column in 0..stretches.len() {
        let costs = costs_behind(track, &stretches, &firsts, &before, room)?;
        if !is_sound_column(&table, &costs) {
            return Ok(false);
        }
        room = before;
        before = costs;
    }
    Ok(true)
}

/// Whether no price is too high: where this says so, it is so.
pub(crate) fn is_sound<V: Priced>(
    alloc: Global,
    track: &Runs<V>,
    rows: &[Vec<u64>],
) -> Result<bool, Memory>
    requires whole { track.now.end % unit_of track.now.end ≡ 0 }
    requires wide { AreWide (stretches_of track.now) rows.now }
    ensures { IfOk result (λ sound. IsTrue sound
        → IsFirst V.levels track.now (prices_of rows.now) (λ from to. Unit {0}) None) }
{
    track.known();
    if V::is_low() {
        return is_sound_in::<V, u32>(alloc, track, rows);
    }
    is_sound_in::<V, u64>(alloc, track, rows)
}
