//! Whether a price is too high: above one with one step less, and what that step costs.
//!
//! Each pair of breaks belongs to the stretch that is the lowest between them, the last one if there are several. What
//! one step costs over such pairs is lost by the floor of that stretch, and grows stretch by stretch: so it is found
//! once for each pair, at the price of one stretch more, and is compared in all rows.
ghost use Rattle.std.specs.Prelude.{◌≡◌, ◌↔◌, ℕ, ◌+◌, ◌%◌, ◌<◌, ◌≤◌, length, None, IsTrue};
ghost use Rattle.rbc_model.specs.Scales.{unit_of};
ghost use Rattle.rbc_model.specs.PriceChecks.{steps_of_use, first_too_high, unless_some};
ghost use Rattle.rbc_table_laws.specs.PriceRows.{prices_of, AreWide, AreAsWideAs};
ghost use Rattle.rbc_table_laws.specs.Breaks.{IsLowest};
ghost use Rattle.rbc_price.specs.Columns.{IsColumn, stretches_of};
ghost use Rattle.rbc_price.specs.Places.{IsDearer, IsFirst, IsFirstRow};
ghost use Rattle.rbc_price.specs.Costs.{IsCostAt, IsLowestStretch};

use crate::columns::{Column, column_before, column_behind, first_column, metre_of};
use crate::places::{PricePlace, earlier};
use crate::sound::is_sound;
use rbc_costs::{Priced, further, is_at_most, price_at};
use rbc_model::Reason;
use rbc_steps::{Level, Runs};
use rbc_stretches::{least_on, price_on};
use std::alloc::Global;

/// Whether the price in this row up to the break `to` is above that of the row before, up to the break `from`, with
/// so much for one step more. The first step starts at break 0.
fn is_too_high(rows: &[Vec<u64>], row: usize, from: usize, to: usize, cost: u64) -> bool
    requires inside { row < length rows.now }
    requires on { from < to }
    requires wide { AreAsWideAs to rows.now }
    ensures { IsTrue result ↔ IsDearer (prices_of rows.now) cost (record { row = row; from = from; to = to }) }
{
    if row == 0 && from > 0 {
        return false;
    }
    price_at(rows, row + 1, to) > price_at(rows, row, from).saturating_add(cost)
}

/// The place in the first row whose price is too high, for a step that costs so much from one break to another.
fn first_row(rows: &[Vec<u64>], from: usize, to: usize, cost: u64) -> Option<PricePlace>
    requires on { from < to }
    requires wide { AreAsWideAs to rows.now }
    ensures { IsFirstRow (prices_of rows.now) from to cost result }
{
    for row in 0..rows.len() {
        if is_too_high(rows, row, from, to, cost) {
            return Some(PricePlace { row, from, to });
        }
    }
    None
}

/// The stretch that is the lowest one over the metres of a step, and the last such one, with its value.
#[derive(Clone, Copy)]
struct Lowest<V: Level> {
    column: Column,
    level: V,
}

/// The first price that is too high for a step from this break, over whose metres the stretch of `lowest` is the lowest
/// one, and the last such one. Up to the break behind that stretch such a step costs so much.
fn first_from_break<V: Level>(
    track: &Runs<V>,
    rows: &[Vec<u64>],
    from: Column,
    lowest: Lowest<V>,
    cost: u64,
) -> Option<PricePlace>
    requires whole { track.now.end % unit_of track.now.end ≡ 0 }
    requires wide { AreWide (stretches_of track.now) rows.now }
    requires from { IsColumn track.now from }
    requires lowest { IsColumn track.now lowest.column }
    requires on { from.index ≤ lowest.column.index }
    requires level { IsLowest V.levels track.now lowest.column.stretch.from lowest.column.stretch.to lowest.level }
    requires cost { IsCostAt V.levels track.now from.stretch.from lowest.column.stretch.to lowest.level cost }
    ensures { IsFirst V.levels track.now (prices_of rows.now)
        (λ f to. (f ≡ from.index) × IsLowestStretch V.levels track.now f to lowest.column.index) result }
{
    track.known();
    let Lowest { column, level } = lowest;
    let mut cost = cost;
    let mut last = column;
    let mut first = first_row(rows, from.index, column.index + 1, cost);
    while let Some(next) = column_behind(track, last) {
        if is_at_most(least_on(track, next.stretch), level) {
            return first;
        }
        cost += price_on(track, next.stretch, level.floor());
        first = earlier(first, first_row(rows, from.index, next.index + 1, cost));
        last = next;
    }
    first
}

/// The first price that is too high for a step over whose metres the stretch of `column` is the lowest one, and the
/// last such one.
fn first_over<V: Level>(track: &Runs<V>, rows: &[Vec<u64>], column: Column) -> Option<PricePlace>
    requires whole { track.now.end % unit_of track.now.end ≡ 0 }
    requires wide { AreWide (stretches_of track.now) rows.now }
    requires column { IsColumn track.now column }
    ensures { IsFirst V.levels track.now (prices_of rows.now)
        (λ from to. IsLowestStretch V.levels track.now from to column.index) result }
{
    track.known();
    let level = least_on(track, column.stretch);
    let lowest = Lowest { column, level };
    let mut cost = price_on(track, column.stretch, level.floor());
    let mut from = column;
    let mut first = first_from_break(track, rows, from, lowest, cost);
    while let Some(before) = column_before(track, from) {
        if !is_at_most(level, least_on(track, before.stretch)) {
            return first;
        }
        cost += price_on(track, before.stretch, level.floor());
        first = earlier(first, first_from_break(track, rows, before, lowest, cost));
        from = before;
    }
    first
}

/// The first price that is too high.
fn first_of_all<V: Level>(track: &Runs<V>, rows: &[Vec<u64>]) -> Option<PricePlace>
    requires whole { track.now.end % unit_of track.now.end ≡ 0 }
    requires wide { AreWide (stretches_of track.now) rows.now }
    ensures { IsFirst V.levels track.now (prices_of rows.now) (λ from to. Unit {0}) result }
{
    track.known();
    let mut lowest = first_column(track);
    let mut first = first_over(track, rows, lowest);
    while let Some(next) = column_behind(track, lowest) {
        first = earlier(first, first_over(track, rows, next));
        lowest = next;
    }
    first
}

/// Whether no price is too high, for a step that costs so much from one break to another.
fn are_low(rows: &[Vec<u64>], from: usize, to: usize, cost: u64) -> bool
    requires on { from < to }
    requires wide { AreAsWideAs to rows.now }
    ensures { IsTrue result → IsFirstRow (prices_of rows.now) from to cost None }
{
    first_row(rows, from, to, cost).is_none()
}

/// Whether no price up to the break behind this column is too high: from break to break, back to the first one.
fn is_sound_up_to<V: Level>(track: &Runs<V>, rows: &[Vec<u64>], last: Column) -> bool
    requires whole { track.now.end % unit_of track.now.end ≡ 0 }
    requires wide { AreWide (stretches_of track.now) rows.now }
    requires last { IsColumn track.now last }
    ensures { IsTrue result → IsFirst V.levels track.now (prices_of rows.now) (λ from to. to ≡ last.index + 1) None }
{
    track.known();
    let mut from = last;
    let mut least = least_on(track, last.stretch);
    let mut cost = price_on(track, last.stretch, least.floor());
    if !are_low(rows, last.index, last.index + 1, cost) {
        return false;
    }
    while let Some(before) = column_before(track, from) {
        let front = (before.stretch, least_on(track, before.stretch));
        let lowest = further(track, last.stretch.to, least, cost, front);
        least = lowest.0;
        cost = lowest.1;
        if !are_low(rows, before.index, last.index + 1, cost) {
            return false;
        }
        from = before;
    }
    true
}

/// Whether no price is too high, column by column, which takes no memory.
fn is_sound_by_pairs<V: Level>(track: &Runs<V>, rows: &[Vec<u64>]) -> bool
    requires whole { track.now.end % unit_of track.now.end ≡ 0 }
    requires wide { AreWide (stretches_of track.now) rows.now }
    ensures { IsTrue result → IsFirst V.levels track.now (prices_of rows.now) (λ from to. Unit {0}) None }
{
    track.known();
    let mut last = first_column(track);
    if !is_sound_up_to(track, rows, last) {
        return false;
    }
    while let Some(next) = column_behind(track, last) {
        if !is_sound_up_to(track, rows, next) {
            return false;
        }
        last = next;
    }
    true
}

/// Up to this number of runs each pair of breaks is looked at by itself, which takes less than to make room for totals.
const FEW_RUNS: usize = 4;

/// Whether no price is too high: where this says so, it is so.
fn is_found_sound<V: Priced>(alloc: Global, track: &Runs<V>, rows: &[Vec<u64>]) -> bool
    requires whole { track.now.end % unit_of track.now.end ≡ 0 }
    requires wide { AreWide (stretches_of track.now) rows.now }
    ensures { IsTrue result → IsFirst V.levels track.now (prices_of rows.now) (λ from to. Unit {0}) None }
{
    if track.runs().len() <= FEW_RUNS {
        return is_sound_by_pairs(track, rows);
    }
    matches!(is_sound(alloc, track, rows), Ok(true))
}

/// A refusal at the first price that is too high. Most tables have none: so it is asked first, column by column, whether
/// there is one, and looked for only then, or where there is no memory to ask.
pub(crate) fn has_no_high_price<V: Priced>(
    alloc: Global,
    track: &Runs<V>,
    rows: &[Vec<u64>],
) -> Result<(), Reason>
    requires whole { track.now.end % unit_of track.now.end ≡ 0 }
    requires wide { AreWide (stretches_of track.now) rows.now }
    ensures { (limit : ℕ) → length rows.now ≡ steps_of_use V.levels limit track.now (prices_of rows.now)
        → result ≡ unless_some (first_too_high V.levels limit track.now (prices_of rows.now)) }
{
    if is_found_sound(alloc, track, rows) {
        return Ok(());
    }
    match first_of_all(track, rows) {
        Some(place) => Err(Reason::Inequality(
            place.row + 1,
            metre_of(track, place.from),
            metre_of(track, place.to),
        )),
        None => Ok(()),
    }
}
