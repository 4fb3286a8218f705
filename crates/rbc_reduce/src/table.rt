//! The table of prices, filled column by column.
ghost use Rattle.std.specs.Prelude.{◌≡◌, ◌≢◌, ℕ, suc, ◌+◌, ◌-◌, ◌<◌, ◌≤◌, [], ◌∷◌, ◌++◌, map, IfOk, OnOk, length, slice_index};
ghost use Rattle.rbc_reduce.specs.Rows.{AreAlike, IsColumnMore, IsPriceMore, row_in};

use rbc_costs::{Total, cheapest};
use rbc_model::Memory;
use std::alloc::Global;

/// Puts a price behind the prices of a row.
pub(crate) fn add_price<N: Total>(
    rows: &mut Vec<Vec<N>>,
    row: usize,
    price: N,
) -> Result<(), Memory>
    requires { row < length rows.old.items }
    ensures size { length rows.new.items ≡ length rows.old.items }
    ensures added { OnOk result
        (row_in N.number rows.new.items row ≡ row_in N.number rows.old.items row ++ N.number price ∷ []) }
    ensures others { OnOk result
        ((other : ℕ) → other ≢ row → row_in N.number rows.new.items other ≡ row_in N.number rows.old.items other) }
{
    rows[row].push(price)?;
    Ok(())
}

/// Puts one price behind the prices of each row from `first` on.
fn add_to_each<N: Total>(rows: &mut Vec<Vec<N>>, first: usize, price: N) -> Result<(), Memory>
    requires { first ≤ length rows.old.items }
    ensures size { length rows.new.items ≡ length rows.old.items }
    ensures added { OnOk result ((j : ℕ) → first ≤ j → j < length rows.old.items
        → row_in N.number rows.new.items j ≡ row_in N.number rows.old.items j ++ N.number price ∷ []) }
    ensures others { OnOk result
        ((j : ℕ) → j < first → row_in N.number rows.new.items j ≡ row_in N.number rows.old.items j) }
{
    for row in first..rows.len() {
        add_price(rows, row, price)?;
    }
    Ok(())
}

/// Puts the price up to the next break behind the prices of each row from `first` on. From the one before it on they are alike,
/// and so is the least with one step more.
fn add_to_alike<N: Total>(rows: &mut Vec<Vec<N>>, first: usize, costs: &[N]) -> Result<(), Memory>
    requires some { 0 < first }
    requires inside { first ≤ length rows.old.items }
    requires some_costs { 0 < length costs.now }
    requires wide { (j : ℕ) → j < length rows.old.items → length costs.now ≡ length (row_in N.number rows.old.items j) + 1 }
    requires small { (j i : ℕ) → slice_index (row_in N.number rows.old.items j) i ≤ N.most }
    requires small_costs { (i : ℕ) → slice_index (map N.number costs.now) i ≤ N.most }
    requires alike { AreAlike first (length rows.old.items) (row_in N.number rows.old.items) }
    ensures size { length rows.new.items ≡ length rows.old.items }
    ensures more { OnOk result ((j : ℕ) → first ≤ suc j → suc j < length rows.old.items
        → IsPriceMore (map N.number costs.now) (row_in N.number rows.old.items) (row_in N.number rows.new.items) j) }
    ensures others { OnOk result
        ((j : ℕ) → j < first → row_in N.number rows.new.items j ≡ row_in N.number rows.old.items j) }
{
    if first == rows.len() {
        return Ok(());
    }
    let price = cheapest(rows[first - 1].as_slice(), costs);
    add_to_each(rows, first, price)
}

/// Puts the price up to the next break behind the prices of each row below `end` but the first: the least with one step more
/// than the prices of the row before it, where that step costs so much.
fn add_cheapest<N: Total>(rows: &mut Vec<Vec<N>>, end: usize, costs: &[N]) -> Result<(), Memory>
    requires some { 0 < end }
    requires inside { end ≤ length rows.old.items }
    requires some_costs { 0 < length costs.now }
    requires wide { (j : ℕ) → j < end → length costs.now ≡ length (row_in N.number rows.old.items j) + 1 }
    requires small { (j i : ℕ) → j < end → slice_index (row_in N.number rows.old.items j) i ≤ N.most }
    requires small_costs { (i : ℕ) → slice_index (map N.number costs.now) i ≤ N.most }
    ensures size { length rows.new.items ≡ length rows.old.items }
    ensures more { OnOk result ((j : ℕ) → suc j < end → IsPriceMore (map N.number costs.now)
        (row_in N.number rows.old.items) (row_in N.number rows.new.items) j) }
    ensures first { OnOk result (row_in N.number rows.new.items 0 ≡ row_in N.number rows.old.items 0) }
    ensures others { OnOk result
        ((j : ℕ) → end ≤ j → row_in N.number rows.new.items j ≡ row_in N.number rows.old.items j) }
{
    for row in (1..end).rev() {
        let price = cheapest(rows[row - 1].as_slice(), costs);
        add_price(rows, row, price)?;
    }
    Ok(())
}

/// Puts the prices up to the next break behind the prices of each row, where one step costs so much up to there. Rows of as
/// many steps as there are breaks so far, or more, are alike, and so are their prices.
pub(crate) fn add_column<N: Total>(rows: &mut Vec<Vec<N>>, costs: &[N]) -> Result<(), Memory>
    requires some { 0 < length rows.old.items }
    requires some_costs { 0 < length costs.now }
    requires wide { (j : ℕ) → j < length rows.old.items → length costs.now ≡ length (row_in N.number rows.old.items j) + 1 }
    requires small { (j i : ℕ) → slice_index (row_in N.number rows.old.items j) i ≤ N.most }
    requires small_costs { (i : ℕ) → slice_index (map N.number costs.now) i ≤ N.most }
    requires alike { AreAlike (length costs.now - 1) (length rows.old.items) (row_in N.number rows.old.items) }
    ensures size { length rows.new.items ≡ length rows.old.items }
    ensures more { OnOk result (IsColumnMore (map N.number costs.now) (length rows.old.items)
        (row_in N.number rows.old.items) (row_in N.number rows.new.items)) }
{
    let alike = rows.len().min((costs.len() - 1).max(1));
    add_to_alike(rows, alike, costs)?;
    add_cheapest(rows, alike, costs)?;
    add_price(rows, 0, costs[0])
}

/// `count` rows without prices, each with room for `width` of them.
pub(crate) fn empty_rows<N: Total>(
    alloc: Global,
    count: usize,
    width: usize,
) -> Result<Vec<Vec<N>>, Memory>
    ensures count { IfOk result (λ rows. length rows.items ≡ count) }
    ensures empty { IfOk result (λ rows. (j : ℕ) → row_in N.number rows.items j ≡ []) }
{
    let mut rows = Vec::with_capacity(alloc, count)?;
    for _row in 0..count {
        rows.push(Vec::with_capacity(alloc, width)?)?;
    }
    Ok(rows)
}
