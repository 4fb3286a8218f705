//! The table of prices, filled a tile of columns at a time.
//!
//! The prices of a tile's columns are begun from the breaks before the tile, four columns at once. Then they are finished from
//! the breaks within the tile, column by column. Here a tile has four columns.
ghost use Rattle.std.specs.Prelude.{◌≡◌, ℕ, ◌+◌, ◌<◌, ◌≤◌, ◌-◌, [], Some, map, IfOk, OnOk, length, slice_get, slice_index};
ghost use Rattle.std.specs.Global.{Vec};
ghost use Rattle.rbc_model.specs.Scales.{unit_of};
ghost use Rattle.rbc_table_laws.specs.Stretches.{cost_of_step};
ghost use Rattle.rbc_costs.specs.Stretches.{AreCosts, AreLowFrom, AreStretches};
ghost use Rattle.rbc_reduce.specs.Rows.{AreFilled, price_up_to, row_in};
ghost use Rattle.rbc_reduce.specs.Tiles.{AreCostsFrom, AreCut, AreLeast, IsGroup, nth_of};

use crate::table::add_price;
use rbc_costs::{Four, Stretch, Total, cheapest_four, cheapest_from, costs_behind, firsts_of};
use rbc_model::Memory;
use rbc_steps::{Level, Runs};
use std::alloc::Global;

/// How many columns are begun at once.
pub(crate) const FOUR: usize = 4;

/// As many rooms for costs: those that were used before, and new ones with room for `width` of them.
pub(crate) fn rooms_for<N: Total>(
    alloc: Global,
    used: Vec<Vec<N>>,
    count: usize,
    width: usize,
) -> Result<Vec<Vec<N>>, Memory>
    ensures { IfOk result (λ rooms. length rooms.items ≡ count) }
{
    let mut rooms = used;
    rooms.truncate(count);
    for _room in rooms.len()..count {
        rooms.push(Vec::with_capacity(alloc, width)?)?;
    }
    Ok(rooms)
}

/// What one step costs, column by column: up to the break up to which `before` has it, and to the breaks behind, of which
/// each has its room in `rooms`.
pub(crate) fn costs_from<V: Level, N: Total>(
    alloc: Global,
    track: &Runs<V>,
    stretches: &[(Stretch, V)],
    firsts: &[usize],
    before: Vec<N>,
    rooms: Vec<Vec<N>>,
) -> Result<Vec<Vec<N>>, Memory>
    requires stretches { AreStretches V.levels (unit_of track.now.end) track.now stretches.now }
    requires inside { length before.items + length rooms.items ≤ length stretches.now }
    requires room { length stretches.now ≤ length firsts.now }
    requires firsts { AreLowFrom V.levels (unit_of track.now.end) track.now stretches.now (length stretches.now)
        (slice_index firsts.now) }
    requires before { AreCosts (cost_of_step V.levels (unit_of track.now.end) track.now) (map N.number before.items) }
    requires small { (i to : ℕ) → i < to → to ≤ length stretches.now
        → cost_of_step V.levels (unit_of track.now.end) track.now i to ≤ N.most }
    ensures count { IfOk result (λ columns. length columns.items ≡ length rooms.items + 1) }
    ensures costs { IfOk result (λ columns. AreCostsFrom N.number
        (cost_of_step V.levels (unit_of track.now.end) track.now) (length before.items) columns.items) }
{
    track.known();
    let mut columns = Vec::with_capacity(alloc, rooms.len() + 1)?;
    columns.push(before)?;
    for room in rooms {
        let last = columns[columns.len() - 1].as_slice();
        let next = costs_behind(track, stretches, firsts, last, room)?;
        columns.push(next)?;
    }
    Ok(columns)
}

/// Begins up to four columns, those behind the first one: for each row but the last the least price with one step more from
/// the breaks that have prices. The last column stands for those behind it.
pub(crate) fn begin_four<N: Total>(
    alloc: Global,
    rows: &[Vec<N>],
    columns: &[Vec<N>],
) -> Result<Vec<Four<N>>, Memory>
    requires some { 0 < length rows.now }
    requires inside { 1 < length columns.now }
    requires wide { (j q : ℕ) (column : Vec N) → j < length rows.now → 1 ≤ q → slice_get columns.now q ≡ Some column
        → length (row_in N.number rows.now j) < length column.items }
    requires small { (j i : ℕ) → slice_index (row_in N.number rows.now j) i ≤ N.most }
    requires small_costs { (q i : ℕ) (column : Vec N) → slice_get columns.now q ≡ Some column
        → slice_index (map N.number column.items) i ≤ N.most }
    ensures { IfOk result (λ group. IsGroup N.number rows.now columns.now group.items) }
{
    let last = columns.len() - 1;
    let second = columns[last.min(2)].as_slice();
    let third = columns[last.min(3)].as_slice();
    let fourth = columns[last.min(4)].as_slice();
    let mut group = Vec::with_capacity(alloc, rows.len())?;
    for row in 0..rows.len() - 1 {
        let before = rows[row].as_slice();
        group.push(cheapest_four(before, columns[1].as_slice(), second, third, fourth))?;
    }
    Ok(group)
}

/// The total of an index.
fn nth<N: Total>(four: Four<N>, index: usize) -> N
    requires { index < 4 }
    ensures { result ≡ nth_of four index }
{
    match index {
        0 => four.first,
        1 => four.second,
        2 => four.third,
        _ => four.fourth,
    }
}

/// How a column is begun.
#[derive(Clone, Copy)]
pub(crate) struct Begun {
    /// The last break that it is begun from.
    pub known: usize,
    /// What one step costs up to it is told from break 0, and then from each break behind this one.
    pub cut: usize,
    /// Its place among the four columns that are begun at once.
    pub index: usize,
}

/// Finishes a column that is begun: puts its prices behind the prices of each row. `costs` tells what one step costs up to it, and
/// `least` for each row but the last the prices with which it is begun.
pub(crate) fn add_begun<V: Level, N: Total>(
    track: &Runs<V>,
    rows: &mut Vec<Vec<N>>,
    begun: Begun,
    costs: &[N],
    least: &[Four<N>],
) -> Result<(), Memory>
    requires some { 0 < length rows.old.items }
    requires cut { begun.cut ≤ begun.known }
    requires inside { begun.known < begun.cut + length costs.now }
    requires four { begun.index < 4 }
    requires costs { AreCut (cost_of_step V.levels (unit_of track.now.end) track.now) begun.cut (begun.cut + length costs.now)
        (map N.number costs.now) }
    requires filled { AreFilled (cost_of_step V.levels (unit_of track.now.end) track.now) (length rows.old.items)
        (row_in N.number rows.old.items) (begun.cut + length costs.now - 1) }
    requires least { AreLeast N.number rows.old.items (cost_of_step V.levels (unit_of track.now.end) track.now)
        begun.known (begun.cut + length costs.now) begun.index least.now }
    requires small { (i to : ℕ) → i < to → to ≤ begun.cut + length costs.now
        → cost_of_step V.levels (unit_of track.now.end) track.now i to ≤ N.most }
    ensures size { length rows.new.items ≡ length rows.old.items }
    ensures filled { OnOk result (AreFilled (cost_of_step V.levels (unit_of track.now.end) track.now) (length rows.old.items)
        (row_in N.number rows.new.items) (begun.cut + length costs.now)) }
    ensures kept { OnOk result ((j i : ℕ) → j < length rows.old.items → i ≤ begun.known
        → price_up_to (row_in N.number rows.new.items j) i ≡ price_up_to (row_in N.number rows.old.items j) i) }
{
    for row in (1..rows.len()).rev() {
        let lowest = nth(least[row - 1], begun.index);
        let price = cheapest_from(
            lowest,
            rows[row - 1].as_slice(),
            costs,
            begun.known + 1,
            begun.cut,
        );
        add_price(rows, row, price)?;
    }
    add_price(rows, 0, costs[0])
}

/// Finishes up to four columns that are begun from all breaks before them: those behind the first one.
fn fill_four<V: Level, N: Total>(
    track: &Runs<V>,
    rows: &mut Vec<Vec<N>>,
    known: usize,
    columns: &[Vec<N>],
    least: &[Four<N>],
) -> Result<(), Memory>
    requires some { 0 < length rows.old.items }
    requires some_columns { 0 < length columns.now }
    requires four { length columns.now ≤ 5 }
    requires costs { AreCostsFrom N.number (cost_of_step V.levels (unit_of track.now.end) track.now) known columns.now }
    requires filled { AreFilled (cost_of_step V.levels (unit_of track.now.end) track.now)
        (length rows.old.items) (row_in N.number rows.old.items) known }
    requires begun { (k : ℕ) → k + 1 < length columns.now → AreLeast N.number rows.old.items
        (cost_of_step V.levels (unit_of track.now.end) track.now) known (known + k + 1) k least.now }
    requires small { (i to : ℕ) → i < to → to < known + length columns.now
        → cost_of_step V.levels (unit_of track.now.end) track.now i to ≤ N.most }
    ensures size { length rows.new.items ≡ length rows.old.items }
    ensures filled { OnOk result (AreFilled (cost_of_step V.levels (unit_of track.now.end) track.now)
        (length rows.old.items) (row_in N.number rows.new.items) (known + length columns.now - 1)) }
{
    for column in 1..columns.len() {
        let begun = Begun {
            known,
            cut: 0,
            index: column - 1,
        };
        add_begun(track, rows, begun, columns[column].as_slice(), least)?;
    }
    Ok(())
}

/// Fills rows, which are empty, with the prices up to each break but the first, four columns at a time.
pub(crate) fn fill_by_fours<V: Level, N: Total>(
    alloc: Global,
    track: &Runs<V>,
    stretches: &[(Stretch, V)],
    rows: &mut Vec<Vec<N>>,
) -> Result<(), Memory>
    requires stretches { AreStretches V.levels (unit_of track.now.end) track.now stretches.now }
    requires some { 0 < length rows.old.items }
    requires empty { (j : ℕ) → row_in N.number rows.old.items j ≡ [] }
    requires small { (i to : ℕ) → i < to → to ≤ length stretches.now
        → cost_of_step V.levels (unit_of track.now.end) track.now i to ≤ N.most }
    ensures size { length rows.new.items ≡ length rows.old.items }
    ensures filled { OnOk result (AreFilled (cost_of_step V.levels (unit_of track.now.end) track.now)
        (length rows.old.items) (row_in N.number rows.new.items) (length stretches.now)) }
{
    track.known();
    let firsts = firsts_of(alloc, track, stretches)?;
    let mut used = Vec::new(alloc);
    let mut before = Vec::new(alloc);
    while before.len() < stretches.len() {
        let known = before.len();
        let rooms = rooms_for(
            alloc,
            used,
            FOUR.min(stretches.len() - known),
            stretches.len(),
        )?;
        let mut columns = costs_from(alloc, track, stretches, &firsts, before, rooms)?;
        let least = begin_four(alloc, rows.as_slice(), &columns)?;
        fill_four(track, rows, known, &columns, &least)?;
        before = match columns.pop() {
            Some(last) => last,
            None => unreachable!(),
        };
        used = columns;
    }
    Ok(())
}
