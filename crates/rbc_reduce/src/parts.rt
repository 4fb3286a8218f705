//! The table of prices, filled a wide tile of columns at a time, in threads.
//!
//! A tile is cut into parts of some columns. Each is begun in a thread, with what one step costs up to its own columns: found
//! anew up to the break that it starts behind, and then break by break, as long as a processor has it near. Kept of it is what
//! the finish needs: from break 0, and from the breaks within the tile.
ghost use Rattle.std.specs.Prelude.{◌≡◌, ℕ, ◌+◌, ◌*◌, ◌-◌, ◌<◌, ◌≤◌, [], Some, map, min, IfOk, OnOk, length, slice_get, slice_index};
ghost use Rattle.std.specs.Global.{Vec};
ghost use Rattle.rbc_model.specs.Scales.{unit_of};
ghost use Rattle.rbc_table_laws.specs.Stretches.{cost_of_step};
ghost use Rattle.rbc_costs.specs.Stretches.{AreCosts, AreLowFrom, AreStretches};
ghost use Rattle.rbc_reduce.specs.Rows.{AreFilled, row_in};
ghost use Rattle.rbc_reduce.specs.Tiles.{AreCut, ArePartsOf, IsPart};

use crate::tiles::{Begun, FOUR, add_begun, begin_four, costs_from, rooms_for};
use rayon::current_num_threads;
use rayon::prelude::*;
use rbc_costs::{Four, Stretch, Total, costs_to, firsts_of};
use rbc_model::Memory;
use rbc_steps::{Level, Runs};
use std::alloc::Global;
use std::thread::Threads;

/// How many columns a tile has. What its threads cost to begin is shared by all of them.
const TILE: usize = 256;

/// How many columns a part has: no thread begins fewer.
const PART: usize = 32;

/// Up to four columns that are begun.
#[derive(Drop)]
pub(crate) struct Group<N: Total> {
    /// What one step costs up to each: from break 0, and then from each break behind the tile's start.
    pub columns: Vec<Vec<N>>,
    /// For each row but the last the least prices with one step more, from the breaks up to the tile's start.
    pub least: Vec<Four<N>>,
}

/// The columns of a tile.
#[derive(Clone, Copy)]
struct Tile {
    /// The break that it starts behind.
    known: usize,
    /// The break that its last column goes up to.
    end: usize,
}

/// Columns of a part of a tile.
#[derive(Clone, Copy)]
struct Span {
    /// The break that the tile starts behind.
    known: usize,
    /// The break that the part starts behind.
    from: usize,
    /// The break that its last column goes up to.
    end: usize,
}

/// These numbers as totals.
fn totals_of<N: Total>(alloc: Global, numbers: &[u64]) -> Result<Vec<N>, Memory>
    requires { (i : ℕ) → i < length numbers.now → slice_index numbers.now i ≤ N.most }
    ensures { IfOk result (λ totals. map N.number totals.items ≡ numbers.now) }
{
    let mut totals = Vec::with_capacity(alloc, numbers.len())?;
    for number in numbers {
        totals.push(N::of(*number))?;
    }
    Ok(totals)
}

/// What one step costs from each break before that of the number `to` up to there.
fn totals_to<V: Level, N: Total>(
    alloc: Global,
    track: &Runs<V>,
    stretches: &[(Stretch, V)],
    to: usize,
) -> Result<Vec<N>, Memory>
    requires stretches { AreStretches V.levels (unit_of track.now.end) track.now stretches.now }
    requires inside { to ≤ length stretches.now }
    requires small { (i to : ℕ) → i < to → to ≤ length stretches.now
        → cost_of_step V.levels (unit_of track.now.end) track.now i to ≤ N.most }
    ensures count { IfOk result (λ totals. length totals.items ≡ to) }
    ensures costs { IfOk result (λ totals. AreCosts (cost_of_step V.levels (unit_of track.now.end) track.now)
        (map N.number totals.items)) }
{
    track.known();
    if to == 0 {
        return Ok(Vec::new(alloc));
    }
    let mut costs = vec![in alloc; 0; to]?;
    costs_to(track, stretches, to, costs.as_mut_slice());
    Ok(totals_of(alloc, &costs)?)
}

/// Of what one step costs up to a break the part from break 0, and from each one behind `cut`.
fn cut_column<N: Total>(alloc: Global, costs: &[N], cut: usize) -> Result<Vec<N>, Memory>
    requires inside { cut < length costs.now }
    ensures count { IfOk result (λ kept. cut + length kept.items ≡ length costs.now) }
    ensures first { IfOk result (λ kept. slice_index (map N.number kept.items) 0 ≡ slice_index (map N.number costs.now) 0) }
    ensures behind { IfOk result (λ kept. (i : ℕ) → cut < i → i < length costs.now
        → slice_index (map N.number kept.items) (i - cut) ≡ slice_index (map N.number costs.now) i) }
{
    let mut kept = Vec::with_capacity(alloc, costs.len() - cut)?;
    kept.push(costs[0])?;
    for i in cut + 1..costs.len() {
        kept.push(costs[i])?;
    }
    Ok(kept)
}

/// Of each column but the first the part from break 0, and from each one behind `cut`.
fn cut_columns<N: Total>(
    alloc: Global,
    columns: &[Vec<N>],
    cut: usize,
) -> Result<Vec<Vec<N>>, Memory>
    requires some { 0 < length columns.now }
    requires wide { (q : ℕ) (column : Vec N) → 1 ≤ q → slice_get columns.now q ≡ Some column → cut < length column.items }
    ensures count { IfOk result (λ kept. length kept.items + 1 ≡ length columns.now) }
    ensures cut { IfOk result (λ kept. (k : ℕ) (part : Vec N) → slice_get kept.items k ≡ Some part
        → (cost : ℕ → ℕ → ℕ) (column : Vec N) → slice_get columns.now (k + 1) ≡ Some column
        → AreCosts cost (map N.number column.items) → AreCut cost cut (length column.items) (map N.number part.items)) }
{
    let mut kept = Vec::with_capacity(alloc, columns.len() - 1)?;
    for column in 1..columns.len() {
        kept.push(cut_column(alloc, columns[column].as_slice(), cut)?)?;
    }
    Ok(kept)
}

/// Begins columns, four by four.
fn begin_part<V: Level, N: Total>(
    alloc: Global,
    track: &Runs<V>,
    stretches: &[(Stretch, V)],
    firsts: &[usize],
    rows: &[Vec<N>],
    span: Span,
) -> Result<Vec<Group<N>>, Memory>
    requires stretches { AreStretches V.levels (unit_of track.now.end) track.now stretches.now }
    requires room { length stretches.now ≤ length firsts.now }
    requires firsts { AreLowFrom V.levels (unit_of track.now.end) track.now stretches.now (length stretches.now)
        (slice_index firsts.now) }
    requires some { 0 < length rows.now }
    requires filled { AreFilled (cost_of_step V.levels (unit_of track.now.end) track.now) (length rows.now)
        (row_in N.number rows.now) span.known }
    requires behind { span.known ≤ span.from }
    requires rises { span.from ≤ span.end }
    requires inside { span.end ≤ length stretches.now }
    requires small { (i to : ℕ) → i < to → to ≤ length stretches.now
        → cost_of_step V.levels (unit_of track.now.end) track.now i to ≤ N.most }
    ensures { IfOk result (λ groups. IsPart V.levels track.now N.number rows.now span.known span.from span.end groups.items) }
{
    let mut groups = Vec::with_capacity(alloc, PART / FOUR)?;
    let mut used = Vec::new(alloc);
    let mut before = totals_to(alloc, track, stretches, span.from)?;
    while before.len() < span.end {
        let rooms = rooms_for(
            alloc,
            used,
            FOUR.min(span.end - before.len()),
            stretches.len(),
        )?;
        let mut columns = costs_from(alloc, track, stretches, firsts, before, rooms)?;
        let least = begin_four(alloc, rows, &columns)?;
        let kept = cut_columns(alloc, &columns, span.known)?;
        groups.push(Group {
            columns: kept,
            least,
        })?;
        before = match columns.pop() {
            Some(last) => last,
            None => unreachable!(),
        };
        used = columns;
    }
    Ok(groups)
}

/// How many parts a thread begins at least, of so many: the same number for each processor. Where few breaks have prices
/// one thread begins them all.
fn share_of(rt: &impl Threads, parts: usize, known: usize) -> usize {
    if known < TILE {
        return parts;
    }
    (parts / current_num_threads(rt)).max(1)
}

/// Begins the columns of a tile, part by part, in threads.
fn begin_in_threads<V: Level, N: Total>(
    rt: &(impl Threads + Sync),
    alloc: Global,
    track: &Runs<V>,
    stretches: &[(Stretch, V)],
    firsts: &[usize],
    rows: &[Vec<N>],
    tile: Tile,
) -> Result<Vec<Vec<Group<N>>>, Memory>
    requires stretches { AreStretches V.levels (unit_of track.now.end) track.now stretches.now }
    requires room { length stretches.now ≤ length firsts.now }
    requires firsts { AreLowFrom V.levels (unit_of track.now.end) track.now stretches.now (length stretches.now)
        (slice_index firsts.now) }
    requires some { 0 < length rows.now }
    requires filled { AreFilled (cost_of_step V.levels (unit_of track.now.end) track.now) (length rows.now)
        (row_in N.number rows.now) tile.known }
    requires rises { tile.known ≤ tile.end }
    requires inside { tile.end ≤ length stretches.now }
    requires small { (i to : ℕ) → i < to → to ≤ length stretches.now
        → cost_of_step V.levels (unit_of track.now.end) track.now i to ≤ N.most }
    ensures { IfOk result (λ parts. ArePartsOf N.number rows.now (cost_of_step V.levels (unit_of track.now.end) track.now)
        tile.known tile.end parts.items) }
{
    let count = (tile.end - tile.known + PART - 1) / PART;
    let parts: Result<Vec<Vec<Group<N>>>, Memory> = (0..count)
        .into_par_iter()
        .with_min_len(share_of(rt, count, tile.known))
        .map(
            |part: usize| -> Result<Vec<Group<N>>, Memory>
                requires stretches { AreStretches V.levels (unit_of track.now.end) track.now stretches.now }
                requires room { length stretches.now ≤ length firsts.now }
                requires firsts { AreLowFrom V.levels (unit_of track.now.end) track.now stretches.now (length stretches.now)
                    (slice_index firsts.now) }
                requires some { 0 < length rows.now }
                requires filled { AreFilled (cost_of_step V.levels (unit_of track.now.end) track.now) (length rows.now)
                    (row_in N.number rows.now) tile.known }
                requires rises { tile.known + PART * part ≤ tile.end }
                requires inside { tile.end ≤ length stretches.now }
                requires small { (i to : ℕ) → i < to → to ≤ length stretches.now
                    → cost_of_step V.levels (unit_of track.now.end) track.now i to ≤ N.most }
                ensures { IfOk result (λ groups. IsPart V.levels track.entry.now N.number rows.entry.now tile.known
                    (tile.known + 32 * part) (min tile.end (tile.known + 32 * part + 32)) groups.items) }
            {
                let from = tile.known + PART * part;
                let span = Span {
                    known: tile.known,
                    from,
                    end: tile.end.min(from + PART),
                };
                begin_part(alloc, track, stretches, firsts, rows, span)
            },
        )
        .collect(rt, alloc)?;
    parts
}

/// Finishes the columns behind break `known` up to `end`, which are begun.
fn fill_tile<V: Level, N: Total>(
    track: &Runs<V>,
    rows: &mut Vec<Vec<N>>,
    known: usize,
    end: usize,
    parts: &[Vec<Group<N>>],
) -> Result<(), Memory>
    requires some { 0 < length rows.old.items }
    requires rises { known ≤ end }
    requires filled { AreFilled (cost_of_step V.levels (unit_of track.now.end) track.now)
        (length rows.old.items) (row_in N.number rows.old.items) known }
    requires begun { ArePartsOf N.number rows.old.items (cost_of_step V.levels (unit_of track.now.end) track.now) known end parts.now }
    requires small { (i to : ℕ) → i < to → to ≤ end
        → cost_of_step V.levels (unit_of track.now.end) track.now i to ≤ N.most }
    ensures size { length rows.new.items ≡ length rows.old.items }
    ensures filled { OnOk result (AreFilled (cost_of_step V.levels (unit_of track.now.end) track.now)
        (length rows.old.items) (row_in N.number rows.new.items) end) }
{
    for column in 0..end - known {
        let group = &parts[column / PART][column % PART / FOUR];
        let place = column % FOUR;
        let costs = group.columns[place].as_slice();
        let least = group.least.as_slice();
        let begun = Begun {
            known,
            cut: known,
            index: place,
        };
        add_begun(track, rows, begun, costs, least)?;
    }
    Ok(())
}

/// Fills rows, which are empty, with the prices up to each break but the first, a tile of columns at a time.
pub(crate) fn fill_in_threads<V: Level, N: Total>(
    rt: &(impl Threads + Sync),
    alloc: Global,
    track: &Runs<V>,
    stretches: &[(Stretch, V)],
    rows: &mut Vec<Vec<N>>,
) -> Result<(), Memory>
    requires stretches { AreStretches V.levels (unit_of track.now.end) track.now stretches.now }
    requires some { 0 < length rows.old.items }
    requires empty { (j : ℕ) → row_in N.number rows.old.items j ≡ [] }
    requires small { (i to : ℕ) → i < to → to ≤ length stretches.now
        → cost_of_step V.levels (unit_of track.now.end) track.now i to ≤ N.most }
    ensures size { length rows.new.items ≡ length rows.old.items }
    ensures filled { OnOk result (AreFilled (cost_of_step V.levels (unit_of track.now.end) track.now)
        (length rows.old.items) (row_in N.number rows.new.items) (length stretches.now)) }
{
    track.known();
    let firsts = firsts_of(alloc, track, stretches)?;
    let mut known = 0;
    while known < stretches.len() {
        let end = stretches.len().min(known + TILE);
        let tile = Tile { known, end };
        let parts = begin_in_threads(rt, alloc, track, stretches, &firsts, rows.as_slice(), tile)?;
        fill_tile(track, rows, known, end, &parts)?;
        known = end;
    }
    Ok(())
}
