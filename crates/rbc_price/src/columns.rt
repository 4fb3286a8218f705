//! The columns of a table: one for each stretch of the track, from one break to the next. Breaks count from 0.
ghost use Rattle.std.specs.Prelude.{◌≡◌, ℕ, ◌+◌, ◌%◌, ◌<◌, ◌≤◌, length, Some, None, slice_index};
ghost use Rattle.rbc_model.specs.Scales.{unit_of};
ghost use Rattle.rbc_table_laws.specs.Stretches.{breaks_for};
ghost use Rattle.rbc_price.specs.Columns.{IsColumn, stretches_of};

use crate::above::stop;
use rbc_model::scales::unit_of;
use rbc_steps::{Level, Runs};
use rbc_stretches::{Stretch, first_stretch, stretch_before, stretch_behind};

/// A stretch of the track, and the number of the break at which it starts.
#[derive(Clone, Copy, Debug, PartialEq, Eq)]
pub(crate) struct Column {
    pub(crate) index: usize,
    pub(crate) stretch: Stretch,
}

/// The first column.
pub(crate) fn first_column<V: Level>(track: &Runs<V>) -> Column
    requires whole { track.now.end % unit_of track.now.end ≡ 0 }
    ensures column { IsColumn track.now result }
    ensures first { result.index ≡ 0 }
{
    Column {
        index: 0,
        stretch: first_stretch(track, unit_of(track.end())),
    }
}

/// The column of a run where the track is cut at single metres: each run is a stretch.
fn column_of_run<V: Level>(track: &Runs<V>, run: usize) -> Column
    requires unit { unit_of track.now.end ≡ 1 }
    requires inside { run < length track.now.steps }
    ensures column { IsColumn track.now result }
    ensures index { result.index ≡ run }
{
    track.known();
    let runs = track.runs();
    Column {
        index: run,
        stretch: Stretch {
            from: runs[run].0,
            to: stop(runs, run, track.end()),
            first: run,
        },
    }
}

/// The column of the run behind another, if that is not the last one.
fn run_behind<V: Level>(track: &Runs<V>, run: usize) -> Option<Column>
    requires unit { unit_of track.now.end ≡ 1 }
    requires inside { run < length track.now.steps }
    ensures behind { (next : Column) → result ≡ Some next → IsColumn track.now next }
    ensures index { (next : Column) → result ≡ Some next → next.index ≡ run + 1 }
    ensures last { result ≡ None → run + 1 ≡ length track.now.steps }
{
    if run == track.runs().len() - 1 {
        return None;
    }
    Some(column_of_run(track, run + 1))
}

/// The column behind another, if it is not the last one.
pub(crate) fn column_behind<V: Level>(track: &Runs<V>, column: Column) -> Option<Column>
    requires whole { track.now.end % unit_of track.now.end ≡ 0 }
    requires column { IsColumn track.now column }
    ensures behind { (next : Column) → result ≡ Some next → IsColumn track.now next }
    ensures index { (next : Column) → result ≡ Some next → next.index ≡ column.index + 1 }
    ensures last { result ≡ None → column.index + 1 ≡ stretches_of track.now }
{
    track.known();
    let unit = unit_of(track.end());
    if unit == 1 {
        return run_behind(track, column.index);
    }
    let stretch = stretch_behind(track, unit, column.stretch)?;
    Some(Column {
        index: column.index + 1,
        stretch,
    })
}

/// The column before another, if it is not the first one.
pub(crate) fn column_before<V: Level>(track: &Runs<V>, column: Column) -> Option<Column>
    requires whole { track.now.end % unit_of track.now.end ≡ 0 }
    requires column { IsColumn track.now column }
    ensures before { (next : Column) → result ≡ Some next → IsColumn track.now next }
    ensures index { (next : Column) → result ≡ Some next → next.index + 1 ≡ column.index }
    ensures first { result ≡ None → column.index ≡ 0 }
{
    if column.index == 0 {
        return None;
    }
    track.known();
    let unit = unit_of(track.end());
    if unit == 1 {
        return Some(column_of_run(track, column.index - 1));
    }
    let stretch = stretch_before(track, unit, column.stretch)?;
    Some(Column {
        index: column.index - 1,
        stretch,
    })
}

/// How many prices a row of a table has: one for each break of the track but the first.
pub fn column_count<V: Level>(track: &Runs<V>) -> usize
    requires { track.now.end % unit_of track.now.end ≡ 0 }
    ensures { result ≡ stretches_of track.now }
{
    track.known();
    let end = track.end();
    if unit_of(end) == 1 {
        // Each run is a stretch.
        return track.runs().len();
    }
    let mut last = first_column(track);
    while let Some(next) = column_behind(track, last) {
        last = next;
    }
    last.index + 1
}

/// The metre of a break.
pub(crate) fn metre_of<V: Level>(track: &Runs<V>, index: usize) -> u32
    requires whole { track.now.end % unit_of track.now.end ≡ 0 }
    requires inside { index ≤ stretches_of track.now }
    ensures { result ≡ slice_index (breaks_for (unit_of track.now.end) track.now) index }
{
    let mut column = first_column(track);
    while column.index < index {
        match column_behind(track, column) {
            Some(next) => column = next,
            None => return column.stretch.to,
        }
    }
    column.stretch.from
}
