//! Edges of runs, and breaks.
ghost use Rattle.std.specs.Prelude.{◌≡◌, ◌+◌, ◌<◌, ◌≤◌, length, slice_index};
ghost use Rattle.rbc_model.specs.declared.limits.TheConstants.{LONGEST_TRACK, TEN_METRES};
ghost use Rattle.rbc_table_laws.specs.Breaks.{breaks_in};
ghost use Rattle.rbc_table_laws.specs.Stretches.{break_behind};

use rbc_steps::{Level, Runs};

/// Where the run of this index starts, or where the track ends.
pub(crate) fn edge<V: Level>(track: &Runs<V>, index: usize) -> u32
    requires { index ≤ length track.now.steps }
    ensures edge { result ≡ slice_index (breaks_in track.now) index }
    ensures at_most { result ≤ track.now.end }
{
    track.known();
    match track.runs().get(index) {
        Some(run) => run.0,
        None => track.end(),
    }
}

/// The run that has the metre; the run `first` starts there or before.
pub(crate) fn run_from<V: Level>(track: &Runs<V>, first: usize, metre: u32) -> usize
    requires inside { first < length track.now.steps }
    requires low { slice_index (breaks_in track.now) first ≤ metre }
    requires before_end { metre < track.now.end }
    ensures inside { result < length track.now.steps }
    ensures low { slice_index (breaks_in track.now) result ≤ metre }
    ensures high { metre < slice_index (breaks_in track.now) (result + 1) }
{
    track.known();
    let mut run = first;
    while edge(track, run + 1) <= metre {
        run += 1;
    }
    run
}

/// The break behind a metre whose run stops there.
pub(crate) fn break_behind(unit: u32, metre: u32, stop: u32) -> u32
    requires some { 0 < unit }
    requires few { unit ≤ TEN_METRES }
    requires stop { stop ≤ LONGEST_TRACK }
    ensures { result ≡ break_behind unit metre stop }
{
    let down = stop / unit * unit;
    if metre < down {
        down
    } else {
        (stop + (unit - 1)) / unit * unit
    }
}
