//! Stretches, walked backwards.
ghost use Rattle.std.specs.Prelude.{◌≡◌, ℕ, ◌+◌, ◌%◌, ◌<◌, ◌≤◌, length, slice_index, Some, None};
ghost use Rattle.rbc_model.specs.declared.limits.TheConstants.{LONGEST_TRACK, TEN_METRES};
ghost use Rattle.rbc_table_laws.specs.Breaks.{breaks_in};
ghost use Rattle.rbc_table_laws.specs.Stretches.{break_before};
ghost use Rattle.rbc_stretches.specs.OnTracks.{IsStretch};

use crate::Stretch;
use crate::breaks::edge;
use rbc_steps::{Level, Runs};

/// The run that has the metre; the run `last` starts there or behind, or has it.
fn run_up_to<V: Level>(track: &Runs<V>, last: usize, metre: u32) -> usize
    requires inside { last < length track.now.steps }
    requires high { metre < slice_index (breaks_in track.now) (last + 1) }
    ensures inside { result < length track.now.steps }
    ensures low { slice_index (breaks_in track.now) result ≤ metre }
    ensures high { metre < slice_index (breaks_in track.now) (result + 1) }
{
    track.known();
    let mut run = last;
    while metre < edge(track, run) {
        run -= 1;
    }
    run
}

/// The break before a metre, where the run of the metre before it starts.
fn break_before(unit: u32, metre: u32, start: u32) -> u32
    requires some { 0 < unit }
    requires few { unit ≤ TEN_METRES }
    requires start { start ≤ LONGEST_TRACK }
    ensures { result ≡ break_before unit metre start }
{
    let up = (start + (unit - 1)) / unit * unit;
    if up < metre { up } else { start / unit * unit }
}

/// The stretch before another, if it is not the first one.
pub fn stretch_before<V: Level>(track: &Runs<V>, unit: u32, stretch: Stretch) -> Option<Stretch>
    requires some { 0 < unit }
    requires few { unit ≤ TEN_METRES }
    requires whole { track.now.end % unit ≡ 0 }
    requires stretch { (i : ℕ) × IsStretch unit track.now i stretch }
    ensures before { (i : ℕ) (next : Stretch) → IsStretch unit track.now (i + 1) stretch → result ≡ Some next → IsStretch unit track.now i next }
    ensures first { (i : ℕ) → IsStretch unit track.now i stretch → result ≡ None → i ≡ 0 }
{
    track.known();
    if stretch.from == 0 {
        return None;
    }
    let run = run_up_to(track, stretch.first, stretch.from - 1);
    let from = break_before(unit, stretch.from, edge(track, run));
    Some(Stretch {
        from,
        to: stretch.from,
        first: run_up_to(track, run, from),
    })
}
