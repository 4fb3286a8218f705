//! Stretches.
ghost use Rattle.std.specs.Prelude.{◌≡◌, ℕ, ◌+◌, ◌%◌, ◌<◌, ◌≤◌, length, Some, None};
ghost use Rattle.rbc_model.specs.declared.limits.TheConstants.{TEN_METRES};
ghost use Rattle.rbc_table_laws.specs.Stretches.{breaks_for};
ghost use Rattle.rbc_stretches.specs.OnTracks.{IsStretch};

use crate::breaks::{break_behind, edge, run_from};
use rbc_steps::{Level, Runs};

/// A stretch of a track, from one break up to the next. The run of the index `first` has its first metre.
#[derive(Clone, Copy, Debug, PartialEq, Eq)]
pub struct Stretch {
    pub from: u32,
    pub to: u32,
    pub first: usize,
}

/// The first stretch of a track.
pub fn first_stretch<V: Level>(track: &Runs<V>, unit: u32) -> Stretch
    requires some { 0 < unit }
    requires few { unit ≤ TEN_METRES }
    requires whole { track.now.end % unit ≡ 0 }
    ensures { IsStretch unit track.now 0 result }
{
    track.known();
    Stretch {
        from: 0,
        to: break_behind(unit, 0, edge(track, 1)),
        first: 0,
    }
}

/// The stretch behind another, if it is not the last one.
pub fn stretch_behind<V: Level>(track: &Runs<V>, unit: u32, stretch: Stretch) -> Option<Stretch>
    requires some { 0 < unit }
    requires few { unit ≤ TEN_METRES }
    requires whole { track.now.end % unit ≡ 0 }
    requires stretch { (i : ℕ) × IsStretch unit track.now i stretch }
    ensures behind { (i : ℕ) (next : Stretch) → IsStretch unit track.now i stretch → result ≡ Some next → IsStretch unit track.now (i + 1) next }
    ensures last { (i : ℕ) → IsStretch unit track.now i stretch → result ≡ None → i + 2 ≡ length (breaks_for unit track.now) }
{
    track.known();
    if stretch.to >= track.end() {
        return None;
    }
    let first = run_from(track, stretch.first, stretch.to);
    Some(Stretch {
        from: stretch.to,
        to: break_behind(unit, stretch.to, edge(track, first + 1)),
        first,
    })
}
