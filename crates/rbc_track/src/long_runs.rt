//! How long a speed or a gradient lasts.

ghost use Rattle.std.specs.Prelude.{◌≡◌, ◌+◌, nat_le};
ghost use Rattle.rbc_model.specs.SoundTracks.{are_long, has_long_runs};
ghost use Rattle.rbc_model.specs.declared.limits.TheConstants.{SHORTEST_RUN};

use crate::Section;
use rbc_model::limits::SHORTEST_RUN;
use rbc_steps::Level;

/// Whether a step that starts at one metre and ends at another lasts long enough.
fn is_long(start: u32, end: u32) -> bool
    ensures { result ≡ nat_le (start + SHORTEST_RUN) end }
{
    u64::from(start) + u64::from(SHORTEST_RUN) <= u64::from(end)
}

/// Whether each step lasts long enough, the last one up to the end.
fn are_long<V: Level>(runs: &[(u32, V)], end: u32) -> bool
    ensures { result ≡ are_long end runs.now }
{
    let [first, later @ ..] = runs else {
        return true;
    };
    let mut start = first.0;
    for next in later {
        if !is_long(start, next.0) {
            return false;
        }
        start = next.0;
    }
    is_long(start, end)
}

/// Whether the section's speeds and gradients last long enough.
pub(crate) fn has_long_runs(section: &Section) -> bool
    ensures { result ≡ has_long_runs section.now }
{
    let (speeds, grades) = (section.speeds(), section.grades());
    let end = section.length();
    are_long(speeds.runs(), end) && are_long(grades.runs(), end)
}
