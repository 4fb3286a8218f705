//! What one step costs from a break up to another.
ghost use Rattle.std.specs.Prelude.{◌≡◌, ℕ, ◌+◌, ◌-◌, ◌*◌, ◌<◌, ◌≤◌, length, slice_index};
ghost use Rattle.rbc_model.specs.Scales.{unit_of};
ghost use Rattle.rbc_model.specs.declared.limits.TheConstants.{MOST_PRICE};
ghost use Rattle.rbc_table_laws.specs.Breaks.{IsLowest};
ghost use Rattle.rbc_table_laws.specs.Stretches.{breaks_for, cost_of_step};
ghost use Rattle.rbc_stretches.specs.OnTracks.{IsOnTrack, IsStretch};
ghost use Rattle.rbc_costs.specs.Stretches.{AreStretches, IsLostByFloor};

use rbc_steps::{Level, Runs};
use rbc_stretches::{Stretch, is_at_most, price_on};

/// The least value from one break up to another.
pub fn least_of<V: Level>(track: &Runs<V>, stretches: &[(Stretch, V)], from: usize, to: usize) -> V
    requires stretches { AreStretches V.levels (unit_of track.now.end) track.now stretches.now }
    requires rises { from < to }
    requires inside { to ≤ length stretches.now }
    ensures { IsLowest V.levels track.now (slice_index (breaks_for (unit_of track.now.end) track.now) from)
        (slice_index (breaks_for (unit_of track.now.end) track.now) to) result }
{
    track.known();
    let mut least = stretches[to - 1].1;
    for i in (from..to - 1).rev() {
        let here = stretches[i].1;
        if !is_at_most(least, here) {
            least = here;
        }
    }
    least
}

/// The least value where one stretch more stands in front, and what its floor loses up to `end`; `least` and `lost` are
/// both from the stretch behind on.
pub fn further<V: Level>(
    track: &Runs<V>,
    end: u32,
    least: V,
    lost: u64,
    front: (Stretch, V),
) -> (V, u64)
    requires on_track { IsOnTrack track.now front.0 }
    requires inside { end ≤ track.now.end }
    requires front { IsLowest V.levels track.now front.0.from front.0.to front.1 }
    requires least { IsLowest V.levels track.now front.0.to end least }
    requires lost { IsLostByFloor V.levels track.now front.0.to end least lost }
    ensures least { IsLowest V.levels track.now front.0.from end result.0 }
    ensures lost { IsLostByFloor V.levels track.now front.0.from end result.0 result.1 }
{
    track.known();
    if is_at_most(least, front.1) {
        return (least, lost + price_on(track, front.0, least.floor()));
    }
    let whole = Stretch {
        from: front.0.from,
        to: end,
        first: front.0.first,
    };
    (front.1, price_on(track, whole, front.1.floor()))
}

/// The last stretch before a break, its least value, and what the floor of that loses on it.
struct Last<V: Level> {
    stretch: Stretch,
    least: V,
    lost: u64,
}

/// The last stretch before the break `to`.
fn last_before<V: Level>(track: &Runs<V>, stretches: &[(Stretch, V)], to: usize) -> Last<V>
    requires stretches { AreStretches V.levels (unit_of track.now.end) track.now stretches.now }
    requires some { 0 < to }
    requires inside { to ≤ length stretches.now }
    ensures stretch { IsStretch (unit_of track.now.end) track.now (to - 1) result.stretch }
    ensures least { IsLowest V.levels track.now (slice_index (breaks_for (unit_of track.now.end) track.now) (to - 1))
        (slice_index (breaks_for (unit_of track.now.end) track.now) to) result.least }
    ensures lost { IsLostByFloor V.levels track.now (slice_index (breaks_for (unit_of track.now.end) track.now) (to - 1))
        (slice_index (breaks_for (unit_of track.now.end) track.now) to) result.least result.lost }
{
    track.known();
    let last = stretches[to - 1];
    Last {
        stretch: last.0,
        least: last.1,
        lost: price_on(track, last.0, last.1.floor()),
    }
}

/// Writes what one step costs from each break before `to` up to there, whatever `costs` has: what it costs from the break
/// behind and what is lost on the stretch between, or anew where the least value falls.
pub fn costs_to<V: Level>(track: &Runs<V>, stretches: &[(Stretch, V)], to: usize, costs: &mut [u64])
    requires stretches { AreStretches V.levels (unit_of track.now.end) track.now stretches.now }
    requires some { 0 < to }
    requires inside { to ≤ length stretches.now }
    requires room { to ≤ length costs.old }
    ensures costs { (i : ℕ) → i < to
        → slice_index costs.new i ≡ cost_of_step V.levels (unit_of track.now.end) track.now i to }
    ensures bound { (i : ℕ) → i < to
        → slice_index costs.new i ≤ slice_index (breaks_for (unit_of track.now.end) track.now) to * MOST_PRICE }
{
    track.known();
    let Last {
        stretch: last,
        mut least,
        mut lost,
    } = last_before(track, stretches, to);
    costs[to - 1] = lost;
    for i in (0..to - 1).rev() {
        let lowest = further(track, last.to, least, lost, stretches[i]);
        least = lowest.0;
        lost = lowest.1;
        costs[i] = lost;
    }
}
