//! The stretches of a track, each with its least value.
ghost use Rattle.std.specs.Prelude.{◌≡◌, ◌%◌, IfOk};
ghost use Rattle.rbc_model.specs.Scales.{unit_of};
ghost use Rattle.rbc_costs.specs.Stretches.{AreStretches};

use rbc_model::Memory;
use rbc_model::scales::unit_of;
use rbc_steps::{Level, Runs};
use rbc_stretches::{Stretch, first_stretch, least_on, stretch_behind};
use std::alloc::Global;

/// The stretches of a track from its start to its end, each with its least value.
pub fn stretches_of<V: Level>(alloc: Global, track: &Runs<V>) -> Result<Vec<(Stretch, V)>, Memory>
    requires whole { track.now.end % unit_of track.now.end ≡ 0 }
    ensures { IfOk result (λ stretches. AreStretches V.levels (unit_of track.now.end) track.now stretches.items) }
{
    track.known();
    let unit = unit_of(track.end());
    let mut stretches = Vec::with_capacity(alloc, track.runs().len())?;
    let mut next = Some(first_stretch(track, unit));
    while let Some(stretch) = next {
        stretches.push((stretch, least_on(track, stretch)))?;
        next = stretch_behind(track, unit, stretch);
    }
    Ok(stretches)
}
