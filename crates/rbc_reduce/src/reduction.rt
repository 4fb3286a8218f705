//! The chosen profile of few steps.
ghost use Rattle.std.specs.Prelude.{◌≡◌, ℕ, ◌%◌, ◌≤◌, List, IfOk, length};
ghost use Rattle.rbc_model.specs.Profiles.{IsBestProfile, IsChosenProfile, loss, value_at};
ghost use Rattle.rbc_model.specs.PriceTables.{IsGreatestSoundTable};
ghost use Rattle.rbc_model.specs.Scales.{unit_of};
ghost use Rattle.rbc_model.specs.declared.limits.TheConstants.{MOST_STEPS};
ghost use Rattle.rbc_table_laws.specs.PriceRows.{prices_of};

use crate::fill::fill;
use crate::traceback::steps_of;
use rbc_costs::{Priced, stretches_of};
use rbc_model::Memory;
use rbc_steps::{Level, Profile, Runs};
use std::alloc::Global;
use std::thread::Threads;

/// The profile that was chosen for a track, and what it loses.
#[derive(Drop)]
pub struct Reduced<V: Level> {
    /// The profile.
    pub profile: Profile<V>,
    /// The sum over the metres of what the profile loses there.
    pub loss: u64,
    /// The table of prices that shows that no profile loses less: a row for each number of steps from 1, and in it the
    /// least that this number of steps loses up to each break of the track, from the first break behind 0.
    pub prices: Vec<Vec<u64>>,
}

/// The profile of 1 to `limit` steps that the rules choose for the track: no profile of at most `limit` steps that is
/// above the track at no metre loses less, with cuts at any metre that a message can give. Of the profiles that lose as
/// little it has the fewest steps, and of those that have as few, its starts, read from the last one backwards, come
/// first. A message counts the metres of a track that ends behind 32,000 m in tens, so such a track has to end at a ten.
///
/// The table is filled four breaks at a time, and what one step costs is held up to those alone. So it holds 12 bytes for
/// each price of the table while it works, and some 50 bytes for each run: 1.4 MB for 3,100 runs and 31 steps, and up to
/// twice as much where it cuts at tens. A wide table is filled in threads, tile by tile, where there is more than one processor:
/// then each thread holds what one step costs up to four breaks of its own, some 30 bytes for each stretch, and a tile takes
/// 0.2 MB.
///
/// # Errors
/// `Memory` is the only one.
pub fn reduce<V: Priced>(
    rt: &(impl Threads + Sync),
    alloc: Global,
    track: &Runs<V>,
    limit: usize,
) -> Result<Reduced<V>, Memory>
    requires some { 1 ≤ limit }
    requires few { limit ≤ MOST_STEPS }
    requires whole { track.now.end % unit_of track.now.end ≡ 0 }
    ensures best { IfOk result
        (λ r. IsBestProfile V.levels (unit_of track.now.end) limit track.now.end (value_at track.now.steps) r.profile.steps) }
    ensures fewest { IfOk result
        (λ r. (other : List (ℕ × V)) → IsBestProfile V.levels (unit_of track.now.end) limit track.now.end (value_at track.now.steps) other
        → length r.profile.steps ≤ length other) }
    ensures chosen { IfOk result
        (λ r. IsChosenProfile V.levels (unit_of track.now.end) limit track.now.end (value_at track.now.steps) r.profile.steps) }
    ensures end { IfOk result (λ r. r.profile.end ≡ track.now.end) }
    ensures loss { IfOk result
        (λ r. r.loss ≡ loss V.levels track.now.end (value_at track.now.steps) r.profile.steps) }
    ensures prices { IfOk result
        (λ r. IsGreatestSoundTable V.levels (unit_of track.now.end) limit track.now.end track.now.steps (prices_of r.prices.items)) }
{
    track.known();
    let end = track.end();
    let stretches = stretches_of(alloc, track)?;
    let prices = fill(rt, alloc, track, &stretches, limit)?;
    let steps = steps_of(alloc, track, &stretches, &prices, limit)?;
    match Profile::new(&steps, end) {
        Ok(profile) => {
            let loss = profile.loss(track);
            Ok(Reduced {
                profile,
                loss,
                prices,
            })
        }
        Err(_) => unreachable!(),
    }
}
