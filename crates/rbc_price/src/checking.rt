//! The check of a table.
ghost use Rattle.std.specs.Prelude.{◌≡◌, ◌↔◌, Ok, OnOk};
ghost use Rattle.rbc_model.specs.Profiles.{IsBestProfile, value_at};
ghost use Rattle.rbc_model.specs.PriceChecks.{price_check, IsCertificate};
ghost use Rattle.rbc_model.specs.Scales.{unit_of};
ghost use Rattle.rbc_table_laws.specs.PriceRows.{prices_of};

use crate::above::stays_below;
use crate::columns::column_count;
use crate::inequalities::has_no_high_price;
use crate::shape::has_shape;
use rbc_costs::{Priced, price_at};
use rbc_model::Reason;
use rbc_steps::{Profile, Runs};
use std::alloc::Global;

/// A table of prices: a row for each number of steps from 1, and in it a price for each break of the track but the
/// first: what this number of steps loses at least up to there. The breaks are where runs start and where the track ends;
/// where it ends beyond 32,000 m each start gives two, rounded down and up to a multiple of ten.
pub type Prices = Vec<Vec<u64>>;

/// The first reason against the profile, test by test.
fn judge<V: Priced>(
    alloc: Global,
    track: &Runs<V>,
    limit: usize,
    profile: &Profile<V>,
    rows: &[Vec<u64>],
) -> Result<(), Reason>
    ensures { result ≡ price_check V.levels limit track.now profile.now (prices_of rows.now) }
{
    if !has_shape(track, limit, profile, rows) {
        return Err(Reason::Shape);
    }
    let columns = column_count(track);
    stays_below(track, profile)?;
    has_no_high_price(alloc, track, rows)?;
    if profile.loss(track) != price_at(rows, rows.len(), columns) {
        return Err(Reason::NotAttained);
    }
    if profile.steps().len() > limit {
        return Err(Reason::Steps);
    }
    Ok(())
}

/// Whether the prices show that the profile is a best one for the track, of at most `limit` steps. It asks
/// for memory to be fast, and answers the same where there is none.
///
/// Where it answers Ok no profile of at most `limit` steps that is above the track at no metre loses less than this
/// one, wherever it is cut: at any metre up to an end of 32,000 m, and at multiples of ten metres beyond.
///
/// # Errors
///
/// - `Shape`: `limit` is not 1 to 31, the two end at two metres, they end beyond 32,000 m and the end or a start of the
///   profile is no multiple of ten, or there is not a row for each number of steps up to `limit` and up to the number of
///   the track's stretches from break to break, each with a price for each break but the first.
/// - `Above`: the profile is above the track at this metre, the first such one.
/// - `Inequality`: this price is too high, the first such one by row, then by break, then by the break before.
/// - `NotAttained`: the profile does not lose what the last price of the last row says.
/// - `Steps`: the profile has more than `limit` steps.
pub fn check<V: Priced>(
    alloc: Global,
    track: &Runs<V>,
    limit: usize,
    profile: &Profile<V>,
    prices: &Prices,
) -> Result<(), Reason>
    ensures verdict { result ≡ price_check V.levels limit track.now profile.now (prices_of prices.now.items) }
    ensures certified { result ≡ Ok tt
        ↔ IsCertificate V.levels limit track.now profile.now (prices_of prices.now.items) }
    ensures best { OnOk result
        (IsBestProfile V.levels (unit_of track.now.end) limit track.now.end (value_at track.now.steps) profile.now.steps) }
{
    track.known();
    profile.known();
    judge(alloc, track, limit, profile, prices.as_slice())
}
