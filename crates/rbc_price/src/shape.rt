//! The shape of a table, and its prices.
ghost use Rattle.std.specs.Prelude.{◌≡◌, ℕ, ◌<◌, ◌≤◌, length, ◌==◌};
ghost use Rattle.std.specs.List.{list_all};
ghost use Rattle.rbc_model.specs.Profiles.{are_multiples, starts_of};
ghost use Rattle.rbc_model.specs.PriceChecks.{has_shape};
ghost use Rattle.rbc_table_laws.specs.PriceRows.{prices_of};

use crate::columns::column_count;
use rbc_model::limits::MOST_STEPS;
use rbc_model::scales::unit_of;
use rbc_steps::{Level, Profile, Runs};

/// Whether each row has this number of prices.
fn are_wide(rows: &[Vec<u64>], width: usize) -> bool
    ensures { result ≡ list_all (λ row. length row == width) (prices_of rows.now) }
{
    for row in rows {
        if row.len() != width {
            return false;
        }
    }
    true
}

/// Whether each step starts at a multiple of the unit.
fn are_in_units<V: Level>(profile: &Profile<V>, unit: u32) -> bool
    requires { 0 < unit }
    ensures { result ≡ are_multiples unit (starts_of profile.now.steps) }
{
    for step in profile.steps() {
        if step.0 % unit != 0 {
            return false;
        }
    }
    true
}

/// Whether the limit is one, the two have one end, it and the profile's cuts are multiples of the unit, and the rows and
/// their prices are as many as they have to be.
pub(crate) fn has_shape<V: Level>(
    track: &Runs<V>,
    limit: usize,
    profile: &Profile<V>,
    rows: &[Vec<u64>],
) -> bool
    ensures { result ≡ has_shape V.levels limit track.now profile.now (prices_of rows.now) }
{
    let end = track.end();
    if limit < 1 || limit > MOST_STEPS || end != profile.end() {
        return false;
    }
    let unit = unit_of(end);
    if end % unit != 0 || !are_in_units(profile, unit) {
        return false;
    }
    let columns = column_count(track);
    rows.len() == limit.min(columns) && are_wide(rows, columns)
}
