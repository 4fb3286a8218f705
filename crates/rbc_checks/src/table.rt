//! The profile and the price table of a block, as they are checked.

ghost use Rattle.std.specs.Prelude.{◌≡◌, [], ℤ, Option, Some, option_map, IfOk, slice_index};
ghost use Rattle.rbc_model.specs.Answers.{AnswersOrMemory};
ghost use Rattle.rbc_model.specs.CheckText.{speed_of, steps_of};
ghost use Rattle.rbc_model.specs.PriceTables.{table_at};
ghost use Rattle.rbc_table_laws.specs.PriceRows.{prices_of};
ghost use Rattle.rbc_checks.specs.Tables.{value_in, steps_view};

use rbc_model::Memory;
use rbc_price::Prices;
use rbc_steps::{Grade, Level, Speed};

/// A kind of level whose values are told as whole numbers.
pub(crate) trait ToldLevel: Level {
    /// The value that a number is.
    ghost value_of: { ℤ → Option Self };

    /// The value that a number is, if it is in range.
    fn told(number: i64) -> Option<Self>
        ensures { result ≡ value_in Self.levels value_of number };
}

/// Speeds in km/h.
impl ToldLevel for Speed {
    ghost value_of = { speed_of };

    fn told(number: i64) -> Option<Speed> {
        Speed::new(u16::try_from(number).ok()?)
    }
}

/// Gradients in per mille, downhill below 0.
impl ToldLevel for Grade {
    ghost value_of = { λ number. Some number };

    fn told(number: i64) -> Option<Grade> {
        Grade::new(i16::try_from(number).ok()?)
    }
}

/// Steps (start, value), if the kind has each value, put into an empty list.
pub(crate) fn steps_of<V: ToldLevel>(
    mut steps: Vec<(u32, V)>,
    told: &[(u32, i64)],
) -> Result<Option<Vec<(u32, V)>>, Memory>
    requires { steps.items ≡ [] }
    ensures { IfOk result (λ steps. option_map steps_view steps ≡ steps_of V.levels V.value_of told.now) }
{
    for step in told {
        let Some(value) = V::told(step.1) else {
            return Ok(None);
        };
        steps.push((step.0, value))?;
    }
    Ok(Some(steps))
}

/// The price in the row of this number of steps and in this column; nothing is lost by no steps, or up to break 0.
pub(crate) fn price_at(rows: &Prices, steps: usize, column: usize) -> u64
    ensures { result ≡ table_at (prices_of rows.now.items) steps column }
{
    if steps == 0 || column == 0 {
        return 0;
    }
    match rows.get(steps - 1) {
        Some(row) => price_in(row, column - 1),
        None => 0,
    }
}

/// The price at a place of a row, or 0 if the row ends before it.
fn price_in(row: &[u64], place: usize) -> u64
    ensures { result ≡ slice_index row.now place }
{
    row.get(place).copied().unwrap_or(0)
}
