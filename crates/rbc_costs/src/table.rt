//! The prices of a table.
ghost use Rattle.std.specs.Prelude.{◌≡◌, ℕ, ◌≤◌, length};
ghost use Rattle.rbc_model.specs.PriceTables.{table_at};
ghost use Rattle.rbc_table_laws.specs.PriceRows.{prices_of, AreAsWideAs};

/// The price in the row of this number of steps and in this column; nothing is lost by no steps, or up to break 0.
pub fn price_at(rows: &[Vec<u64>], steps: usize, column: usize) -> u64
    requires inside { steps ≤ length rows.now }
    requires wide { AreAsWideAs column rows.now }
    ensures { result ≡ table_at (prices_of rows.now) steps column }
{
    if steps == 0 || column == 0 {
        return 0;
    }
    rows[steps - 1][column - 1]
}
