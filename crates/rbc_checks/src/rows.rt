//! The rows of a block.

ghost use Rattle.std.specs.Prelude.{◌≡◌, [], ◌∷◌, ◌++◌, true, None, MatchResult, option_map};
ghost use Rattle.rbc_model.specs.CheckText.{PriceLine, rows_of};
ghost use Rattle.rbc_table_laws.specs.PriceRows.{prices_of};
ghost use Rattle.rbc_checks.specs.Lines.{line_view};
ghost use Rattle.rbc_checks.specs.Rows.{row_lines, row_in};

use crate::{CheckLine, Spare};
use rbc_price::Prices;
use std::marker::Model;

/// The rows of a block, in the order in which they are told. Those under the numbers from 1 on make a table of prices;
/// from the first one that does not go on with it the lines are kept as they are.
#[derive(Drop)]
pub struct Rows {
    table: Prices,
    others: Vec<CheckLine>,
}

impl Model for Rows {
    ghost use Rattle.std.specs.Prelude.{◌≡◌, ◌+◌, List, length};
    ghost use Rattle.rbc_model.specs.CheckText.{CheckLine as Said, rows_of};
    ghost use Rattle.rbc_checks.specs.Lines.{lines_view};
    ghost use Rattle.rbc_checks.specs.Rows.{row_lines, no_rows};

    ghost Value = { List Said };

    ghost view = { λ r. row_lines r.table.items r.others.items };

    ghost invariant = { λ r. rows_of (length r.table.items + 1) (lines_view r.others.items) ≡ no_rows r.others.items };
}

impl Rows {
    /// No row yet.
    pub(crate) fn new(spare: &mut Spare) -> Rows
        ensures { result ≡ [] }
    {
        Rows {
            table: spare.table(),
            others: Vec::new(spare.alloc()),
        }
    }

    /// Puts a line behind the rows, and answers whether there was memory for it.
    #[inline(always)]
    pub(crate) fn push(&mut self, line: CheckLine) -> bool
        ensures { result ≡ true → self.new ≡ self.old ++ line_view line ∷ [] }
    {
        if !self.others.is_empty() {
            return self.others.push(line).is_ok();
        }
        match row_of(line, self.table.len() as u64 + 1) {
            Ok(prices) => self.table.push(prices).is_ok(),
            Err(other) => self.others.push(other).is_ok(),
        }
    }

    /// The table, if all rows are told under the numbers from 1 on.
    pub(crate) fn table(&self) -> Option<&Prices>
        ensures { option_map (λ table. prices_of table.now.items) result ≡ rows_of 1 self.now }
    {
        if self.others.is_empty() {
            Some(&self.table)
        } else {
            None
        }
    }

    /// The table, whatever stands behind it.
    pub(crate) fn into_table(self) -> Prices {
        self.table
    }

    /// The rows of the table, from number 1 on, and the lines behind them.
    pub fn parts(&self) -> (&[Vec<u64>], &[CheckLine])
        ensures { self.now ≡ row_lines result.0.now result.1.now }
    {
        (self.table.as_slice(), self.others.as_slice())
    }
}

/// The prices of a row, if the line is one and is told under this number; or the line.
fn row_of(line: CheckLine, number: u64) -> Result<Vec<u64>, CheckLine>
    ensures { MatchResult result (λ prices. line_view line ≡ PriceLine number prices.items)
        (λ other. (other ≡ line) × (row_in number (line_view line) ≡ None)) }
{
    match line {
        CheckLine::Row(row) if row.number == number => Ok(row.prices),
        other => Err(other),
    }
}
