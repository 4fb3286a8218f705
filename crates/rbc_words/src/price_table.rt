//! Tables of prices, printed.

ghost use Rattle.std.specs.Prelude.{◌≡◌, ◌+◌, ◌*◌, ◌≤◌, ◌∷◌, ◌++◌, map, codes, decimal, length};
ghost use Rattle.rbc_streams.specs.Emitting.{Emits};
ghost use Rattle.rbc_model.specs.Words.{line_of};
ghost use Rattle.rbc_words.specs.PriceText.{spaced, prices_text};

use crate::tail_buffer::TailBuffer;
use rbc_streams::{Sink, emit};

/// Writes a table of prices, a line for each row, counted from 1.
pub(crate) fn emit_table<W: Sink>(rows: &[Vec<u64>], writer: &mut W)
    ensures { Emits W.written W.failed writer.old writer.new
        (prices_text rows.now) }
{
    let mut number = 0;
    for row in rows {
        number += 1;
        emit_row(number, row.as_slice(), writer);
    }
}

/// Writes the line of a row: its number, and its prices.
fn emit_row<W: Sink>(number: u64, row: &[u64], writer: &mut W)
    ensures { Emits W.written W.failed writer.old writer.new
        (line_of (codes "prices" ∷ decimal number ∷ map decimal row.now)) }
{
    let mut text = TailBuffer::new();
    if row.len() > SHORT {
        gather_head(number, &mut text);
        emit(writer, text.bytes());
        emit_prices(row, writer);
        emit(writer, b"\n");
        return;
    }
    text.byte(b'\n');
    gather_prices(row, &mut text);
    gather_head(number, &mut text);
    emit(writer, text.bytes());
}

/// How many prices a row has at most whose line is written at once.
const SHORT: usize = 10;

/// Puts how the line of the row of this number begins before a text.
#[inline(always)]
fn gather_head(number: u64, text: &mut TailBuffer)
    requires { length text.old + 27 ≤ 256 }
    ensures { text.new ≡ codes "prices " ++ (decimal number ++ text.old) }
{
    text.number(number);
    text.text(b"prices ");
}

/// How many prices are written at once.
const PIECE: usize = 12;

/// Writes prices, each behind a space.
fn emit_prices<W: Sink>(prices: &[u64], writer: &mut W)
    ensures { Emits W.written W.failed writer.old writer.new
        (spaced (map decimal prices.now)) }
{
    let mut rest = prices;
    while !rest.is_empty() {
        let (piece, more) = rest.split_at(rest.len().min(PIECE));
        emit_piece(piece, writer);
        rest = more;
    }
}

/// Writes a few prices, each behind a space.
fn emit_piece<W: Sink>(piece: &[u64], writer: &mut W)
    requires few { length piece.now ≤ 12 }
    ensures { Emits W.written W.failed writer.old writer.new
        (spaced (map decimal piece.now)) }
{
    let mut text = TailBuffer::new();
    gather_prices(piece, &mut text);
    emit(writer, text.bytes());
}

/// Puts prices, each behind a space, before a text.
#[inline(always)]
fn gather_prices(prices: &[u64], text: &mut TailBuffer)
    requires { length text.old + 21 * length prices.now ≤ 256 }
    ensures text { text.new ≡ spaced (map decimal prices.now) ++ text.old }
    ensures length { length text.new ≤ length text.old + 21 * length prices.now }
{
    for i in (0..prices.len()).rev() {
        text.number(prices[i]);
        text.byte(b' ');
    }
}
