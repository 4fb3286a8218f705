//! Numbers and bytes, printed as text.

ghost use Rattle.std.specs.Prelude.{◌≡◌, ◌+◌, ◌≤◌, ℕ, List, ◌++◌, length, decimal};
ghost use Rattle.rbc_streams.specs.Emitting.{Emits};
ghost use Rattle.rbc_model.specs.Words.{hex_of};

use crate::tail_buffer::TailBuffer;
use rbc_streams::{Sink, emit};

/// Writes a number in base 10.
pub fn emit_number<W: Sink>(number: u64, writer: &mut W)
    ensures { Emits W.written W.failed writer.old writer.new (decimal number) }
{
    let mut digits = itoa::Buffer::new();
    emit(writer, digits.format(number).as_bytes());
}

/// How many bytes are written at once with the texts around them.
const SHORT: usize = 120;

/// Writes bytes, each as two digits of base 16, in lower case, with a short text before them and one behind.
pub fn emit_hex_between<W: Sink>(before: &[u8], bytes: &[u8], behind: &[u8], writer: &mut W)
    requires short { length before.now + length behind.now ≤ 16 }
    ensures { Emits W.written W.failed writer.old writer.new
        (before.now ++ (hex_of bytes.now ++ behind.now)) }
{
    if bytes.len() > SHORT {
        emit(writer, before);
        emit_hex(bytes, writer);
        emit(writer, behind);
        return;
    }
    let mut text = TailBuffer::new();
    text.text(behind);
    text.hex(bytes);
    text.text(before);
    emit(writer, text.bytes());
}

/// How many bytes are written at once as two digits each.
const PIECE: usize = 128;

/// Writes bytes as text, each as two digits of base 16, in lower case.
fn emit_hex<W: Sink>(bytes: &[u8], writer: &mut W)
    ensures { Emits W.written W.failed writer.old writer.new (hex_of bytes.now) }
{
    let mut rest = bytes;
    while !rest.is_empty() {
        let (piece, more) = rest.split_at(rest.len().min(PIECE));
        emit_piece(piece, writer);
        rest = more;
    }
}

fn emit_piece<W: Sink>(piece: &[u8], writer: &mut W)
    requires short { length piece.now ≤ 128 }
    ensures { Emits W.written W.failed writer.old writer.new (hex_of piece.now) }
{
    let mut text = TailBuffer::new();
    text.hex(piece);
    emit(writer, text.bytes());
}
