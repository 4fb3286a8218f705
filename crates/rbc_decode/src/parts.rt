//! The fields of a message, printed one after another.

ghost use Rattle.std.specs.Prelude.{◌≡◌, ◌+◌, ◌≤◌, ◌++◌, ◌||◌, ℕ, List, Bool, false, length};
ghost use Rattle.rbc_streams.specs.Emitting.{Emits};
ghost use Rattle.rbc_decode.specs.declared.parts.TheConstants.{LONGEST_PART};
ghost use Rattle.rbc_decode.specs.declared.out_buffer.TheConstants.{ROOM};
ghost use Rattle.rbc_decode.specs.declared.fields.Item.{Item};
ghost use Rattle.rbc_decode.specs.Parts.{parts_text};

use crate::fields::Item;
use crate::out_buffer::{OutBuffer, ROOM};
use rbc_streams::{Sink, emit};

/// How many bytes may be printed of a field.
pub(crate) const LONGEST_PART: usize = 256;

/// What is printed of a field.
pub(crate) trait TextPart {
    /// Whether a field is told.
    ghost told: { Item → Bool };

    /// What is printed of it, by whether one before it was told.
    ghost text: { Bool → Item → List ℕ };

    /// Whether a field is told.
    fn is_told(item: &Item) -> bool
        ensures { result ≡ told item.now };

    /// Puts what is printed of a field behind a text, by whether one before it was told.
    fn gather(item: &Item, later: bool, buffer: &mut OutBuffer)
        requires { length buffer.old + LONGEST_PART ≤ ROOM }
        ensures { buffer.new ≡ buffer.old ++ text later item.now };
}

/// Writes of each field what is printed of it.
pub(crate) fn emit_parts<P: TextPart, W: Sink>(items: &[Item], writer: &mut W)
    ensures { Emits W.written W.failed writer.old writer.new
        (parts_text P.told P.text false items.now) }
{
    let mut later = false;
    let mut buffer = OutBuffer::new();
    for item in items {
        make_room(&mut buffer, writer);
        P::gather(item, later, &mut buffer);
        later = either(later, P::is_told(item));
    }
    emit(writer, buffer.bytes());
}

/// Writes what was gathered, where there is no room for a further part.
#[inline(always)]
fn make_room<W: Sink>(buffer: &mut OutBuffer, writer: &mut W)
    ensures room { length buffer.new + LONGEST_PART ≤ ROOM }
    ensures handed { (part : List ℕ) × Emits W.written W.failed writer.old writer.new part × (buffer.old ≡ part ++ buffer.new) }
{
    if buffer.len() > ROOM - LONGEST_PART {
        emit(writer, buffer.bytes());
        buffer.clear();
    }
}

fn either(before: bool, now: bool) -> bool
    ensures { result ≡ (before || now) }
{
    before || now
}
