//! Text that is gathered before it is written.

ghost use Rattle.std.specs.Prelude.{◌≡◌, ◌+◌, ◌≤◌, ◌<◌, [], ◌∷◌, ◌++◌, length, take, decimal};
ghost use Rattle.std.specs.Fmt.{signed_decimal};
ghost use Rattle.rbc_decode.specs.declared.out_buffer.TheConstants.{ROOM};

use itoa::write_digits;
use std::marker::Model;

/// How many bytes a buffer has room for.
pub(crate) const ROOM: usize = 1_024;

/// Text that is gathered from its start to its end, and is then written at once.
#[derive(Drop)]
pub(crate) struct OutBuffer {
    bytes: [u8; ROOM],
    count: usize,
}

impl Model for OutBuffer {
    ghost use Rattle.std.specs.Prelude.{◌≤◌, ℕ, List, take};
    ghost use Rattle.rbc_decode.specs.declared.out_buffer.TheConstants.{ROOM};

    ghost Value = { List ℕ };

    ghost view = { λ buffer. take buffer.count buffer.bytes };

    ghost invariant = { λ buffer. buffer.count ≤ ROOM };
}

impl OutBuffer {
    /// An empty text.
    pub(crate) fn new() -> OutBuffer
        ensures { result ≡ [] }
    {
        OutBuffer {
            bytes: [0; ROOM],
            count: 0,
        }
    }

    /// How many bytes the text has.
    pub(crate) fn len(&self) -> usize
        ensures { result ≡ length self.now }
    {
        self.count
    }

    /// The bytes of the text.
    pub(crate) fn bytes(&self) -> &[u8]
        ensures { result.now ≡ self.now }
    {
        &self.bytes[..self.count]
    }

    /// Lets the text go.
    pub(crate) fn clear(&mut self)
        ensures { self.new ≡ [] }
    {
        self.count = 0;
    }

    /// Puts a byte behind the text.
    #[inline(always)]
    pub(crate) fn byte(&mut self, byte: u8)
        requires { length self.old < ROOM }
        ensures text { self.new ≡ self.old ++ byte ∷ [] }
        ensures length { length self.new ≡ length self.old + 1 }
    {
        self.bytes[self.count] = byte;
        self.count += 1;
    }

    /// Puts a text behind the text.
    #[inline(always)]
    pub(crate) fn text(&mut self, text: &[u8])
        requires { length self.old + length text.now ≤ ROOM }
        ensures text { self.new ≡ self.old ++ text.now }
        ensures length { length self.new ≡ length self.old + length text.now }
    {
        let end = self.count + text.len();
        self.bytes[self.count..end].copy_from_slice(text);
        self.count = end;
    }

    /// Puts the front of some bytes behind the text. All of them are copied, since a processor does that at once.
    #[inline(always)]
    pub(crate) fn front(&mut self, bytes: &[u8; 24], count: usize)
        requires within { count ≤ 24 }
        requires room { length self.old + 24 ≤ ROOM }
        ensures text { self.new ≡ self.old ++ take count bytes.now }
        ensures length { length self.new ≡ length self.old + count }
    {
        let end = self.count + 24;
        self.bytes[self.count..end].copy_from_slice(bytes);
        self.count += count;
    }

    /// Puts a number in base 10 behind the text.
    #[inline(always)]
    pub(crate) fn number(&mut self, number: u64)
        requires { length self.old + 20 ≤ ROOM }
        ensures text { self.new ≡ self.old ++ decimal number }
        ensures length { length self.new ≤ length self.old + 20 }
    {
        let end = self.count + digit_count(number);
        write_digits(number, &mut self.bytes, end);
        self.count = end;
    }

    /// Puts a number in base 10 behind the text, with a `-` before its digits if it is below 0.
    #[inline(always)]
    pub(crate) fn signed(&mut self, number: i64)
        requires { length self.old + 21 ≤ ROOM }
        ensures text { self.new ≡ self.old ++ signed_decimal number }
        ensures length { length self.new ≤ length self.old + 21 }
    {
        if number < 0 {
            self.byte(b'-');
        }
        self.number(number.unsigned_abs());
    }
}

/// How many digits a number has in base 10.
#[inline(always)]
fn digit_count(number: u64) -> usize
    ensures count { result ≡ length (decimal number) }
    ensures bound { result ≤ 20 }
{
    let mut left = number;
    let mut count = 1;
    while left >= 10 {
        left /= 10;
        count += 1;
    }
    count
}
