//! Short texts that are gathered before they are written.

ghost use Rattle.std.specs.Prelude.{◌≡◌, ◌+◌, ◌*◌, ◌<◌, ◌≤◌, [], ◌∷◌, ◌++◌, length, decimal};
ghost use Rattle.std.specs.Fmt.{signed_decimal};
ghost use Rattle.rbc_model.specs.Words.{hex_of};

use itoa::write_digits;
use std::marker::Model;

/// How many bytes a gathered text may have.
const ROOM: usize = 256;

/// Writes bytes, each as two digits of base 16, in lower case, where there is room for just these.
#[inline(always)]
fn write_hex(bytes: &[u8], digits: &mut [u8])
    requires { length digits.old ≡ 2 * length bytes.now }
    ensures { digits.new ≡ hex_of bytes.now }
{
    hex::encode_to_slice(bytes, digits).unwrap();
}

/// A short text that is gathered from its end to its start, so that no digit is moved, and is then written at once.
#[derive(Drop)]
pub struct TailBuffer {
    bytes: [u8; ROOM],
    start: usize,
}

impl Model for TailBuffer {
    ghost use Rattle.std.specs.Prelude.{◌≤◌, ℕ, List, drop};

    ghost Value = { List ℕ };

    ghost view = { λ text. drop text.start text.bytes };

    ghost invariant = { λ text. text.start ≤ 256 };
}

impl TailBuffer {
    /// An empty text.
    #[inline(always)]
    pub fn new() -> TailBuffer
        ensures { result ≡ [] }
    {
        TailBuffer {
            bytes: [0; ROOM],
            start: ROOM,
        }
    }

    /// Puts a byte before the text.
    #[inline(always)]
    pub fn byte(&mut self, byte: u8)
        requires { length self.old < 256 }
        ensures text { self.new ≡ byte ∷ self.old }
        ensures length { length self.new ≡ length self.old + 1 }
    {
        self.start -= 1;
        self.bytes[self.start] = byte;
    }

    /// Puts a number in base 10 before the text.
    #[inline(always)]
    pub fn number(&mut self, number: u64)
        requires { length self.old + 20 ≤ 256 }
        ensures text { self.new ≡ decimal number ++ self.old }
        ensures length { length self.new ≤ length self.old + 20 }
    {
        self.start = write_digits(number, &mut self.bytes, self.start);
    }

    /// Puts a number in base 10 before the text.
    #[inline(always)]
    pub fn small(&mut self, number: u32)
        requires { length self.old + 10 ≤ 256 }
        ensures text { self.new ≡ decimal number ++ self.old }
        ensures length { length self.new ≤ length self.old + 10 }
    {
        self.start = write_digits(u64::from(number), &mut self.bytes, self.start);
    }

    /// Puts a number in base 10 before the text, with a `-` before its digits if it is below 0.
    #[inline(always)]
    pub fn signed(&mut self, number: i64)
        requires { length self.old + 21 ≤ 256 }
        ensures text { self.new ≡ signed_decimal number ++ self.old }
        ensures length { length self.new ≤ length self.old + 21 }
    {
        self.number(number.unsigned_abs());
        if number < 0 {
            self.byte(b'-');
        }
    }

    /// Puts a text before the text.
    #[inline(always)]
    pub fn text(&mut self, text: &[u8])
        requires { length text.now + length self.old ≤ 256 }
        ensures text { self.new ≡ text.now ++ self.old }
        ensures length { length self.new ≡ length text.now + length self.old }
    {
        let end = self.start;
        self.start -= text.len();
        self.bytes[self.start..end].copy_from_slice(text);
    }

    /// Puts bytes before the text, each as two digits of base 16, in lower case.
    #[inline(always)]
    pub fn hex(&mut self, bytes: &[u8])
        requires { 2 * length bytes.now + length self.old ≤ 256 }
        ensures text { self.new ≡ hex_of bytes.now ++ self.old }
        ensures length { length self.new ≡ 2 * length bytes.now + length self.old }
    {
        let end = self.start;
        self.start -= 2 * bytes.len();
        write_hex(bytes, &mut self.bytes[self.start..end]);
    }

    /// The bytes of the text.
    #[inline(always)]
    pub fn bytes(&self) -> &[u8]
        ensures { result.now ≡ self.now }
    {
        &self.bytes[self.start..]
    }
}
