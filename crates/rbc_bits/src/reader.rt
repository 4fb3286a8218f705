//! Fields, each a number of bits, read from bytes.

ghost use Rattle.std.specs.Prelude.{◌≡◌, ℕ, ◌^◌, ◌<◌, ◌≤◌, ◌++◌, length, take, drop, nat_lt, if◌then◌else◌, IfOk, OnOk, OnErr};
ghost use Rattle.rbc_model.specs.Bits.{bits_of, number_of, byte_bits};

use std::marker::Model;
use thiserror::Error;

/// Fewer bits are left than were asked for.
#[derive(Clone, Copy, Debug, PartialEq, Eq, Error)]
#[error("fewer bits are left than were asked for")]
pub struct Short;

/// Bytes read bit by bit, each most significant bit first. It is seen as the bits that are left.
#[derive(Drop)]
pub struct BitReader<'a> {
    /// The bytes that are not begun yet.
    bytes: &'a [u8],
    /// The bits that are left of those before them, as a number.
    pending: u64,
    /// How many these are.
    filled: u32,
}

impl<'a> Model for BitReader<'a> {
    ghost use Rattle.std.specs.Prelude.{◌<◌, ◌^◌, ◌++◌, List, Bool};
    ghost use Rattle.rbc_model.specs.Bits.{bits_of, byte_bits};

    ghost Value = { List Bool };

    ghost view = { λ r. bits_of r.filled r.pending ++ byte_bits r.bytes.now };

    ghost invariant = { λ r. (r.filled < 64) × (r.pending < 2 ^ r.filled) };
}

impl<'a> BitReader<'a> {
    /// All bits of the bytes.
    pub fn new(bytes: &'a [u8]) -> BitReader<'a>
        ensures { result ≡ byte_bits bytes.now }
    {
        BitReader {
            bytes,
            pending: 0,
            filled: 0,
        }
    }

    /// The value of the next field, which is `width` bits wide, 0 to 32.
    ///
    /// # Errors
    ///
    /// [`Short`] where fewer are left, and then none is read.
    pub fn take(&mut self, width: u32) -> Result<u32, Short>
        requires { width ≤ 32 }
        ensures value { IfOk result (λ value. value ≡ number_of (take width self.old)) }
        ensures fits { IfOk result (λ value. value < 2 ^ width) }
        ensures rest { OnOk result (self.new ≡ drop width self.old) }
        ensures enough { OnOk result (width ≤ length self.old) }
        ensures short { OnErr result (length self.old < width) }
        ensures unread { OnErr result (self.new ≡ self.old) }
    {
        let (bytes, pending, filled) = begun(self.bytes, self.pending, self.filled, width);
        if filled < width {
            return Err(Short);
        }
        let left = filled - width;
        self.bytes = bytes;
        self.pending = pending % (1 << left);
        self.filled = left;
        Ok((pending >> left) as u32)
    }

    /// The number that the bits left spell, 0 to 127, where they are fewer than eight; none where they are eight or
    /// more.
    pub fn last_bits(&self) -> Option<u8>
        ensures { result ≡ (if nat_lt (length self.now) 8 then Some (number_of self.now) else None) }
    {
        if self.filled >= 8 {
            return None;
        }
        if self.bytes.is_empty() {
            Some(self.pending as u8)
        } else {
            None
        }
    }
}

/// The bits that are left, some as a number and the rest as bytes, with more of them in the number where it has fewer than
/// are asked for: as many as it has room for.
#[inline(always)]
fn begun(bytes: &[u8], pending: u64, filled: u32, width: u32) -> (&[u8], u64, u32)
    requires narrow { width ≤ 32 }
    requires few { filled < 64 }
    requires fits { pending < 2 ^ filled }
    ensures bits { bits_of result.2 result.1 ++ byte_bits result.0.now ≡ bits_of filled pending ++ byte_bits bytes.now }
    ensures few { result.2 < 64 }
    ensures fits { result.1 < 2 ^ result.2 }
    ensures all { result.2 < width → length result.0.now ≡ 0 }
{
    if filled >= width {
        return (bytes, pending, filled);
    }
    let mut rest = bytes;
    let mut number = pending;
    let mut count = filled;
    while count < 56 {
        let Some((byte, later)) = rest.split_first() else {
            return (rest, number, count);
        };
        number = number << 8 | u64::from(*byte);
        count += 8;
        rest = later;
    }
    (rest, number, count)
}
