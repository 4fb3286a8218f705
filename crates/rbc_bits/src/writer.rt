//! Fields, each a number of bits, written into bytes.

ghost use Rattle.std.specs.Prelude.{◌≡◌, ℕ, ◌+◌, ◌-◌, ◌^◌, ◌<◌, ◌≤◌, [], ◌++◌, IfOk, OnOk, OnErr, vec_len, vec_capacity};
ghost use Rattle.rbc_model.specs.Bits.{bits_of, byte_bits, byte_count, padded_bits, bytes_of};

use rbc_model::Memory;
use std::alloc::Global;
use std::marker::Model;

/// Writes the whole bytes of so many bits, and gives the bits that are left, fewer than eight, and how many these are.
fn spill(bytes: &mut Vec<u8>, pending: u64, filled: u32) -> (u64, u32)
    requires few { filled ≤ 64 }
    requires fits { pending < 2 ^ filled }
    requires room { vec_len bytes.old + byte_count filled ≤ vec_capacity bytes.old }
    ensures bits { byte_bits bytes.new.items ++ bits_of result.1 result.0 ≡ byte_bits bytes.old.items ++ bits_of filled pending }
    ensures few { result.1 < 8 }
    ensures fits { result.0 < 2 ^ result.1 }
    ensures room { vec_len bytes.new + byte_count result.1 ≤ vec_capacity bytes.new }
{
    let mut pending = pending;
    let mut filled = filled;
    while filled >= 8 {
        filled -= 8;
        // There is room for it.
        let _ = bytes.push((pending >> filled) as u8);
        pending %= 1 << filled;
    }
    (pending, filled)
}

/// Writes the first 32 bits of these as four bytes, and gives those behind them.
fn spill_word(bytes: &mut Vec<u8>, pending: u64, filled: u32) -> u64
    requires many { 32 ≤ filled }
    requires few { filled ≤ 64 }
    requires fits { pending < 2 ^ filled }
    requires room { vec_len bytes.old + byte_count filled ≤ vec_capacity bytes.old }
    ensures bits { byte_bits bytes.new.items ++ bits_of (filled - 32) result ≡ byte_bits bytes.old.items ++ bits_of filled pending }
    ensures fits { result < 2 ^ (filled - 32) }
    ensures room { vec_len bytes.new + byte_count (filled - 32) ≤ vec_capacity bytes.new }
{
    let left = filled - u32::BITS;
    // There is room for it.
    let _ = bytes.extend_from_slice(&((pending >> left) as u32).to_be_bytes());
    pending % (1 << left)
}

/// Fields written bit by bit, each most significant bit first. It is seen as the bits so far.
#[derive(Drop)]
pub struct BitWriter {
    /// The bytes that are written.
    bytes: Vec<u8>,
    /// The bits behind them that are no bytes yet, as a number.
    pending: u64,
    /// How many these are.
    filled: u32,
}

impl Model for BitWriter {
    ghost use Rattle.std.specs.Prelude.{◌+◌, ◌<◌, ◌≤◌, ◌^◌, ◌++◌, List, Bool, vec_len, vec_capacity};
    ghost use Rattle.rbc_model.specs.Bits.{bits_of, byte_bits, byte_count};

    ghost Value = { List Bool };

    ghost view = { λ w. byte_bits w.bytes.items ++ bits_of w.filled w.pending };

    ghost invariant = { λ w. (w.filled ≤ 64)
        × (w.pending < 2 ^ w.filled)
        × (vec_len w.bytes + byte_count w.filled ≤ vec_capacity w.bytes) };
}

impl BitWriter {
    /// No bits, with room for `bits` of them.
    ///
    /// # Errors
    ///
    /// [`Memory`] where there is none for them.
    pub fn with_room(alloc: Global, bits: u32) -> Result<BitWriter, Memory>
        ensures { IfOk result (λ writer. writer ≡ []) }
    {
        Ok(BitWriter {
            bytes: Vec::with_capacity(alloc, bits.div_ceil(8) as usize)?,
            pending: 0,
            filled: 0,
        })
    }

    /// Writes a value in a field that is `width` bits wide, 0 to 32.
    ///
    /// # Errors
    ///
    /// [`Memory`] where there is none for it, and then nothing is written.
    #[inline(always)]
    pub fn put(&mut self, width: u32, value: u32) -> Result<(), Memory>
        requires at_most_32 { width ≤ 32 }
        requires fits { value < 2 ^ width }
        ensures written { OnOk result (self.new ≡ self.old ++ bits_of width value) }
        ensures refused { OnErr result (self.new ≡ self.old) }
    {
        if self.filled + width > u64::BITS {
            self.pending = spill_word(&mut self.bytes, self.pending, self.filled);
            self.filled -= u32::BITS;
        }
        let filled = self.filled + width;
        self.bytes.reserve(filled.div_ceil(8) as usize)?;
        self.pending = self.pending << width | u64::from(value);
        self.filled = filled;
        Ok(())
    }

    /// The bytes of the bits, the last one filled up with zeros.
    pub fn finish(self) -> Vec<u8>
        ensures { result.items ≡ bytes_of (padded_bits self) }
    {
        let mut bytes = self.bytes;
        let (pending, filled) = spill(&mut bytes, self.pending, self.filled);
        if filled > 0 {
            // There is room for it.
            let _ = bytes.push((pending << (8 - filled)) as u8);
        }
        bytes
    }
}
