//! A source's bytes as a whole.

ghost use Rattle.std.specs.Prelude.{◌≡◌, ◌↔◌, ◌<◌, ◌≤◌, ◌++◌, ℕ, List, true, false, IfOk, OnOk, IsTrue, Err, length};
ghost use Rattle.std.specs.Io.KnownBytes.{Consumes, IsAtEnd};
ghost use Rattle.rbc_streams.specs.declared.whole.WholeFault.TheVariants.{Read as ReadFault, Memory as NoMemory};

use crate::{ReadFailed, Source};
use rbc_model::Memory;
use std::alloc::Global;

/// How many bytes each read asks for.
const PIECE: usize = 8 * 1024;

/// Why the bytes of a source were not read to the end.
#[derive(Clone, Copy, Debug, PartialEq, Eq)]
pub enum WholeFault {
    /// The reader failed.
    Read,
    /// There are more bytes than were allowed.
    TooLong,
    /// There is no memory to keep those that came. An empty source needs none.
    Memory,
}

impl From<ReadFailed> for WholeFault {
    ghost from_gives = { λ _ fault. fault ≡ ReadFault };

    fn from(_failed: ReadFailed) -> WholeFault {
        WholeFault::Read
    }
}

impl From<Memory> for WholeFault {
    ghost from_gives = { λ _ fault. fault ≡ NoMemory };

    fn from(_refused: Memory) -> WholeFault {
        WholeFault::Memory
    }
}

/// All bytes of a source up to its end, if they are no more than `most`.
///
/// # Errors
/// For each piece that is read, in this order: the reader failed; there are more bytes than were allowed; there is no
/// memory to keep them in.
pub fn read_whole<R: Source>(
    alloc: Global,
    reader: &mut R,
    most: usize,
) -> Result<Vec<u8>, WholeFault>
    requires { R.failed reader.old ≡ false }
    ensures whole { IfOk result (λ bytes. Consumes (R.left reader.old) (R.left reader.new) bytes.items
        × IsAtEnd (R.left reader.new)) }
    ensures ended { OnOk result (R.ended reader.new ≡ true) }
    ensures short { IfOk result (λ bytes. length bytes.items ≤ most) }
    ensures read { (result ≡ Err WholeFault.Read) ↔ IsTrue (R.failed reader.new) }
    ensures too_long { result ≡ Err WholeFault.TooLong
        → (taken : List ℕ) × Consumes (R.left reader.old) (R.left reader.new) taken × (most < length taken) }
    ensures memory { result ≡ Err WholeFault.Memory
        → (taken : List ℕ) × Consumes (R.left reader.old) (R.left reader.new) taken
        × (0 < length taken) × (length taken ≤ most) }
{
    let mut bytes = Vec::new(alloc);
    let mut piece = [0; PIECE];
    loop {
        let count = reader.read(&mut piece)?;
        if count == 0 {
            return Ok(bytes);
        }
        if count > most - bytes.len() {
            return Err(WholeFault::TooLong);
        }
        append(&mut bytes, &piece[..count])?;
    }
}

/// Puts a piece behind the bytes, or leaves them as they are.
fn append(bytes: &mut Vec<u8>, piece: &[u8]) -> Result<(), Memory>
    ensures { IfOk result (λ _. bytes.new.items ≡ bytes.old.items ++ piece.now) }
{
    Ok(bytes.extend_from_slice(piece)?)
}
