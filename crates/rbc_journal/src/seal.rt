//! Seals, which vouch for the lines of a journal.

ghost use Rattle.std.specs.Prelude.{◌≡◌, ◌++◌, take};
ghost use Rattle.hex.specs.Hex.{encode_lower};
ghost use Rattle.rbc_journal.specs.Seals.{is_comment, has_seal_form, seal_line, seal_of_bytes};

use sha2::{Digest, Sha256};

/// How many hex digits a seal has.
pub(crate) const DIGITS: usize = 16;

/// How long its line is, in bytes.
pub(crate) const SEAL_LINE: usize = DIGITS + 2;

/// The seal of some bytes, in two parts, behind an earlier seal, which is empty where there is none.
#[tactic(auto, unfolding(crate::specs::Seals::seal_of_bytes))]
pub(crate) fn seal_of(before: &[u8], front: &[u8], rest: &[u8]) -> [u8; DIGITS]
    ensures { result ≡ seal_of_bytes before.now (front.now ++ rest.now) }
{
    let mut hasher = Sha256::new();
    hasher.update(before);
    hasher.update(front);
    hasher.update(rest);
    digits_of(&hasher.finalize())
}

/// The hex digits of the first 8 bytes of a digest.
fn digits_of(digest: &[u8; 32]) -> [u8; DIGITS]
    ensures { result ≡ encode_lower (take 8 digest.now) }
{
    let mut digits = [0; DIGITS];
    hex::encode_to_slice(&digest[..8], &mut digits).unwrap();
    digits
}

/// The line in which a seal stands.
pub(crate) fn line_of(seal: &[u8; DIGITS]) -> [u8; SEAL_LINE]
    ensures { result ≡ seal_line seal.now }
{
    let mut line = [b'#'; SEAL_LINE];
    line[1] = b' ';
    line[2..].copy_from_slice(seal);
    line
}

/// Whether a line has the form of a seal's.
pub(crate) fn has_seal_form(line: &[u8]) -> bool
    ensures { result ≡ has_seal_form line.now }
{
    let [b'#', b' ', digits @ ..] = line else {
        return false;
    };
    hex::decode_to_slice(digits, &mut [0; 8]).is_ok()
}

/// Whether a line is a comment: one that is not told.
pub fn is_comment(line: &[u8]) -> bool
    ensures { result ≡ is_comment line.now }
{
    matches!(line, [b'#', ..])
}
