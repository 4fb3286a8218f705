//! The lines that a journal tells, read from the front of its text.

ghost use Rattle.std.specs.Prelude.{◌≡◌, ◌+◌, [], ◌∷◌, drop, slice_get, Some, IfSome, IfNone};
ghost use Rattle.rbc_journal.specs.Gates.{counted};
ghost use Rattle.rbc_journal.specs.Journal.{told_of, IsTold};

use crate::lines::next_line;
use crate::seal::is_comment;

/// The first line that is told in a part of a text that begins with a gate: how many comments stand before it, the line, and
/// what stands behind it. None where no further line is told.
pub fn next_told(bytes: &[u8]) -> Option<(usize, &[u8], &[u8])>
    ensures told { IfSome result (λ found. told_of (counted bytes.now) ≡ found.1.now ∷ told_of (counted found.2.now)) }
    ensures form { IfSome result (λ found. IsTold found.1.now) }
    ensures place { IfSome result (λ found. slice_get (counted bytes.now) found.0 ≡ Some found.1.now) }
    ensures rest { IfSome result (λ found. counted found.2.now ≡ drop (found.0 + 1) (counted bytes.now)) }
    ensures none { IfNone result (told_of (counted bytes.now) ≡ []) }
{
    let mut rest = bytes;
    let mut comments = 0;
    while let Some((line, after)) = next_line(rest) {
        if !is_comment(line) {
            return Some((comments, line, after));
        }
        comments += 1;
        rest = after;
    }
    None
}
