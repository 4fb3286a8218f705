//! The lines in the bytes of a file, read from the front.

ghost use Rattle.std.specs.Prelude.{◌≡◌, ◌+◌, ◌<◌, ◌≤◌, [], ◌∷◌, ◌++◌, length, take, drop, slice_index, IsTrue, Some, IfSome, IfNone};
ghost use Rattle.rbc_journal.specs.Gates.{lines_from, counted, IsLine};
ghost use Rattle.rbc_journal.specs.Journal.{IsTold};

use crate::seal::is_comment;

/// The first line of a part of a file that begins with a gate, and what stands behind it. None where that line does not
/// count.
pub fn next_line(bytes: &[u8]) -> Option<(&[u8], &[u8])>
    ensures line { IfSome result (λ found. counted bytes.now ≡ found.0.now ∷ counted found.1.now) }
    ensures read { IfSome result (λ found. bytes.now ≡ 32 ∷ found.0.now ++ 10 ∷ found.1.now) }
    ensures form { IfSome result (λ found. IsLine found.0.now) }
    ensures shorter { IfSome result (λ found. length found.0.now + 2 + length found.1.now ≡ length bytes.now) }
    ensures none { IfNone result (counted bytes.now ≡ []) }
{
    let [b' ', after @ ..] = bytes else {
        return None;
    };
    let at = end_of_line(after)?;
    Some((&after[..at], &after[at + 1..]))
}

/// The first line behind a gate that is read as open, and what stands behind it. None where no line ends there.
pub(crate) fn line_behind(after: &[u8]) -> Option<(&[u8], &[u8])>
    ensures read { IfSome result (λ found. after.now ≡ found.0.now ++ 10 ∷ found.1.now) }
    ensures form { IfSome result (λ found. IsLine found.0.now) }
    ensures none { IfNone result (counted (32 ∷ after.now) ≡ []) }
{
    let at = end_of_line(after)?;
    Some((&after[..at], &after[at + 1..]))
}

/// Whether bytes may be told in a journal as one line: they have no line feed, and are no comment.
pub fn is_told(bytes: &[u8]) -> bool
    ensures { IsTrue result → IsTold bytes.now }
{
    !is_comment(bytes) && end_of_line(bytes).is_none()
}

/// Where the first line feed stands.
pub(crate) fn end_of_line(bytes: &[u8]) -> Option<usize>
    ensures within { IfSome result (λ at. at < length bytes.now) }
    ensures line { IfSome result (λ at. IsLine (take at bytes.now)) }
    ensures feed { IfSome result (λ at. slice_index bytes.now at ≡ 10) }
    ensures read { IfSome result (λ at. lines_from (Some []) bytes.now ≡ take at bytes.now ∷ counted (drop (at + 1) bytes.now)) }
    ensures none { IfNone result (lines_from (Some []) bytes.now ≡ []) }
    ensures form { IfNone result (IsLine bytes.now) }
{
    let mut at = 0;
    while at < bytes.len() {
        if bytes[at] == b'\n' {
            return Some(at);
        }
        at += 1;
    }
    None
}
