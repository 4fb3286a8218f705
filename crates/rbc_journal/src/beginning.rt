//! What a journal begins with: the lines of a scene, each as a comment, in one put of their own behind the header.

ghost use Rattle.std.specs.Prelude.{◌≡◌, ◌<◌, ◌++◌, [], ◌∷◌, length, drop, map, Ok, OnOk, IfOk, IfSome, MatchOption};
ghost use Rattle.rbc_journal.specs.Gates.{IsLine, counted, text};
ghost use Rattle.rbc_journal.specs.Sessions.{lines_of};
ghost use Rattle.rbc_journal.specs.Reading.{reading};
ghost use Rattle.rbc_journal.specs.Journal.{recovered};
ghost use Rattle.rbc_journal.specs.Marks.{marked, marked_front};
ghost use Rattle.rbc_journal.specs.Beginnings.{beginning_put, begun_lines, begun_seal, begun_file, beginning_of, joined};

use crate::header::{TRACK_DIGITS, header_text, push_line};
use crate::lines::{end_of_line, next_line};
use crate::seal::{DIGITS, line_of, seal_of};
use std::alloc::{AllocError, Global};

/// The bytes of a new journal of this track that begins with the lines of a text, and tells none: a header, the put of these
/// lines, unless there is none, and a closed gate.
///
/// # Errors
/// The allocator refused memory.
pub fn begun_file(
    alloc: Global,
    track: &[u8; TRACK_DIGITS],
    beginning: &[u8],
) -> Result<Vec<u8>, AllocError>
    requires { IsLine track.now }
    ensures bytes { IfOk result (λ file. file.items ≡ begun_file track.now (lines_of beginning.now)) }
    ensures read { IfOk result (λ file. reading file.items track.now
        ≡ Ok (record { text = text (begun_lines track.now (lines_of beginning.now)); seal = begun_seal track.now (lines_of beginning.now); dropped = [] })) }
    ensures begins { IfOk result (λ file. beginning_of (counted file.items) ≡ lines_of beginning.now) }
    ensures none { IfOk result (λ file. recovered file.items ≡ []) }
{
    let (mut file, seal) = header_text(alloc, track)?;
    push_beginning(&mut file, &seal, beginning)?;
    file.push(b'#')?;
    Ok(file)
}

/// Adds the put of the lines of a text, each marked, behind one with this seal. Nothing where there is no line.
fn push_beginning(
    file: &mut Vec<u8>,
    before: &[u8; DIGITS],
    beginning: &[u8],
) -> Result<(), AllocError>
    ensures { OnOk result (file.new.items ≡ file.old.items ++ text (beginning_put before.now (lines_of beginning.now))) }
{
    if beginning.is_empty() {
        return Ok(());
    }
    let end = file.len();
    push_marked(file, beginning)?;
    let seal = seal_of(before, b"", &file[end..]);
    push_line(file, &line_of(&seal))?;
    Ok(())
}

/// Adds the lines of a text, each marked.
fn push_marked(file: &mut Vec<u8>, beginning: &[u8]) -> Result<(), AllocError>
    ensures { OnOk result (file.new.items ≡ file.old.items ++ text (map marked (lines_of beginning.now))) }
{
    let mut rest = beginning;
    while let Some((line, after)) = first_line(rest) {
        push_marked_line(file, line)?;
        rest = after;
    }
    Ok(())
}

/// Adds a line, marked.
fn push_marked_line(file: &mut Vec<u8>, line: &[u8]) -> Result<(), AllocError>
    ensures { OnOk result (file.new.items ≡ file.old.items ++ text (marked line.now ∷ [])) }
{
    file.extend_from_slice(b" ##")?;
    file.extend_from_slice(line)?;
    file.push(b'\n')?;
    Ok(())
}

/// The first line of a text, without its line feed, and the text behind it.
fn first_line(bytes: &[u8]) -> Option<(&[u8], &[u8])>
    ensures lines { MatchOption result (lines_of bytes.now ≡ [])
        (λ found. lines_of bytes.now ≡ found.0.now ∷ lines_of found.1.now) }
    ensures shorter { IfSome result (λ found. length found.1.now < length bytes.now) }
{
    if bytes.is_empty() {
        return None;
    }
    match end_of_line(bytes) {
        Some(at) => Some((&bytes[..at], &bytes[at + 1..])),
        None => Some((bytes, &bytes[bytes.len()..])),
    }
}

/// The lines with which the text of a journal begins, each with a line feed. Nothing behind them is read.
///
/// # Errors
/// The allocator refused memory.
pub fn beginning_in(alloc: Global, text: &[u8]) -> Result<Vec<u8>, AllocError>
    ensures bytes { IfOk result (λ found. found.items ≡ joined (beginning_of (counted text.now))) }
    ensures lines { IfOk result (λ found. lines_of found.items ≡ beginning_of (counted text.now)) }
{
    let mut found = Vec::new(alloc);
    let mut rest = behind_line(behind_line(behind_line(text)));
    while let Some((line, after)) = next_marked(rest) {
        found.extend_from_slice(line)?;
        found.push(b'\n')?;
        rest = after;
    }
    Ok(found)
}

/// What stands behind the first line of a part of a text: the part itself, if no line stands there.
fn behind_line(bytes: &[u8]) -> &[u8]
    ensures { counted result.now ≡ drop 1 (counted bytes.now) }
{
    match next_line(bytes) {
        Some((_line, after)) => after,
        None => bytes,
    }
}

/// The first line of a part of a text, without its mark, and what stands behind it. None where no marked line stands there.
fn next_marked(bytes: &[u8]) -> Option<(&[u8], &[u8])>
    ensures lines { MatchOption result (marked_front (counted bytes.now) ≡ [])
        (λ found. marked_front (counted bytes.now) ≡ found.0.now ∷ marked_front (counted found.1.now)) }
    ensures shorter { IfSome result (λ found. length found.1.now < length bytes.now) }
{
    let (line, after) = next_line(bytes)?;
    Some((line.strip_prefix(b"##")?, after))
}
