//! The header of a journal file: its first put, of two comments that name the format and the track.

ghost use Rattle.std.specs.Prelude.{◌≡◌, [], ◌∷◌, ◌++◌, IfSome, IfNone, Ok, OnOk, IfOk, None};
ghost use Rattle.rbc_journal.specs.Gates.{IsLine, counted, text};
ghost use Rattle.rbc_journal.specs.Seals.{seal_of};
ghost use Rattle.rbc_journal.specs.Headers.{digest_of_track, new_file, track_mark, behind_mark, sized, number_of, format_in, named_in_header, header, digest_in};
ghost use Rattle.rbc_journal.specs.Puts.{BeginsWithHeader};
ghost use Rattle.rbc_journal.specs.Reading.{reading};
ghost use Rattle.rbc_journal.specs.Journal.{recovered};

use crate::lines::next_line;
use crate::seal::{DIGITS, line_of, seal_of};
use sha2::{Digest, Sha256};
use std::alloc::{AllocError, Global};

/// How many hex digits a track's digest has.
pub(crate) const TRACK_DIGITS: usize = 64;

/// The format that this program writes.
pub(crate) const FORMAT: u64 = 2;

/// The digest that a journal's header names of its track: the hex digits, in lower case, of SHA-256 of the bytes of the
/// track's file.
pub fn track_digest(track_file: &[u8]) -> [u8; TRACK_DIGITS]
    ensures value { result ≡ digest_of_track track_file.now }
    ensures line { IsLine result }
{
    let mut digits = [0; TRACK_DIGITS];
    hex::encode_to_slice(&Sha256::digest(track_file), &mut digits).unwrap();
    digits
}

/// The bytes of a new journal, which tells no line: a header that names the track's digest, and a closed gate.
///
/// # Errors
/// The allocator refused memory.
pub fn new_file(alloc: Global, track: &[u8; TRACK_DIGITS]) -> Result<Vec<u8>, AllocError>
    requires { IsLine track.now }
    ensures bytes { IfOk result (λ file. file.items ≡ new_file track.now) }
    ensures read { IfOk result (λ file. reading file.items track.now
        ≡ Ok (record { text = text (header track.now); seal = seal_of [] (named_in_header track.now); dropped = [] })) }
    ensures none { IfOk result (λ file. recovered file.items ≡ []) }
{
    let (mut file, _seal) = header_text(alloc, track)?;
    file.push(b'#')?;
    Ok(file)
}

/// The text of a header that names the track's digest, and its seal.
pub(crate) fn header_text(
    alloc: Global,
    track: &[u8; TRACK_DIGITS],
) -> Result<(Vec<u8>, [u8; DIGITS]), AllocError>
    ensures bytes { IfOk result (λ made. made.0.items ≡ text (header track.now)) }
    ensures seal { IfOk result (λ made. made.1 ≡ seal_of [] (named_in_header track.now)) }
{
    let mut lines = Vec::new(alloc);
    push_line(&mut lines, b"# rbc journal 2")?;
    push_line(&mut lines, &track_line(track))?;
    let seal = seal_of(b"", b"", lines.as_slice());
    push_line(&mut lines, &line_of(&seal))?;
    Ok((lines, seal))
}

/// Adds a line behind an open gate.
pub(crate) fn push_line(file: &mut Vec<u8>, line: &[u8]) -> Result<(), AllocError>
    ensures { OnOk result (file.new.items ≡ file.old.items ++ (32 ∷ line.now ++ 10 ∷ [])) }
{
    file.push(b' ')?;
    file.extend_from_slice(line)?;
    file.push(b'\n')?;
    Ok(())
}

/// The line of a header that names the track.
fn track_line(track: &[u8; TRACK_DIGITS]) -> [u8; TRACK_DIGITS + 8]
    ensures { result ≡ track_mark ++ track.now }
{
    let mut line = [0; TRACK_DIGITS + 8];
    line[..8].copy_from_slice(b"# track ");
    line[8..].copy_from_slice(track);
    line
}

/// The format that the first line of a file names. None where it names none.
pub(crate) fn format_in(bytes: &[u8]) -> Option<u64>
    ensures { result ≡ format_in (counted bytes.now) }
{
    let (line, _) = next_line(bytes)?;
    number_of(line.strip_prefix(b"# rbc journal ")?)
}

/// A number of 1 to 10 decimal digits.
fn number_of(digits: &[u8]) -> Option<u64>
    ensures { result ≡ number_of digits.now }
{
    if digits.is_empty() || digits.len() > 10 {
        return None;
    }
    let mut number = 0;
    for digit in digits {
        if !digit.is_ascii_digit() {
            return None;
        }
        number = number * 10 + u64::from(*digit - b'0');
    }
    Some(number)
}

/// A header that was read: the digest that it names, its seal, and what stands behind it.
#[derive(Clone, Copy)]
pub(crate) struct Header<'a> {
    pub(crate) digest: [u8; TRACK_DIGITS],
    pub(crate) seal: [u8; 16],
    pub(crate) rest: &'a [u8],
}

/// The header at the front of a file, if its seal is right.
pub(crate) fn header_in<'a>(bytes: &'a [u8]) -> Option<Header<'a>>
    ensures some { IfSome result (λ found. BeginsWithHeader bytes.now found.digest found.rest.now) }
    ensures seal { IfSome result (λ found. found.seal ≡ seal_of [] (named_in_header found.digest)) }
    ensures none { IfNone result (digest_in (counted bytes.now) ≡ None) }
{
    let (first, behind) = next_line(bytes)?;
    let (second, behind) = next_line(behind)?;
    let (third, rest) = next_line(behind)?;
    let seal = seal_of(b"", b"", &bytes[..bytes.len() - behind.len()]);
    if first != b"# rbc journal 2".as_slice() {
        return None;
    }
    if third != line_of(&seal).as_slice() {
        return None;
    }
    let digest = digest_of_line(second)?;
    Some(Header { digest, seal, rest })
}

/// The digest that a header's second line names.
fn digest_of_line(line: &[u8]) -> Option<[u8; TRACK_DIGITS]>
    ensures { result ≡ sized 64 (behind_mark track_mark line.now) }
{
    let named = line.strip_prefix(b"# track ")?;
    if named.len() != TRACK_DIGITS {
        return None;
    }
    let mut digest = [0; TRACK_DIGITS];
    digest.copy_from_slice(named);
    Some(digest)
}
