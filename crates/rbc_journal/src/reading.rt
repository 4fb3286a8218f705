//! What a journal file is read as.

ghost use Rattle.std.specs.Prelude.{◌≡◌, ℕ, List, ◌+◌, ◌≤◌, ◌*◌, [], ◌∷◌, take, drop, length, MatchOption, Some, None, Ok, Err, false, IfSome, IfNone, IfOk, IfErr, bytes_eq};
ghost use Rattle.rbc_journal.specs.Gates.{counted, text};
ghost use Rattle.rbc_journal.specs.Journal.{recovered};
ghost use Rattle.rbc_journal.specs.Seals.{seal_of_bytes, seal_of, IsWholeText};
ghost use Rattle.rbc_journal.specs.Journal.{told_of, recovered};
ghost use Rattle.rbc_journal.specs.Headers.{named_in_header, digest_in};
ghost use Rattle.rbc_journal.specs.Marks.{mark};
ghost use Rattle.rbc_journal.specs.Puts.{IsPut, ArePuts, BeginsWithHeader};
ghost use Rattle.rbc_journal.specs.ReadingLaws.{AreJournal};
ghost use Rattle.rbc_journal.specs.Reading.{Parts, first_put, begins_open, opens_more, was_open, ends_well, is_crash, dropped_of, is_first_format, tail_of, by_header, reading};

use crate::header::{FORMAT, TRACK_DIGITS, format_in, header_in};
use crate::lines::{line_behind, next_line};
use crate::seal::{has_seal_form, is_comment, line_of, seal_of};

/// A file from which a journal can go on.
#[derive(Clone, Copy)]
pub struct Readable<'a> {
    /// The lines that count, each with its gate and its line feed.
    pub text: &'a [u8],
    /// The last seal in them.
    pub seal: [u8; 16],
    /// What stands behind the closed gate: bytes of a put that was never acknowledged.
    pub dropped: &'a [u8],
}

/// Why a journal can't go on from a file.
#[derive(Clone, Copy, Debug, PartialEq, Eq)]
pub enum ReadFault {
    /// It is no journal.
    NotAJournal,
    /// A journal of the format before this, which has no header.
    FirstFormat,
    /// A journal of the format of this number.
    OtherFormat(u64),
    /// The first line of the put that can't be vouched for, counted from 1. The lines before it stand.
    Damaged(u64),
    /// A journal of another track, whose digest this is.
    OtherTrack([u8; TRACK_DIGITS]),
}

/// Whole puts that were read: the seal of the last one, how many lines they have, and what stands behind them.
#[derive(Clone, Copy)]
struct Puts<'a> {
    seal: [u8; 16],
    lines: usize,
    rest: &'a [u8],
}

/// Reads a journal file beside the digest of the track that is given.
///
/// # Errors
/// As `reading` of `specs/Reading.antt` tells them.
pub fn read<'a>(bytes: &'a [u8], track: &[u8; TRACK_DIGITS]) -> Result<Readable<'a>, ReadFault>
    ensures ok { IfOk result (λ file. reading bytes.now track.now
        ≡ Ok (record { text = file.text.now; seal = file.seal; dropped = file.dropped.now })) }
    ensures err { IfErr result (λ fault. reading bytes.now track.now ≡ Err fault) }

    // It is the text of a journal of this track, all of its lines vouched for, and they are those that count in the file.
    ensures journal { IfOk result (λ file. AreJournal track.now (counted file.text.now) file.seal) }
    ensures whole { IfOk result (λ file. IsWholeText file.text.now file.seal) }
    ensures same { IfOk result (λ file. counted file.text.now ≡ counted bytes.now) }
    ensures told { IfOk result (λ file. recovered file.text.now ≡ told_of (counted file.text.now)) }
{
    match format_in(bytes) {
        None if is_first_format(bytes) => Err(ReadFault::FirstFormat),
        None => Err(ReadFault::NotAJournal),
        Some(FORMAT) => read_puts(bytes, track),
        Some(number) => Err(ReadFault::OtherFormat(number)),
    }
}

/// Reads a file of this format.
fn read_puts<'a>(bytes: &'a [u8], track: &[u8; TRACK_DIGITS]) -> Result<Readable<'a>, ReadFault>
    ensures ok { IfOk result (λ file. by_header track.now (counted bytes.now) (tail_of bytes.now) (digest_in (counted bytes.now))
        ≡ Ok (record { text = file.text.now; seal = file.seal; dropped = file.dropped.now })) }
    ensures err { IfErr result (λ fault. by_header track.now (counted bytes.now) (tail_of bytes.now) (digest_in (counted bytes.now))
        ≡ Err fault) }
    ensures journal { IfOk result (λ file. AreJournal track.now (counted file.text.now) file.seal) }
    ensures whole { IfOk result (λ file. IsWholeText file.text.now file.seal) }
    ensures same { IfOk result (λ file. counted file.text.now ≡ counted bytes.now) }
    ensures told { IfOk result (λ file. recovered file.text.now ≡ told_of (counted file.text.now)) }
{
    let Some(header) = header_in(bytes) else {
        return Err(ReadFault::Damaged(1));
    };
    let puts = puts_in(header.seal, header.rest);
    let Some(dropped) = dropped_of(&puts.seal, puts.rest) else {
        return Err(ReadFault::Damaged(puts.lines as u64 + 4));
    };
    if header.digest != *track {
        return Err(ReadFault::OtherTrack(header.digest));
    }
    Ok(Readable {
        text: &bytes[..bytes.len() - puts.rest.len()],
        seal: puts.seal,
        dropped,
    })
}

/// The whole puts at the front of some bytes, each with the right seal, behind a put with this seal.
fn puts_in<'a>(before: [u8; 16], bytes: &'a [u8]) -> Puts<'a>
    ensures puts { (lines : List (List ℕ)) × ArePuts before bytes.now lines result.seal result.rest.now
        × (length lines ≡ result.lines) }
    ensures all { first_put result.seal [] (counted result.rest.now) ≡ None }
    ensures fits { 2 * result.lines ≤ length bytes.now }
{
    let mut puts = Puts {
        seal: before,
        lines: 0,
        rest: bytes,
    };
    while let Some(put) = put_at(&puts.seal, puts.rest) {
        puts = Puts {
            seal: put.seal,
            lines: puts.lines + put.lines,
            rest: put.rest,
        };
    }
    puts
}

/// The put at the front of some bytes, if it is whole and has the right seal.
fn put_at<'a>(before: &[u8; 16], bytes: &'a [u8]) -> Option<Puts<'a>>
    ensures some { IfSome result (λ found. (put : List (List ℕ)) × IsPut before.now bytes.now put found.seal found.rest.now
        × (length put + 1 ≡ found.lines)) }
    ensures none { IfNone result (first_put before.now [] (counted bytes.now) ≡ None) }
{
    put_behind(before, behind_open(bytes)?)
}

/// The put behind a gate that is read as open, if it is whole and has the right seal.
fn put_behind<'a>(before: &[u8; 16], behind: &'a [u8]) -> Option<Puts<'a>>
    ensures some { IfSome result (λ found. (put : List (List ℕ)) × IsPut before.now (32 ∷ behind.now) put found.seal found.rest.now
        × (length put + 1 ≡ found.lines)) }
    ensures none { IfNone result (first_put before.now [] (counted (32 ∷ behind.now)) ≡ None) }
{
    let mut lines = 0;
    let mut rest = behind;
    while let Some((line, after)) = line_behind(rest) {
        lines += 1;
        if has_seal_form(line) {
            let seal = seal_up_to(before, behind, behind.len() - rest.len());
            if line != line_of(&seal).as_slice() {
                return None;
            }
            return Some(Puts {
                seal,
                lines,
                rest: after,
            });
        }
        rest = behind_open(after)?;
    }
    None
}

/// The seal of lines behind a gate that is read as open, which end before a gate here.
fn seal_up_to(before: &[u8; 16], behind: &[u8], end: usize) -> [u8; 16]
    requires { end ≤ length behind.now }
    ensures { result ≡ seal_of_bytes before.now (take end (32 ∷ behind.now)) }
{
    if end == 0 {
        return seal_of(before, b"", b"");
    }
    seal_of(before, b" ", &behind[..end - 1])
}

/// What stands behind the gate at the front, if that is open.
fn behind_open(bytes: &[u8]) -> Option<&[u8]>
    ensures is_open { IfSome result (λ rest. bytes.now ≡ 32 ∷ rest.now) }
    ensures none { IfNone result (begins_open bytes.now ≡ false) }
{
    let [b' ', rest @ ..] = bytes else {
        return None;
    };
    Some(rest)
}

/// What stands behind a gate that is closed, or that was torn. None where no crash leaves such bytes where a gate is due.
fn dropped_of<'a>(seal: &[u8; 16], tail: &'a [u8]) -> Option<&'a [u8]>
    ensures { MatchOption result (dropped_of seal.now tail.now ≡ None) (λ rest. dropped_of seal.now tail.now ≡ Some rest.now) }
{
    let (gate, rest) = tail.split_first()?;
    if is_crash(seal, *gate, rest) {
        Some(rest)
    } else {
        None
    }
}

/// Whether a crash may leave this byte where a gate is due, and these bytes behind it.
fn is_crash(seal: &[u8; 16], gate: u8, rest: &[u8]) -> bool
    ensures { result ≡ is_crash seal.now gate rest.now }
{
    match gate {
        b' ' => false,
        b'#' => !was_open(seal, rest),
        _ => ends_well(seal, rest),
    }
}

/// Whether a gate was open before: behind it stands a put whose seal is right, and it is one of a beginning, or has an
/// open gate behind it, and more.
fn was_open(seal: &[u8; 16], behind: &[u8]) -> bool
    ensures { result ≡ was_open seal.now (32 ∷ behind.now) }
{
    let Some(put) = put_behind(seal, behind) else {
        return false;
    };
    if is_marked(behind) {
        return true;
    }
    opens_more(put.rest)
}

/// Whether the line behind a gate that is read as open is one of a beginning.
fn is_marked(behind: &[u8]) -> bool
    ensures { result ≡ bytes_eq (take 2 behind.now) mark }
{
    behind.starts_with(b"##")
}

/// Whether bytes begin with an open gate, and more stands behind it.
fn opens_more(bytes: &[u8]) -> bool
    ensures { result ≡ opens_more bytes.now }
{
    matches!(bytes, [b' ', _, ..])
}

/// Whether bytes behind a gate that is read as open are one put whose seal is right, none of a beginning, and a closed
/// gate at their end.
fn ends_well(seal: &[u8; 16], behind: &[u8]) -> bool
    ensures { result ≡ ends_well seal.now (32 ∷ behind.now) }
{
    let Some(put) = put_behind(seal, behind) else {
        return false;
    };
    if is_marked(behind) {
        return false;
    }
    put.rest == b"#".as_slice()
}

/// Whether a file is a journal of the format before this: lines, at least one, with no comment, and a closed gate.
fn is_first_format(bytes: &[u8]) -> bool
    ensures { result ≡ is_first_format (counted bytes.now) (tail_of bytes.now) }
{
    let mut rest = bytes;
    while let Some((line, after)) = next_line(rest) {
        if is_comment(line) {
            return false;
        }
        rest = after;
    }
    if rest.len() == bytes.len() {
        return false;
    }
    rest == b"#".as_slice()
}
