//! Which lines of a file stand, and how it ends.

ghost use Rattle.std.specs.Prelude.{◌≡◌, ◌≤◌, ◌-◌, ℕ, List, false, Some, None, Ok, Err, length, take, MatchOption, IfOk, IfErr};
ghost use Rattle.std.specs.Io.KnownBytes.{Consumes, IsAtEnd};
ghost use Rattle.std.specs.Option.{unwrap_or};
ghost use Rattle.rbc_journal.specs.Gates.{IsLine, counted};
ghost use Rattle.rbc_journal.specs.Headers.{track_mark, behind_mark, sized, digest_of_track};
ghost use Rattle.rbc_journal.specs.Reading.{reading};
ghost use Rattle.rbc_journal_report.specs.Telling.{IsText, named_in, own_digest, state_of, damage_of, telling_by, telling, telling_beside, checked, first_begun};

use rbc_journal::{ReadFault, next_line, read, track_digest};
use rbc_model::limits::LONGEST_FILE;
use rbc_streams::{Source, WholeFault, read_whole};
use std::alloc::Global;

/// How a journal file ends.
#[derive(Clone, Copy, Debug, PartialEq, Eq)]
pub enum FileState {
    /// It is at rest.
    Whole,
    /// A crash left so many bytes behind its closed gate, of a put that was never acknowledged.
    Cut(u64),
    /// No crash left it: the first line that can't be vouched for, counted from 1.
    Damaged(u64),
}

/// What is told of a journal file.
#[derive(Clone, Copy)]
pub struct FileContent<'a> {
    /// The lines that stand, each with its gate and its line feed, with comments and seals.
    pub text: &'a [u8],
    /// How the file ends.
    pub state: FileState,
}

/// What is told of a file.
///
/// # Errors
/// It is no journal of format 2.
pub fn tell(bytes: &[u8]) -> Result<FileContent<'_>, ReadFault>
    ensures ok { IfOk result (λ told. telling bytes.now ≡ Ok (record { lines = counted told.text.now; state = told.state })) }
    ensures err { IfErr result (λ fault. telling bytes.now ≡ Err fault) }
    ensures text { IfOk result (λ told. IsText told.text.now) }
{
    tell_beside(bytes, None)
}

/// What is told of a file that should be of the track of the digest that is given, if one is.
///
/// # Errors
/// It is no journal of format 2, or of another track and not damaged.
pub fn tell_beside(bytes: &[u8], given: Option<[u8; 64]>) -> Result<FileContent<'_>, ReadFault>
    ensures ok { IfOk result (λ told. telling_beside given bytes.now
        ≡ Ok (record { lines = counted told.text.now; state = told.state })) }
    ensures err { IfErr result (λ fault. telling_beside given bytes.now ≡ Err fault) }
    ensures text { IfOk result (λ told. IsText told.text.now) }
{
    let own = named(bytes).unwrap_or([b'-'; 64]);
    match read(bytes, &given.unwrap_or(own)) {
        Ok(file) => Ok(FileContent {
            text: file.text,
            state: state_of(file.dropped.len()),
        }),
        Err(fault) => tell_damaged(bytes, fault),
    }
}

/// What is told of a file that is not read to its end.
fn tell_damaged(bytes: &[u8], fault: ReadFault) -> Result<FileContent<'_>, ReadFault>
    ensures ok { IfOk result (λ told. telling_by (counted bytes.now) (Err fault)
        ≡ Ok (record { lines = counted told.text.now; state = told.state })) }
    ensures err { IfErr result (λ told. telling_by (counted bytes.now) (Err fault) ≡ Err told) }
    ensures text { IfOk result (λ told. IsText told.text.now) }
{
    let Some(line) = damage_of(fault) else {
        return Err(fault);
    };
    Ok(FileContent {
        text: first_lines(bytes, line.saturating_sub(1)),
        state: FileState::Damaged(line),
    })
}

/// The line at which a file is damaged.
fn damage_of(fault: ReadFault) -> Option<u64>
    ensures { result ≡ damage_of fault }
{
    match fault {
        ReadFault::Damaged(line) => Some(line),
        _ => None,
    }
}

/// Whether a centre would go on from a file: on the track of the digest that is given, or of the one that the file names.
///
/// # Errors
/// The errors of [`read`].
pub fn check(bytes: &[u8], given: Option<[u8; 64]>) -> Result<(), ReadFault>
    ensures { result ≡ checked (reading bytes.now (unwrap_or given (own_digest bytes.now))) }
{
    let own = named(bytes).unwrap_or([b'-'; 64]);
    match read(bytes, &given.unwrap_or(own)) {
        Ok(_) => Ok(()),
        Err(fault) => Err(fault),
    }
}

/// The digest of a track, whose file is read: at most 16,777,216 bytes.
///
/// # Errors
/// The errors of [`read_whole`].
pub fn digest_of<R: Source>(alloc: Global, reader: &mut R) -> Result<[u8; 64], WholeFault>
    requires { R.failed reader.old ≡ false }
    ensures digest { IfOk result (λ digest. (bytes : List ℕ) × Consumes (R.left reader.old) (R.left reader.new) bytes
        × IsAtEnd (R.left reader.new) × (digest ≡ digest_of_track bytes)) }
    ensures line { IfOk result (λ digest. IsLine digest) }
{
    let bytes = read_whole(alloc, reader, LONGEST_FILE)?;
    Ok(track_digest(bytes.as_slice()))
}

/// Whole, or cut by so many bytes.
fn state_of(dropped: usize) -> FileState
    ensures { result ≡ state_of dropped }
{
    if dropped == 0 {
        FileState::Whole
    } else {
        FileState::Cut(dropped as u64)
    }
}

/// The digest that the second line of a file names, if that is the line of a header.
pub fn named(bytes: &[u8]) -> Option<[u8; 64]>
    ensures { result ≡ named_in (counted bytes.now) }
{
    let (_, behind) = next_line(bytes)?;
    let (second, _) = next_line(behind)?;
    digest_of_line(second)
}

/// The digest that the second line of a header names.
fn digest_of_line(line: &[u8]) -> Option<[u8; 64]>
    ensures { result ≡ sized 64 (behind_mark track_mark line.now) }
{
    let named = line.strip_prefix(b"# track ")?;
    if named.len() != 64 {
        return None;
    }
    let mut digest = [0; 64];
    digest.copy_from_slice(named);
    Some(digest)
}

/// The first line of what a text begins with behind its header, if it begins with anything.
pub(crate) fn first_begun(text: &[u8]) -> Option<&[u8]>
    ensures { MatchOption result (first_begun (counted text.now) ≡ None) (λ line. first_begun (counted text.now) ≡ Some line.now) }
{
    let (_, behind) = next_line(text)?;
    let (_, behind) = next_line(behind)?;
    let (_, behind) = next_line(behind)?;
    let (line, _) = next_line(behind)?;
    line.strip_prefix(b"##")
}

/// So many of the first lines of a file, each with its gate and its line feed; all, where there are no more.
fn first_lines(bytes: &[u8], lines: u64) -> &[u8]
    ensures lines { counted result.now ≡ take lines (counted bytes.now) }
    ensures text { IsText result.now }
{
    let mut rest = bytes;
    let mut count = 0;
    while count < lines {
        let Some((_, after)) = next_line(rest) else {
            return front_of(bytes, rest);
        };
        rest = after;
        count += 1;
    }
    front_of(bytes, rest)
}

/// Some bytes without those behind them.
fn front_of<'a>(bytes: &'a [u8], rest: &[u8]) -> &'a [u8]
    requires { length rest.now ≤ length bytes.now }
    ensures { result.now ≡ take (length bytes.now - length rest.now) bytes.now }
{
    &bytes[..bytes.len() - rest.len()]
}
