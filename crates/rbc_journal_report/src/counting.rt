//! How many lines a text tells.

ghost use Rattle.std.specs.Prelude.{◌≡◌, length, if◌then◌else◌};
ghost use Rattle.rbc_journal.specs.Gates.{counted};
ghost use Rattle.rbc_journal.specs.Journal.{told_of};
ghost use Rattle.rbc_journal_report.specs.Telling.{is_kind, count_of};

use rbc_journal::next_told;

/// How many lines a text tells.
pub(crate) fn count(text: &[u8]) -> u64
    ensures { result ≡ length (told_of (counted text.now)) }
{
    let mut rest = text;
    let mut count = 0;
    while let Some((_, _, after)) = next_told(rest) {
        count += 1;
        rest = after;
    }
    count
}

/// How many of them have this first word.
pub(crate) fn count_of(text: &[u8], kind: &[u8]) -> u64
    ensures { result ≡ count_of kind.now (told_of (counted text.now)) }
{
    let mut rest = text;
    let mut count = 0;
    while let Some((_, line, after)) = next_told(rest) {
        count += one_if(is_kind(kind, line));
        rest = after;
    }
    count
}

/// One, or none.
fn one_if(is_so: bool) -> u64
    ensures { result ≡ if is_so then 1 else 0 }
{
    if is_so { 1 } else { 0 }
}

/// Whether this is a line's first word.
fn is_kind(kind: &[u8], line: &[u8]) -> bool
    ensures { result ≡ is_kind kind.now line.now }
{
    match line.strip_prefix(kind) {
        None => false,
        Some(rest) => matches!(rest, [] | [b' ', ..]),
    }
}
