//! What a line of text has: a message, a packet alone, or neither.

ghost use Rattle.std.specs.Prelude.{◌≡◌, ◌≤◌, ◌∷◌, true, length, map, count_by};
ghost use Rattle.std.specs.Char.{is_ascii_digit, is_ascii_hexdigit, to_ascii_lowercase};
ghost use Rattle.std.specs.List.{list_all, list_any};
ghost use Rattle.rbc_model.specs.Words.{words_of};
ghost use Rattle.rbc_decode.specs.DecodeText.{are_none, is_called, is_meant, is_mostly_hex, is_other, told_by, told_in, told_view};
ghost use Rattle.rbc_decode.specs.Spelling.{has_prefix, is_hex, without_prefix};

use rbc_words::{next_word, without_return};

/// What a line has: the text with the digits of one of these, which may be at fault.
pub(crate) enum Meant<'line> {
    /// A message.
    Message(&'line [u8]),
    /// A packet alone.
    Packet(&'line [u8]),
    /// Neither.
    None,
}

/// What a line has, without its line feed.
pub(crate) fn meant_in(line: &[u8]) -> Meant
    ensures { told_view result ≡ told_in line.now }
{
    let text = without_return(line);
    match next_word(text) {
        None => Meant::None,
        Some((word, rest)) => meant_by(text, word, rest),
    }
}

/// What a text has that begins with this word.
fn meant_by<'line>(text: &'line [u8], word: &[u8], rest: &'line [u8]) -> Meant<'line>
    requires { words_of text.now ≡ word.now ∷ words_of rest.now }
    ensures { told_view result ≡ told_by text.now (words_of text.now) }
{
    if is_called(b"message", word) {
        Meant::Message(rest)
    } else if is_called(b"packet", word) {
        Meant::Packet(rest)
    } else if is_meant(text, word, rest) {
        Meant::Message(text)
    } else {
        Meant::None
    }
}

/// Whether the word is this name, in letters of either case.
fn is_called(name: &[u8], word: &[u8]) -> bool
    requires { map to_ascii_lowercase name.now ≡ name.now }
    ensures { result ≡ is_called name.now word.now }
{
    word.eq_ignore_ascii_case(name)
}

/// Whether a text without a name is meant as a message.
fn is_meant(text: &[u8], word: &[u8], rest: &[u8]) -> bool
    ensures { result ≡ is_meant text.now word.now (words_of rest.now) }
{
    let is_alone = are_none(rest) && is_hex(word);
    is_alone || (has_prefix(word) || (has_digit(word) && is_mostly_hex(text)))
}

/// Whether a text has no word.
fn are_none(text: &[u8]) -> bool
    ensures { result ≡ are_none (words_of text.now) }
{
    next_word(text).is_none()
}

/// Whether a word begins with `0x`.
fn has_prefix(word: &[u8]) -> bool
    ensures prefix { result ≡ has_prefix word.now }
    ensures long { result ≡ true → 2 ≤ length word.now }
{
    match word {
        [b'0', second, ..] => second.to_ascii_lowercase() == b'x',
        _ => false,
    }
}

/// The word behind its `0x`, if it has one.
pub(crate) fn without_prefix(word: &[u8]) -> &[u8]
    ensures { result.now ≡ without_prefix word.now }
{
    if has_prefix(word) { &word[2..] } else { word }
}

/// Whether a word has a digit of base 10.
fn has_digit(word: &[u8]) -> bool
    ensures { result ≡ list_any is_ascii_digit word.now }
{
    word.iter().any(|byte| byte.is_ascii_digit())
}

/// Whether a text has eight digits of base 16 or more, and at most one other byte for eight of them, but for spaces.
fn is_mostly_hex(text: &[u8]) -> bool
    ensures { result ≡ is_mostly_hex text.now }
{
    let digits = hex_count(text);
    digits >= 8 && other_count(text) <= digits / 8
}

/// How many bytes are digits of base 16.
fn hex_count(text: &[u8]) -> usize
    ensures { result ≡ count_by is_ascii_hexdigit text.now }
{
    text.iter().filter(|byte| byte.is_ascii_hexdigit()).count()
}

/// How many bytes are neither digits of base 16 nor spaces.
fn other_count(text: &[u8]) -> usize
    ensures { result ≡ count_by is_other text.now }
{
    text.iter().filter(|byte| is_other(**byte)).count()
}

fn is_other(byte: u8) -> bool
    ensures { result ≡ is_other byte }
{
    !byte.is_ascii_hexdigit() && byte != b' '
}

/// Whether the word is of pairs of digits of base 16.
pub(crate) fn is_hex(word: &[u8]) -> bool
    ensures { result ≡ is_hex word.now }
{
    !word.is_empty() && word.len() % 2 == 0 && are_digits(word)
}

/// Whether each byte is a digit of base 16, in either case.
fn are_digits(word: &[u8]) -> bool
    ensures { result ≡ list_all is_ascii_hexdigit word.now }
{
    // There is no way out of the loop before its end: a processor takes several bytes at once.
    let mut are_digits = true;
    for byte in word {
        are_digits = are_digits & byte.is_ascii_hexdigit();
    }
    are_digits
}
