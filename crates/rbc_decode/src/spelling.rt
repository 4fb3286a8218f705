//! The bytes that digits spell, or what is wrong with these.

ghost use Rattle.std.specs.Prelude.{◌≡◌, ◌+◌, ◌*◌, ◌/◌, ◌≤◌, ◌++◌, ℕ, List, [], not, Result, Ok, Err, length, IsTrue, OnOk, IfOk, IfErr};
ghost use Rattle.std.specs.Char.{is_ascii_hexdigit};
ghost use Rattle.std.specs.List.{position, position_or_len};
ghost use Rattle.rbc_model.specs.declared.limits.TheConstants.{LONGEST_LINE};
ghost use Rattle.rbc_model.specs.Words.{words_of};
ghost use Rattle.rbc_decode.specs.declared.spelling.TheConstants.{MOST_BYTES};
ghost use Rattle.rbc_decode.specs.Spelling.{behind_word, bytes_in, in_front, is_hex, place_in, spelled};

use crate::line::{is_hex, without_prefix};
use rbc_model::limits::LONGEST_LINE;
use rbc_words::next_word;
use std::marker::Model;

/// How many bytes a message or packet may have here.
pub(crate) const MOST_BYTES: usize = LONGEST_LINE / 2;

/// What is wrong with digits.
#[derive(Clone, Copy, Debug, PartialEq, Eq)]
pub enum Wrong {
    /// At this place of them, counted from 1, is none, or one is missing.
    Digits(u32),
    /// There are too many, or the line is too long.
    Overlong,
}

/// Bytes that are spelled one word after another.
#[derive(Drop)]
pub(crate) struct Octets {
    bytes: [u8; MOST_BYTES],
    count: usize,
}

impl Model for Octets {
    ghost use Rattle.std.specs.Prelude.{◌≤◌, ℕ, List, take};
    ghost use Rattle.rbc_decode.specs.declared.spelling.TheConstants.{MOST_BYTES};

    ghost Value = { List ℕ };

    ghost view = { λ octets. take octets.count octets.bytes };

    ghost invariant = { λ octets. octets.count ≤ MOST_BYTES };
}

impl Octets {
    /// None.
    pub(crate) fn new() -> Octets
        ensures { result ≡ [] }
    {
        Octets {
            bytes: [0; MOST_BYTES],
            count: 0,
        }
    }

    /// The bytes.
    pub(crate) fn bytes(&self) -> &[u8]
        ensures bytes { result.now ≡ self.now }
        ensures few { length result.now ≤ MOST_BYTES }
    {
        &self.bytes[..self.count]
    }

    /// Puts what pairs of digits spell behind the bytes.
    fn spell(&mut self, digits: &[u8])
        requires hex { IsTrue (is_hex digits.now) }
        requires room { length self.old + length digits.now / 2 ≤ MOST_BYTES }
        ensures bytes { self.new ≡ self.old ++ bytes_in digits.now }
        ensures length { length self.new ≡ length self.old + length digits.now / 2 }
    {
        let end = self.count + digits.len() / 2;
        decode_digits(digits, &mut self.bytes[self.count..end]);
        self.count = end;
    }

    /// Puts what a word of digits spells behind the bytes, which have twice as many. Answers how many digits there are.
    ///
    /// # Errors
    ///
    /// What is wrong with the digits.
    fn spell_word(&mut self, before: usize, digits: &[u8]) -> Result<usize, Wrong>
        requires before { before ≡ 2 * length self.old }
        requires few { before ≤ LONGEST_LINE }
        ensures spelled { OnOk result ((later : Result (List ℕ) Wrong) → behind_word before digits.now later ≡ in_front (bytes_in digits.now) later) }
        ensures bytes { OnOk result (self.new ≡ self.old ++ bytes_in digits.now) }
        ensures count { IfOk result (λ count. (count ≡ before + length digits.now) × (count ≡ 2 * length self.new) × (count ≤ LONGEST_LINE)) }
        ensures wrong { IfErr result (λ wrong. (later : Result (List ℕ) Wrong) → behind_word before digits.now later ≡ Err wrong) }
    {
        if before + digits.len() > LONGEST_LINE {
            return Err(Wrong::Overlong);
        }
        if !is_hex(digits) {
            return Err(Wrong::Digits(before as u32 + place_in(digits)));
        }
        self.spell(digits);
        Ok(before + digits.len())
    }
}

/// The bytes that the words of a text spell in pairs of digits, put where none are.
///
/// # Errors
///
/// What is wrong with the digits: the first word of which something is, or that there are none.
pub(crate) fn spell(text: &[u8], octets: &mut Octets) -> Result<(), Wrong>
    requires { octets.old ≡ [] }
    ensures bytes { OnOk result (spelled 0 (words_of text.now) ≡ Ok octets.new) }
    ensures wrong { IfErr result (λ wrong. spelled 0 (words_of text.now) ≡ Err wrong) }
{
    let mut rest = text;
    let mut count = 0;
    while let Some((word, more)) = next_word(rest) {
        count = octets.spell_word(count, without_prefix(word))?;
        rest = more;
    }
    if count == 0 {
        return Err(Wrong::Digits(1));
    }
    Ok(())
}

/// Where the digits of a word are at fault, counted from 1: at the first byte that is none, or behind all.
fn place_in(digits: &[u8]) -> u32
    requires { length digits.now ≤ LONGEST_LINE }
    ensures place { result ≡ place_in digits.now }
    ensures few { result ≤ length digits.now + 1 }
{
    front_length(digits) as u32 + 1
}

/// How many digits a word begins with.
fn front_length(digits: &[u8]) -> usize
    ensures value { result ≡ position_or_len (λ byte. not (is_ascii_hexdigit byte)) digits.now }
    ensures bound { result ≤ length digits.now }
{
    match first_other(digits) {
        Some(index) => index,
        None => digits.len(),
    }
}

/// The index of the first byte that is no digit.
fn first_other(digits: &[u8]) -> Option<usize>
    ensures { result ≡ position (λ byte. not (is_ascii_hexdigit byte)) digits.now }
{
    digits.iter().position(|byte| !byte.is_ascii_hexdigit())
}

/// The bytes that pairs of digits spell, half as many.
fn decode_digits(digits: &[u8], bytes: &mut [u8])
    requires hex { IsTrue (is_hex digits.now) }
    requires half { length bytes.old ≡ length digits.now / 2 }
    ensures { bytes.new ≡ bytes_in digits.now }
{
    hex::decode_to_slice(digits, bytes).unwrap();
}
