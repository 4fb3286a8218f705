//! Lines that are no request.

use crate::forms::{FORMS, form_of};
use rbc_model::Memory;
use rbc_model::limits::LONGEST_LINE;
use rbc_spelling::nearest;
use rbc_words::{next_word, number, without_return};
use std::alloc::Global;
use std::str;

/// How many bytes are shown of a word.
const SHOWN: usize = 40;

/// Some bytes as text: none, where they are no text.
pub(crate) fn text(bytes: &[u8]) -> &str {
    match str::from_utf8(bytes) {
        Ok(text) => text,
        Err(_) => "",
    }
}

/// A word as it is shown: its first bytes, where it is long.
fn shown(word: &[u8]) -> &str {
    text(word.get(..SHOWN).unwrap_or(word))
}

/// The first word of a line, and those behind it.
pub(crate) fn command_of(line: &[u8]) -> (&[u8], &[u8]) {
    next_word(without_return(line)).unwrap_or((&[], &[]))
}

/// How many words there are: each has a byte at least.
fn count(words: &[u8]) -> usize {
    let mut rest = words;
    for count in 0..words.len() {
        match next_word(rest) {
            Some((_, behind)) => rest = behind,
            None => return count,
        }
    }
    words.len()
}

/// The word of this number among these, counted from 1.
fn word_at(words: &[u8], number: u64) -> Option<&[u8]> {
    let mut rest = words;
    for _ in 1..number {
        rest = next_word(rest)?.1;
    }
    Some(next_word(rest)?.0)
}

/// The line behind the refusal of a line for its bytes: it is too long, or no text.
///
/// # Errors
///
/// The allocator refused memory.
pub(crate) fn too_long(alloc: Global) -> Result<String, Memory> {
    Ok(format!(in alloc; "{LONGEST_LINE} bytes at most expected; the session ends")?)
}

/// The line behind the refusal of a line in which a byte stands that may not.
pub(crate) fn no_text(alloc: Global, line: &[u8]) -> Result<Option<String>, Memory> {
    let text = without_return(line);
    let Some(place) = text.iter().position(|byte| *byte < 0x20 || *byte > 0x7e) else {
        return Ok(None);
    };
    let (byte, number) = (text[place], place.saturating_add(1));
    Ok(Some(format!(in alloc;
        "byte {number}: a space or a visible character of ASCII expected, not 0x{byte:02x}"
    )?))
}

/// The line behind the refusal of a line whose first word is no command.
///
/// # Errors
///
/// The allocator refused memory.
pub(crate) fn no_command(alloc: Global, line: &[u8]) -> Result<String, Memory> {
    let word = shown(command_of(line).0);
    let mut commands = Vec::new(alloc);
    for form in FORMS {
        commands.push(form.command)?;
    }
    match nearest(alloc, word, commands.as_slice())? {
        Some(meant) => Ok(format!(in alloc; "no request {word}: is {meant} meant?")?),
        None => Ok(format!(in alloc; "no request {word}: help lists them")?),
    }
}

/// The line behind the refusal of a line that has too few words or too many.
///
/// # Errors
///
/// The allocator refused memory.
pub(crate) fn words(alloc: Global, line: &[u8]) -> Result<Option<String>, Memory> {
    let (command, rest) = command_of(line);
    let Some(form) = form_of(command) else {
        return Ok(None);
    };
    let (expected, found) = (form.slots.len(), count(rest));
    let noun = if expected == 1 { "word" } else { "words" };
    let command = form.command;
    Ok(Some(format!(in alloc; "{expected} {noun} behind {command} expected, not {found}: {form}")?))
}

/// The line behind the refusal of a line for one of its words, whose number the refusal tells.
///
/// # Errors
///
/// The allocator refused memory.
pub(crate) fn word(alloc: Global, line: &[u8], told: &[u8]) -> Result<Option<String>, Memory> {
    let Some((place, _)) = next_word(told) else {
        return Ok(None);
    };
    let Some(place) = number(place) else {
        return Ok(None);
    };
    let (command, rest) = command_of(line);
    let behind = place.saturating_sub(1);
    let (Some(form), Some(found)) = (form_of(command), word_at(rest, behind)) else {
        return Ok(None);
    };
    let Some(slot) = form.slots.get(behind.saturating_sub(1) as usize) else {
        return Ok(None);
    };
    let found = shown(found);
    Ok(Some(format!(in alloc; "word {place}: {slot} expected, not {found}")?))
}
