//! A line of a text with certificates: what it says.

ghost use Rattle.std.specs.Prelude.{◌≡◌, [], MatchOption, IfOk, Some, true, false, option_map};
ghost use Rattle.rbc_model.specs.declared.places.Format.TheVariants.{Far};
ghost use Rattle.rbc_model.specs.declared.prices.Part.TheVariants.{Head, Profile, Row};
ghost use Rattle.rbc_model.specs.CheckText.{CheckLine as Said, check_line, words_said, head_line, SpeedHead, GradeHead, Other};
ghost use Rattle.rbc_model.specs.CheckText.{profile_line, profile_in, price_line, numbers_in, step_in_word};
ghost use Rattle.rbc_model.specs.Kinds.{speed_kind, grade_kind};
ghost use Rattle.rbc_model.specs.StepsText.{request_in};
ghost use Rattle.rbc_model.specs.Words.{words_of, is_blank};
ghost use Rattle.rbc_checks.specs.Lines.{IsSaid, are_text, command_said, is_in_form, profile_view, numbers_view};

use crate::Spare;
use rbc_model::limits::LONGEST_TRACK;
use rbc_model::{Memory, OrMemory, Part};
use rbc_steps::{Grade, Speed};
use rbc_words::{
    StepsRequest, around, integer, is_text, next_word, number, request_in, without_return,
};
use std::alloc::Global;

/// What a line of a text with certificates says.
#[derive(Drop)]
pub enum CheckLine {
    /// A track of speeds, with the limit of steps.
    SpeedHead(StepsRequest<Speed>),
    /// A track of gradients, with the limit of steps.
    GradeHead(StepsRequest<Grade>),
    /// A profile.
    Profile(ToldProfile),
    /// A row of a price table.
    Row(ToldRow),
    /// The line begins as one of these, and is out of form.
    Bad(Part),
    /// Anything else.
    Other,
}

/// A profile as it is told: not all such steps are one.
#[derive(Drop)]
pub struct ToldProfile {
    /// Where each step starts, 0 to 100,000 metres, and its value: km/h, or per mille.
    pub steps: Vec<(u32, i64)>,
    /// What the profile is said to lose, summed over all metres.
    pub loss: u64,
}

/// A row of a price table as it is told.
#[derive(Drop)]
pub struct ToldRow {
    /// The number that it is told under.
    pub number: u64,
    /// Its prices.
    pub prices: Vec<u64>,
}

/// What the bytes of a line, without its line feed, say.
///
/// # Errors
///
/// The part of a certificate that the line is, where there is no memory to keep what it says.
pub fn parse_check(spare: &mut Spare, line: &[u8]) -> Result<CheckLine, Part>
    ensures { IsSaid result (check_line Far line.now) }
{
    let text = without_return(line);
    let Some((command, words)) = command_in(text) else {
        return Ok(CheckLine::Other);
    };
    let read = command_said(spare, command, words);
    // All words of a line in form are text, and so is the line.
    if is_in_form(&read) {
        return read;
    }
    if !is_text(text) {
        return Ok(CheckLine::Other);
    }
    read
}

/// Whether the line that was read is in form.
fn is_in_form(read: &Result<CheckLine, Part>) -> bool
    ensures { (said : Said) → IsSaid read.now said → result ≡ true → is_in_form said ≡ true }
{
    match read {
        Ok(CheckLine::Bad(_) | CheckLine::Other) | Err(_) => false,
        Ok(_) => true,
    }
}

/// What a line of a certificate begins with.
#[derive(Clone, Copy, Debug, PartialEq, Eq)]
enum Command {
    Speed,
    Grade,
    Steps,
    Prices,
}

/// The command that a text begins with, if it does, and the words behind it.
fn command_in(text: &[u8]) -> Option<(Command, &[u8])>
    ensures { MatchOption result (words_said Far (words_of text.now) ≡ Other)
        (λ found. (is_blank (words_of text.now) ≡ false) × (are_text (words_of text.now) ≡ are_text (words_of found.1.now))
        × (words_said Far (words_of text.now) ≡ command_said found.0 (words_of found.1.now))) }
{
    match next_word(text)? {
        (b"speed", words) => Some((Command::Speed, words)),
        (b"grade", words) => Some((Command::Grade, words)),
        (b"steps", words) => Some((Command::Steps, words)),
        (b"prices", words) => Some((Command::Prices, words)),
        _ => None,
    }
}

/// What the words behind a command say.
fn command_said(spare: &mut Spare, command: Command, words: &[u8]) -> Result<CheckLine, Part>
    ensures { IsSaid result (command_said command (words_of words.now)) }
{
    match command {
        Command::Speed => speed_head(spare.alloc(), words),
        Command::Grade => grade_head(spare.alloc(), words),
        Command::Steps => told_profile(spare.told(), words),
        Command::Prices => told_row(spare.row(), words),
    }
}

/// The track of speeds in the words behind its command.
fn speed_head(alloc: Global, words: &[u8]) -> Result<CheckLine, Part>
    ensures { IsSaid result (head_line SpeedHead (request_in speed_kind Far (words_of words.now))) }
{
    match request_in(alloc, words) {
        Ok(request) => Ok(CheckLine::SpeedHead(request)),
        Err(OrMemory::Refused(_)) => Ok(CheckLine::Bad(Part::Head)),
        Err(OrMemory::Memory) => Err(Part::Head),
    }
}

/// The track of gradients in the words behind its command.
fn grade_head(alloc: Global, words: &[u8]) -> Result<CheckLine, Part>
    ensures { IsSaid result (head_line GradeHead (request_in grade_kind Far (words_of words.now))) }
{
    match request_in(alloc, words) {
        Ok(request) => Ok(CheckLine::GradeHead(request)),
        Err(OrMemory::Refused(_)) => Ok(CheckLine::Bad(Part::Head)),
        Err(OrMemory::Memory) => Err(Part::Head),
    }
}

/// The profile in the words behind `steps`, whose steps are put into an empty list.
fn told_profile(steps: Vec<(u32, i64)>, words: &[u8]) -> Result<CheckLine, Part>
    requires { steps.items ≡ [] }
    ensures { IsSaid result (profile_line (profile_in (words_of words.now))) }
{
    match profile_in(steps, words) {
        Ok(Some(profile)) => Ok(CheckLine::Profile(profile)),
        Ok(None) => Ok(CheckLine::Bad(Part::Profile)),
        Err(_) => Err(Part::Profile),
    }
}

/// Steps, the word `loss`, and the loss.
fn profile_in(mut steps: Vec<(u32, i64)>, words: &[u8]) -> Result<Option<ToldProfile>, Memory>
    requires { steps.items ≡ [] }
    ensures { IfOk result (λ found. option_map profile_view found ≡ profile_in (words_of words.now)) }
{
    let Some((mut word, rest)) = next_word(words) else {
        return Ok(None);
    };
    let Some((mut next, mut rest)) = next_word(rest) else {
        return Ok(None);
    };
    while let Some((last, more)) = next_word(rest) {
        let Some(step) = step_in_word(word) else {
            return Ok(None);
        };
        steps.push(step)?;
        word = next;
        next = last;
        rest = more;
    }
    if word != b"loss".as_slice() {
        return Ok(None);
    }
    match number(next) {
        Some(loss) => Ok(Some(ToldProfile { steps, loss })),
        None => Ok(None),
    }
}

/// A word as a step: its start, a colon, and its value.
fn step_in_word(word: &[u8]) -> Option<(u32, i64)>
    ensures { result ≡ step_in_word word.now }
{
    let (start, value) = around(word, b':');
    let start = number(start)?;
    if start > u64::from(LONGEST_TRACK) {
        return None;
    }
    Some((start as u32, integer(value)?))
}

/// The row of a price table in the words behind `prices`, whose prices are put into an empty list.
fn told_row(room: Vec<u64>, words: &[u8]) -> Result<CheckLine, Part>
    requires { room.items ≡ [] }
    ensures { IsSaid result (price_line (numbers_in (words_of words.now))) }
{
    let Some((first, rest)) = next_word(words) else {
        return Ok(CheckLine::Bad(Part::Row));
    };
    match (number(first), numbers_in(room, rest)) {
        (Some(number), Ok(Some(prices))) => Ok(CheckLine::Row(ToldRow { number, prices })),
        (_, Err(_)) => Err(Part::Row),
        _ => Ok(CheckLine::Bad(Part::Row)),
    }
}

/// Words as numbers, put into an empty list.
fn numbers_in(mut numbers: Vec<u64>, words: &[u8]) -> Result<Option<Vec<u64>>, Memory>
    requires { numbers.items ≡ [] }
    ensures { IfOk result (λ found. option_map numbers_view found ≡ numbers_in (words_of words.now)) }
{
    let mut rest = words;
    while let Some((word, more)) = next_word(rest) {
        let Some(number) = number(word) else {
            return Ok(None);
        };
        numbers.push(number)?;
        rest = more;
    }
    Ok(Some(numbers))
}
