//! A line of `rbc steps`: the request that it says, or its first fault.

ghost use Rattle.std.specs.Prelude.{◌≡◌, ◌∷◌, IfOk, IsOk, IsErrOf};
ghost use Rattle.std.specs.Result.{IsOkAnd};
ghost use Rattle.rbc_model.specs.declared.places.Format.TheVariants.{Far};
ghost use Rattle.rbc_model.specs.declared.refusals.LineFault.TheVariants.{Number};
ghost use Rattle.rbc_model.specs.Answers.{AnswersAs};
ghost use Rattle.rbc_model.specs.Results.{allowed_value};
ghost use Rattle.rbc_model.specs.Scales.{is_expressible};
ghost use Rattle.rbc_model.specs.Words.{words_of, number_in};
ghost use Rattle.rbc_model.specs.StepsText.{run_in_word, runs_in, request_in, words_line, parse_steps};
ghost use Rattle.rbc_words.specs.StepsLines.{request_view, line_view, IsRequest, IsLineInRange};

use crate::spelled::Spelled;
use crate::words::{around, next_word, number_at, request_text, take_word};
use rbc_model::limits::{FARTHEST_END_IN_TENS, LONGEST_TRACK, MOST_STEPS};
use rbc_model::scales::is_expressible;
use rbc_model::{Format, LineFault, OrMemory};
use rbc_steps::{Grade, Level, Speed};
use std::alloc::Global;

/// A request for a profile of a track.
#[derive(Drop)]
pub struct StepsRequest<V: Level> {
    /// How many steps the packet may have, 1 to 31.
    pub limit: usize,
    /// The track's runs: where each starts, 0 to 100,000 metres, and its level.
    pub runs: Vec<(u32, V)>,
    /// Where the track ends: 1 to 32,000 metres, or a multiple of ten from 32,010 to 80,000 metres.
    pub end: u32,
}

/// What a line of `rbc steps` says that is not refused.
#[derive(Drop)]
pub enum StepsLine {
    /// The line has no word, or is a comment.
    Blank,
    /// The command `speed`.
    Speed(StepsRequest<Speed>),
    /// The command `grade`.
    Grade(StepsRequest<Grade>),
}

/// What the bytes of a line, without its line feed, say. A comment may hold any bytes.
///
/// # Errors
///
/// The first fault, also where memory is refused:
///
/// - `Overlong`: the line has more than 4,096 bytes, a carriage return counted.
/// - `NotText`: a byte is no space and no visible character of ASCII.
/// - `Command`: the first word is neither `speed` nor `grade`.
/// - `Words`: fewer than four words follow it.
/// - `Number` or `Name`, of the first word that is not what stands there: `Number` of a number that is none or out of
///   range, `Name` of a word that is not `end`.
/// - `Memory`, where there is none to keep the runs in. Only a valid request can get it.
pub fn parse_steps(alloc: Global, line: &[u8]) -> Result<StepsLine, OrMemory<LineFault>>
    ensures grammar { AnswersAs line_view result (parse_steps Far line.now) }
    ensures memory { IsErrOf result OrMemory.Memory → IsOkAnd (parse_steps Far line.now) IsRequest }
    ensures in_range { IfOk result (λ line. IsLineInRange (line_view line)) }
{
    match request_text(line)? {
        Some(text) => words_line(alloc, text),
        None => Ok(StepsLine::Blank),
    }
}

/// What the words of a text say, the first of them a command.
fn words_line(alloc: Global, text: &[u8]) -> Result<StepsLine, OrMemory<LineFault>>
    ensures grammar { AnswersAs line_view result (words_line Far (words_of text.now)) }
    ensures memory { IsErrOf result OrMemory.Memory → IsOkAnd (words_line Far (words_of text.now)) IsRequest }
{
    match next_word(text) {
        None => Ok(StepsLine::Blank),
        Some((b"speed", words)) => Ok(StepsLine::Speed(request_in(alloc, words)?)),
        Some((b"grade", words)) => Ok(StepsLine::Grade(request_in(alloc, words)?)),
        Some(_) => Err(OrMemory::Refused(LineFault::Command)),
    }
}

/// The request in the words behind its command: the limit, at least one run, the word `end`, and the end.
///
/// # Errors
///
/// As of [`parse_steps`], from `Words` on.
pub fn request_in<V: Spelled>(
    alloc: Global,
    words: &[u8],
) -> Result<StepsRequest<V>, OrMemory<LineFault>>
    ensures grammar { AnswersAs request_view result (request_in V.kind Far (words_of words.now)) }
    ensures memory { IsErrOf result OrMemory.Memory → IsOk (request_in V.kind Far (words_of words.now)) }
{
    let (limit, rest) = take_word(words)?;
    let (first, rest) = take_word(rest)?;
    let (second, rest) = take_word(rest)?;
    let (_third, _) = take_word(rest)?;
    let limit = number_at(2, limit, 1, MOST_STEPS as u32)?;
    runs_in(alloc, limit as usize, first, second, rest)
}

/// The request whose words from the third on are these two and those behind them: runs, the word `end`, and the end.
fn runs_in<V: Spelled>(
    alloc: Global,
    limit: usize,
    first: &[u8],
    second: &[u8],
    words: &[u8],
) -> Result<StepsRequest<V>, OrMemory<LineFault>>
    ensures grammar { AnswersAs request_view result
        (runs_in V.kind Far limit 3 (first.now ∷ second.now ∷ words_of words.now)) }
    ensures memory { IsErrOf result OrMemory.Memory
        → IsOk (runs_in V.kind Far limit 3 (first.now ∷ second.now ∷ words_of words.now)) }
{
    let mut word = first;
    let mut next = second;
    let mut rest = words;
    let mut runs = Vec::new(alloc);
    let mut refused = false;
    let mut index = 3;
    while let Some((last, more)) = next_word(rest) {
        let run = run_in_word(index, word)?;
        // Where memory is refused, a later fault is told nevertheless.
        refused = refused || runs.push(run).is_err();
        word = next;
        next = last;
        rest = more;
        index += 1;
    }
    if word != b"end".as_slice() {
        return Err(OrMemory::Refused(LineFault::Name(index)));
    }
    let end = end_at(index + 1, next)?;
    if refused {
        return Err(OrMemory::Memory);
    }
    Ok(StepsRequest { limit, runs, end })
}

/// Word `index` as the end of a track, where a message can give one.
fn end_at(index: usize, word: &[u8]) -> Result<u32, LineFault>
    ensures { result ≡ allowed_value (is_expressible Far) (Number index) (number_in word.now) }
{
    let end = number_at(index, word, 1, FARTHEST_END_IN_TENS)?;
    if is_expressible(Format::Far, end) {
        Ok(end)
    } else {
        Err(LineFault::Number(index))
    }
}

/// Word `index` as a run: its start, a colon, and its value.
fn run_in_word<V: Spelled>(index: usize, word: &[u8]) -> Result<(u32, V), LineFault>
    ensures { result ≡ run_in_word V.kind index word.now }
{
    let (start, value) = around(word, b':');
    let start = number_at(index, start, 0, LONGEST_TRACK)?;
    let value = V::read(value).ok_or(LineFault::Number(index))?;
    Ok((start, value))
}
