//! Words that are spelled in one way: as what they say is written.

ghost use Rattle.std.specs.Prelude.{◌≡◌, true, bytes_eq, decimal};
ghost use Rattle.rbc_model.specs.Words.{words_of};
ghost use Rattle.rbc_scene_words.specs.SceneLine.{count_spelled, distance_spelled, goes_on, is_close, train_spelled};
ghost use Rattle.rbc_scene_words.specs.SceneLine.{extent_spelled, group_spelled, number_spelled, report_spelled, size_spelled};

use itoa::Buffer;
use rbc_model::limits::LAST_TRAIN;
use rbc_model::{GroupName, LineFault, Report, TrainId};
use rbc_words::{around, integer, number, number_at, only_word, take_word};

/// Whether a byte goes on with a line: no carriage return, and no space where a word has to begin.
fn goes_on(begins: bool, byte: u8) -> bool
    ensures { result ≡ goes_on begins byte }
{
    byte != b'\r' && !(begins && byte == b' ')
}

/// Whether a line has one space between each two words, no other space, and no carriage return.
pub(crate) fn is_close(line: &[u8]) -> bool
    ensures { result ≡ is_close true line.now }
{
    let mut begins = true;
    for byte in line {
        if !goes_on(begins, *byte) {
            return false;
        }
        begins = *byte == b' ';
    }
    !begins
}

/// Whether a word spells this number as it is written, without a needless 0.
fn is_number(word: &[u8], number: u64) -> bool
    ensures { result ≡ bytes_eq word.now (decimal number) }
{
    let mut digits = Buffer::new();
    word == digits.format(number).as_bytes()
}

/// That word `index` spells this number as it is written.
fn number_spelled(index: usize, word: &[u8], number: u64) -> Result<(), LineFault>
    ensures { result ≡ number_spelled index word.now number }
{
    if is_number(word, number) {
        Ok(())
    } else {
        Err(LineFault::Number(index))
    }
}

/// Word `index` as a number of one to ten digits.
pub(crate) fn count_spelled(index: usize, word: &[u8]) -> Result<u64, LineFault>
    ensures { result ≡ count_spelled index word.now }
{
    let count = number(word).ok_or(LineFault::Number(index))?;
    number_spelled(index, word, count)?;
    Ok(count)
}

/// Word `index` as metres from a group: one to ten digits, with a `-` before them where they lie before it.
pub(crate) fn distance_spelled(index: usize, word: &[u8]) -> Result<i64, LineFault>
    ensures { result ≡ distance_spelled index word.now }
{
    let distance = integer(word).ok_or(LineFault::Number(index))?;
    let mut digits = Buffer::new();
    if word == digits.format(distance).as_bytes() {
        Ok(distance)
    } else {
        Err(LineFault::Number(index))
    }
}

/// Word 2 as the number of a train.
pub(crate) fn train_spelled(word: &[u8]) -> Result<TrainId, LineFault>
    ensures { result ≡ train_spelled word.now }
{
    let train = number_at(2, word, 1, LAST_TRAIN)?;
    number_spelled(2, word, u64::from(train))?;
    Ok(TrainId::new(train))
}

/// That word 3 spells this group as it is written.
fn group_spelled(word: &[u8], group: GroupName) -> Result<(), LineFault>
    ensures { result ≡ group_spelled word.now group }
{
    let (country, number) = around(word, b'/');
    if is_number(country, u64::from(group.country()))
        && is_number(number, u64::from(group.number()))
    {
        Ok(())
    } else {
        Err(LineFault::Name(3))
    }
}

/// That the words that tell a report's length and its time are spelled as they are written.
fn size_spelled(words: &[u8], report: &Report) -> Result<(), LineFault>
    ensures { result ≡ size_spelled (words_of words.now) report.now }
{
    let (length, rest) = take_word(words)?;
    let time = only_word(rest)?;
    number_spelled(8, length, u64::from(report.length()))?;
    number_spelled(9, time, u64::from(report.time()))
}

/// That the words from a report's distance on are spelled as they are written.
fn extent_spelled(words: &[u8], report: &Report) -> Result<(), LineFault>
    ensures { result ≡ extent_spelled (words_of words.now) report.now }
{
    let (distance, rest) = take_word(words)?;
    let (over, rest) = take_word(rest)?;
    let (under, rest) = take_word(rest)?;
    number_spelled(5, distance, u64::from(report.distance().metres()))?;
    number_spelled(6, over, u64::from(report.over()))?;
    number_spelled(7, under, u64::from(report.under()))?;
    size_spelled(rest, report)
}

/// That the words behind `train` spell this report as it is written.
///
/// # Errors
///
/// `Words`, where there are not just eight; else of the first that is spelled otherwise, `Name 3` of the group and `Number` of
/// a number.
pub(crate) fn report_spelled(words: &[u8], report: &Report) -> Result<(), LineFault>
    ensures { result ≡ report_spelled (words_of words.now) report.now }
{
    let (train, rest) = take_word(words)?;
    let (group, rest) = take_word(rest)?;
    let (_nominal, rest) = take_word(rest)?;
    number_spelled(2, train, u64::from(report.train().number()))?;
    group_spelled(group, report.group())?;
    extent_spelled(rest, report)
}
