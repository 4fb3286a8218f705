//! A line of a session: the request that it says, or its first fault.

ghost use Rattle.std.specs.Prelude.{◌≡◌, [], ◌∷◌, Err, MatchResult};
ghost use Rattle.rbc_model.specs.RequestText.{line_in};
ghost use Rattle.rbc_model.specs.SessionText.{group_at, nominal_at, name_in, train_in, report_in, give_back_in, inquiry_in};
ghost use Rattle.rbc_model.specs.SessionText.{words_line, parse_session};
ghost use Rattle.rbc_model.specs.Words.{words_of};
ghost use Rattle.rbc_words.specs.SessionLines.{request_view};

use crate::words::{
    around, next_word, number_at, number_from_to, only_word, request_text, take_word,
};
use rbc_model::limits::{
    FARTHEST_KEPT, FARTHEST_REPORT, LAST_COUNTRY, LAST_GROUP, LAST_TIME, LAST_TRAIN, LONGEST_TRAIN,
    MOST_DOUBT,
};
use rbc_model::{Distance, GroupName, Inquiry, LineFault, Report, ReportFields, TrainId};
use rbc_track::Name;

/// What a line of a session says that is not refused. Whether the track has a route, a section or a group of that
/// name is not asked here.
#[derive(Clone, Copy, Debug, PartialEq, Eq)]
pub enum Request {
    /// The line has no word, or is a comment. It has no reply.
    Blank,
    /// A train reports where it is.
    Report(Report),
    /// The route of this name is to be locked.
    Lock(Name),
    /// The section of this name is to be freed.
    Free(Name),
    /// The train of this number, 1 to 9,999,999, leaves.
    Leave(TrainId),
    /// The train of this number, 1 to 9,999,999, gives back what lies beyond this distance from its group, 0 to 100,000
    /// metres.
    GiveBack(TrainId, Distance),
    /// The train of this number, 1 to 9,999,999, asks for an authority.
    Ask(TrainId),
    /// Something is to be shown.
    Inquire(Inquiry),
}

/// What the bytes of a line, without its line feed, say. A comment may hold any bytes. It takes no memory.
///
/// # Errors
///
/// The first fault:
///
/// - `Overlong`: the line has more than 4,096 bytes, a carriage return counted.
/// - `NotText`: a byte is no space and no visible character of ASCII.
/// - `Command`: the first word is none of `report`, `lock`, `free`, `leave`, `yield`, `ask`, `state` and `scene`.
/// - `Words`: behind `report` stand not just eight words, behind `yield` not just two, behind `state` or `scene` any, or
///   behind another command not just one.
/// - `Number` or `Name`, of the first word that is not what stands there: `Number` of a number that is none or out
///   of range, `Name` of a group that is none or out of range, of another word than `nominal` and `reverse`, and of a
///   name out of its form.
pub fn parse(line: &[u8]) -> Result<Request, LineFault>
    ensures { line_in request_view result ≡ parse_session line.now }
{
    match request_text(line)? {
        Some(text) => words_line(text),
        None => Ok(Request::Blank),
    }
}

/// What the words of a text say, the first of them a command.
fn words_line(text: &[u8]) -> Result<Request, LineFault>
    ensures { line_in request_view result ≡ words_line (words_of text.now) }
{
    match next_word(text) {
        None => Ok(Request::Blank),
        Some((b"report", words)) => Ok(Request::Report(report_in(words)?)),
        Some((b"lock", words)) => Ok(Request::Lock(name_in(words)?)),
        Some((b"free", words)) => Ok(Request::Free(name_in(words)?)),
        Some((b"leave", words)) => Ok(Request::Leave(train_in(words)?)),
        Some((b"yield", words)) => give_back_in(words),
        Some((b"ask", words)) => Ok(Request::Ask(train_in(words)?)),
        Some((b"state", words)) => inquiry_in(Inquiry::State, words),
        Some((b"scene", words)) => inquiry_in(Inquiry::Scene, words),
        Some(_) => Err(LineFault::Command),
    }
}

/// The name in the words behind a command: the only one.
fn name_in(words: &[u8]) -> Result<Name, LineFault>
    ensures { result ≡ name_in (words_of words.now) }
{
    Name::new(only_word(words)?).ok_or(LineFault::Name(2))
}

/// The number of a train in the words behind a command: the only one.
fn train_in(words: &[u8]) -> Result<TrainId, LineFault>
    ensures { result ≡ train_in (words_of words.now) }
{
    let number = number_at(2, only_word(words)?, 1, LAST_TRAIN)?;
    Ok(TrainId::new(number))
}

/// The request in the two words behind the command `yield`: a train, and how many metres from its group the authority
/// ends that it keeps.
fn give_back_in(words: &[u8]) -> Result<Request, LineFault>
    ensures { line_in request_view result ≡ give_back_in (words_of words.now) }
{
    let (train, rest) = take_word(words)?;
    let end = only_word(rest)?;
    let train = number_at(2, train, 1, LAST_TRAIN)?;
    let end = number_at(3, end, 0, FARTHEST_KEPT)?;
    Ok(Request::GiveBack(TrainId::new(train), Distance::new(end)))
}

/// What is asked to be shown, by a command that has no word behind it.
fn inquiry_in(inquiry: Inquiry, words: &[u8]) -> Result<Request, LineFault>
    ensures { line_in request_view result ≡ inquiry_in inquiry (words_of words.now) }
{
    match next_word(words) {
        None => Ok(Request::Inquire(inquiry)),
        Some(_) => Err(LineFault::Words),
    }
}

/// The words behind the command `report`, in their order.
#[derive(Clone, Copy)]
struct ReportWords<'line> {
    train: &'line [u8],
    group: &'line [u8],
    direction: &'line [u8],
    distance: &'line [u8],
    over: &'line [u8],
    under: &'line [u8],
    length: &'line [u8],
    time: &'line [u8],
}

/// The words behind the command, if there are just eight.
fn report_words(words: &[u8]) -> Result<ReportWords<'_>, LineFault>
    ensures { MatchResult result
        (λ found. words_of words.now ≡ found.train.now ∷ found.group.now ∷ found.direction.now ∷ found.distance.now
        ∷ found.over.now ∷ found.under.now ∷ found.length.now ∷ found.time.now ∷ [])
        (λ fault. report_in (words_of words.now) ≡ Err fault) }
{
    let (train, rest) = take_word(words)?;
    let (group, rest) = take_word(rest)?;
    let (direction, rest) = take_word(rest)?;
    let (distance, rest) = take_word(rest)?;
    let (over, rest) = take_word(rest)?;
    let (under, rest) = take_word(rest)?;
    let (length, rest) = take_word(rest)?;
    let time = only_word(rest)?;
    Ok(ReportWords {
        train,
        group,
        direction,
        distance,
        over,
        under,
        length,
        time,
    })
}

/// The report in the words behind the first one of a line.
///
/// # Errors
///
/// The first fault: `Words`, where there are not just eight; `Number` or `Name` with the place of the first word that is not what
/// stands there, the first word of the line being 1.
pub fn report_in(words: &[u8]) -> Result<Report, LineFault>
    ensures { result ≡ report_in (words_of words.now) }
{
    let words = report_words(words)?;
    let train = number_at(2, words.train, 1, LAST_TRAIN)?;
    let group = group_at(3, words.group)?;
    let nominal = nominal_at(4, words.direction)?;
    let distance = number_at(5, words.distance, 0, FARTHEST_REPORT)?;
    let over = number_at(6, words.over, 0, u32::from(MOST_DOUBT))?;
    let under = number_at(7, words.under, 0, u32::from(MOST_DOUBT))?;
    let length = number_at(8, words.length, 1, u32::from(LONGEST_TRAIN))?;
    let time = number_at(9, words.time, 0, LAST_TIME)?;
    let report = Report::new(ReportFields {
        train: TrainId::new(train),
        group,
        nominal,
        distance: Distance::new(distance),
        over: over as u16,
        under: under as u16,
        length: length as u16,
        time,
    });
    Ok(report.unwrap())
}

/// Word `index` as a balise group: its country, a slash, and its number there.
fn group_at(index: usize, word: &[u8]) -> Result<GroupName, LineFault>
    ensures { result ≡ group_at index word.now }
{
    let (country, number) = around(word, b'/');
    let fault = LineFault::Name(index);
    let country = number_from_to(country, 0, u32::from(LAST_COUNTRY), fault)?;
    let number = number_from_to(number, 0, u32::from(LAST_GROUP), fault)?;
    Ok(GroupName::new(country as u16, number as u16).unwrap())
}

/// Word `index` as a direction: whether it is the group's nominal one.
fn nominal_at(index: usize, word: &[u8]) -> Result<bool, LineFault>
    ensures { result ≡ nominal_at index word.now }
{
    if word == b"nominal".as_slice() {
        Ok(true)
    } else if word == b"reverse".as_slice() {
        Ok(false)
    } else {
        Err(LineFault::Name(index))
    }
}
