//! A line of a scene: what it says, or its first fault.

ghost use Rattle.std.specs.Prelude.{◌≡◌, IsOk, IsErrOf};
ghost use Rattle.rbc_model.specs.Answers.{AnswersAs};
ghost use Rattle.rbc_model.specs.RequestText.{line_in};
ghost use Rattle.rbc_model.specs.Words.{words_of};
ghost use Rattle.rbc_scene_words.specs.LineViews.{line_view};
ghost use Rattle.rbc_scene_words.specs.SceneLine.{Holds, Stands};
ghost use Rattle.rbc_scene_words.specs.SceneLine.{along_in, distances_in, done_in, locked_in, more_in, parse_scene_line};
ghost use Rattle.rbc_scene_words.specs.SceneLine.{reported_in, route_at, said_behind, scene_line_in, version_in};

use crate::first_word::{FirstWord, first_word};
use crate::legs::{leg_at, leg_or_none_at, legs_in};
use crate::spelling::{count_spelled, distance_spelled, is_close, report_spelled, train_spelled};
use rbc_model::{Leg, LineFault, OrMemory, Report, RouteId, TrainId};
use rbc_track::{Name, Track};
use rbc_words::{next_word, only_word, report_in, request_text, take_word};
use std::alloc::Global;

/// What a line of a scene says. Its legs and routes are the track's. A train is named by its number, 1 to 9,999,999.
#[derive(Drop)]
pub enum SceneLine {
    /// `scene`: the version, less than 10,000,000,000.
    Version(u64),
    /// `locked`: a leg whose section is locked in its direction, the route that locked it, and the leg that it is locked
    /// behind, if there is one.
    Locked(Leg, RouteId, Option<Leg>),
    /// `train`: a train's last report.
    Reported(Report),
    /// `line`: a train, how many metres behind the start of its line its group stands, less than 10,000,000,000, and its
    /// first legs.
    Along(TrainId, u64, Vec<Leg>),
    /// `along`: a train, and more legs of its line.
    More(TrainId, Vec<Leg>),
    /// `stands`: a train, its rear and its front, in metres from its group.
    Stands(TrainId, i64, i64),
    /// `holds`: a train, and where its authority begins and ends, in metres from its group.
    Holds(TrainId, i64, i64),
    /// `next`: what a train would be granted. It follows from the rest, and what it says is not looked at.
    Next,
    /// `done`: the scene ends.
    Done,
}

/// What the bytes of a line, without its line feed, say. Each thing is said in one spelling: the one in which it is written.
///
/// # Errors
///
/// The first fault, also where memory is refused:
///
/// - `Overlong`: the line has more than 4,096 bytes.
/// - `NotText`: a byte is no space and no visible character of ASCII. Not told of a line without a word, of a comment, or of
///   a carriage return at the end.
/// - `Words`: it has no word, or is a comment; or it has a space at its start or its end or beside another, or a carriage
///   return.
/// - `Command`: the first word is none of `scene`, `locked`, `train`, `line`, `along`, `stands`, `holds`, `next` and `done`.
/// - `Words`: behind it stand too few words, or too many.
/// - `Number` or `Name`, of the first word that is not what stands there: `Number` of a number that is none, or has a
///   needless 0, or is that of a train and out of its range; `Name` of a leg or a route that is none, or none of the track's.
///   Of a report first a word that is no number in its range, no group or no direction, and only then a number or a group that
///   is spelled otherwise than it is written.
/// - `Memory`, where there is none to keep the legs in. Only a line without a fault can get it.
pub fn parse(alloc: Global, track: &Track, line: &[u8]) -> Result<SceneLine, OrMemory<LineFault>>
    ensures grammar { AnswersAs line_view result (parse_scene_line track.now line.now) }
    ensures memory { IsErrOf result OrMemory.Memory → IsOk (parse_scene_line track.now line.now) }
{
    match request_text(line)? {
        Some(text) if is_close(line) => words_line(alloc, track, text),
        _ => Err(OrMemory::Refused(LineFault::Words)),
    }
}

/// What the words of a text say.
fn words_line(alloc: Global, track: &Track, text: &[u8]) -> Result<SceneLine, OrMemory<LineFault>>
    ensures grammar { AnswersAs line_view result (scene_line_in track.now (words_of text.now)) }
    ensures memory { IsErrOf result OrMemory.Memory → IsOk (scene_line_in track.now (words_of text.now)) }
{
    match next_word(text) {
        Some((word, words)) => said_behind(alloc, track, first_word(word), words),
        None => Err(OrMemory::Refused(LineFault::Words)),
    }
}

/// What the words behind the first one say.
fn said_behind(
    alloc: Global,
    track: &Track,
    first: Option<FirstWord>,
    words: &[u8],
) -> Result<SceneLine, OrMemory<LineFault>>
    ensures grammar { AnswersAs line_view result (said_behind track.now first (words_of words.now)) }
    ensures memory { IsErrOf result OrMemory.Memory → IsOk (said_behind track.now first (words_of words.now)) }
{
    match first {
        Some(FirstWord::Scene) => Ok(version_in(words)?),
        Some(FirstWord::Locked) => Ok(locked_in(track, words)?),
        Some(FirstWord::Train) => Ok(reported_in(words)?),
        Some(FirstWord::Line) => along_in(alloc, track, words),
        Some(FirstWord::Along) => more_in(alloc, track, words),
        Some(FirstWord::Stands) => Ok(stands_in(words)?),
        Some(FirstWord::Holds) => Ok(holds_in(words)?),
        Some(FirstWord::Next) => Ok(SceneLine::Next),
        Some(FirstWord::Done) => Ok(done_in(words)?),
        None => Err(OrMemory::Refused(LineFault::Command)),
    }
}

/// The version behind `scene`.
fn version_in(words: &[u8]) -> Result<SceneLine, LineFault>
    ensures { line_in line_view result ≡ version_in (words_of words.now) }
{
    let version = count_spelled(2, only_word(words)?)?;
    Ok(SceneLine::Version(version))
}

/// The words behind `train`: a report.
fn reported_in(words: &[u8]) -> Result<SceneLine, LineFault>
    ensures { line_in line_view result ≡ reported_in (words_of words.now) }
{
    let report = report_in(words)?;
    report_spelled(words, &report)?;
    Ok(SceneLine::Reported(report))
}

/// The words behind `locked`: a leg, a route, and the leg before.
fn locked_in(track: &Track, words: &[u8]) -> Result<SceneLine, LineFault>
    ensures { line_in line_view result ≡ locked_in track.now (words_of words.now) }
{
    let (leg, rest) = take_word(words)?;
    let (route, rest) = take_word(rest)?;
    let before = only_word(rest)?;
    let leg = leg_at(track, 2, leg)?;
    let route = route_at(track, route)?;
    let before = leg_or_none_at(track, 4, before)?;
    Ok(SceneLine::Locked(leg, route, before))
}

/// The words behind `line`: a train, the place of its group, and legs.
fn along_in(alloc: Global, track: &Track, words: &[u8]) -> Result<SceneLine, OrMemory<LineFault>>
    ensures grammar { AnswersAs line_view result (along_in track.now (words_of words.now)) }
    ensures memory { IsErrOf result OrMemory.Memory → IsOk (along_in track.now (words_of words.now)) }
{
    let (train, rest) = take_word(words)?;
    let (origin, rest) = take_word(rest)?;
    let train = train_spelled(train)?;
    let origin = count_spelled(3, origin)?;
    let legs = legs_in(alloc, track, 4, rest)?;
    Ok(SceneLine::Along(train, origin, legs))
}

/// The words behind `along`: a train, and more legs.
fn more_in(alloc: Global, track: &Track, words: &[u8]) -> Result<SceneLine, OrMemory<LineFault>>
    ensures grammar { AnswersAs line_view result (more_in track.now (words_of words.now)) }
    ensures memory { IsErrOf result OrMemory.Memory → IsOk (more_in track.now (words_of words.now)) }
{
    let (train, rest) = take_word(words)?;
    let train = train_spelled(train)?;
    let legs = legs_in(alloc, track, 3, rest)?;
    Ok(SceneLine::More(train, legs))
}

/// The words behind `stands`: a train, and two distances.
fn stands_in(words: &[u8]) -> Result<SceneLine, LineFault>
    ensures { line_in line_view result ≡ distances_in Stands (words_of words.now) }
{
    let (train, rest) = take_word(words)?;
    let (rear, rest) = take_word(rest)?;
    let front = only_word(rest)?;
    let train = train_spelled(train)?;
    let rear = distance_spelled(3, rear)?;
    let front = distance_spelled(4, front)?;
    Ok(SceneLine::Stands(train, rear, front))
}

/// The words behind `holds`: a train, and two distances.
fn holds_in(words: &[u8]) -> Result<SceneLine, LineFault>
    ensures { line_in line_view result ≡ distances_in Holds (words_of words.now) }
{
    let (train, rest) = take_word(words)?;
    let (from, rest) = take_word(rest)?;
    let to = only_word(rest)?;
    let train = train_spelled(train)?;
    let from = distance_spelled(3, from)?;
    let to = distance_spelled(4, to)?;
    Ok(SceneLine::Holds(train, from, to))
}

/// There is no word behind `done`.
fn done_in(words: &[u8]) -> Result<SceneLine, LineFault>
    ensures { line_in line_view result ≡ done_in (words_of words.now) }
{
    match next_word(words) {
        None => Ok(SceneLine::Done),
        Some(_) => Err(LineFault::Words),
    }
}

/// Word 3 as a route of the track.
fn route_at(track: &Track, word: &[u8]) -> Result<RouteId, LineFault>
    ensures { result ≡ route_at track.now word.now }
{
    let name = Name::new(word).ok_or(LineFault::Name(3))?;
    track.route(name).ok_or(LineFault::Name(3))
}
