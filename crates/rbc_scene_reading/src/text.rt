//! The lines of a text as a scene.

ghost use Rattle.std.specs.Prelude.{◌≡◌, ◌∷◌, ◌≤◌, ◌<◌, ◌==◌, [], length, IfOk, IfSome, MatchOption};
ghost use Rattle.std.specs.Arc.{arc_value};
ghost use Rattle.std.specs.List.{position_or_len};
ghost use Rattle.rbc_model.specs.Answers.{AnswersAs};
ghost use Rattle.rbc_model.specs.Sessions.{lines_of};
ghost use Rattle.rbc_scene_reading.specs.Additions.{at_line_or_memory};
ghost use Rattle.rbc_scene_reading.specs.Reading.{read_scene};

use crate::fault::{FaultyLine, SceneFault};
use crate::reading::Reading;
use rbc_model::OrMemory;
use rbc_scene::Scene;
use rbc_track::Track;
use std::alloc::Global;
use std::sync::Arc;

/// How many bytes stand before the first line feed: all, if there is none.
fn length_of_line(text: &[u8]) -> usize
    ensures value { result ≡ position_or_len (λ byte. byte == 10) text.now }
    ensures bound { result ≤ length text.now }
{
    text.iter()
        .position(|byte| *byte == b'\n')
        .unwrap_or(text.len())
}

/// The first line of a text, without its line feed, and the text behind it.
fn next_line(text: &[u8]) -> Option<(&[u8], &[u8])>
    ensures lines { MatchOption result (lines_of text.now ≡ [])
        (λ found. lines_of text.now ≡ found.0.now ∷ lines_of found.1.now) }
    ensures shorter { IfSome result (λ found. length found.1.now < length text.now) }
{
    if text.is_empty() {
        return None;
    }
    let (line, rest) = text.split_at(length_of_line(text));
    match rest.split_first() {
        Some((_feed, later)) => Some((line, later)),
        None => Some((line, rest)),
    }
}

/// The version and the scene that the lines of a text tell: those in which the scene was written, but for what trains would be
/// granted, which follows from the rest. A line ends with a line feed, or with the text if it isn't empty.
///
/// # Errors
///
/// `Refused` with the first line that has a fault, and the fault. `Memory`, where there is none for the scene.
pub fn read(
    alloc: Global,
    track: Arc<Track>,
    text: &[u8],
) -> Result<(u64, Scene), OrMemory<FaultyLine>>
    ensures scene { AnswersAs (λ read. (read.0, read.1.scene)) result
        (read_scene (arc_value track) (lines_of text.now)) }
    ensures track { IfOk result (λ read. read.1.track ≡ arc_value track) }
{
    let mut reading = Reading::new(alloc, track)?;
    let mut rest = text;
    let mut line = 1;
    while let Some((first, later)) = next_line(rest) {
        if let Err(fault) = reading.add_text(alloc, first) {
            return Err(at_line(line, fault));
        }
        rest = later;
        line += 1;
    }
    match reading.whole() {
        Ok(read) => Ok(read),
        Err(fault) => Err(OrMemory::Refused(FaultyLine { line, fault })),
    }
}

/// The fault of the line of this number.
fn at_line(line: u64, fault: OrMemory<SceneFault>) -> OrMemory<FaultyLine>
    ensures { result ≡ at_line_or_memory line fault }
{
    match fault {
        OrMemory::Refused(fault) => OrMemory::Refused(FaultyLine { line, fault }),
        OrMemory::Memory => OrMemory::Memory,
    }
}
