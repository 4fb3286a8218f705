//! Words that are legs of a track.

ghost use Rattle.std.specs.Prelude.{◌≡◌, ◌≤◌, IsOk, IsErrOf};
ghost use Rattle.rbc_model.specs.Answers.{AnswersAs};
ghost use Rattle.rbc_model.specs.Rows.{each_word};
ghost use Rattle.rbc_model.specs.SceneLines.{known_leg, track_leg_at, track_leg_or_none_at};
ghost use Rattle.rbc_model.specs.Words.{words_of};

use rbc_model::{Leg, LineFault, OrMemory};
use rbc_track::{LegName, Track};
use rbc_words::next_word;
use std::alloc::Global;

/// The words as legs, the first of them word `first` of its line.
///
/// # Errors
///
/// - `Name`, of the first word that is no leg, or none of the track's, also where memory is refused.
/// - `Memory`, where there is none to keep the legs in.
pub(crate) fn legs_in(
    alloc: Global,
    track: &Track,
    first: usize,
    words: &[u8],
) -> Result<Vec<Leg>, OrMemory<LineFault>>
    requires { first ≤ 4 }
    ensures grammar { AnswersAs (λ legs. legs.items) result
        (each_word (track_leg_at track.now) first (words_of words.now)) }
    ensures memory { IsErrOf result OrMemory.Memory
        → IsOk (each_word (track_leg_at track.now) first (words_of words.now)) }
{
    let mut rest = words;
    let mut legs = Vec::new(alloc);
    let mut refused = false;
    let mut index = first;
    while let Some((word, more)) = next_word(rest) {
        let leg = leg_at(track, index, word)?;
        // Where memory is refused, a later fault is told.
        refused = refused || legs.push(leg).is_err();
        rest = more;
        index += 1;
    }
    if refused {
        return Err(OrMemory::Memory);
    }
    Ok(legs)
}

/// Word `index` as a leg of the track.
pub(crate) fn leg_at(track: &Track, index: usize, word: &[u8]) -> Result<Leg, LineFault>
    ensures { result ≡ track_leg_at track.now index word.now }
{
    let leg = LegName::new(word).ok_or(LineFault::Name(index))?;
    known_leg(track, index, leg)
}

/// Word `index` as a leg of the track, or as none: `-`.
pub(crate) fn leg_or_none_at(
    track: &Track,
    index: usize,
    word: &[u8],
) -> Result<Option<Leg>, LineFault>
    ensures { result ≡ track_leg_or_none_at track.now index word.now }
{
    if word == b"-".as_slice() {
        return Ok(None);
    }
    let leg = LegName::new(word).ok_or(LineFault::Name(index))?;
    let known = known_leg(track, index, leg)?;
    Ok(Some(known))
}

/// The leg of the track of this name.
fn known_leg(track: &Track, index: usize, leg: LegName) -> Result<Leg, LineFault>
    ensures { result ≡ known_leg track.now index leg }
{
    let section = track.section(leg.section()).ok_or(LineFault::Name(index))?;
    Ok(Leg {
        section,
        direction: leg.direction(),
    })
}
