//! The lines of a train.

ghost use Rattle.std.specs.Prelude.{◌≡◌, ◌<◌, ◌∷◌, ◌++◌, length, map, take, drop, All};
ghost use Rattle.rbc_model.specs.Rows.{rows_text};
ghost use Rattle.rbc_model.specs.Scenes.{Scene};
ghost use Rattle.rbc_model.specs.SceneLines.{end_word, next_line, pieces_of, places_line, train_lines, way_lines};
ghost use Rattle.rbc_model.specs.SessionReply.{leg_word};
ghost use Rattle.rbc_model.specs.Views.{from_group};
ghost use Rattle.rbc_model.specs.Words.{line_of};
ghost use Rattle.rbc_model.specs.declared.limits.TheConstants.{LEGS_A_LINE};
ghost use Rattle.rbc_replies.specs.Replies.{ObstacleIsOfTrack};
ghost use Rattle.rbc_streams.specs.Emitting.{Emits};
ghost use Rattle.rbc_words.specs.LineWords.{word_text};
ghost use Rattle.rbc_lines.specs.Nexts.{next_of};
ghost use Rattle.rbc_lines.specs.Pieces.{later_lines};

use crate::next::Next;
use crate::track::emit_legs;
use rbc_model::Leg;
use rbc_model::limits::LEGS_A_LINE;
use rbc_replies::emit_stopped;
use rbc_scene::Train;
use rbc_streams::{Sink, emit};
use rbc_track::Track;
use rbc_words::{Word, emit_line, emit_report, emit_words};

/// A place as a distance from the train's group, negative before it.
fn from_group(train: &Train, place: u32) -> i64
    ensures { result ≡ from_group train.now.train place }
{
    i64::from(place) - i64::from(train.origin())
}

/// As many of the legs as a line tells, and those behind them.
fn first_piece(legs: &[Leg]) -> (&[Leg], &[Leg])
    ensures front { result.0.now ≡ take LEGS_A_LINE legs.now }
    ensures back { result.1.now ≡ drop LEGS_A_LINE legs.now }
{
    legs.split_at(LEGS_A_LINE.min(legs.len()))
}

/// Writes a line that ends with legs: its first word, others behind it, and the legs.
fn emit_leg_line<W: Sink>(track: &Track, first: &[u8], words: &[Word], legs: &[Leg], writer: &mut W)
    requires of_track { All (λ leg. leg.section < length track.now.sections) legs.now }
    ensures { Emits W.written W.failed writer.old writer.new
        (line_of (first.now ∷ (map word_text words.now ++ map (leg_word track.now) legs.now))) }
{
    emit(writer, first);
    emit_words(words, writer);
    emit_legs(track, legs, writer);
    emit(writer, b"\n");
}

/// Writes the legs of a train's line behind its first piece, a piece a line.
fn emit_later_legs<W: Sink>(track: &Track, train: &Train, legs: &[Leg], writer: &mut W)
    requires of_track { All (λ leg. leg.section < length track.now.sections) legs.now }
    ensures { Emits W.written W.failed writer.old writer.new
        (rows_text (later_lines track.now train.now.train legs.now)) }
{
    let mut rest = legs;
    while !rest.is_empty() {
        let (piece, more) = first_piece(rest);
        let words = [Word::Number(train.id().number())];
        emit_leg_line(track, b"along", &words, piece, writer);
        rest = more;
    }
}

/// Writes the legs that a train runs along, and the place of its group.
fn emit_way<W: Sink>(track: &Track, train: &Train, writer: &mut W)
    requires track { train.now.track ≡ track.now }
    ensures { Emits W.written W.failed writer.old writer.new
        (rows_text (way_lines track.now train.now.train (pieces_of LEGS_A_LINE train.now.train.line))) }
{
    let line = train.line();
    let legs = line.legs();
    train.known();
    let words = [
        Word::Number(train.id().number()),
        Word::Number(train.origin()),
    ];
    let (piece, more) = first_piece(legs);
    emit_leg_line(track, b"line", &words, piece, writer);
    emit_later_legs(track, train, more, writer);
}

/// Writes a line that tells two places of a train.
fn emit_places<W: Sink>(first: &[u8], train: &Train, low: u32, high: u32, writer: &mut W)
    ensures { Emits W.written W.failed writer.old writer.new
        (line_of (places_line first.now train.now.train low high)) }
{
    let words = [
        Word::Number(train.id().number()),
        Word::Distance(from_group(train, low)),
        Word::Distance(from_group(train, high)),
    ];
    emit_line(first, &words, writer);
}

/// An end as a distance from the train's group, which it lies beyond.
fn end_word<'line>(train: &Train, end: Option<u32>) -> Word<'line>
    ensures { word_text result ≡ end_word train.now.train end }
{
    match end {
        Some(end) => Word::Number(end.saturating_sub(train.origin())),
        None => Word::Text(b"-"),
    }
}

/// Writes what a train would be granted now.
fn emit_next<W: Sink>(track: &Track, train: &Train, next: &Next, writer: &mut W)
    requires of_track { ObstacleIsOfTrack track.now next.now.obstacle }
    ensures { (scene : Scene) → next.now ≡ next_of track.now scene train.now.train
        → Emits W.written W.failed writer.old writer.new
        (line_of (next_line track.now scene train.now.train)) }
{
    let words = [
        Word::Number(train.id().number()),
        end_word(train, next.end),
        Word::Distance(from_group(train, next.reach)),
    ];
    emit_stopped(track, b"next", &words, next.obstacle, writer);
}

/// Writes the lines of a train, of which it is known what it would be granted now.
pub(crate) fn emit_train<W: Sink>(track: &Track, train: &Train, next: &Next, writer: &mut W)
    requires track { train.now.track ≡ track.now }
    requires of_track { ObstacleIsOfTrack track.now next.now.obstacle }
    ensures { (scene : Scene) → next.now ≡ next_of track.now scene train.now.train
        → Emits W.written W.failed writer.old writer.new
        (rows_text (train_lines track.now scene train.now.train)) }
{
    emit_report(b"train", &train.report(), writer);
    emit_way(track, train, writer);
    emit_places(b"stands", train, train.rear(), train.front(), writer);
    emit_places(b"holds", train, train.from(), train.to(), writer);
    emit_next(track, train, next, writer);
}
