//! The replies of a session, printed.

ghost use Rattle.std.specs.Prelude.{◌≡◌, false, [], ◌∷◌, ◌++◌, map, codes};
ghost use Rattle.rbc_model.specs.SessionReply.{obstacle_words, refused_reply, BadEvent};
ghost use Rattle.rbc_model.specs.Sessions.{Prints};
ghost use Rattle.rbc_streams.specs.Emitting.{Emits};
ghost use Rattle.rbc_model.specs.Words.{line_of, hex_of};
ghost use Rattle.rbc_words.specs.LineWords.{word_text};
ghost use Rattle.rbc_replies.specs.Replies.{refusal_view, grant_line, grant_text, reply_text};
ghost use Rattle.rbc_replies.specs.Replies.{ObstacleIsOfTrack, EventIsOfTrack, RefusalIsOfTrack, ReplyIsWhole};

use crate::certificates::emit_certificate;
use crate::{SessionRefusal, SessionReply, ToldGrant};
use rbc_model::{Obstacle, Refusal, StepsRefusal};
use rbc_streams::{Sink, WriteFailed, emit, outcome};
use rbc_track::Track;
use rbc_words::{
    Word, emit_hex_between, emit_joined, emit_line, emit_refusal, leg_word, section_word,
};

/// Writes a reply to a line of a session. Sections and legs are told by the names that the track gives them. It takes
/// no memory.
///
/// # Errors
///
/// `WriteFailed`, where the writer fails. Then a part of the text stands, from its start.
pub fn print<W: Sink>(
    track: &Track,
    reply: &SessionReply,
    writer: &mut W,
) -> Result<(), WriteFailed>
    requires going { W.failed writer.old ≡ false }
    requires of_track { ReplyIsWhole track.now reply.now }
    ensures { Prints (W.written writer.old) (W.written writer.new) (W.failed writer.new)
        (reply_text track.now reply.now) result }
{
    emit_reply(track, reply, writer);
    outcome(writer)
}

fn emit_reply<W: Sink>(track: &Track, reply: &SessionReply, writer: &mut W)
    requires of_track { ReplyIsWhole track.now reply.now }
    ensures { Emits W.written W.failed writer.old writer.new (reply_text track.now reply.now) }
{
    match reply {
        SessionReply::Nothing => {}
        SessionReply::Accepted(version) => emit_line(b"ok", &[Word::Count(*version)], writer),
        SessionReply::Granted(granted) => emit_granted(track, granted, writer),
        SessionReply::Blocked(train, obstacle, at, version) => {
            let words = [
                Word::Number(train.number()),
                Word::Count(*version),
                Word::Distance(*at),
            ];
            emit_stopped(track, b"blocked", &words, *obstacle, writer)
        }
        SessionReply::Refused(refusal) => emit_session_refusal(track, *refusal, writer),
    }
}

fn emit_granted<W: Sink>(track: &Track, granted: &ToldGrant, writer: &mut W)
    requires of_track { ObstacleIsOfTrack track.now granted.now.obstacle }
    ensures { Emits W.written W.failed writer.old writer.new
        (grant_text track.now granted.now) }
{
    emit_grant_line(track, granted, writer);
    emit_hex_between(b"message ", granted.message, b"\n", writer);
    let (speeds, grades) = (granted.authority.speeds(), granted.authority.grades());
    emit_certificate(speeds, granted.speeds_loss, &granted.speeds, writer);
    emit_certificate(grades, granted.grades_loss, &granted.grades, writer);
    emit(writer, b"done\n");
}

/// Writes the first line: the train, the version, from where and up to where it may run, and the obstacle.
fn emit_grant_line<W: Sink>(track: &Track, granted: &ToldGrant, writer: &mut W)
    requires of_track { ObstacleIsOfTrack track.now granted.now.obstacle }
    ensures { Emits W.written W.failed writer.old writer.new
        (grant_line track.now granted.now) }
{
    let words = [
        Word::Number(granted.train.number()),
        Word::Count(granted.version),
        Word::Distance(granted.from),
        Word::Number(granted.authority.end()),
    ];
    emit_stopped(track, b"granted", &words, granted.obstacle, writer);
}

/// Writes a line that ends with an obstacle: its first word, others behind it, and the obstacle's name, with the leg, the
/// section or the train. It takes no memory.
pub fn emit_stopped<W: Sink>(
    track: &Track,
    first: &[u8],
    words: &[Word],
    obstacle: Obstacle,
    writer: &mut W,
)
    requires of_track { ObstacleIsOfTrack track.now obstacle }
    ensures { Emits W.written W.failed writer.old writer.new
        (line_of (first.now ∷ (map word_text words.now ++ obstacle_words track.now obstacle))) }
{
    match obstacle {
        Obstacle::NoLink(leg) => {
            let stop = [Word::Text(b"NoLink"), leg_word(track, leg)];
            emit_joined(first, words, &stop, writer)
        }
        Obstacle::NotLocked(section) => {
            let stop = [Word::Text(b"NotLocked"), section_word(track, section)];
            emit_joined(first, words, &stop, writer)
        }
        Obstacle::Own => emit_joined(first, words, &[Word::Text(b"Own")], writer),
        Obstacle::Occupied(train) => {
            let stop = [Word::Text(b"Occupied"), Word::Number(train.number())];
            emit_joined(first, words, &stop, writer)
        }
        Obstacle::Held(train) => {
            let stop = [Word::Text(b"Held"), Word::Number(train.number())];
            emit_joined(first, words, &stop, writer)
        }
        Obstacle::Limit => emit_joined(first, words, &[Word::Text(b"Limit")], writer),
    }
}

fn emit_session_refusal<W: Sink>(track: &Track, refusal: SessionRefusal, writer: &mut W)
    requires of_track { RefusalIsOfTrack track.now refusal }
    ensures { Emits W.written W.failed writer.old writer.new
        (refused_reply track.now (refusal_view refusal)) }
{
    match refusal {
        SessionRefusal::BadLine(fault) => emit_refusal(StepsRefusal::BadLine(fault), writer),
        SessionRefusal::UnknownName(name) => {
            emit_line(
                b"refused",
                &[Word::Text(b"UnknownName"), Word::Name(name)],
                writer,
            )
        }
        SessionRefusal::BadEvent(refusal) => emit_event_refusal(track, refusal, writer),
        SessionRefusal::Full => emit_line(b"refused", &[Word::Text(b"Full")], writer),
        SessionRefusal::Memory => emit_refusal(StepsRefusal::Memory, writer),
    }
}

fn emit_event_refusal<W: Sink>(track: &Track, refusal: Refusal, writer: &mut W)
    requires of_track { EventIsOfTrack track.now refusal }
    ensures { Emits W.written W.failed writer.old writer.new
        (refused_reply track.now (BadEvent refusal)) }
{
    match refusal {
        Refusal::Crowded => emit_line(b"refused", &[Word::Text(b"Crowded")], writer),
        Refusal::UnknownGroup => emit_line(b"refused", &[Word::Text(b"UnknownGroup")], writer),
        Refusal::Offline => emit_line(b"refused", &[Word::Text(b"Offline")], writer),
        Refusal::Unplaced => emit_line(b"refused", &[Word::Text(b"Unplaced")], writer),
        Refusal::TooFar => emit_line(b"refused", &[Word::Text(b"TooFar")], writer),
        Refusal::Clash(section) => emit_line(
            b"refused",
            &[Word::Text(b"Clash"), section_word(track, section)],
            writer,
        ),
        Refusal::LinkTaken(leg) => emit_line(
            b"refused",
            &[Word::Text(b"LinkTaken"), leg_word(track, leg)],
            writer,
        ),
        Refusal::NotLocked(section) => {
            emit_line(
                b"refused",
                &[Word::Text(b"NotLocked"), section_word(track, section)],
                writer,
            )
        }
        Refusal::Busy(section, train) => emit_line(
            b"refused",
            &[
                Word::Text(b"Busy"),
                section_word(track, section),
                Word::Number(train.number()),
            ],
            writer,
        ),
        Refusal::UnknownTrain(train) => {
            emit_line(
                b"refused",
                &[Word::Text(b"UnknownTrain"), Word::Number(train.number())],
                writer,
            )
        }
        Refusal::YieldRange(train) => {
            emit_line(
                b"refused",
                &[Word::Text(b"YieldRange"), Word::Number(train.number())],
                writer,
            )
        }
        Refusal::NotSafe => emit_line(b"refused", &[Word::Text(b"NotSafe")], writer),
    }
}
