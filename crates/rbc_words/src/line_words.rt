//! Words of a line that is printed.

ghost use Rattle.std.specs.Prelude.{◌≡◌, false, ◌<◌, ◌≤◌, ◌+◌, ◌*◌, [], ◌∷◌, ◌++◌, length, map, IsTrue};
ghost use Rattle.std.specs.List.{list_all};
ghost use Rattle.rbc_model.specs.Names.{direction_text, leg_text};
ghost use Rattle.rbc_model.specs.SessionReply.{section_word, leg_word};
ghost use Rattle.rbc_model.specs.SessionText.{group_word};
ghost use Rattle.rbc_model.specs.Sessions.{Prints};
ghost use Rattle.rbc_streams.specs.Emitting.{Emits};
ghost use Rattle.rbc_model.specs.Words.{line_of};
ghost use Rattle.rbc_words.specs.LineWords.{word_text, is_short};
ghost use Rattle.rbc_words.specs.PriceText.{spaced};

use crate::tail_buffer::TailBuffer;
use rbc_model::{Direction, GroupName, Leg, SectionId};
use rbc_streams::{Sink, WriteFailed, emit, outcome};
use rbc_track::{LegName, Name, Track};

/// A word of a line that is printed.
#[derive(Clone, Copy)]
pub enum Word<'line> {
    /// A word of the language of lines.
    Text(&'line [u8]),
    /// A number: of a train, or of metres.
    Number(u32),
    /// A large number: of the entries of a history.
    Count(u64),
    /// Metres from a group, with a `-` before them if they lie before it.
    Distance(i64),
    /// The name of a section or a route.
    Name(Name),
    /// A leg.
    Leg(LegName),
    /// A balise group.
    Group(GroupName),
}

/// A section of the track as a word.
pub fn section_word<'line>(track: &Track, section: SectionId) -> Word<'line>
    requires { section < length track.now.sections }
    ensures { word_text result ≡ section_word track.now section }
{
    Word::Name(track.section_at(section).name())
}

/// A leg of the track as a word.
pub fn leg_word<'line>(track: &Track, leg: Leg) -> Word<'line>
    requires { leg.section < length track.now.sections }
    ensures { word_text result ≡ leg_word track.now leg }
{
    Word::Leg(track.leg_name(leg))
}

/// Writes a line: its first word, and others behind it.
///
/// # Errors
///
/// `WriteFailed`, where the writer fails. Then a part of the line stands, from its start.
pub fn print_line<W: Sink>(first: &[u8], others: &[Word], writer: &mut W) -> Result<(), WriteFailed>
    requires { W.failed writer.old ≡ false }
    ensures { Prints (W.written writer.old) (W.written writer.new) (W.failed writer.new)
        (line_of (first.now ∷ map word_text others.now)) result }
{
    emit_line(first, others, writer);
    outcome(writer)
}

/// Writes a line: its first word, and others behind it.
pub fn emit_line<W: Sink>(first: &[u8], others: &[Word], writer: &mut W)
    ensures { Emits W.written W.failed writer.old writer.new
        (line_of (first.now ∷ map word_text others.now)) }
{
    emit_joined(first, others, &[], writer);
}

/// How many bytes the first word of a line may have that is written at once.
const SHORT_FIRST: usize = 24;

/// How many words behind it such a line may have.
const FEW: usize = 7;

/// Writes a line: its first word, others behind it, and more behind those.
pub fn emit_joined<W: Sink>(first: &[u8], words: &[Word], more: &[Word], writer: &mut W)
    ensures { Emits W.written W.failed writer.old writer.new
        (line_of (first.now ∷ (map word_text words.now ++ map word_text more.now))) }
{
    if first.len() > SHORT_FIRST || !are_few(words, more) {
        emit(writer, first);
        emit_words(words, writer);
        emit_words(more, writer);
        emit(writer, b"\n");
        return;
    }
    let mut text = TailBuffer::new();
    text.byte(b'\n');
    gather_words(more, &mut text);
    gather_words(words, &mut text);
    text.text(first);
    emit(writer, text.bytes());
}

/// Whether these are few words, and short.
fn are_few(words: &[Word], more: &[Word]) -> bool
    ensures few { IsTrue result → length words.now + length more.now ≤ 7 }
    ensures short { IsTrue result → IsTrue (list_all is_short words.now) }
    ensures short_too { IsTrue result → IsTrue (list_all is_short more.now) }
{
    words.len() <= FEW && more.len() <= FEW - words.len() && are_short(words) && are_short(more)
}

/// Whether each of the words is short.
fn are_short(words: &[Word]) -> bool
    ensures { result ≡ list_all is_short words.now }
{
    words.iter().all(|word| is_short(word))
}

/// How many bytes a short word has at most.
const SHORT: usize = 32;

/// Whether a word is known to be short.
fn is_short(word: &Word) -> bool
    ensures { result ≡ is_short word.now }
{
    match word {
        Word::Text(text) => text.len() <= SHORT,
        _ => true,
    }
}

/// Writes words, each behind a space.
pub fn emit_words<W: Sink>(words: &[Word], writer: &mut W)
    ensures { Emits W.written W.failed writer.old writer.new
        (spaced (map word_text words.now)) }
{
    for word in words {
        emit_spaced(word, writer);
    }
}

/// Writes a space and a word.
fn emit_spaced<W: Sink>(word: &Word, writer: &mut W)
    ensures { Emits W.written W.failed writer.old writer.new
        (32 ∷ word_text word.now) }
{
    match word {
        Word::Text(text) => {
            emit(writer, b" ");
            emit(writer, text);
        }
        _ => emit_short(word, writer),
    }
}

/// Writes a space and a short word at once.
fn emit_short<W: Sink>(word: &Word, writer: &mut W)
    requires { IsTrue (is_short word.now) }
    ensures { Emits W.written W.failed writer.old writer.new
        (32 ∷ word_text word.now) }
{
    let mut text = TailBuffer::new();
    gather_word(word, &mut text);
    emit(writer, text.bytes());
}

/// Puts words, each behind a space, before a text.
#[inline(always)]
fn gather_words(words: &[Word], text: &mut TailBuffer)
    requires short { IsTrue (list_all is_short words.now) }
    requires room { length text.old + 33 * length words.now ≤ 256 }
    ensures text { text.new ≡ spaced (map word_text words.now) ++ text.old }
    ensures length { length text.new ≤ length text.old + 33 * length words.now }
{
    for i in (0..words.len()).rev() {
        gather_word(&words[i], text);
    }
}

/// Puts a space and a word before a text.
fn gather_word(word: &Word, text: &mut TailBuffer)
    requires short { IsTrue (is_short word.now) }
    requires room { length text.old + 33 ≤ 256 }
    ensures text { text.new ≡ 32 ∷ (word_text word.now ++ text.old) }
    ensures length { length text.new ≤ length text.old + 33 }
{
    match word {
        Word::Text(word) => text.text(word),
        Word::Number(number) => text.small(*number),
        Word::Count(count) => text.number(*count),
        Word::Distance(metres) => text.signed(*metres),
        Word::Name(name) => gather_name(name, text),
        Word::Leg(leg) => gather_leg(leg, text),
        Word::Group(group) => gather_group(*group, text),
    }
    text.byte(b' ');
}

/// Puts a name before a text.
fn gather_name(name: &Name, text: &mut TailBuffer)
    requires { length text.old + 16 ≤ 256 }
    ensures text { text.new ≡ name.now ++ text.old }
    ensures length { length text.new ≤ length text.old + 16 }
{
    name.known();
    text.text(name.text());
}

/// Puts a leg before a text: its section's name, and `+` if its offsets rise or `-` if they fall.
fn gather_leg(leg: &LegName, text: &mut TailBuffer)
    requires { length text.old + 17 ≤ 256 }
    ensures text { text.new ≡ leg_text leg.now ++ text.old }
    ensures length { length text.new ≤ length text.old + 17 }
{
    text.byte(direction_byte(leg.direction()));
    gather_name(&leg.section(), text);
}

fn direction_byte(direction: Direction) -> u8
    ensures { direction_text direction ≡ result ∷ [] }
{
    match direction {
        Direction::Rising => b'+',
        Direction::Falling => b'-',
    }
}

/// Puts a balise group before a text: its country, a slash, and its number there.
fn gather_group(group: GroupName, text: &mut TailBuffer)
    requires { length text.old + 21 ≤ 256 }
    ensures text { text.new ≡ group_word group ++ text.old }
    ensures length { length text.new ≤ length text.old + 21 }
{
    text.small(u32::from(group.number()));
    text.byte(b'/');
    text.small(u32::from(group.country()));
}
