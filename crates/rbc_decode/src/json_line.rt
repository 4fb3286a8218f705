//! What is printed of a message, or of a packet alone, as a line of JSON.

ghost use Rattle.std.specs.Prelude.{◌≡◌, ◌+◌, ◌^◌, ◌<◌, ◌≤◌, ◌++◌, ◌∷◌, ℕ, List, [], Bool, true, false, length, decimal, codes};
ghost use Rattle.std.specs.Fmt.{signed_decimal};
ghost use Rattle.rbc_streams.specs.Emitting.{Emits};
ghost use Rattle.rbc_decode.specs.declared.parts.TheConstants.{LONGEST_PART};
ghost use Rattle.rbc_decode.specs.declared.out_buffer.TheConstants.{ROOM};
ghost use Rattle.rbc_decode.specs.declared.spelling.Wrong.TheVariants.{Digits, Overlong};
ghost use Rattle.rbc_decode.specs.JsonParts.{piece_text, pieces_text, field_front, field_rest, field_end, member_part, other_part, start_text};
ghost use Rattle.rbc_decode.specs.JsonParts.{outcome_part, words_part, array_part};
ghost use Rattle.rbc_decode.specs.JsonText.{wrong_json, json_text, found_data, grade_data, speed_data, kind_text, packet_data, packet_of};
ghost use Rattle.rbc_decode.specs.Parts.{parts_text};
ghost use Rattle.rbc_decode.specs.Readings.{read_as};
ghost use Rattle.rbc_decode.specs.Said.{said_in};
ghost use Rattle.rbc_decode.specs.Texts.{direction_text};
ghost use Rattle.serde_json.specs.Data.{string};
ghost use Rattle.serde_json.specs.Written.{compact_text, comma_if};

use crate::decoding::Heading;
use crate::fields::{Found, Item};
use crate::granted_member::granted_member;
use crate::meaning::gather_meaning;
use crate::names::name_members;
use crate::out_buffer::OutBuffer;
use crate::parts::{TextPart, emit_parts};
use crate::row::{Row, packet_number};
use crate::said::{Said, said_in};
use crate::spelling::Wrong;
use crate::text::{fault_text, measure_text, place_text};
use rbc_model::FieldName;
use rbc_streams::{Sink, emit};
use rbc_words::emit_number;

/// A piece of a line.
#[derive(Clone, Copy)]
pub(crate) enum Piece<'line> {
    /// Text as it stands.
    Text(&'line [u8]),
    /// A number.
    Number(u32),
}

/// Writes what is wrong with digits in the line of this number.
pub(crate) fn emit_wrong_json<W: Sink>(line: u32, wrong: Wrong, writer: &mut W)
    ensures { Emits W.written W.failed writer.old writer.new
        (wrong_json line wrong) }
{
    match wrong {
        Wrong::Digits(place) => emit_broken(line, place, writer),
        Wrong::Overlong => emit_overlong(line, writer),
    }
}

/// Writes that there are too many digits, or that the line is too long.
fn emit_overlong<W: Sink>(line: u32, writer: &mut W)
    ensures { Emits W.written W.failed writer.old writer.new
        (wrong_json line Overlong) }
{
    let pieces = [
        Piece::Text(b"{\"line\":"),
        Piece::Number(line),
        Piece::Text(b",\"refused\":{\"fault\":\"Overlong\"}}\n"),
    ];
    emit_pieces(&pieces, writer);
}

/// Writes at which place digits are wrong.
fn emit_broken<W: Sink>(line: u32, place: u32, writer: &mut W)
    ensures { Emits W.written W.failed writer.old writer.new
        (wrong_json line (Digits place)) }
{
    let pieces = [
        Piece::Text(b"{\"line\":"),
        Piece::Number(line),
        Piece::Text(b",\"refused\":{\"fault\":\"Digits\",\"at\":"),
        Piece::Number(place),
        Piece::Text(b"}}\n"),
    ];
    emit_pieces(&pieces, writer);
}

/// Writes pieces, one behind another.
fn emit_pieces<W: Sink>(pieces: &[Piece], writer: &mut W)
    ensures { Emits W.written W.failed writer.old writer.new
        (pieces_text pieces.now) }
{
    for piece in pieces {
        emit_piece(piece, writer);
    }
}

fn emit_piece<W: Sink>(piece: &Piece, writer: &mut W)
    ensures { Emits W.written W.failed writer.old writer.new
        (piece_text piece.now) }
{
    match piece {
        Piece::Text(text) => emit(writer, text),
        Piece::Number(number) => emit_number(u64::from(*number), writer),
    }
}

/// Puts what stands between an element and the one before it, if there is one, behind a text.
#[inline(always)]
fn gather_comma(later: bool, buffer: &mut OutBuffer)
    requires { length buffer.old + LONGEST_PART ≤ ROOM }
    ensures text { buffer.new ≡ buffer.old ++ comma_if later }
    ensures length { length buffer.new ≤ length buffer.old + 1 }
{
    if later {
        buffer.byte(b',');
    }
}

/// The fields, as elements.
struct FieldElements;

impl TextPart for FieldElements {
    ghost use Rattle.rbc_decode.specs.JsonParts.{field_part};
    ghost use Rattle.rbc_decode.specs.Parts.{always};

    ghost told = { always };

    ghost text = { field_part };

    fn is_told(_item: &Item) -> bool {
        true
    }

    fn gather(item: &Item, later: bool, buffer: &mut OutBuffer) {
        gather_comma(later, buffer);
        gather_front(item, buffer);
        gather_rest(item, buffer);
    }
}

/// Puts a field up to its first bit behind a text.
fn gather_front(item: &Item, buffer: &mut OutBuffer)
    requires { length buffer.old + 60 ≤ ROOM }
    ensures text { buffer.new ≡ buffer.old ++ field_front item.now }
    ensures length { length buffer.new ≤ length buffer.old + 60 }
{
    buffer.text(b"{\"packet\":");
    gather_packet(item.row, packet_of(item), buffer);
    buffer.text(b",\"bit\":");
    buffer.number(u64::from(item.bit));
}

/// Puts the number of the packet that a field stands in behind a text, none for the header.
fn gather_packet(row: Row, number: u32, buffer: &mut OutBuffer)
    requires { length buffer.old + 20 ≤ ROOM }
    ensures text { buffer.new ≡ buffer.old ++ compact_text (packet_data row number) }
    ensures length { length buffer.new ≤ length buffer.old + 20 }
{
    match row {
        Row::Header => buffer.text(b"null"),
        _ => buffer.number(u64::from(number)),
    }
}

/// The number of the packet that a field stands in, which its first field has as it was found.
fn packet_of(item: &Item) -> u32
    ensures { result ≡ packet_of item.now.name item.now.row item.now.value }
{
    match item.name {
        FieldName::NID_PACKET => item.value,
        _ => packet_number(item.row),
    }
}

/// Puts a field from its name on behind a text.
fn gather_rest(item: &Item, buffer: &mut OutBuffer)
    requires { length buffer.old + 195 ≤ ROOM }
    ensures { buffer.new ≡ buffer.old ++ field_rest item.now }
{
    buffer.text(name_members(item.name));
    buffer.number(u64::from(item.value));
    buffer.text(b",\"meaning\":\"");
    gather_meaning(item, buffer);
    buffer.text(field_end(item.is_late));
}

/// What stands behind the meaning of a field: the mark of what stands behind a fault.
fn field_end(is_late: bool) -> &'static [u8]
    ensures text { result.now ≡ field_end is_late }
    ensures short { length result.now ≤ 22 }
{
    if is_late {
        b"\",\"behind_fault\":true}"
    } else {
        b"\"}"
    }
}

/// What the fields say but for gradients and speeds, as members.
struct OtherMembers;

impl TextPart for OtherMembers {
    ghost use Rattle.rbc_decode.specs.JsonParts.{if_said, other_part};
    ghost use Rattle.rbc_decode.specs.Parts.{always};
    ghost use Rattle.rbc_decode.specs.Said.{said_in};

    ghost told = { always };

    ghost text = { λ later field. if_said other_part (said_in field) };

    fn is_told(_item: &Item) -> bool {
        true
    }

    fn gather(item: &Item, _later: bool, buffer: &mut OutBuffer) {
        if let Some(said) = said_in(item) {
            gather_other(&said, buffer);
        }
    }
}

/// Puts what is said behind a text, as a member behind others, unless it is a gradient or a speed.
#[tactic(auto, unfolding(json::specs::Print::escape_byte))]
fn gather_other(said: &Said, buffer: &mut OutBuffer)
    requires { length buffer.old + LONGEST_PART ≤ ROOM }
    ensures { buffer.new ≡ buffer.old ++ other_part said.now }
{
    match *said {
        Said::Time(time) => gather_named(b",\"time\":", u64::from(time), buffer),
        Said::Country(country) => gather_named(b",\"country\":", u64::from(country), buffer),
        Said::Group(number) => gather_named(b",\"group\":", u64::from(number), buffer),
        Said::Nominal(nominal) => buffer.text(direction_member(nominal)),
        Said::End(metres) => gather_named(b",\"end\":", metres, buffer),
        Said::Grade(_, _) | Said::Speed(_, _) => (),
    }
}

/// The direction as a member behind others.
#[tactic(auto, unfolding(json::specs::Print::escape_byte))]
fn direction_member(nominal: bool) -> &'static [u8]
    ensures text { result.now ≡ member_part (codes "direction") (string (direction_text nominal)) }
    ensures short { length result.now ≤ 40 }
{
    if nominal {
        b",\"direction\":\"nominal\""
    } else {
        b",\"direction\":\"reverse\""
    }
}

/// Puts a number behind its name, and both behind a text.
fn gather_named(name: &[u8], number: u64, buffer: &mut OutBuffer)
    requires short { length name.now ≤ 20 }
    requires room { length buffer.old + LONGEST_PART ≤ ROOM }
    ensures { buffer.new ≡ buffer.old ++ (name.now ++ decimal number) }
{
    buffer.text(name);
    buffer.number(number);
}

/// The gradients that are said, as elements.
struct GradeElements;

impl TextPart for GradeElements {
    ghost use Rattle.rbc_decode.specs.JsonParts.{if_said, is_grade, grade_part};
    ghost use Rattle.rbc_decode.specs.Said.{said_in};

    ghost told = { λ field. is_grade (said_in field) };

    ghost text = { λ later field. if_said (grade_part later) (said_in field) };

    fn is_told(item: &Item) -> bool {
        matches!(said_in(item), Some(Said::Grade(_, _)))
    }

    fn gather(item: &Item, later: bool, buffer: &mut OutBuffer) {
        if let Some(Said::Grade(from, per_mille)) = said_in(item) {
            gather_grade(later, from, per_mille, buffer);
        }
    }
}

/// Puts a gradient behind a text, as an element.
fn gather_grade(later: bool, from: u64, per_mille: i64, buffer: &mut OutBuffer)
    requires { length buffer.old + LONGEST_PART ≤ ROOM }
    ensures { buffer.new ≡ buffer.old ++ (comma_if later ++ compact_text (grade_data from per_mille)) }
{
    gather_comma(later, buffer);
    buffer.text(b"{\"from\":");
    buffer.number(from);
    buffer.text(b",\"per_mille\":");
    buffer.signed(per_mille);
    buffer.byte(b'}');
}

/// The speeds that are said, as elements.
struct SpeedElements;

impl TextPart for SpeedElements {
    ghost use Rattle.rbc_decode.specs.JsonParts.{if_said, is_speed, speed_part};
    ghost use Rattle.rbc_decode.specs.Said.{said_in};

    ghost told = { λ field. is_speed (said_in field) };

    ghost text = { λ later field. if_said (speed_part later) (said_in field) };

    fn is_told(item: &Item) -> bool {
        matches!(said_in(item), Some(Said::Speed(_, _)))
    }

    fn gather(item: &Item, later: bool, buffer: &mut OutBuffer) {
        if let Some(Said::Speed(from, kmh)) = said_in(item) {
            gather_speed(later, from, kmh, buffer);
        }
    }
}

/// Puts a speed behind a text, as an element.
fn gather_speed(later: bool, from: u64, kmh: u64, buffer: &mut OutBuffer)
    requires { length buffer.old + LONGEST_PART ≤ ROOM }
    ensures { buffer.new ≡ buffer.old ++ (comma_if later ++ compact_text (speed_data from kmh)) }
{
    gather_comma(later, buffer);
    buffer.text(b"{\"from\":");
    buffer.number(from);
    buffer.text(b",\"km_per_hour\":");
    buffer.number(kmh);
    buffer.byte(b'}');
}

/// Writes elements as an array, behind its name and up to its closing bracket.
fn emit_array<P: TextPart, W: Sink>(name: &[u8], items: &[Item], writer: &mut W)
    ensures { Emits W.written W.failed writer.old writer.new
        (name.now ++ (parts_text P.told P.text false items.now ++ 93 ∷ [])) }
{
    emit(writer, name);
    emit_parts::<P, W>(items, writer);
    emit(writer, b"]");
}

/// Writes the members of the words.
fn emit_words<W: Sink>(items: &[Item], writer: &mut W)
    ensures { Emits W.written W.failed writer.old writer.new
        (words_part items.now) }
{
    emit_parts::<OtherMembers, W>(items, writer);
    emit_array::<GradeElements, W>(b",\"grades\":[", items, writer);
    emit_array::<SpeedElements, W>(b",\"speeds\":[", items, writer);
}

/// Writes the first fault that was found, as a member.
fn emit_found<W: Sink>(found: &Found, writer: &mut W)
    ensures { Emits W.written W.failed writer.old writer.new
        (member_part (codes "refused") (found_data found.now)) }
{
    let pieces = [
        Piece::Text(b",\"refused\":{\"fault\":\""),
        Piece::Text(fault_text(found.fault)),
        Piece::Text(b"\",\"name\":\""),
        Piece::Text(place_text(found.place)),
        Piece::Text(b"\",\"bit\":"),
        Piece::Number(found.bit),
        Piece::Text(b",\""),
        Piece::Text(measure_text(found.place)),
        Piece::Text(b"\":"),
        Piece::Number(found.value),
        Piece::Text(b"}"),
    ];
    emit_pieces(&pieces, writer);
}

/// Writes the members of the words, or of the first fault that was found.
fn emit_outcome<W: Sink>(items: &[Item], found: Option<Found>, writer: &mut W)
    ensures { Emits W.written W.failed writer.old writer.new
        (outcome_part items.now found) }
{
    match found {
        None => emit_words(items, writer),
        Some(found) => emit_found(&found, writer),
    }
}

/// The kind, as a member behind others.
#[tactic(auto, unfolding(json::specs::Print::escape_byte))]
fn kind_member(is_packet: bool) -> &'static [u8]
    ensures { result.now ≡ member_part (codes "kind") (string (kind_text is_packet)) }
{
    if is_packet {
        b",\"kind\":\"packet\""
    } else {
        b",\"kind\":\"message\""
    }
}

/// Writes the number of the line, what the line `granted` before it tells, and the kind, the first members.
fn emit_start<W: Sink>(heading: Heading, writer: &mut W)
    ensures { Emits W.written W.failed writer.old writer.new
        (start_text heading.line heading.granted heading.is_packet) }
{
    let member = granted_member(heading.granted);
    let pieces = [
        Piece::Text(b"{\"line\":"),
        Piece::Number(heading.line),
        Piece::Text(member.bytes()),
        Piece::Text(kind_member(heading.is_packet)),
    ];
    emit_pieces(&pieces, writer);
}

/// Writes what was read as a line of JSON: these fields, and the first fault that was found.
pub(crate) fn emit_json<W: Sink>(
    heading: Heading,
    items: &[Item],
    found: Option<Found>,
    writer: &mut W,
)
    ensures { Emits W.written W.failed writer.old writer.new
        (json_text heading.line heading.granted heading.is_packet (read_as items.now found)) }
{
    emit_start(heading, writer);
    emit_outcome(items, found, writer);
    emit_array::<FieldElements, W>(b",\"fields\":[", items, writer);
    emit(writer, b"}\n");
}
