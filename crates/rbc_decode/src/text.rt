//! What is printed of the fields of a message.

ghost use Rattle.std.specs.Prelude.{◌≡◌, ◌+◌, ◌≤◌, ◌++◌, ◌∷◌, ◌&&◌, ◌==◌, [], decimal, codes, length};
ghost use Rattle.rbc_streams.specs.Emitting.{Emits};
ghost use Rattle.rbc_decode.specs.declared.parts.TheConstants.{LONGEST_PART};
ghost use Rattle.rbc_decode.specs.declared.out_buffer.TheConstants.{ROOM};
ghost use Rattle.rbc_decode.specs.declared.said.Said.TheVariants.{Nominal, Grade, Speed};
ghost use Rattle.rbc_decode.specs.Readings.{read_as};
ghost use Rattle.rbc_model.specs.declared.messages.FieldName.TheVariants.{N_ITER};
ghost use Rattle.rbc_decode.specs.Texts.{field_line, head_text, row_text, said_text, begins, mark_text, packet_start, lead_text, is_inner};
ghost use Rattle.rbc_decode.specs.Texts.{fault_text, place_text, measure_text, found_line, said_line};
ghost use Rattle.rbc_decode.specs.Texts.{line_text, outcome_text, reading_text, told_text, wrong_line, wrong_text};

use crate::fields::{FieldPlace, Found, Item};
use crate::meaning::gather_meaning;
use crate::names::{field_start, name_text};
use crate::out_buffer::OutBuffer;
use crate::parts::{TextPart, emit_parts};
use crate::row::Row;
use crate::said::{Said, said_in};
use crate::spelling::Wrong;
use rbc_model::limits::{AUTHORITY_PACKET, GRADIENT_PACKET, SPEED_PACKET};
use rbc_model::{Fault, FieldName};
use rbc_streams::{Sink, emit};
use rbc_words::{Word, emit_line};

/// The fields, a line each.
struct FieldLines;

impl TextPart for FieldLines {
    ghost use Rattle.rbc_decode.specs.Parts.{always};
    ghost use Rattle.rbc_decode.specs.Texts.{item_text};

    ghost told = { always };

    ghost text = { λ later field. item_text field };

    fn is_told(_item: &Item) -> bool {
        true
    }

    fn gather(item: &Item, _later: bool, buffer: &mut OutBuffer) {
        gather_head(item, buffer);
        gather_field(item, buffer);
    }
}

/// What the fields say in words.
struct Words;

impl TextPart for Words {
    ghost use Rattle.rbc_decode.specs.Parts.{always};
    ghost use Rattle.rbc_decode.specs.Said.{said_in};
    ghost use Rattle.rbc_decode.specs.Texts.{said_line};

    ghost told = { always };

    ghost text = { λ later field. said_line (said_in field) };

    fn is_told(_item: &Item) -> bool {
        true
    }

    fn gather(item: &Item, _later: bool, buffer: &mut OutBuffer) {
        if let Some(said) = said_in(item) {
            gather_said(&said, buffer);
        }
    }
}

/// Writes what stands behind the fields: their words, or the first fault that was found.
fn emit_outcome<W: Sink>(items: &[Item], found: Option<Found>, writer: &mut W)
    ensures { Emits W.written W.failed writer.old writer.new
        (outcome_text items.now found) }
{
    match found {
        None => {
            emit_parts::<Words, W>(items, writer);
            emit(writer, b"done\n");
        }
        Some(found) => emit_found(&found, writer),
    }
}

/// Writes what was read: these fields, and the first fault that was found.
fn emit_reading<W: Sink>(items: &[Item], found: Option<Found>, writer: &mut W)
    ensures { Emits W.written W.failed writer.old writer.new
        (reading_text (read_as items.now found)) }
{
    emit_parts::<FieldLines, W>(items, writer);
    emit_outcome(items, found, writer);
}

/// Writes which line of the input is answered, unless it is the first one.
fn emit_place<W: Sink>(line: u32, writer: &mut W)
    ensures { Emits W.written W.failed writer.old writer.new (line_text line) }
{
    if line == 1 {
        return;
    }
    emit_line(b"line", &[Word::Number(line)], writer);
}

/// Writes what was read in the line of this number: these fields, and the first fault that was found.
pub(crate) fn emit_told<W: Sink>(line: u32, items: &[Item], found: Option<Found>, writer: &mut W)
    ensures { Emits W.written W.failed writer.old writer.new
        (told_text line (read_as items.now found)) }
{
    emit_place(line, writer);
    emit_reading(items, found, writer);
}

/// Writes what is wrong with digits in the line of this number.
pub(crate) fn emit_wrong<W: Sink>(line: u32, wrong: Wrong, writer: &mut W)
    ensures { Emits W.written W.failed writer.old writer.new (wrong_text line wrong) }
{
    emit_place(line, writer);
    emit_wrong_line(wrong, writer);
}

/// Puts the line of the message or packet that begins with the field behind a text, if one does.
fn gather_head(item: &Item, buffer: &mut OutBuffer)
    requires { length buffer.old + LONGEST_PART ≤ ROOM }
    ensures text { buffer.new ≡ buffer.old ++ head_text item.now }
    ensures length { length buffer.new ≤ length buffer.old + 50 }
{
    if is_first(item) {
        gather_begun(item, buffer);
    }
}

/// Whether a message or packet begins with the field.
fn is_first(item: &Item) -> bool
    ensures { result ≡ (begins item.now.row && (item.now.walk.index == 0)) }
{
    begins(item.row) && item.walk.index == 0
}

/// Puts the line of what begins with the field behind a text.
fn gather_begun(item: &Item, buffer: &mut OutBuffer)
    requires { length buffer.old + 50 ≤ ROOM }
    ensures text { buffer.new ≡ buffer.old ++ (mark_text item.now.is_late ++ row_text item.now.row item.now.value) }
    ensures length { length buffer.new ≤ length buffer.old + 50 }
{
    buffer.text(mark_text(item.is_late));
    gather_row(item.row, item.value, buffer);
}

/// Whether a message or packet begins with the row.
fn begins(row: Row) -> bool
    ensures { result ≡ begins row }
{
    match row {
        Row::Header | Row::Authority | Row::GradientHead | Row::SpeedHead => true,
        _ => false,
    }
}

/// The mark of what stands behind a fault.
fn mark_text(is_late: bool) -> &'static [u8]
    ensures text { result.now ≡ mark_text is_late }
    ensures short { length result.now ≤ 2 }
{
    if is_late { b"? " } else { b"" }
}

/// Puts the line of the message or packet that begins with this row behind a text, by the number that was found.
fn gather_row(row: Row, number: u32, buffer: &mut OutBuffer)
    requires { length buffer.old + 45 ≤ ROOM }
    ensures text { buffer.new ≡ buffer.old ++ row_text row number }
    ensures length { length buffer.new ≤ length buffer.old + 45 }
{
    match row {
        Row::Header => buffer.text(b"message\n"),
        _ => gather_last(packet_start(number), u64::from(number), buffer),
    }
}

/// What stands before the number of a packet.
fn packet_start(number: u32) -> &'static [u8]
    ensures text { result.now ≡ packet_start number }
    ensures short { length result.now ≤ 20 }
{
    if number == AUTHORITY_PACKET || number == GRADIENT_PACKET || number == SPEED_PACKET {
        b"packet "
    } else {
        b"packet ? "
    }
}

/// Puts the line of a field behind a text: its name and its width in bits, in at most 24 bytes, among others.
fn gather_field(item: &Item, buffer: &mut OutBuffer)
    requires { length buffer.old + 170 ≤ ROOM }
    ensures { buffer.new ≡ buffer.old ++ field_line item.now }
{
    let (start, count) = field_start(item.name);
    buffer.text(lead_text(item));
    buffer.number(u64::from(item.bit));
    buffer.front(start, count);
    buffer.number(u64::from(item.value));
    buffer.text(b"  ");
    gather_meaning(item, buffer);
    buffer.byte(b'\n');
}

/// What the line of a field begins with.
fn lead_text(item: &Item) -> &'static [u8]
    ensures text { result.now ≡ lead_text item.now.is_late (is_inner item.now.name item.now.row item.now.walk.index) }
    ensures short { length result.now ≤ 4 }
{
    match (item.is_late, is_inner(item.name, item.row, item.walk.index)) {
        (true, true) => b"?   ",
        (true, false) => b"? ",
        (false, true) => b"    ",
        (false, false) => b"  ",
    }
}

/// Whether a field says what there is at the place of the distance before it.
fn is_inner(name: FieldName, row: Row, index: usize) -> bool
    ensures { result ≡ is_inner name row index }
{
    match name {
        FieldName::Q_GDIR | FieldName::G_A | FieldName::V_STATIC | FieldName::Q_FRONT => true,
        FieldName::N_ITER => is_inner_count(row, index),
        _ => false,
    }
}

/// Whether a number of iterations does.
fn is_inner_count(row: Row, index: usize) -> bool
    ensures { result ≡ is_inner N_ITER row index }
{
    match row {
        Row::SpeedHead => index == 7,
        Row::SpeedStep | Row::SpeedEnd => true,
        _ => false,
    }
}

/// Puts a name and the number at its end behind a text, as the end of a line.
fn gather_last(name: &[u8], number: u64, buffer: &mut OutBuffer)
    requires short { length name.now ≤ 20 }
    requires room { length buffer.old + 41 ≤ ROOM }
    ensures text { buffer.new ≡ buffer.old ++ (name.now ++ (decimal number ++ 10 ∷ [])) }
    ensures length { length buffer.new ≤ length buffer.old + 41 }
{
    buffer.text(name);
    buffer.number(number);
    buffer.byte(b'\n');
}

/// Puts what is said, in words, behind a text.
fn gather_said(said: &Said, buffer: &mut OutBuffer)
    requires { length buffer.old + LONGEST_PART ≤ ROOM }
    ensures { buffer.new ≡ buffer.old ++ said_text said.now }
{
    match *said {
        Said::Time(time) => gather_last(b"time ", u64::from(time), buffer),
        Said::Country(country) => gather_country(country, buffer),
        Said::Group(number) => gather_last(b"/", u64::from(number), buffer),
        Said::Nominal(nominal) => buffer.text(direction_line(nominal)),
        Said::End(metres) => gather_last(b"end ", metres, buffer),
        Said::Grade(from, per_mille) => gather_grade(from, per_mille, buffer),
        Said::Speed(from, kmh) => gather_speed(from, kmh, buffer),
    }
}

fn gather_country(country: u32, buffer: &mut OutBuffer)
    requires { length buffer.old + LONGEST_PART ≤ ROOM }
    ensures { buffer.new ≡ buffer.old ++ (codes "group " ++ decimal country) }
{
    buffer.text(b"group ");
    buffer.number(u64::from(country));
}

fn direction_line(nominal: bool) -> &'static [u8]
    ensures text { result.now ≡ said_text (Nominal nominal) }
    ensures short { length result.now ≤ 20 }
{
    if nominal {
        b"direction nominal\n"
    } else {
        b"direction reverse\n"
    }
}

fn gather_grade(from: u64, per_mille: i64, buffer: &mut OutBuffer)
    requires { length buffer.old + LONGEST_PART ≤ ROOM }
    ensures { buffer.new ≡ buffer.old ++ said_text (Grade from per_mille) }
{
    buffer.text(b"grade ");
    buffer.number(from);
    buffer.byte(b' ');
    buffer.signed(per_mille);
    buffer.byte(b'\n');
}

fn gather_speed(from: u64, kmh: u64, buffer: &mut OutBuffer)
    requires { length buffer.old + LONGEST_PART ≤ ROOM }
    ensures { buffer.new ≡ buffer.old ++ said_text (Speed from kmh) }
{
    buffer.text(b"speed ");
    buffer.number(from);
    buffer.byte(b' ');
    buffer.number(kmh);
    buffer.byte(b'\n');
}

/// Writes what was found where the fields ended.
fn emit_found<W: Sink>(found: &Found, writer: &mut W)
    ensures { Emits W.written W.failed writer.old writer.new (found_line found.now) }
{
    let words = [
        Word::Text(fault_text(found.fault)),
        Word::Text(place_text(found.place)),
        Word::Text(b"bit"),
        Word::Number(found.bit),
        Word::Text(measure_text(found.place)),
        Word::Number(found.value),
    ];
    emit_line(b"refused", &words, writer);
}

/// Writes what is wrong with digits.
fn emit_wrong_line<W: Sink>(wrong: Wrong, writer: &mut W)
    ensures { Emits W.written W.failed writer.old writer.new (wrong_line wrong) }
{
    match wrong {
        Wrong::Digits(place) => {
            let words = [
                Word::Text(b"Digits"),
                Word::Text(b"at"),
                Word::Number(place),
            ];
            emit_line(b"refused", &words, writer);
        }
        Wrong::Overlong => emit(writer, b"refused Overlong\n"),
    }
}

/// What stands at a fault.
pub(crate) fn place_text(place: FieldPlace) -> &'static [u8]
    ensures { result.now ≡ place_text place }
{
    match place {
        FieldPlace::Field(name) | FieldPlace::Missing(name) => name_text(name),
        FieldPlace::Filling | FieldPlace::Behind => b"filling",
    }
}

/// Whether the value there is told, or how many bits are left.
pub(crate) fn measure_text(place: FieldPlace) -> &'static [u8]
    ensures { result.now ≡ measure_text place }
{
    match place {
        FieldPlace::Field(_) | FieldPlace::Filling => b"value",
        FieldPlace::Missing(_) | FieldPlace::Behind => b"left",
    }
}

pub(crate) fn fault_text(fault: Fault) -> &'static [u8]
    ensures { result.now ≡ fault_text fault }
{
    match fault {
        Fault::Short => b"Short",
        Fault::Number => b"Number",
        Fault::Length => b"Length",
        Fault::Field(_) => b"Field",
        Fault::Padding => b"Padding",
        Fault::Extra => b"Extra",
    }
}
