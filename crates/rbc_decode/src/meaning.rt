//! What the value of a field means, in words.

ghost use Rattle.std.specs.Prelude.{◌≡◌, ◌+◌, ◌≤◌, ◌++◌, length, decimal, codes};
ghost use Rattle.std.specs.Fmt.{signed_decimal};
ghost use Rattle.rbc_model.specs.Results.{is_from_to};
ghost use Rattle.rbc_decode.specs.declared.out_buffer.TheConstants.{ROOM};
ghost use Rattle.rbc_decode.specs.Meanings.{counted_things, direction_meaning, distance_start, front_meaning, grade_meaning, meaning_in};
ghost use Rattle.rbc_decode.specs.Meanings.{message_meaning, numbered, packet_meaning, place_meaning, scale_meaning, slope_meaning};
ghost use Rattle.rbc_decode.specs.Meanings.{speed_meaning, time_out_meaning, yes_or_no};
ghost use Rattle.rbc_decode.specs.Walks.{scale_told};

use crate::fields::Item;
use crate::out_buffer::OutBuffer;
use crate::row::Row;
use crate::said::{metres, signed_value};
use crate::walk::FieldWalk;
use rbc_model::FieldName;
use rbc_model::limits::{
    AUTHORITY_PACKET, GRADIENT_END_MARK, GRADIENT_PACKET, MESSAGE_NUMBER, NO_TIME_OUT,
    SPEED_END_MARK, SPEED_PACKET, SPEED_STEP,
};

/// Puts what the value of a field means behind a text.
#[tactic(auto, unfolding(crate::specs::Meanings::meaning_by))]
pub(crate) fn gather_meaning(item: &Item, buffer: &mut OutBuffer)
    requires { length buffer.old + 100 ≤ ROOM }
    ensures text { buffer.new ≡ buffer.old ++ meaning_in item.now }
    ensures length { length buffer.new ≤ length buffer.old + 90 }
{
    let (walk, row, value) = (&item.walk, item.row, item.value);
    let number = u64::from(value);
    match item.name {
        FieldName::NID_MESSAGE => buffer.text(message_meaning(value)),
        FieldName::L_MESSAGE => gather_numbered(b"", number, b" bytes", buffer),
        FieldName::T_TRAIN => gather_numbered(b"", 10 * number, b" ms", buffer),
        FieldName::NID_C => buffer.text(b"country or region"),
        FieldName::NID_BG => buffer.text(b"balise group"),
        FieldName::NID_PACKET => buffer.text(packet_meaning(value)),
        FieldName::Q_DIR => buffer.text(direction_meaning(value)),
        FieldName::L_PACKET => gather_numbered(b"", number, b" bits", buffer),
        FieldName::Q_SCALE => buffer.text(scale_meaning(value)),
        FieldName::V_LOA => {
            gather_numbered(b"", u64::from(SPEED_STEP) * number, b" km/h", buffer);
        }
        FieldName::T_LOA => gather_time_out(value, buffer),
        FieldName::N_ITER => {
            gather_numbered(b"", number, counted_things(row, walk.index), buffer);
        }
        FieldName::L_ENDSECTION => gather_place(walk, b"end at ", value, buffer),
        FieldName::D_GRADIENT | FieldName::D_STATIC => {
            let units = walk.from.saturating_add(value);
            gather_place(walk, distance_start(row), units, buffer);
        }
        FieldName::Q_GDIR => buffer.text(slope_meaning(value)),
        FieldName::G_A => gather_grade(walk, value, buffer),
        FieldName::V_STATIC => gather_speed(walk, value, buffer),
        FieldName::Q_FRONT => buffer.text(front_meaning(value)),
        _ => buffer.text(yes_or_no(value)),
    }
}

/// Puts a number between two texts, and all behind a text.
fn gather_numbered(before: &[u8], number: u64, after: &[u8], buffer: &mut OutBuffer)
    requires before { length before.now ≤ 20 }
    requires after { length after.now ≤ 20 }
    requires room { length buffer.old + 60 ≤ ROOM }
    ensures text { buffer.new ≡ buffer.old ++ numbered before.now number after.now }
    ensures length { length buffer.new ≤ length buffer.old + 60 }
{
    buffer.text(before);
    buffer.number(number);
    buffer.text(after);
}

fn gather_time_out(seconds: u32, buffer: &mut OutBuffer)
    requires { length buffer.old + 60 ≤ ROOM }
    ensures text { buffer.new ≡ buffer.old ++ time_out_meaning seconds }
    ensures length { length buffer.new ≤ length buffer.old + 60 }
{
    if seconds == NO_TIME_OUT {
        buffer.text(b"no time-out");
    } else {
        gather_numbered(b"", u64::from(seconds), b" s", buffer);
    }
}

/// Puts so many units of the scale that is told behind a text, in metres where that is known.
fn gather_place(walk: &FieldWalk, before: &[u8], units: u32, buffer: &mut OutBuffer)
    requires before { length before.now ≤ 20 }
    requires room { length buffer.old + 60 ≤ ROOM }
    ensures text { buffer.new ≡ buffer.old ++ place_meaning walk.now before.now units }
    ensures length { length buffer.new ≤ length buffer.old + 60 }
{
    if is_scaled(walk) {
        gather_numbered(before, metres(walk, units), b" m", buffer);
    } else {
        gather_numbered(before, u64::from(units), b" units", buffer);
    }
}

/// Whether the scale that is told is one of metres.
fn is_scaled(walk: &FieldWalk) -> bool
    ensures { result ≡ is_from_to 1 2 (scale_told walk.now.scale) }
{
    (1..=2).contains(&walk.scale_told())
}

fn gather_grade(walk: &FieldWalk, size: u32, buffer: &mut OutBuffer)
    requires { length buffer.old + 90 ≤ ROOM }
    ensures text { buffer.new ≡ buffer.old ++ grade_meaning walk.now size }
    ensures length { length buffer.new ≤ length buffer.old + 90 }
{
    if size == GRADIENT_END_MARK {
        gather_place(walk, b"end at ", walk.from, buffer);
    } else {
        gather_slope(walk, signed_value(walk.uphill, size), buffer);
    }
}

fn gather_slope(walk: &FieldWalk, per_mille: i64, buffer: &mut OutBuffer)
    requires { length buffer.old + 90 ≤ ROOM }
    ensures text { buffer.new ≡ buffer.old ++ (signed_decimal per_mille ++ place_meaning walk.now (codes " per mille from ") walk.now.from) }
    ensures length { length buffer.new ≤ length buffer.old + 90 }
{
    buffer.signed(per_mille);
    gather_place(walk, b" per mille from ", walk.from, buffer);
}

fn gather_speed(walk: &FieldWalk, fives: u32, buffer: &mut OutBuffer)
    requires { length buffer.old + 90 ≤ ROOM }
    ensures text { buffer.new ≡ buffer.old ++ speed_meaning walk.now fives }
    ensures length { length buffer.new ≤ length buffer.old + 90 }
{
    if fives == SPEED_END_MARK {
        gather_place(walk, b"end at ", walk.from, buffer);
    } else {
        gather_pace(walk, u64::from(SPEED_STEP) * u64::from(fives), buffer);
    }
}

fn gather_pace(walk: &FieldWalk, kmh: u64, buffer: &mut OutBuffer)
    requires { length buffer.old + 90 ≤ ROOM }
    ensures text { buffer.new ≡ buffer.old ++ (decimal kmh ++ place_meaning walk.now (codes " km/h from ") walk.now.from) }
    ensures length { length buffer.new ≤ length buffer.old + 90 }
{
    buffer.number(kmh);
    gather_place(walk, b" km/h from ", walk.from, buffer);
}

fn message_meaning(number: u32) -> &'static [u8]
    ensures text { result.now ≡ message_meaning number }
    ensures short { length result.now ≤ 30 }
{
    if number == MESSAGE_NUMBER {
        b"movement authority"
    } else {
        b"another message"
    }
}

fn packet_meaning(number: u32) -> &'static [u8]
    ensures text { result.now ≡ packet_meaning number }
    ensures short { length result.now ≤ 30 }
{
    if number == AUTHORITY_PACKET {
        b"movement authority"
    } else if number == GRADIENT_PACKET {
        b"gradients"
    } else if number == SPEED_PACKET {
        b"speeds"
    } else {
        b"another packet"
    }
}

fn direction_meaning(direction: u32) -> &'static [u8]
    ensures text { result.now ≡ direction_meaning direction }
    ensures short { length result.now ≤ 30 }
{
    if direction == 0 {
        b"reverse"
    } else if direction == 1 {
        b"nominal"
    } else if direction == 2 {
        b"both directions"
    } else {
        b"spare"
    }
}

fn scale_meaning(scale: u32) -> &'static [u8]
    ensures text { result.now ≡ scale_meaning scale }
    ensures short { length result.now ≤ 30 }
{
    if scale == 0 {
        b"units of 10 cm"
    } else if scale == 1 {
        b"units of 1 m"
    } else if scale == 2 {
        b"units of 10 m"
    } else {
        b"spare"
    }
}

fn slope_meaning(uphill: u32) -> &'static [u8]
    ensures text { result.now ≡ slope_meaning uphill }
    ensures short { length result.now ≤ 30 }
{
    if uphill == 1 { b"uphill" } else { b"downhill" }
}

fn front_meaning(front: u32) -> &'static [u8]
    ensures text { result.now ≡ front_meaning front }
    ensures short { length result.now ≤ 30 }
{
    if front == 0 {
        b"train length delay"
    } else {
        b"no train length delay"
    }
}

fn yes_or_no(value: u32) -> &'static [u8]
    ensures text { result.now ≡ yes_or_no value }
    ensures short { length result.now ≤ 30 }
{
    if value == 0 { b"no" } else { b"yes" }
}

/// What a number of iterations counts, at this place of its row.
fn counted_things(row: Row, index: usize) -> &'static [u8]
    ensures text { result.now ≡ counted_things row index }
    ensures short { length result.now ≤ 20 }
{
    match row {
        Row::Authority => b" further sections",
        Row::SpeedHead if index == 8 => b" further elements",
        Row::SpeedHead | Row::SpeedStep | Row::SpeedEnd => b" train categories",
        _ => b" further elements",
    }
}

/// What stands before the place of an element.
fn distance_start(row: Row) -> &'static [u8]
    ensures text { result.now ≡ distance_start row }
    ensures short { length result.now ≤ 20 }
{
    match row {
        Row::GradientEnd | Row::SpeedEnd => b"end at ",
        _ => b"from ",
    }
}
