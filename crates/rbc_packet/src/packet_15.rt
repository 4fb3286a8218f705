//! Packet 15, the level 2 movement authority (ERA SUBSET-026 3.6.0, chapter 7). It has one section, which ends where
//! the authority does, with target speed 0 there, and no time-out, timers, danger point or overlap. Its end is counted
//! in metres (Q_SCALE 1) up to 32,000 m, and in tens of metres (Q_SCALE 2) beyond.

ghost use Rattle.std.specs.Prelude.{◌≡◌, ◌*◌, ◌/◌, ◌≤◌, ◌++◌, OnOk, IfOk, IsTrue};
ghost use Rattle.rbc_model.specs.declared.limits.TheConstants.{FARTHEST_END, FARTHEST_END_IN_TENS, FIRST_END_IN_TENS, TEN_METRES};
ghost use Rattle.rbc_model.specs.declared.messages.FieldName.TheVariants.{L_ENDSECTION, Q_SCALE};
ghost use Rattle.rbc_model.specs.declared.places.Format.TheVariants.{Far};
ghost use Rattle.rbc_model.specs.Messages.{packet_15};
ghost use Rattle.rbc_model.specs.Reading.{packet_15_at};
ghost use Rattle.rbc_model.specs.Readers.{field};
ghost use Rattle.rbc_model.specs.Results.{is_from_to};
ghost use Rattle.rbc_model.specs.Scales.{is_end_at, is_expressible, last_scale, scale_of, unit_of};
ghost use Rattle.rbc_packet.specs.Fields.{bits_of_fields};
ghost use Rattle.rbc_packet.specs.Frames.{frame_view};
ghost use Rattle.rbc_packet.specs.Reads.{Reads, ReadsAs};

use crate::field_reader::{any_field, expect, field_from_to, fixed_field};
use crate::fields::{direction_of, put_fields};
use rbc_bits::{BitReader, BitWriter};
use rbc_model::limits::{
    AUTHORITY_BITS, AUTHORITY_PACKET, FARTHEST_END, FARTHEST_END_IN_TENS, FIRST_END_IN_TENS,
    NO_TIME_OUT, TEN_METRES,
};
use rbc_model::scales::{scale_of, unit_of};
use rbc_model::{Fault, FieldName, Memory};

/// What packets 21 and 27 must agree with, as packet 15 tells it.
#[derive(Clone, Copy)]
pub(crate) struct Frame {
    /// Whether they hold in the balise group's nominal direction (Q_DIR), or against it.
    pub(crate) nominal: bool,
    /// How many metres from the group the authority ends (L_ENDSECTION), which tells the scale (Q_SCALE): 1 to 32,000
    /// in metres, or a multiple of ten from 32,010 to 80,000 in tens of metres.
    pub(crate) end: u32,
}

/// Packet 15 behind the bits so far. Where memory runs out, some of it may stand.
pub(crate) fn put_packet_15(bits: &mut BitWriter, end: u32, nominal: bool) -> Result<(), Memory>
    requires { IsTrue (is_expressible Far end) }
    ensures { OnOk result (bits.new ≡ bits.old ++ bits_of_fields (packet_15 nominal end)) }
{
    put_fields(
        bits,
        &[
            (FieldName::NID_PACKET, AUTHORITY_PACKET),
            (FieldName::Q_DIR, direction_of(nominal)),
            (FieldName::L_PACKET, AUTHORITY_BITS),
            (FieldName::Q_SCALE, scale_of(end)),
            (FieldName::V_LOA, 0),
            (FieldName::T_LOA, NO_TIME_OUT),
            (FieldName::N_ITER, 0),
            (FieldName::L_ENDSECTION, end / unit_of(end)),
            (FieldName::Q_SECTIONTIMER, 0),
            (FieldName::Q_ENDTIMER, 0),
            (FieldName::Q_DANGERPOINT, 0),
            (FieldName::Q_OVERLAP, 0),
        ],
    )
}

/// Reads packet 15.
///
/// # Errors
///
/// The first fault of a field, or [`Fault::Length`] where the packet says that it has not 66 bits.
pub(crate) fn read_packet_15(bits: &mut BitReader) -> Result<Frame, Fault>
    ensures read { ReadsAs frame_view (packet_15_at Far) bits.old bits.new result }
    ensures expressible { IfOk result (λ frame. IsTrue (is_expressible Far frame.end)) }
{
    fixed_field(bits, FieldName::NID_PACKET, AUTHORITY_PACKET)?;
    let nominal = field_from_to(bits, FieldName::Q_DIR, 0, 1)? == 1;
    let said = any_field(bits, FieldName::L_PACKET)?;
    expect(said == AUTHORITY_BITS, Fault::Length)?;
    let scale = read_scale(bits)?;
    fixed_field(bits, FieldName::V_LOA, 0)?;
    fixed_field(bits, FieldName::T_LOA, NO_TIME_OUT)?;
    fixed_field(bits, FieldName::N_ITER, 0)?;
    let end = read_end(bits, scale)?;
    fixed_field(bits, FieldName::Q_SECTIONTIMER, 0)?;
    fixed_field(bits, FieldName::Q_ENDTIMER, 0)?;
    fixed_field(bits, FieldName::Q_DANGERPOINT, 0)?;
    fixed_field(bits, FieldName::Q_OVERLAP, 0)?;
    Ok(Frame { nominal, end })
}

/// The scale of the message: metres or tens of metres.
fn read_scale(bits: &mut BitReader) -> Result<u32, Fault>
    ensures read { Reads (field Q_SCALE (is_from_to 1 (last_scale Far))) bits.old bits.new result }
    ensures known { IfOk result (λ scale. IsTrue (is_from_to 1 (last_scale Far) scale)) }
{
    let (metres, tens) = (scale_of(FARTHEST_END), scale_of(FARTHEST_END_IN_TENS));
    field_from_to(bits, FieldName::Q_SCALE, metres, tens)
}

/// How many metres from the balise group the section ends, which the message counts in this scale.
fn read_end(bits: &mut BitReader, scale: u32) -> Result<u32, Fault>
    requires { IsTrue (is_from_to 1 (last_scale Far) scale) }
    ensures read { ReadsAs (λ end. end / unit_of end) (field L_ENDSECTION (is_end_at scale)) bits.old bits.new result }
    ensures scale { IfOk result (λ end. scale_of end ≡ scale) }
    ensures expressible { IfOk result (λ end. IsTrue (is_expressible Far end)) }
{
    if scale == scale_of(FARTHEST_END) {
        read_metres(bits)
    } else {
        read_tens(bits)
    }
}

/// An end that is told in metres.
fn read_metres(bits: &mut BitReader) -> Result<u32, Fault>
    ensures read { Reads (field L_ENDSECTION (is_from_to 1 FARTHEST_END)) bits.old bits.new result }
    ensures ahead { IfOk result (λ end. 1 ≤ end) }
    ensures near { IfOk result (λ end. end ≤ FARTHEST_END) }
{
    field_from_to(bits, FieldName::L_ENDSECTION, 1, FARTHEST_END)
}

/// An end that is told in tens of metres, in metres.
fn read_tens(bits: &mut BitReader) -> Result<u32, Fault>
    ensures read { ReadsAs (λ end. end / TEN_METRES)
        (field L_ENDSECTION (is_from_to (FIRST_END_IN_TENS / TEN_METRES) (FARTHEST_END_IN_TENS / TEN_METRES)))
        bits.old bits.new result }
    ensures whole { IfOk result (λ end. end ≡ TEN_METRES * (end / TEN_METRES)) }
    ensures far { IfOk result (λ end. FIRST_END_IN_TENS ≤ end) }
    ensures near { IfOk result (λ end. end ≤ FARTHEST_END_IN_TENS) }
{
    let (first, last) = (
        FIRST_END_IN_TENS / TEN_METRES,
        FARTHEST_END_IN_TENS / TEN_METRES,
    );
    let tens = field_from_to(bits, FieldName::L_ENDSECTION, first, last)?;
    Ok(TEN_METRES * tens)
}
