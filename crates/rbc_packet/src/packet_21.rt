//! Packet 21, the gradient profile (ERA SUBSET-026 3.6.0, chapter 7).

ghost use Rattle.std.specs.Prelude.{◌≡◌, ◌^◌, ◌<◌, ◌≤◌, [], ◌∷◌, IfOk, IsTrue, refl};
ghost use Rattle.rbc_model.specs.declared.places.Format.TheVariants.{Far};
ghost use Rattle.rbc_model.specs.Messages.{bytes_of_fields, gradient_fields, is_writable, packet_21};
ghost use Rattle.rbc_model.specs.Reading.{packet_21_at};
ghost use Rattle.rbc_model.specs.Scales.{is_expressible};
ghost use Rattle.rbc_packet.specs.Frames.{frame_view};
ghost use Rattle.rbc_packet.specs.Layouts.{ReadsProfile, gradient_layout};
ghost use Rattle.rbc_packet.specs.PacketLayouts.{packet_21-laid_out};

use crate::encoded::Encoded;
use crate::field_reader::{any_field, field_from_to};
use crate::fields::{Field, put_fields};
use crate::packet_15::Frame;
use crate::profile::{read_profile, write_profile};
use rbc_bits::{BitReader, BitWriter};
use rbc_model::limits::{
    GRADIENT_BITS, GRADIENT_END_MARK, GRADIENT_PACKET, GRADIENT_STEP_BITS, STEEPEST,
};
use rbc_model::{Fault, FieldName, Memory};
use rbc_steps::{Grade, Profile};
use std::alloc::Global;

/// Packet 21, the gradient profile, alone and filled up with zeros to whole bytes. It holds in the group's nominal
/// direction or against it. Distances are in metres (Q_SCALE 1) for a profile that ends at 32,000 m or before, and in
/// tens of metres (Q_SCALE 2) for one that ends beyond.
///
/// # Errors
///
/// [`Memory`] where there is none for the bytes.
pub fn write_grade(
    alloc: Global,
    profile: &Profile<Grade>,
    nominal: bool,
) -> Result<Vec<u8>, Memory>
    requires { IsTrue (is_writable profile.now) }
    ensures { IfOk result (λ bytes.
        bytes.items ≡ bytes_of_fields (packet_21 nominal profile.now.end profile.now.steps)) }
{
    write_profile(alloc, profile, nominal)
}

/// Reads packet 21 of an authority with this frame: it has the authority's direction and scale, and ends at its end.
///
/// # Errors
///
/// The first fault of a field, or [`Fault::Length`] where the packet's length does not fit its number of steps.
pub(crate) fn read_packet_21(bits: &mut BitReader, frame: &Frame) -> Result<Profile<Grade>, Fault>
    requires { IsTrue (is_expressible Far frame.now.end) }
    ensures { ReadsProfile (packet_21_at (frame_view frame.now)) frame.now.end bits.old bits.new result }
{
    read_profile(bits, frame)
}

/// Gradients stand in packet 21 as uphill or downhill (Q_GDIR) and how steep in per mille (G_A), 0 to 254.
impl Encoded for Grade {
    ghost packet = { packet_21 };

    ghost layout = { gradient_layout };

    fn number() -> u32 {
        GRADIENT_PACKET
    }

    fn packet_bits(steps: u32) -> u32 {
        GRADIENT_BITS + GRADIENT_STEP_BITS * steps
    }

    fn distance() -> FieldName {
        FieldName::D_GRADIENT
    }

    fn put_value(self, field: Field, bits: &mut BitWriter) -> Result<(), Memory> {
        let slope = slope_of(self);
        put_fields(
            bits,
            &[
                field,
                (FieldName::Q_GDIR, slope.direction),
                (FieldName::G_A, slope.per_mille),
            ],
        )
    }

    /// The mark is a G_A of 255, downhill.
    fn put_mark(field: Field, bits: &mut BitWriter) -> Result<(), Memory> {
        put_fields(
            bits,
            &[
                field,
                (FieldName::Q_GDIR, DOWNHILL),
                (FieldName::G_A, GRADIENT_END_MARK),
            ],
        )
    }

    /// A gradient of 0 is told uphill.
    fn read_value(bits: &mut BitReader) -> Result<Grade, Fault> {
        let uphill = any_field(bits, FieldName::Q_GDIR)?;
        let per_mille = field_from_to(bits, FieldName::G_A, 1 - uphill, MOST_PER_MILLE)? as i16;
        let signed = if uphill == 1 { per_mille } else { -per_mille };
        match Grade::new(signed) {
            Some(grade) => Ok(grade),
            None => unreachable!(),
        }
    }

    fn read_mark(bits: &mut BitReader) -> Result<(), Fault> {
        let direction = any_field(bits, FieldName::Q_GDIR)?;
        let per_mille = any_field(bits, FieldName::G_A)?;
        if per_mille == GRADIENT_END_MARK && direction == DOWNHILL {
            Ok(())
        } else {
            Err(Fault::Field(FieldName::G_A))
        }
    }

    ghost distance_width = { refl };

    ghost laid_out = { packet_21-laid_out };
}

/// The greatest G_A of a gradient.
const MOST_PER_MILLE: u32 = STEEPEST as u32;

/// Q_GDIR of a gradient below 0, and of the end mark.
const DOWNHILL: u32 = 0;

/// A gradient as the packet tells it.
#[derive(Clone, Copy)]
struct Slope {
    /// Q_GDIR: 1 uphill, 0 downhill.
    direction: u32,
    /// G_A: how steep, in per mille.
    per_mille: u32,
}

/// The slope of a gradient.
fn slope_of(grade: Grade) -> Slope
    ensures fields { gradient_fields grade
        ≡ (FieldName.Q_GDIR, result.direction) ∷ (FieldName.G_A, result.per_mille) ∷ [] }
    ensures direction { result.direction < 2 }
    ensures per_mille { result.per_mille < 2 ^ 8 }
{
    let per_mille = grade.per_mille();
    Slope {
        direction: u32::from(per_mille >= 0),
        per_mille: u32::from(per_mille.unsigned_abs()),
    }
}
