//! Packet 27, the static speed profile (ERA SUBSET-026 3.6.0, chapter 7).

ghost use Rattle.std.specs.Prelude.{◌≡◌, ◌≤◌, IfOk, IsTrue, refl};
ghost use Rattle.rbc_model.specs.declared.places.Format.TheVariants.{Far};
ghost use Rattle.rbc_model.specs.Messages.{bytes_of_fields, is_writable, packet_27};
ghost use Rattle.rbc_model.specs.Reading.{packet_27_at};
ghost use Rattle.rbc_model.specs.Scales.{is_expressible};
ghost use Rattle.rbc_packet.specs.Frames.{frame_view};
ghost use Rattle.rbc_packet.specs.Layouts.{ReadsProfile, speed_layout};
ghost use Rattle.rbc_packet.specs.PacketLayouts.{packet_27-laid_out};

use crate::encoded::Encoded;
use crate::field_reader::{field_from_to, fixed_field};
use crate::fields::{Field, put_fields};
use crate::packet_15::Frame;
use crate::profile::{read_profile, write_profile};
use rbc_bits::{BitReader, BitWriter};
use rbc_model::limits::{
    MOST_SPEED_STEPS, SPEED_BITS, SPEED_END_MARK, SPEED_PACKET, SPEED_STEP, SPEED_STEP_BITS,
};
use rbc_model::{Fault, FieldName, Memory};
use rbc_steps::{Profile, Speed};
use std::alloc::Global;

/// Packet 27, the static speed profile, alone and filled up with zeros to whole bytes. It holds in the group's
/// nominal direction or against it. Distances are in metres (Q_SCALE 1) for a profile that ends at 32,000 m or before,
/// and in tens of metres (Q_SCALE 2) for one that ends beyond.
///
/// # Errors
///
/// [`Memory`] where there is none for the bytes.
pub fn write_speed(
    alloc: Global,
    profile: &Profile<Speed>,
    nominal: bool,
) -> Result<Vec<u8>, Memory>
    requires { IsTrue (is_writable profile.now) }
    ensures { IfOk result (λ bytes.
        bytes.items ≡ bytes_of_fields (packet_27 nominal profile.now.end profile.now.steps)) }
{
    write_profile(alloc, profile, nominal)
}

/// Reads packet 27 of an authority with this frame: it has the authority's direction and scale, and ends at its end.
///
/// # Errors
///
/// The first fault of a field, or [`Fault::Length`] where the packet's length does not fit its number of steps.
pub(crate) fn read_packet_27(bits: &mut BitReader, frame: &Frame) -> Result<Profile<Speed>, Fault>
    requires { IsTrue (is_expressible Far frame.now.end) }
    ensures { ReadsProfile (packet_27_at (frame_view frame.now)) frame.now.end bits.old bits.new result }
{
    read_profile(bits, frame)
}

/// Speeds stand in packet 27 in steps of 5 km/h (V_STATIC), 5 to 600 km/h, with no distinction of the train's front
/// (Q_FRONT 0) and no train categories (N_ITER 0).
impl Encoded for Speed {
    ghost packet = { packet_27 };

    ghost layout = { speed_layout };

    fn number() -> u32 {
        SPEED_PACKET
    }

    fn packet_bits(steps: u32) -> u32 {
        SPEED_BITS + SPEED_STEP_BITS * steps
    }

    fn distance() -> FieldName {
        FieldName::D_STATIC
    }

    fn put_value(self, field: Field, bits: &mut BitWriter) -> Result<(), Memory> {
        put_fields(
            bits,
            &[
                field,
                (FieldName::V_STATIC, u32::from(self.kmh() / SPEED_STEP)),
                (FieldName::Q_FRONT, 0),
                (FieldName::N_ITER, 0),
            ],
        )
    }

    /// The mark is a V_STATIC of 127.
    fn put_mark(field: Field, bits: &mut BitWriter) -> Result<(), Memory> {
        put_fields(
            bits,
            &[
                field,
                (FieldName::V_STATIC, SPEED_END_MARK),
                (FieldName::Q_FRONT, 0),
                (FieldName::N_ITER, 0),
            ],
        )
    }

    fn read_value(bits: &mut BitReader) -> Result<Speed, Fault> {
        let fives = field_from_to(bits, FieldName::V_STATIC, 1, MOST_SPEED_STEPS)? as u16;
        fixed_field(bits, FieldName::Q_FRONT, 0)?;
        fixed_field(bits, FieldName::N_ITER, 0)?;
        match Speed::new(SPEED_STEP * fives) {
            Some(speed) => Ok(speed),
            None => unreachable!(),
        }
    }

    fn read_mark(bits: &mut BitReader) -> Result<(), Fault> {
        fixed_field(bits, FieldName::V_STATIC, SPEED_END_MARK)?;
        fixed_field(bits, FieldName::Q_FRONT, 0)?;
        fixed_field(bits, FieldName::N_ITER, 0)?;
        Ok(())
    }

    ghost distance_width = { refl };

    ghost laid_out = { packet_27-laid_out };
}
