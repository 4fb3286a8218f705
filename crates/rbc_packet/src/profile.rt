//! The packet of a profile, for each kind of level: packet 21 of gradients, and packet 27 of speeds.

ghost use Rattle.std.specs.Prelude.{◌≡◌, ◌≤◌, ◌<◌, ◌-◌, ◌/◌, ◌^◌, ◌∷◌, ◌++◌};
ghost use Rattle.std.specs.Prelude.{OnOk, IfOk, IsTrue};
ghost use Rattle.rbc_model.specs.declared.limits.TheConstants.{MOST_STEPS};
ghost use Rattle.rbc_model.specs.declared.places.Format.TheVariants.{Far};
ghost use Rattle.rbc_model.specs.Messages.{bytes_of_fields, direction_of, is_writable};
ghost use Rattle.rbc_model.specs.Scales.{is_expressible, scale_of, unit_of};
ghost use Rattle.rbc_packet.specs.Fields.{bits_of_fields};
ghost use Rattle.rbc_packet.specs.Layouts.{ReadsProfile, end_at, profile_at, profile_head, steps_at};
ghost use Rattle.rbc_packet.specs.Reads.{Reads};

use crate::encoded::Encoded;
use crate::field_reader::{any_field, expect, field_from_to, fixed_field, positive_field};
use crate::fields::{direction_of, put_fields};
use crate::packet_15::Frame;
use rbc_bits::{BitReader, BitWriter};
use rbc_model::limits::MOST_STEPS;
use rbc_model::scales::{scale_of, unit_of};
use rbc_model::{Fault, FieldName, Memory};
use rbc_steps::Profile;
use std::alloc::Global;

/// A profile's packet alone, filled up with zeros to whole bytes. It holds in the group's nominal direction or
/// against it. Distances are in metres (Q_SCALE 1) for a profile that ends at 32,000 m or before, and in tens of metres
/// (Q_SCALE 2) for one that ends beyond.
///
/// # Errors
///
/// [`Memory`] where there is none for the bytes.
pub fn write_profile<V: Encoded>(
    alloc: Global,
    profile: &Profile<V>,
    nominal: bool,
) -> Result<Vec<u8>, Memory>
    requires { IsTrue (is_writable profile.now) }
    ensures { IfOk result (λ bytes.
        bytes.items ≡ bytes_of_fields (V.packet nominal profile.now.end profile.now.steps)) }
{
    profile.known();
    let mut bits = BitWriter::with_room(alloc, V::packet_bits(profile.steps().len() as u32))?;
    put_profile(&mut bits, profile, nominal)?;
    Ok(bits.finish())
}

/// A profile's packet behind the bits so far. Where memory runs out, some of it may stand.
pub(crate) fn put_profile<V: Encoded>(
    bits: &mut BitWriter,
    profile: &Profile<V>,
    nominal: bool,
) -> Result<(), Memory>
    requires { IsTrue (is_writable profile.now) }
    ensures { OnOk result (bits.new ≡ bits.old
        ++ bits_of_fields (V.packet nominal profile.now.end profile.now.steps)) }
{
    profile.known();
    let steps = profile.steps();
    let end = profile.end();
    let head = Head {
        direction: direction_of(nominal),
        scale: scale_of(end),
        steps: steps.len() as u32,
    };
    put_head(bits, &head, steps[0].1)?;
    let unit = unit_of(end);
    let mut from = 0;
    for (start, value) in &steps[1..] {
        put_step(bits, (*start - from) / unit, *value)?;
        from = *start;
    }
    put_end::<V>(bits, (end - from) / unit)
}

/// What a profile's packet says of all its steps.
#[derive(Clone, Copy)]
struct Head {
    /// Whether it holds in the balise group's nominal direction (Q_DIR): 1, or against it: 0.
    direction: u32,
    /// Whether distances are in metres (Q_SCALE): 1, or in tens of metres: 2.
    scale: u32,
    /// How many steps there are (N_ITER), 1 to 31.
    steps: u32,
}

/// What stands before the later steps, behind the bits so far. The first step has this value.
fn put_head<V: Encoded>(bits: &mut BitWriter, head: &Head, first: V) -> Result<(), Memory>
    requires direction { head.now.direction < 2 ^ 2 }
    requires scale { head.now.scale < 2 ^ 2 }
    requires steps { head.now.steps ≤ MOST_STEPS }
    ensures { OnOk result (bits.new ≡ bits.old
        ++ bits_of_fields (profile_head V.layout head.now.direction head.now.scale first head.now.steps)) }
{
    put_fields(
        bits,
        &[
            (FieldName::NID_PACKET, V::number()),
            (FieldName::Q_DIR, head.direction),
            (FieldName::L_PACKET, V::packet_bits(head.steps)),
            (FieldName::Q_SCALE, head.scale),
        ],
    )?;
    first.put_value((V::distance(), 0), bits)?;
    put_fields(bits, &[(FieldName::N_ITER, head.steps)])
}

/// A later step: its distance from the step before, in units, and its value.
fn put_step<V: Encoded>(bits: &mut BitWriter, distance: u32, value: V) -> Result<(), Memory>
    requires { distance < 2 ^ 15 }
    ensures { OnOk result (bits.new ≡ bits.old
        ++ bits_of_fields ((V.layout.distance, distance) ∷ V.layout.value_fields value)) }
{
    value.put_value((V::distance(), distance), bits)
}

/// The end element: the distance of the profile's end from the last step, in units.
fn put_end<V: Encoded>(bits: &mut BitWriter, distance: u32) -> Result<(), Memory>
    requires { distance < 2 ^ 15 }
    ensures { OnOk result (bits.new ≡ bits.old
        ++ bits_of_fields ((V.layout.distance, distance) ∷ V.layout.mark_fields)) }
{
    V::put_mark((V::distance(), distance), bits)
}

/// Reads a profile's packet, of an authority with this frame. Its distances are in the scale of the authority's end.
///
/// # Errors
///
/// The first fault of a field, or [`Fault::Length`] where the packet's length does not fit its number of steps.
pub(crate) fn read_profile<V: Encoded>(
    bits: &mut BitReader,
    frame: &Frame,
) -> Result<Profile<V>, Fault>
    requires { IsTrue (is_expressible Far frame.now.end) }
    ensures { ReadsProfile (profile_at V.layout (direction_of frame.now.nominal) frame.now.end)
        frame.now.end bits.old bits.new result }
{
    fixed_field(bits, FieldName::NID_PACKET, V::number())?;
    fixed_field(bits, FieldName::Q_DIR, direction_of(frame.nominal))?;
    let said = any_field(bits, FieldName::L_PACKET)?;
    fixed_field(bits, FieldName::Q_SCALE, scale_of(frame.end))?;
    fixed_field(bits, V::distance(), 0)?;
    let first = V::read_value(bits)?;
    let count = positive_field(bits, FieldName::N_ITER)?;
    expect(said == V::packet_bits(count), Fault::Length)?;
    read_steps(bits, first, count as usize, frame.end)
}

/// Reads the later ones of a number of steps, and the end element: the profile of them up to the end, in metres, whose
/// first value is read already.
fn read_steps<V: Encoded>(
    bits: &mut BitReader,
    first: V,
    count: usize,
    end: u32,
) -> Result<Profile<V>, Fault>
    requires some { 0 < count }
    requires room { count ≤ MOST_STEPS }
    requires end { IsTrue (is_expressible Far end) }
    requires expressible { IsTrue (V.levels.is_expressible first) }
    ensures { ReadsProfile (steps_at V.layout (unit_of end) (end / unit_of end) first (count - 1)) end
        bits.old bits.new result }
{
    let unit = unit_of(end);
    let mut steps = [(0, first); MOST_STEPS];
    // in units, as the message counts
    let mut from = 0;
    for index in 1..count {
        let distance = positive_field(bits, V::distance())?;
        from += distance;
        steps[index] = (unit * from, V::read_value(bits)?);
    }
    read_end::<V>(bits, from, end / unit)?;
    match Profile::new(&steps[..count], end) {
        Ok(profile) => Ok(profile),
        Err(_) => unreachable!(),
    }
}

/// Reads the end element, behind a step that starts at `from`: it lies at the end. Both are in units.
fn read_end<V: Encoded>(bits: &mut BitReader, from: u32, end: u32) -> Result<(), Fault>
    ensures reads { Reads (end_at V.layout end from) bits.old bits.new result }
    ensures before { OnOk result (from < end) }
{
    let left = end.saturating_sub(from);
    field_from_to(bits, V::distance(), left.max(1), left)?;
    V::read_mark(bits)
}
