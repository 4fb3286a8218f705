//! What a kind of level says of its packet.

ghost use Rattle.std.specs.Prelude.{◌≡◌, ℕ, ◌^◌, ◌<◌, ◌≤◌, ◌∷◌, ◌++◌, Bool, List};
ghost use Rattle.std.specs.Prelude.{IsTrue, IfOk, OnOk};
ghost use Rattle.rbc_model.specs.declared.limits.TheConstants.{MOST_STEPS};
ghost use Rattle.rbc_model.specs.declared.messages.FieldName.{FieldName};
ghost use Rattle.rbc_model.specs.declared.messages.FieldName.TheVariants.{NID_PACKET, L_PACKET};
ghost use Rattle.rbc_model.specs.Messages.{width_of};
ghost use Rattle.rbc_packet.specs.Fields.{bits_of_fields};
ghost use Rattle.rbc_packet.specs.Layouts.{Layout, profile_fields};
ghost use Rattle.rbc_packet.specs.Reads.{Reads};

use crate::fields::Field;
use rbc_bits::{BitReader, BitWriter};
use rbc_model::{Fault, FieldName, Memory};
use rbc_steps::Level;

/// How a kind of level stands in its packet.
pub trait Encoded: Level {
    /// The fields of a profile's packet, by its direction, its end in metres and its steps.
    ghost packet: { Bool → ℕ → List (ℕ × Self) → List (FieldName × ℕ) };

    /// The packet's number and fields.
    ghost layout: { Layout Self };

    /// The packet's number (NID_PACKET).
    fn number() -> u32
        ensures number { result ≡ layout.number }
        ensures fits { result < 2 ^ width_of NID_PACKET };

    /// How many bits the packet has with this number of steps, at most 31 (L_PACKET).
    fn packet_bits(steps: u32) -> u32
        requires { steps ≤ MOST_STEPS }
        ensures bits { result ≡ layout.bits steps }
        ensures fits { result < 2 ^ width_of L_PACKET };

    /// The field that says how far an element lies from the one before it.
    fn distance() -> FieldName
        ensures { result ≡ layout.distance };

    /// Writes a field and a value, behind the bits so far.
    ///
    /// # Errors
    ///
    /// [`Memory`], and then some of it may stand.
    fn put_value(self, field: Field, bits: &mut BitWriter) -> Result<(), Memory>
        requires { field.1 < 2 ^ width_of field.0 }
        ensures { OnOk result (bits.new ≡ bits.old ++ bits_of_fields (field ∷ layout.value_fields self)) };

    /// Writes a field and the mark of the end element, behind the bits so far.
    ///
    /// # Errors
    ///
    /// [`Memory`], and then some of it may stand.
    fn put_mark(field: Field, bits: &mut BitWriter) -> Result<(), Memory>
        requires { field.1 < 2 ^ width_of field.0 }
        ensures { OnOk result (bits.new ≡ bits.old ++ bits_of_fields (field ∷ layout.mark_fields)) };

    /// Reads a value.
    ///
    /// # Errors
    ///
    /// The first fault of its fields.
    fn read_value(bits: &mut BitReader) -> Result<Self, Fault>
        ensures reads { Reads layout.value_at bits.old bits.new result }
        ensures expressible { IfOk result (λ value. IsTrue (Self.levels.is_expressible value)) };

    /// Reads the mark of the end element.
    ///
    /// # Errors
    ///
    /// The first fault of its fields.
    fn read_mark(bits: &mut BitReader) -> Result<(), Fault>
        ensures { Reads layout.mark_at bits.old bits.new result };

    /// Distances have 15 bits.
    ghost distance_width: { width_of layout.distance ≡ 15 };

    /// The packet has the fields of its layout.
    ghost laid_out: { (nominal : Bool) (end : ℕ) (steps : List (ℕ × Self))
        → packet nominal end steps ≡ profile_fields layout nominal end steps };
}
