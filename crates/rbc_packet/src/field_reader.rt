//! Fields read one after another, each with the values that it may have.

ghost use Rattle.std.specs.Prelude.{◌≡◌, ◌==◌, Bool, List, ◌^◌, ◌<◌, ◌≤◌};
ghost use Rattle.std.specs.Prelude.{nat_le, if◌then◌else◌, IfOk};
ghost use Rattle.rbc_model.specs.Messages.{width_of};
ghost use Rattle.rbc_model.specs.Readers.{any_field, expect, fault_of, field, fixed_field};
ghost use Rattle.rbc_model.specs.Results.{is_from_to};
ghost use Rattle.rbc_packet.specs.Reads.{Reads};

use crate::fields::width_of;
use rbc_bits::BitReader;
use rbc_model::{Fault, FieldName};

/// The next field, with any value.
pub(crate) fn any_field(bits: &mut BitReader, name: FieldName) -> Result<u32, Fault>
    ensures read { Reads (any_field name) bits.old bits.new result }
    ensures fits { IfOk result (λ value. value < 2 ^ width_of name) }
{
    bits.take(width_of(name)).map_err(|_| Fault::Short)
}

/// The next field, with a value from the lowest to the highest that is allowed, both included.
pub(crate) fn field_from_to(
    bits: &mut BitReader,
    name: FieldName,
    low: u32,
    high: u32,
) -> Result<u32, Fault>
    ensures read { Reads (field name (is_from_to low high)) bits.old bits.new result }
    ensures fits { IfOk result (λ value. value < 2 ^ width_of name) }
    ensures at_least_low { IfOk result (λ value. low ≤ value) }
    ensures at_most_high { IfOk result (λ value. value ≤ high) }
{
    let value = any_field(bits, name)?;
    allowed_value(name, value, is_from_to(low, high, value))
}

/// The next field, with a value of at least 1.
pub(crate) fn positive_field(bits: &mut BitReader, name: FieldName) -> Result<u32, Fault>
    ensures read { Reads (field name (nat_le 1)) bits.old bits.new result }
    ensures fits { IfOk result (λ value. value < 2 ^ width_of name) }
    ensures positive { IfOk result (λ value. 1 ≤ value) }
{
    let value = any_field(bits, name)?;
    allowed_value(name, value, value >= 1)
}

/// The next field, with this value alone.
pub(crate) fn fixed_field(bits: &mut BitReader, name: FieldName, allowed: u32) -> Result<u32, Fault>
    ensures read { Reads (fixed_field name allowed) bits.old bits.new result }
    ensures same { IfOk result (λ value. value ≡ allowed) }
{
    let value = any_field(bits, name)?;
    allowed_value(name, value, value == allowed)
}

/// The fault, unless the test holds.
pub(crate) fn expect(holds: bool, fault: Fault) -> Result<(), Fault>
    ensures { (bits : List Bool) → Reads (expect holds fault) bits bits result }
{
    if holds { Ok(()) } else { Err(fault) }
}

/// The value, unless the field may not have it.
fn allowed_value(name: FieldName, value: u32, allowed: bool) -> Result<u32, Fault>
    ensures { result ≡ (if allowed then Ok value else Err (fault_of name)) }
{
    if allowed {
        Ok(value)
    } else {
        Err(fault_of(name))
    }
}

/// Whether the value lies from the lowest to the highest, both included.
fn is_from_to(low: u32, high: u32, value: u32) -> bool
    ensures { result ≡ is_from_to low high value }
{
    (low..=high).contains(&value)
}

/// The fault of a value that the field may not have.
fn fault_of(name: FieldName) -> Fault
    ensures { result ≡ fault_of name }
{
    match name {
        FieldName::NID_MESSAGE | FieldName::NID_PACKET => Fault::Number,
        _ => Fault::Field(name),
    }
}
