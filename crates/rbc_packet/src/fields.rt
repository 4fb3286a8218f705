//! Fields and their widths, written in a row.

ghost use Rattle.std.specs.Prelude.{◌≡◌, ℕ, ◌+◌, ◌^◌, ◌<◌, ◌≤◌, ◌++◌, OnOk, All};
ghost use Rattle.rbc_model.specs.Bits.{bits_of};
ghost use Rattle.rbc_model.specs.Messages.{width_of, direction_of};
ghost use Rattle.rbc_packet.specs.Fields.{bits_of_fields};

use rbc_bits::BitWriter;
use rbc_model::{FieldName, Memory};

/// A field and its value.
pub(crate) type Field = (FieldName, u32);

/// How many bits the field has.
#[inline(always)]
pub fn width_of(name: FieldName) -> u32
    ensures width { result ≡ width_of name }
    ensures at_most_32 { result ≤ 32 }
{
    match name {
        FieldName::M_ACK
        | FieldName::Q_SECTIONTIMER
        | FieldName::Q_ENDTIMER
        | FieldName::Q_DANGERPOINT
        | FieldName::Q_OVERLAP
        | FieldName::Q_GDIR
        | FieldName::Q_FRONT => 1,
        FieldName::Q_DIR | FieldName::Q_SCALE => 2,
        FieldName::N_ITER => 5,
        FieldName::V_LOA | FieldName::V_STATIC => 7,
        FieldName::NID_MESSAGE | FieldName::NID_PACKET | FieldName::G_A => 8,
        FieldName::L_MESSAGE | FieldName::NID_C | FieldName::T_LOA => 10,
        FieldName::L_PACKET => 13,
        FieldName::NID_BG => 14,
        FieldName::L_ENDSECTION | FieldName::D_GRADIENT | FieldName::D_STATIC => 15,
        FieldName::T_TRAIN => 32,
    }
}

/// Q_DIR: 1 in the group's nominal direction, 0 against it.
pub(crate) fn direction_of(nominal: bool) -> u32
    ensures direction { result ≡ direction_of nominal }
    ensures fits { result < 2 ^ 2 }
{
    u32::from(nominal)
}

/// How many bits of fields are written at once.
const AT_ONCE: u32 = 32;

/// Fields in a row as one number.
#[derive(Clone, Copy)]
struct Row {
    /// How many bits they have.
    width: u32,
    /// Their bits as a number.
    number: u64,
}

impl Row {
    /// No fields.
    fn empty() -> Row
        ensures { result ≡ record { width = 0; number = 0 } }
    {
        Row {
            width: 0,
            number: 0,
        }
    }

    /// These fields, and one behind them.
    fn and(self, width: u32, value: u32) -> Row
        requires few { self.width + width ≤ 32 }
        requires fits { self.number < 2 ^ self.width }
        requires value_fits { value < 2 ^ width }
        ensures width { result.width ≡ self.width + width }
        ensures fits { result.number < 2 ^ result.width }
        ensures bits { bits_of result.width result.number ≡ bits_of self.width self.number ++ bits_of width value }
    {
        Row {
            width: self.width + width,
            number: self.number << width | u64::from(value),
        }
    }

    /// Writes the fields.
    fn put(self, bits: &mut BitWriter) -> Result<(), Memory>
        requires few { self.width ≤ 32 }
        requires fits { self.number < 2 ^ self.width }
        ensures { OnOk result (bits.new ≡ bits.old ++ bits_of self.width self.number) }
    {
        bits.put(self.width, self.number as u32)
    }
}

/// Writes the fields in a row. Where memory runs out, some of them may stand.
#[inline(always)]
#[tactic(auto, unfolding(crate::specs::Fields::bits_of_fields))]
pub(crate) fn put_fields(bits: &mut BitWriter, fields: &[Field]) -> Result<(), Memory>
    requires { All (λ field. field.1 < 2 ^ width_of field.0) fields.now }
    ensures { OnOk result (bits.new ≡ bits.old ++ bits_of_fields fields.now) }
{
    let mut row = Row::empty();
    for (name, value) in fields {
        let width = width_of(*name);
        if row.width + width > AT_ONCE {
            row.put(bits)?;
            row = Row::empty();
        }
        row = row.and(width, *value);
    }
    row.put(bits)
}
