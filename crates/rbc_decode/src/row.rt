//! The rows of fields that a message is made of.

ghost use Rattle.std.specs.Prelude.{◌≡◌, ◌-◌, length};
ghost use Rattle.std.specs.List.{slice_get};
ghost use Rattle.rbc_decode.specs.Rows.{names_in, packet_number};

use rbc_model::FieldName;
use rbc_model::limits::{AUTHORITY_PACKET, GRADIENT_PACKET, SPEED_PACKET};

/// A row of fields of a message, or of a packet alone. The rows come in this order; rows of steps come once for each
/// step behind the first.
#[derive(Clone, Copy, Debug, PartialEq, Eq)]
pub enum Row {
    /// What stands before the packets.
    Header,
    /// Packet 15.
    Authority,
    /// What packet 21 has before its second step.
    GradientHead,
    /// A later step of packet 21.
    GradientStep,
    /// The end of packet 21.
    GradientEnd,
    /// What packet 27 has before its second step.
    SpeedHead,
    /// A later step of packet 27.
    SpeedStep,
    /// The end of packet 27.
    SpeedEnd,
}

/// The row's field at this index, from 0 on: none behind its last.
pub(crate) fn name_at(row: Row, index: usize) -> Option<FieldName>
    ensures { result ≡ slice_get (names_in row) index }
{
    names_in(row).get(index).copied()
}

/// The index of the row's last field.
pub(crate) fn last_index(row: Row) -> usize
    ensures { result ≡ length (names_in row) - 1 }
{
    names_in(row).len().saturating_sub(1)
}

/// The names of the row's fields, in their order.
fn names_in(row: Row) -> &'static [FieldName]
    ensures { result.now ≡ names_in row }
{
    match row {
        Row::Header => &[
            FieldName::NID_MESSAGE,
            FieldName::L_MESSAGE,
            FieldName::T_TRAIN,
            FieldName::M_ACK,
            FieldName::NID_C,
            FieldName::NID_BG,
        ],
        Row::Authority => &[
            FieldName::NID_PACKET,
            FieldName::Q_DIR,
            FieldName::L_PACKET,
            FieldName::Q_SCALE,
            FieldName::V_LOA,
            FieldName::T_LOA,
            FieldName::N_ITER,
            FieldName::L_ENDSECTION,
            FieldName::Q_SECTIONTIMER,
            FieldName::Q_ENDTIMER,
            FieldName::Q_DANGERPOINT,
            FieldName::Q_OVERLAP,
        ],
        Row::GradientHead => &[
            FieldName::NID_PACKET,
            FieldName::Q_DIR,
            FieldName::L_PACKET,
            FieldName::Q_SCALE,
            FieldName::D_GRADIENT,
            FieldName::Q_GDIR,
            FieldName::G_A,
            FieldName::N_ITER,
        ],
        Row::GradientStep | Row::GradientEnd => {
            &[FieldName::D_GRADIENT, FieldName::Q_GDIR, FieldName::G_A]
        }
        Row::SpeedHead => &[
            FieldName::NID_PACKET,
            FieldName::Q_DIR,
            FieldName::L_PACKET,
            FieldName::Q_SCALE,
            FieldName::D_STATIC,
            FieldName::V_STATIC,
            FieldName::Q_FRONT,
            FieldName::N_ITER,
            FieldName::N_ITER,
        ],
        Row::SpeedStep | Row::SpeedEnd => &[
            FieldName::D_STATIC,
            FieldName::V_STATIC,
            FieldName::Q_FRONT,
            FieldName::N_ITER,
        ],
    }
}

/// The number of the packet that the row belongs to (NID_PACKET).
pub(crate) fn packet_number(row: Row) -> u32
    ensures { result ≡ packet_number row }
{
    match row {
        Row::Header | Row::Authority => AUTHORITY_PACKET,
        Row::GradientHead | Row::GradientStep | Row::GradientEnd => GRADIENT_PACKET,
        Row::SpeedHead | Row::SpeedStep | Row::SpeedEnd => SPEED_PACKET,
    }
}
