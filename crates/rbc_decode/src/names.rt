//! The names of fields, and what is printed of a field up to its value, in one piece.

ghost use Rattle.std.specs.Prelude.{◌≡◌, ◌≤◌, length, take};
ghost use Rattle.rbc_decode.specs.JsonParts.{name_members};
ghost use Rattle.rbc_decode.specs.Texts.{name_text, field_start};

use rbc_model::FieldName;

pub(crate) fn name_text(name: FieldName) -> &'static [u8]
    ensures { result.now ≡ name_text name }
{
    match name {
        FieldName::NID_MESSAGE => b"NID_MESSAGE",
        FieldName::L_MESSAGE => b"L_MESSAGE",
        FieldName::T_TRAIN => b"T_TRAIN",
        FieldName::M_ACK => b"M_ACK",
        FieldName::NID_C => b"NID_C",
        FieldName::NID_BG => b"NID_BG",
        FieldName::NID_PACKET => b"NID_PACKET",
        FieldName::Q_DIR => b"Q_DIR",
        FieldName::L_PACKET => b"L_PACKET",
        FieldName::Q_SCALE => b"Q_SCALE",
        FieldName::V_LOA => b"V_LOA",
        FieldName::T_LOA => b"T_LOA",
        FieldName::N_ITER => b"N_ITER",
        FieldName::L_ENDSECTION => b"L_ENDSECTION",
        FieldName::Q_SECTIONTIMER => b"Q_SECTIONTIMER",
        FieldName::Q_ENDTIMER => b"Q_ENDTIMER",
        FieldName::Q_DANGERPOINT => b"Q_DANGERPOINT",
        FieldName::Q_OVERLAP => b"Q_OVERLAP",
        FieldName::D_GRADIENT => b"D_GRADIENT",
        FieldName::Q_GDIR => b"Q_GDIR",
        FieldName::G_A => b"G_A",
        FieldName::D_STATIC => b"D_STATIC",
        FieldName::V_STATIC => b"V_STATIC",
        FieldName::Q_FRONT => b"Q_FRONT",
    }
}

/// The line of a field from behind its first bit up to its value, in front of spaces, and how many bytes it has: its name,
/// and its width in bits.
#[tactic(auto, unfolding(crate::specs::Texts::digits))]
pub(crate) fn field_start(name: FieldName) -> (&'static [u8; 24], usize)
    ensures text { take result.1 result.0.now ≡ field_start name }
    ensures short { result.1 ≤ 21 }
{
    match name {
        FieldName::NID_MESSAGE => (b"  NID_MESSAGE  8        ", 18),
        FieldName::L_MESSAGE => (b"  L_MESSAGE  10         ", 17),
        FieldName::T_TRAIN => (b"  T_TRAIN  32           ", 15),
        FieldName::M_ACK => (b"  M_ACK  1              ", 12),
        FieldName::NID_C => (b"  NID_C  10             ", 13),
        FieldName::NID_BG => (b"  NID_BG  14            ", 14),
        FieldName::NID_PACKET => (b"  NID_PACKET  8         ", 17),
        FieldName::Q_DIR => (b"  Q_DIR  2              ", 12),
        FieldName::L_PACKET => (b"  L_PACKET  13          ", 16),
        FieldName::Q_SCALE => (b"  Q_SCALE  2            ", 14),
        FieldName::V_LOA => (b"  V_LOA  7              ", 12),
        FieldName::T_LOA => (b"  T_LOA  10             ", 13),
        FieldName::N_ITER => (b"  N_ITER  5             ", 13),
        FieldName::L_ENDSECTION => (b"  L_ENDSECTION  15      ", 20),
        FieldName::Q_SECTIONTIMER => (b"  Q_SECTIONTIMER  1     ", 21),
        FieldName::Q_ENDTIMER => (b"  Q_ENDTIMER  1         ", 17),
        FieldName::Q_DANGERPOINT => (b"  Q_DANGERPOINT  1      ", 20),
        FieldName::Q_OVERLAP => (b"  Q_OVERLAP  1          ", 16),
        FieldName::D_GRADIENT => (b"  D_GRADIENT  15        ", 18),
        FieldName::Q_GDIR => (b"  Q_GDIR  1             ", 13),
        FieldName::G_A => (b"  G_A  8                ", 10),
        FieldName::D_STATIC => (b"  D_STATIC  15          ", 16),
        FieldName::V_STATIC => (b"  V_STATIC  7           ", 15),
        FieldName::Q_FRONT => (b"  Q_FRONT  1            ", 14),
    }
}

/// The members of a field up to its value: its name, and its width in bits.
#[tactic(auto, unfolding(json::specs::Print::escape_byte, crate::specs::Texts::digits))]
pub(crate) fn name_members(name: FieldName) -> &'static [u8]
    ensures text { result.now ≡ name_members name }
    ensures short { length result.now ≤ 50 }
{
    match name {
        FieldName::NID_MESSAGE => b",\"name\":\"NID_MESSAGE\",\"bits\":8,\"value\":",
        FieldName::L_MESSAGE => b",\"name\":\"L_MESSAGE\",\"bits\":10,\"value\":",
        FieldName::T_TRAIN => b",\"name\":\"T_TRAIN\",\"bits\":32,\"value\":",
        FieldName::M_ACK => b",\"name\":\"M_ACK\",\"bits\":1,\"value\":",
        FieldName::NID_C => b",\"name\":\"NID_C\",\"bits\":10,\"value\":",
        FieldName::NID_BG => b",\"name\":\"NID_BG\",\"bits\":14,\"value\":",
        FieldName::NID_PACKET => b",\"name\":\"NID_PACKET\",\"bits\":8,\"value\":",
        FieldName::Q_DIR => b",\"name\":\"Q_DIR\",\"bits\":2,\"value\":",
        FieldName::L_PACKET => b",\"name\":\"L_PACKET\",\"bits\":13,\"value\":",
        FieldName::Q_SCALE => b",\"name\":\"Q_SCALE\",\"bits\":2,\"value\":",
        FieldName::V_LOA => b",\"name\":\"V_LOA\",\"bits\":7,\"value\":",
        FieldName::T_LOA => b",\"name\":\"T_LOA\",\"bits\":10,\"value\":",
        FieldName::N_ITER => b",\"name\":\"N_ITER\",\"bits\":5,\"value\":",
        FieldName::L_ENDSECTION => b",\"name\":\"L_ENDSECTION\",\"bits\":15,\"value\":",
        FieldName::Q_SECTIONTIMER => b",\"name\":\"Q_SECTIONTIMER\",\"bits\":1,\"value\":",
        FieldName::Q_ENDTIMER => b",\"name\":\"Q_ENDTIMER\",\"bits\":1,\"value\":",
        FieldName::Q_DANGERPOINT => b",\"name\":\"Q_DANGERPOINT\",\"bits\":1,\"value\":",
        FieldName::Q_OVERLAP => b",\"name\":\"Q_OVERLAP\",\"bits\":1,\"value\":",
        FieldName::D_GRADIENT => b",\"name\":\"D_GRADIENT\",\"bits\":15,\"value\":",
        FieldName::Q_GDIR => b",\"name\":\"Q_GDIR\",\"bits\":1,\"value\":",
        FieldName::G_A => b",\"name\":\"G_A\",\"bits\":8,\"value\":",
        FieldName::D_STATIC => b",\"name\":\"D_STATIC\",\"bits\":15,\"value\":",
        FieldName::V_STATIC => b",\"name\":\"V_STATIC\",\"bits\":7,\"value\":",
        FieldName::Q_FRONT => b",\"name\":\"Q_FRONT\",\"bits\":1,\"value\":",
    }
}
