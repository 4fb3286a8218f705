//! What the fields of a message say, in metres, per mille and km/h.

ghost use Rattle.std.specs.Prelude.{◌≡◌, ◌*◌, is_some};
ghost use Rattle.rbc_model.specs.Reading.{signed_value};
ghost use Rattle.rbc_decode.specs.Said.{said_in, direction_said, end_said, grade_said, speed_said, unit_told};

use crate::fields::Item;
use crate::row::Row;
use crate::walk::FieldWalk;
use rbc_model::FieldName;
use rbc_model::limits::SPEED_STEP;

/// What a field of a message says.
#[derive(Clone, Copy, Debug, PartialEq, Eq)]
pub enum Said {
    /// The time of the train's report (T_TRAIN).
    Time(u32),
    /// The country of the balise group (NID_C).
    Country(u32),
    /// The group's number in its country (NID_BG).
    Group(u32),
    /// Whether the train runs in the group's nominal direction (Q_DIR).
    Nominal(bool),
    /// The end, in metres from the group.
    End(u64),
    /// From this distance behind the group on, in metres, a gradient in per mille, below 0 where it falls.
    Grade(u64, i64),
    /// From this distance behind the group on, in metres, a speed in km/h.
    Speed(u64, u64),
}

/// What a field says, if it says something by itself.
#[inline(always)]
pub(crate) fn said_in(item: &Item) -> Option<Said>
    ensures { result ≡ said_in item.now }
{
    let value = item.value;
    match item.name {
        FieldName::T_TRAIN => Some(Said::Time(value)),
        FieldName::NID_C => Some(Said::Country(value)),
        FieldName::NID_BG => Some(Said::Group(value)),
        FieldName::Q_DIR => direction_said(&item.walk, item.row, value),
        FieldName::L_ENDSECTION => Some(Said::End(metres(&item.walk, value))),
        FieldName::G_A => grade_said(&item.walk, item.row, value),
        FieldName::V_STATIC => speed_said(&item.walk, item.row, value),
        _ => None,
    }
}

/// The direction, where packet 15 or a packet alone tells it.
fn direction_said(walk: &FieldWalk, row: Row, direction: u32) -> Option<Said>
    ensures { result ≡ direction_said walk.now row direction }
{
    match row {
        Row::Authority => Some(Said::Nominal(direction == 1)),
        _ if walk.is_alone => Some(Said::Nominal(direction == 1)),
        _ => None,
    }
}

/// Where a packet alone ends. In a message packet 15 has told it.
fn end_said(walk: &FieldWalk) -> Option<Said>
    ensures { result ≡ end_said walk.now }
{
    if walk.is_alone {
        Some(Said::End(metres(walk, walk.from)))
    } else {
        None
    }
}

/// A gradient, or at the end element where a packet alone ends.
fn grade_said(walk: &FieldWalk, row: Row, size: u32) -> Option<Said>
    ensures { result ≡ grade_said walk.now row size }
{
    match row {
        Row::GradientEnd => end_said(walk),
        _ => Some(Said::Grade(metres(walk, walk.from), signed_value(walk.uphill, size))),
    }
}

/// Per mille with their sign.
pub(crate) fn signed_value(uphill: u32, size: u32) -> i64
    ensures { result ≡ signed_value uphill size }
{
    if uphill == 1 {
        i64::from(size)
    } else {
        -i64::from(size)
    }
}

/// A speed, or at the end element where a packet alone ends.
fn speed_said(walk: &FieldWalk, row: Row, fives: u32) -> Option<Said>
    ensures { result ≡ speed_said walk.now row fives }
{
    match row {
        Row::SpeedEnd => end_said(walk),
        _ => Some(Said::Speed(
            metres(walk, walk.from),
            u64::from(SPEED_STEP) * u64::from(fives),
        )),
    }
}

/// A number of units of the scale that is told, in metres.
pub(crate) fn metres(walk: &FieldWalk, units: u32) -> u64
    ensures { result ≡ unit_told walk.now * units }
{
    u64::from(walk.unit()) * u64::from(units)
}
