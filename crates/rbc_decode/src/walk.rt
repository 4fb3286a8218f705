//! The walk from field to field: which one comes next, which values it may have, and what it tells of those after it.

ghost use Rattle.std.specs.Prelude.{◌≡◌, true, false, length, Ok, Err, OnOk, OnErr, IfErr};
ghost use Rattle.rbc_model.specs.Readers.{fault_of};
ghost use Rattle.rbc_model.specs.Results.{is_from_to};
ghost use Rattle.rbc_model.specs.Scales.{is_end_at, unit_of_scale};
ghost use Rattle.rbc_decode.specs.declared.row.Row.TheVariants.{Header};
ghost use Rattle.rbc_decode.specs.Walks.{at_row, first_row, row_numbered, field_of, behind, is_allowed, is_as_told, is_count, is_distance};
ghost use Rattle.rbc_decode.specs.Walks.{is_slope, is_speed, scale_told, counts_steps, further, told, later_told, length_fault, packet_bits, length_unless};
ghost use Rattle.rbc_decode.specs.Walks.{moved, entered, row_behind, says_next, is_known, past};

use crate::row::{Row, last_index, name_at, packet_number};
use rbc_model::limits::{
    AUTHORITY_BITS, AUTHORITY_PACKET, FARTHEST_END, FARTHEST_END_IN_TENS, FIRST_END_IN_TENS,
    GRADIENT_BITS, GRADIENT_END_MARK, GRADIENT_PACKET, GRADIENT_STEP_BITS, LAST_GROUP,
    MESSAGE_NUMBER, MOST_SPEED_STEPS, NO_TIME_OUT, SPEED_BITS, SPEED_END_MARK, SPEED_STEP_BITS,
    STEEPEST, TEN_METRES,
};
use rbc_model::{Fault, FieldName};

/// Where a walk over the fields of a message stands, and what the fields before told of those to come.
#[derive(Clone, Copy, Debug, PartialEq, Eq)]
pub struct FieldWalk {
    /// The row, none behind the last.
    pub row: Option<Row>,
    /// Which field of its row comes next.
    pub index: usize,
    /// Whether a packet stands alone.
    pub is_alone: bool,
    /// How many bytes there are.
    pub bytes: usize,
    /// Whether the packets hold in the group's nominal direction, 1, or against it, 0 (Q_DIR), where it is told.
    pub direction: Option<u32>,
    /// The scale of the distances, metres or tens of metres (Q_SCALE), where it is told.
    pub scale: Option<u32>,
    /// The end in units of the scale (L_ENDSECTION), where it is told.
    pub end: Option<u32>,
    /// How many bits the packet says that it has (L_PACKET).
    pub said: u32,
    /// How many steps are left behind the one that is read.
    pub later: u32,
    /// Where the element that is read begins, in units of the scale.
    pub from: u32,
    /// Whether the element that is read rises, 1, or falls, 0 (Q_GDIR).
    pub uphill: u32,
}

impl FieldWalk {
    /// At the first field of a message of this length, in bytes.
    pub fn over_message(bytes: usize) -> FieldWalk
        ensures { result ≡ at_row Header false bytes }
    {
        FieldWalk::at(Row::Header, false, bytes)
    }

    /// At the first field of a packet alone in these bytes: packet 15 or 21 if it has its number, and else it is read as
    /// packet 27.
    pub fn over_packet(bytes: &[u8]) -> FieldWalk
        ensures { result ≡ at_row (first_row bytes.now) true (length bytes.now) }
    {
        FieldWalk::at(row_numbered(bytes.first().copied()), true, bytes.len())
    }

    fn at(row: Row, is_alone: bool, bytes: usize) -> FieldWalk
        ensures { result ≡ at_row row is_alone bytes }
    {
        FieldWalk {
            row: Some(row),
            index: 0,
            is_alone,
            bytes,
            direction: None,
            scale: None,
            end: None,
            said: 0,
            later: 0,
            from: 0,
            uphill: 0,
        }
    }

    /// The next field: its row and its name. None behind the last.
    pub fn field(&self) -> Option<(Row, FieldName)>
        ensures { result ≡ field_of self.now }
    {
        let row = self.row?;
        let name = name_at(row, self.index)?;
        Some((row, name))
    }

    /// Goes on behind this value of the next field.
    ///
    /// # Errors
    ///
    /// The fault of the value, and then of a length that it does not fit. The walk stands where it stood.
    // It stands apart, so that the walk stays where it is and is changed there.
    #[inline(never)]
    pub fn pass(&mut self, row: Row, name: FieldName, value: u32) -> Result<(), Fault>
        ensures passed { OnOk result (behind self.old row name value ≡ Ok self.new) }
        ensures fault { IfErr result (λ fault. behind self.old row name value ≡ Err fault) }
        ensures stays { OnErr result (self.new ≡ self.old) }
    {
        if !self.is_allowed(row, name, value) {
            return Err(fault_of(name));
        }
        if let Some(fault) = self.length_fault(row, name, value) {
            return Err(fault);
        }
        self.tell(row, name, value);
        self.go_on(row);
        Ok(())
    }

    /// Goes on behind this value of the next field, whatever is at fault. Answers false where it is not known which
    /// fields come there: the walk stands where it stood.
    #[inline(never)]
    pub(crate) fn skip(&mut self, row: Row, name: FieldName, value: u32) -> bool
        ensures known { result ≡ is_known self.old row name value }
        ensures passed { result ≡ true → self.new ≡ past self.old row name value }
        ensures stays { result ≡ false → self.new ≡ self.old }
    {
        if says_next(name) && !self.is_allowed(row, name, value) {
            return false;
        }
        self.tell(row, name, value);
        self.go_on(row);
        true
    }

    /// Whether the next field may have the value.
    fn is_allowed(&self, row: Row, name: FieldName, value: u32) -> bool
        ensures { result ≡ is_allowed self.now row name value }
    {
        match name {
            FieldName::NID_MESSAGE => value == MESSAGE_NUMBER,
            FieldName::NID_PACKET => value == packet_number(row),
            FieldName::NID_BG => is_from_to(0, u32::from(LAST_GROUP), value),
            FieldName::T_LOA => value == NO_TIME_OUT,
            FieldName::Q_DIR => is_as_told(self.direction, is_from_to(0, 1, value), value),
            FieldName::Q_SCALE => is_as_told(self.scale, is_from_to(1, 2, value), value),
            FieldName::L_ENDSECTION => is_end_at(self.scale_told(), value),
            FieldName::N_ITER => self.is_count(row, value),
            FieldName::D_GRADIENT | FieldName::D_STATIC => self.is_distance(row, value),
            FieldName::G_A => self.is_slope(row, value),
            FieldName::V_STATIC => is_speed(row, value),
            FieldName::L_MESSAGE
            | FieldName::T_TRAIN
            | FieldName::NID_C
            | FieldName::L_PACKET
            | FieldName::Q_GDIR => true,
            _ => value == 0,
        }
    }

    fn is_count(&self, row: Row, value: u32) -> bool
        ensures { result ≡ is_count row self.now.index value }
    {
        if self.counts_steps(row) {
            value >= 1
        } else {
            value == 0
        }
    }

    /// Whether an element may lie so far from the one before it.
    fn is_distance(&self, row: Row, value: u32) -> bool
        ensures { result ≡ is_distance self.now row value }
    {
        match row {
            Row::GradientStep | Row::SpeedStep => value >= 1,
            Row::GradientEnd | Row::SpeedEnd => value >= 1 && self.is_end(value),
            _ => value == 0,
        }
    }

    /// Whether the packet may end so far from the last step.
    fn is_end(&self, value: u32) -> bool
        ensures { result ≡ is_as_told self.now.end
            (is_end_at (scale_told self.now.scale) (further self.now.from value)) (further self.now.from value) }
    {
        let end = self.from.saturating_add(value);
        is_as_told(self.end, is_end_at(self.scale_told(), end), end)
    }

    /// Whether an element may have these per mille, without sign.
    fn is_slope(&self, row: Row, value: u32) -> bool
        ensures { result ≡ is_slope self.now row value }
    {
        match row {
            Row::GradientEnd => value == GRADIENT_END_MARK && self.uphill == 0,
            _ => is_from_to(1u32.saturating_sub(self.uphill), STEEPEST as u32, value),
        }
    }

    /// The scale that is told. Metres, where none is told yet.
    pub(crate) fn scale_told(&self) -> u32
        ensures { result ≡ scale_told self.now.scale }
    {
        match self.scale {
            Some(scale) => scale,
            None => 1,
        }
    }

    /// How many metres a distance counts as one.
    pub(crate) fn unit(&self) -> u32
        ensures { result ≡ unit_of_scale (scale_told self.now.scale) }
    {
        if self.scale_told() == 1 {
            1
        } else {
            TEN_METRES
        }
    }

    /// Whether the next field of the row says how many steps there are.
    fn counts_steps(&self, row: Row) -> bool
        ensures { result ≡ counts_steps row self.now.index }
    {
        match row {
            Row::GradientHead => self.index == 7,
            Row::SpeedHead => self.index == 8,
            _ => false,
        }
    }

    /// Takes up what this value of the next field tells.
    fn tell(&mut self, row: Row, name: FieldName, value: u32)
        ensures { self.new ≡ told self.old row name value }
    {
        match name {
            FieldName::Q_DIR => self.direction = Some(value),
            FieldName::Q_SCALE => self.scale = Some(value),
            FieldName::L_PACKET => self.said = value,
            FieldName::L_ENDSECTION => self.end = Some(value),
            FieldName::D_GRADIENT | FieldName::D_STATIC => {
                self.from = self.from.saturating_add(value);
            }
            FieldName::Q_GDIR => self.uphill = value,
            FieldName::N_ITER => self.later = self.later_told(row, value),
            _ => (),
        }
    }

    /// How many steps are left behind the one that is read, where the field may count them.
    fn later_told(&self, row: Row, value: u32) -> u32
        ensures { result ≡ later_told self.now row value }
    {
        if self.counts_steps(row) {
            value.saturating_sub(1)
        } else {
            self.later
        }
    }

    /// The fault of a length, if it shows at this field.
    fn length_fault(&self, row: Row, name: FieldName, value: u32) -> Option<Fault>
        ensures { result ≡ length_fault self.now row name value }
    {
        match name {
            FieldName::L_MESSAGE if value as usize > self.bytes => Some(Fault::Short),
            FieldName::L_MESSAGE if (value as usize) < self.bytes => Some(Fault::Extra),
            FieldName::L_PACKET if row == Row::Authority => length_unless(value == AUTHORITY_BITS),
            FieldName::N_ITER if self.counts_steps(row) => {
                length_unless(u64::from(self.said) == packet_bits(row, value))
            }
            _ => None,
        }
    }

    /// Goes on to the field behind the next one.
    fn go_on(&mut self, row: Row)
        ensures { self.new ≡ moved self.old row }
    {
        if self.index < last_index(row) {
            self.index += 1;
        } else {
            let next = self.row_behind(row);
            self.enter(next);
        }
    }

    /// Goes on to the first field of this row.
    fn enter(&mut self, row: Option<Row>)
        ensures { self.new ≡ entered self.old row }
    {
        self.row = row;
        self.index = 0;
        match row {
            Some(Row::GradientStep | Row::SpeedStep) => {
                self.later = self.later.saturating_sub(1);
            }
            Some(Row::SpeedHead) => self.from = 0,
            _ => (),
        }
    }

    /// The row behind this one.
    fn row_behind(&self, row: Row) -> Option<Row>
        ensures { result ≡ row_behind self.now row }
    {
        match row {
            Row::Header => Some(Row::Authority),
            Row::Authority if self.is_alone => None,
            Row::Authority => Some(Row::GradientHead),
            Row::GradientHead | Row::GradientStep if self.later > 0 => Some(Row::GradientStep),
            Row::GradientHead | Row::GradientStep => Some(Row::GradientEnd),
            Row::GradientEnd if self.is_alone => None,
            Row::GradientEnd => Some(Row::SpeedHead),
            Row::SpeedHead | Row::SpeedStep if self.later > 0 => Some(Row::SpeedStep),
            Row::SpeedHead | Row::SpeedStep => Some(Row::SpeedEnd),
            Row::SpeedEnd => None,
        }
    }
}

/// The row that a packet of this number begins with.
fn row_numbered(number: Option<u8>) -> Row
    ensures { result ≡ row_numbered number }
{
    match number {
        Some(number) if u32::from(number) == AUTHORITY_PACKET => Row::Authority,
        Some(number) if u32::from(number) == GRADIENT_PACKET => Row::GradientHead,
        _ => Row::SpeedHead,
    }
}

/// Whether an element may have this speed, in steps of 5 km/h.
fn is_speed(row: Row, value: u32) -> bool
    ensures { result ≡ is_speed row value }
{
    match row {
        Row::SpeedEnd => value == SPEED_END_MARK,
        _ => is_from_to(1, MOST_SPEED_STEPS, value),
    }
}

/// Whether the value is the one that is told already, or, where none is told, allowed.
fn is_as_told(told: Option<u32>, allowed: bool, value: u32) -> bool
    ensures { result ≡ is_as_told told allowed value }
{
    match told {
        Some(told) => value == told,
        None => allowed,
    }
}

/// Whether the scale may have the end, counted in its units.
fn is_end_at(scale: u32, end: u32) -> bool
    ensures { result ≡ is_end_at scale end }
{
    let (first, last) = (
        FIRST_END_IN_TENS / TEN_METRES,
        FARTHEST_END_IN_TENS / TEN_METRES,
    );
    scale == 1 && is_from_to(1, FARTHEST_END, end) || scale == 2 && is_from_to(first, last, end)
}

/// Whether the value lies from the lowest to the highest, both included.
fn is_from_to(low: u32, high: u32, value: u32) -> bool
    ensures { result ≡ is_from_to low high value }
{
    (low..=high).contains(&value)
}

/// How many bits the packet of the row has with this number of steps.
fn packet_bits(row: Row, steps: u32) -> u64
    ensures { result ≡ packet_bits row steps }
{
    let steps = u64::from(steps);
    match row {
        Row::GradientHead => u64::from(GRADIENT_BITS) + u64::from(GRADIENT_STEP_BITS) * steps,
        _ => u64::from(SPEED_BITS) + u64::from(SPEED_STEP_BITS) * steps,
    }
}

/// The fault of a length, unless it is right.
fn length_unless(right: bool) -> Option<Fault>
    ensures { result ≡ length_unless right }
{
    if right { None } else { Some(Fault::Length) }
}

/// The fault of a value that the field may not have.
fn fault_of(name: FieldName) -> Fault
    ensures { result ≡ fault_of name }
{
    match name {
        FieldName::NID_MESSAGE | FieldName::NID_PACKET => Fault::Number,
        _ => Fault::Field(name),
    }
}

/// Whether the value of such a field says which fields come next.
fn says_next(name: FieldName) -> bool
    ensures { result ≡ says_next name }
{
    match name {
        FieldName::NID_MESSAGE
        | FieldName::NID_PACKET
        | FieldName::N_ITER
        | FieldName::Q_SECTIONTIMER
        | FieldName::Q_ENDTIMER
        | FieldName::Q_DANGERPOINT
        | FieldName::Q_OVERLAP => true,
        _ => false,
    }
}
