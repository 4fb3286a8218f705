//! The fields of a message or packet, read one after another.

ghost use Rattle.std.specs.Prelude.{◌≡◌, ◌<◌, ◌≤◌, ◌*◌, ◌^◌, ℕ, Some, None, is_some, true, false, suc, length, if◌then◌else◌};
ghost use Rattle.rbc_model.specs.declared.limits.TheConstants.{LONGEST_LINE};
ghost use Rattle.rbc_model.specs.Bits.{byte_bits};
ghost use Rattle.rbc_decode.specs.Readings.{left_to_read, reading, with_item, filling_found, IsCounted};

use crate::row::Row;
use crate::walk::FieldWalk;
use rbc_bits::BitReader;
use rbc_model::{Fault, FieldName};
use rbc_packet::width_of;

/// A field that was read.
#[derive(Clone, Copy)]
pub struct Item {
    /// The walk that came to it.
    pub walk: FieldWalk,
    /// The row in which it stands.
    pub row: Row,
    /// Its name.
    pub name: FieldName,
    /// Its value.
    pub value: u32,
    /// The bit at which it begins, from 0 on.
    pub bit: u32,
    /// Whether it stands behind the first one at fault.
    pub is_late: bool,
}

/// What was found where a walk came to a fault.
#[derive(Clone, Copy, Debug, PartialEq, Eq)]
pub struct Found {
    /// The fault.
    pub fault: Fault,
    /// What stands there.
    pub place: FieldPlace,
    /// The bit at which it begins, from 0 on.
    pub bit: u32,
    /// The value that was found there, or how many bits.
    pub value: u32,
}

/// What stands where a walk came to a fault.
#[derive(Clone, Copy, Debug, PartialEq, Eq)]
pub enum FieldPlace {
    /// A field with its value.
    Field(FieldName),
    /// A field that is cut short, with how many of its bits are there.
    Missing(FieldName),
    /// The filling behind the last field, with its value.
    Filling,
    /// What stands behind the last field, with how many bits it has: eight or more.
    Behind,
}

/// The fields of a message or packet that are still to be read, up to the last, or as far as it is known which ones come
/// behind the first at fault.
#[derive(Drop)]
pub(crate) struct Fields<'a> {
    bits: BitReader<'a>,
    /// The bit at which the next field begins, from 0 on.
    bit: u32,
    /// How many bits are left.
    left: u32,
    /// Where the walk stands, or stood where it ended.
    walk: FieldWalk,
    /// Whether it has ended.
    is_over: bool,
    /// The first fault so far.
    found: Option<Found>,
}

impl<'a> Fields<'a> {
    /// The fields of these bytes, no more than a line has, from this one on.
    pub(crate) fn new(start: &FieldWalk, bytes: &'a [u8]) -> Fields<'a>
        requires { length bytes.now ≤ LONGEST_LINE }
        ensures fields { (most : ℕ) → left_to_read most result ≡ reading most start.now (byte_bits bytes.now) 0 }
        ensures bits { result.bits ≡ byte_bits bytes.now }
        ensures counted { IsCounted result }
    {
        Fields {
            bits: BitReader::new(bytes),
            bit: 0,
            left: 8 * bytes.len() as u32,
            walk: *start,
            is_over: false,
            found: None,
        }
    }

    /// Reads the next field into an item. Answers false behind the last.
    #[tactic(auto, unfolding(crate::specs::Readings::reading))]
    pub(crate) fn next(&mut self, item: &mut Item) -> bool
        requires { IsCounted self.old }
        ensures next { (most : ℕ) → left_to_read (suc most) self.old
            ≡ with_item (if result then Some item.new else None) (left_to_read most self.new) }
        ensures over { result ≡ false → self.new.is_over ≡ true }
        ensures shorter { result ≡ true → length self.new.bits < length self.old.bits }
        ensures counted { IsCounted self.new }
    {
        if self.is_over {
            return false;
        }
        if self.found.is_some() {
            self.read_late(item)
        } else {
            self.read(item)
        }
    }

    /// Reads the next field into an item, where no fault was found so far. Answers false behind the last.
    #[tactic(auto, unfolding(crate::specs::Readings::reading))]
    fn read(&mut self, item: &mut Item) -> bool
        requires counted { IsCounted self.old }
        requires going { self.old.is_over ≡ false }
        requires none { is_some self.old.found ≡ false }
        ensures next { (most : ℕ) → left_to_read (suc most) self.old
            ≡ with_item (if result then Some item.new else None) (left_to_read most self.new) }
        ensures over { result ≡ false → self.new.is_over ≡ true }
        ensures shorter { result ≡ true → length self.new.bits < length self.old.bits }
        ensures counted { IsCounted self.new }
    {
        let Some((row, name)) = self.walk.field() else {
            let found = self.filling_found();
            self.stop(found);
            return false;
        };
        let width = width_of(name);
        let Ok(value) = self.bits.take(width) else {
            self.stop(Some(Found {
                fault: Fault::Short,
                place: FieldPlace::Missing(name),
                bit: self.bit,
                value: self.left,
            }));
            return false;
        };
        *item = Item {
            walk: self.walk,
            row,
            name,
            value,
            bit: self.bit,
            is_late: false,
        };
        if let Err(fault) = self.walk.pass(row, name, value) {
            self.found = Some(Found {
                fault,
                place: FieldPlace::Field(name),
                bit: self.bit,
                value,
            });
            if !self.walk.skip(row, name, value) {
                self.is_over = true;
            }
        }
        self.bit += width;
        self.left -= width;
        true
    }

    /// Reads the next field into an item, behind a fault. Answers false behind the last.
    #[tactic(auto, unfolding(crate::specs::Readings::beyond))]
    fn read_late(&mut self, item: &mut Item) -> bool
        requires counted { IsCounted self.old }
        requires going { self.old.is_over ≡ false }
        requires some { is_some self.old.found ≡ true }
        ensures next { (most : ℕ) → left_to_read (suc most) self.old
            ≡ with_item (if result then Some item.new else None) (left_to_read most self.new) }
        ensures over { result ≡ false → self.new.is_over ≡ true }
        ensures shorter { result ≡ true → length self.new.bits < length self.old.bits }
        ensures counted { IsCounted self.new }
    {
        let Some((row, name)) = self.walk.field() else {
            self.is_over = true;
            return false;
        };
        let width = width_of(name);
        let Ok(value) = self.bits.take(width) else {
            self.is_over = true;
            return false;
        };
        *item = Item {
            walk: self.walk,
            row,
            name,
            value,
            bit: self.bit,
            is_late: true,
        };
        if !self.walk.skip(row, name, value) {
            self.is_over = true;
        }
        self.bit += width;
        self.left -= width;
        true
    }

    /// Ends with what was found, if that is a fault.
    fn stop(&mut self, found: Option<Found>)
        ensures over { self.new.is_over ≡ true }
        ensures found { self.new.found ≡ found }
        ensures walk { self.new.walk ≡ self.old.walk }
        ensures bits { self.new.bits ≡ self.old.bits }
        ensures bit { self.new.bit ≡ self.old.bit }
        ensures left { self.new.left ≡ self.old.left }
    {
        self.is_over = true;
        self.found = found;
    }

    /// The first fault that was found.
    pub(crate) fn found(&self) -> Option<Found>
        ensures { result ≡ self.now.found }
    {
        self.found
    }

    /// What is found behind the last field, if that is a fault.
    fn filling_found(&self) -> Option<Found>
        requires { IsCounted self.now }
        ensures { result ≡ filling_found self.now.bits self.now.bit }
    {
        match self.bits.last_bits() {
            None => Some(Found {
                fault: Fault::Length,
                place: FieldPlace::Behind,
                bit: self.bit,
                value: self.left,
            }),
            Some(0) => None,
            Some(value) => Some(Found {
                fault: Fault::Padding,
                place: FieldPlace::Filling,
                bit: self.bit,
                value: u32::from(value),
            }),
        }
    }
}
