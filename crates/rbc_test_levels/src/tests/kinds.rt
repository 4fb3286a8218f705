//! The three kinds of level, each of whose values is a number.

use crate::Power;
use rbc_reduce::Priced;
use rbc_steps::{Grade, Runs, Speed};
use std::process::Abort;

/// A kind of level, by its numbers.
pub(crate) trait Kind: Priced {
    /// The level that the number is, if it is in range.
    fn of(number: i16) -> Option<Self>;
}

impl Kind for Speed {
    fn of(number: i16) -> Option<Speed> {
        Speed::new(u16::try_from(number).ok()?)
    }
}

impl Kind for Grade {
    fn of(number: i16) -> Option<Grade> {
        Grade::new(number)
    }
}

impl Kind for Power {
    fn of(number: i16) -> Option<Power> {
        Power::new(u16::try_from(number).ok()?)
    }
}

/// The level that the number is.
pub(crate) fn level<V: Kind>(rt: &impl Abort, number: i16) -> V {
    V::of(number).expect(rt, "a level")
}

/// Rows of numbers as levels.
pub(crate) fn rows_of<V: Kind>(
    rt: &(impl Abort + AllocGlobal),
    numbers: &[(u32, i16)],
) -> Vec<(u32, V)> {
    let mut rows = Vec::new(rt.alloc());
    for (start, number) in numbers {
        rows.push((*start, level(rt, *number))).expect(rt, "memory");
    }
    rows
}

/// The track that such rows make up to the end.
pub(crate) fn track_of<V: Kind>(
    rt: &(impl Abort + AllocGlobal),
    numbers: &[(u32, i16)],
    end: u32,
) -> Runs<V> {
    Runs::new(rows_of(rt, numbers), end).expect(rt, "a track")
}
