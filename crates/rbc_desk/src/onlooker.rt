//! Who looks at a desk while others work at it.

ghost use Rattle.std.specs.Prelude.{◌≡◌, Option, option_and_then};
ghost use Rattle.rbc_desk.specs.Looking.{LooksOn};
ghost use Rattle.rbc_desk.specs.Seats.{Seated};

use crate::{DeskName, Seat};
use std::alloc::Global;
use std::sync::Wait;
use std::time::Clock;

/// Who looks at a desk from a seat of its own, and enters nothing.
pub trait Onlooker<L: DeskName> {
    /// The seat, if there is one.
    ghost seat: { Self → Option Seated };

    /// Does for some thousandths of a second what there is to do, and answers whether it is to be called again.
    fn attend<R: Wait + Clock>(&mut self, rt: &R, alloc: Global) -> bool
        ensures { LooksOn (seat self.old) (seat self.new) };

    /// Looks no more, and gives the seat back.
    fn into_seat(self) -> Option<Seat<L>>
        ensures { result ≡ seat self };
}

/// There may be nobody who looks.
impl<L: DeskName, B: Onlooker<L>> Onlooker<L> for Option<B> {
    ghost seat = { λ onlooker. option_and_then B.seat onlooker };

    fn attend<R: Wait + Clock>(&mut self, rt: &R, alloc: Global) -> bool {
        match self {
            Some(onlooker) => onlooker.attend(rt, alloc),
            None => false,
        }
    }

    fn into_seat(self) -> Option<Seat<L>> {
        match self {
            Some(onlooker) => onlooker.into_seat(),
            None => None,
        }
    }
}
