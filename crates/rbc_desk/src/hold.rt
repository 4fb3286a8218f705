//! A desk in one hold of its lock.

ghost use Rattle.std.specs.Prelude.{◌≡◌};
ghost use Rattle.rbc_desk.specs.Telling.{IsToldAt};
ghost use Rattle.rbc_snap.specs.Steps.{IsOfTrack};

use crate::shared::Shared;
use crate::{DeskName, Seat};
use rbc_model::{OrMemory, Told};
use rbc_snap::{ApplyFault, Receipt};
use std::alloc::Global;
use std::sync::{MutexGuard, Wait};

/// A desk in one hold of its lock: all that is told in it is entered with nothing of others between. It is no `Drop`, since
/// what lies under the lock is none: end it by [`Hold::leave`].
pub struct Hold<'desk, L: DeskName> {
    pub(crate) shared: MutexGuard<'desk, Shared<L>>,
}

impl<'desk, L: DeskName> Hold<'desk, L> {
    /// Enters what a train or the interlocking tells, and gives the seat the receipt. The seat is told all that there is then.
    /// It is published later: by [`Hold::publish`], or by the next [`crate::Desk::publish`] or [`crate::Desk::event`] from this
    /// seat, or from another that was told of it. So many entries are published as one.
    ///
    /// # Errors
    ///
    /// `Refused` with `Full`, where the record has as many entries as it may have, or with the refusal of the scene, for a legal
    /// history that goes on from all that the seat was told, and that it is told then; `Memory`, where it is refused, comes in
    /// place of none that [`rbc_snap::Record::refusal`] tells. The seat has no new receipt.
    pub fn event<R: Wait>(
        &mut self,
        rt: &R,
        alloc: Global,
        seat: &mut Seat<L>,
        told: &Told,
    ) -> Result<Receipt, OrMemory<ApplyFault>>
        requires { IsOfTrack L.opened.track told.now }
        ensures { IsToldAt seat.old seat.new told.now result }
    {
        (*self.shared).event(rt, alloc, seat, told)
    }

    /// Publishes what was entered so far, so that the eyes of all seats see it. Where there is no memory for the scene, they
    /// see what they saw.
    pub fn publish<R: Wait>(&mut self, rt: &R, alloc: Global, seat: &mut Seat<L>)
        ensures { seat.new ≡ seat.old }
    {
        let _ = (*self.shared).publish(rt, alloc, seat);
    }

    /// Ends the hold.
    pub fn leave(self) {
        let Hold { shared } = self;
        MutexGuard::unlock(shared);
    }
}
