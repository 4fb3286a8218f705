//! A worker's seat.

ghost use Rattle.std.specs.Prelude.{◌≡◌, [], length, Some, IfOk, IfSome};
ghost use Rattle.std.specs.Arc.{arc_value};
ghost use Rattle.rbc_snap.specs.Events.{event_at};
ghost use Rattle.rbc_snap.specs.Later.{IsLater, scene_of};
ghost use Rattle.rbc_snap.specs.Sights.{seen_of};
ghost use Rattle.rbc_desk.specs.Looking.{HasLooked};
ghost use Rattle.rbc_desk.specs.Seats.{seated};

use crate::DeskName;
use rbc_model::{Event, OrMemory};
use rbc_snap::{Behind, Eye, Receipt, Scene, Sight};
use std::alloc::Global;
use std::marker::Model;
use std::sync::ledger::Share;
use std::sync::{Arc, Wait};

/// A worker's seat at a desk. Contracts see it as the receipts of what was entered from it, in order, and what it was
/// told of the history: all that its answers speak of.
#[derive(Drop)]
pub struct Seat<L: DeskName> {
    pub(crate) receipts: Vec<Receipt>,
    pub(crate) share: Share<L>,
    pub(crate) eye: Eye<L>,
    /// Whether it was told something that may not be published yet.
    pub(crate) is_ahead: bool,
}

impl<L: DeskName> Model for Seat<L> {
    ghost use Rattle.std.specs.Prelude.{◌≡◌, length};
    ghost use Rattle.rbc_snap.specs.Later.{IsLater};
    ghost use Rattle.rbc_desk.specs.Seats.{Seated, seated};

    ghost Value = { Seated };

    ghost view = { λ s. seated s.receipts.items s.eye.told };

    ghost invariant = { λ s. (s.share.parts ≡ 1) × (s.share.amount ≡ length s.receipts.items) × IsLater L.opened s.eye.told };
}

impl<L: DeskName> Seat<L> {
    /// The seat with one part of the ledger, from which nothing was entered yet, and with an eye.
    pub(crate) fn new(alloc: Global, share: Share<L>, eye: Eye<L>) -> Seat<L>
        requires part { share.parts ≡ 1 }
        requires amount { share.amount ≡ 0 }
        requires told { IsLater L.opened eye.told }
        ensures { result ≡ seated [] eye.told }
    {
        Seat {
            receipts: Vec::new(alloc),
            share,
            eye,
            is_ahead: false,
        }
    }

    /// Is told all that another seat of its desk was told.
    pub fn hear(&mut self, other: &Seat<L>)
        ensures receipts { self.new.receipts ≡ self.old.receipts }
        ensures later { IsLater self.old.told self.new.told }
        ensures heard { IsLater other.now.told self.new.told }
    {
        self.eye.hear(&other.eye);
        self.is_ahead = self.is_ahead || other.is_ahead;
    }

    /// The scene that is published, shared and not copied, with its version. The desk's lock is not taken for it. The seat is told
    /// the history that led to it.
    ///
    /// # Errors
    ///
    /// `Refused`, where the seat was told more than is published; nothing more is told then. `Memory`, where the scene can't be
    /// shared once more.
    pub fn published<R: Wait>(&mut self, rt: &R) -> Result<(Arc<Scene>, u64), OrMemory<Behind>>
        ensures scene { IfOk result (λ seen. arc_value seen.0 ≡ scene_of self.new.told) }
        ensures version { IfOk result (λ seen. seen.1 ≡ length self.new.told.entries) }
        ensures later { IsLater self.old.told self.new.told }
        ensures looked { HasLooked self.old self.new }
    {
        self.eye.scene(rt)
    }

    /// The event at a place of the history that the seat was told. The desk's lock is not taken for it. None from that history's end
    /// on, and where the desk has not put it there.
    pub fn event(&self, place: u64) -> Option<Event>
        ensures { IfSome result (λ event. event_at self.now.told place ≡ Some event) }
    {
        self.eye.event(place)
    }

    /// What the seat was told, as a moment of the desk's history.
    pub fn sight(&self) -> Sight
        ensures { result ≡ seen_of L.book self.now.told }
    {
        self.eye.sight()
    }

    /// The receipts of what was entered from this seat, in order.
    pub fn receipts(&self) -> &[Receipt]
        ensures { result.now ≡ self.now.receipts }
    {
        self.receipts.as_slice()
    }

    /// What the seat was told is a legal history, which goes on from the one that the desk was opened with. This does nothing.
    pub fn known(&self)
        ensures { IsLater L.opened self.now.told }
    {
        let _ = &self.eye;
    }

    /// How many entries the seat was told of.
    pub fn version(&self) -> u64
        ensures { result ≡ length self.now.told.entries }
    {
        self.eye.version()
    }
}
