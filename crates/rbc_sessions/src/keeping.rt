//! What keeps the requests that led to entries, before these are answered.

ghost use Rattle.std.specs.Prelude.{◌≡◌, ℕ, Ok, IfOk, OnOk, OnErr};
ghost use Rattle.rbc_model.specs.SessionText.{SessionLine, IsSayable};
ghost use Rattle.rbc_sessions.specs.Keeping.{AddsEntry};
ghost use Rattle.rbc_replies.specs.SessionLines.{request_view};

use rbc_model::Memory;
use rbc_replies::words::Request;
use rbc_sweep::{DeskName, Receipt, Seat};
use std::alloc::Global;
use std::sync::Wait;
use thiserror::Error;

/// What keeps has failed, now or before. Whether it has the request is not known.
#[derive(Clone, Copy, Debug, PartialEq, Eq, Error)]
#[error("journal fault")]
pub struct NotKept;

/// Why a request is not kept.
#[derive(Clone, Copy, Debug, PartialEq, Eq, Error)]
pub enum KeepFault {
    /// What keeps has failed.
    #[error("journal fault")]
    Journal,
    /// There is no memory for the request.
    #[error("out of memory")]
    Memory,
}

/// Keeps the requests that led to the entries of a desk. Each of its seats has a committer.
pub trait Keeper<L: DeskName> {
    /// What a seat keeps with.
    type Committer: Drop;

    /// A request that can be kept: there was memory for it.
    type Text: Drop;

    /// By what the committer knows, the request that led to the entry at this place is kept.
    ghost kept: { Self.Committer → ℕ → Type 0 };

    /// By what the committer knows, keeping has failed. Of a keeper that never fails no committer knows so.
    ghost failed: { Self.Committer → Type 0 };

    /// The text says this.
    ghost says: { Self.Text → SessionLine → Type 0 };

    /// Takes memory for a request, before anything is made of it.
    ///
    /// # Errors
    ///
    /// `Memory`, where there is none.
    fn prepare(&self, alloc: Global, request: &Request) -> Result<Self::Text, Memory>
        requires sayable { IsSayable (request_view request.now) }
        ensures says { IfOk result (λ text. says text (request_view request.now)) };

    /// Lays the line of the request that led to the entry of a receipt, by what the seat was told. It is kept with the lines of the entries
    /// before it, once these are laid.
    fn lay<R: Wait>(&self, rt: &R, seat: &Seat<L>, receipt: &Receipt, text: Self::Text)
        requires told { (request : SessionLine) × says text request × AddsEntry seat.now.told receipt.now.place request };

    /// Returns once the request that led to the entry of a receipt is kept, whose line was laid. It may wait until the lines of all
    /// entries before it are laid, too. A request that the committer knows to be kept is not waited for.
    ///
    /// # Errors
    ///
    /// Keeping has failed. What was kept before is still kept.
    fn keep<R: Wait>(
        &self,
        rt: &R,
        committer: &mut Self::Committer,
        receipt: &Receipt,
    ) -> Result<(), NotKept>
        ensures kept { OnOk result (kept committer.new receipt.now.place) }
        ensures failed { OnErr result (failed committer.new) }
        ensures stays { (place : ℕ) → kept committer.old place → kept committer.new place };
}

/// No journal: nothing is kept.
#[derive(Clone, Copy, Debug, PartialEq, Eq)]
pub struct NoJournal;

impl<L: DeskName> Keeper<L> for NoJournal {
    type Committer = ();

    type Text = ();

    ghost kept = { λ _ _. Unit {0} };

    ghost failed = { λ _. ⊥ };

    ghost says = { λ _ _. Unit {0} };

    /// It takes no memory, so it never fails.
    fn prepare(&self, _alloc: Global, _request: &Request) -> Result<(), Memory>
        ensures { result ≡ Ok tt }
    {
        Ok(())
    }

    /// It does nothing.
    fn lay<R: Wait>(&self, _rt: &R, _seat: &Seat<L>, _receipt: &Receipt, _text: ()) {}

    /// It never fails.
    fn keep<R: Wait>(&self, _rt: &R, _committer: &mut (), _receipt: &Receipt) -> Result<(), NotKept>
        ensures { result ≡ Ok tt }
    {
        Ok(())
    }
}
