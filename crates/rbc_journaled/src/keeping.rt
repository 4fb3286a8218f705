//! A journal keeps the requests that led to the entries of a desk.

use crate::{RequestLine, SeatTold, line_of};
use rbc_group_commit::{CommitName, Committer, GroupCommit, ToldHistory};
use rbc_journal::Device;
use rbc_model::Memory;
use rbc_sessions::{DeskName, Keeper, NotKept, Receipt, Seat};
use rbc_words::Request;
use std::alloc::Global;
use std::sync::Wait;

/// The journal of a desk, for its seats: a group commit that hears what they are told.
#[derive(Drop)]
pub struct DeskJournal<'a, T: ToldHistory + Drop, D: Device, N: CommitName> {
    group_commit: &'a GroupCommit<T, D, N>,
}

impl<'a, T: ToldHistory + Drop, D: Device, N: CommitName> DeskJournal<'a, T, D, N> {
    /// Over the group commit of the desk.
    pub fn over(group_commit: &'a GroupCommit<T, D, N>) -> DeskJournal<'a, T, D, N> {
        DeskJournal { group_commit }
    }
}

impl<'a, L: DeskName, D: Device, N: CommitName> Keeper<L> for DeskJournal<'a, SeatTold<L>, D, N> {
    type Committer = Committer<N>;

    type Text = RequestLine;

    ghost use Rattle.std.specs.Prelude.{◌≡◌, Ok};
    ghost use Rattle.rbc_model.specs.SessionText.{parse_session};
    ghost use Rattle.rbc_group_commit.specs.Marks.{HasLine};

    ghost kept = { HasLine };

    // Its file may fail at any call.
    ghost failed = { λ _. Unit {0} };

    ghost says = { λ line said. parse_session line ≡ Ok said };

    fn prepare(&self, alloc: Global, request: &Request) -> Result<RequestLine, Memory> {
        RequestLine::of(alloc, request)
    }

    fn lay<R: Wait>(&self, rt: &R, seat: &Seat<L>, receipt: &Receipt, text: RequestLine) {
        self.group_commit.lay(rt, line_of(seat, receipt, text));
    }

    fn keep<R: Wait>(
        &self,
        rt: &R,
        committer: &mut Committer<N>,
        receipt: &Receipt,
    ) -> Result<(), NotKept> {
        match self.group_commit.keep(rt, committer, receipt.place()) {
            Ok(()) => Ok(()),
            Err(_) => Err(NotKept),
        }
    }
}
