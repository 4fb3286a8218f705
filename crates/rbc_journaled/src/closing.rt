//! The journal of a desk, once no seat writes any more.

ghost use Rattle.std.specs.Prelude.{All};
ghost use Rattle.rbc_journaled.specs.Lasting.{EachLeavesFirst};
ghost use Rattle.rbc_sessions.specs.Later.{IsLater};

use crate::SeatTold;
use rbc_group_commit::{CommitName, Committer, GroupCommit, Page};
use rbc_journal::Device;
use rbc_sessions::DeskName;
use std::sync::Wait;

/// Ends the group commit of a desk's journal, once no seat writes any more, and vouches for what its committers have kept: a crash at
/// any moment since a stamp that a committer was given left a file that tells the first entries of the desk's history, the
/// stamp's lines at least. The last is what was told of that history by then: all that any seat was told.
pub fn close<L: DeskName, D: Device, N: CommitName, R: Wait>(
    rt: &R,
    group_commit: GroupCommit<SeatTold<L>, D, N>,
    last: &SeatTold<L>,
    committers: &[Committer<N>],
) -> Page<SeatTold<L>, D, N>
    ensures { All (λ committer. EachLeavesFirst D.moment D.left_since last.now result.device committer) committers.now }
{
    let page = group_commit.close();
    page.told().precedes(rt, last);
    vouch_each(rt, &page, last, committers);
    page
}

/// Vouches for what each of these committers has kept, where the last goes on from all that was told of the lines.
fn vouch_each<L: DeskName, D: Device, N: CommitName, R: Wait>(
    rt: &R,
    page: &Page<SeatTold<L>, D, N>,
    last: &SeatTold<L>,
    committers: &[Committer<N>],
)
    requires { IsLater page.now.told last.now }
    ensures { All (λ committer. EachLeavesFirst D.moment D.left_since last.now page.now.device committer) committers.now }
{
    for committer in committers {
        vouch(rt, page, last, committer);
    }
}

/// Vouches for what one committer has kept, where the last goes on from all that was told of the lines.
fn vouch<L: DeskName, D: Device, N: CommitName, R: Wait>(
    rt: &R,
    page: &Page<SeatTold<L>, D, N>,
    last: &SeatTold<L>,
    committer: &Committer<N>,
)
    requires { IsLater page.now.told last.now }
    ensures { EachLeavesFirst D.moment D.left_since last.now page.now.device committer.now }
{
    page.vouch(rt, committer);
}
