//! Which desk it is.

ghost use Rattle.rbc_snap.specs.Records.{HistoryOnTrack};
ghost use Rattle.rbc_snap.specs.Later.{nothing_entered};

use rbc_snap::HistoryName;
use std::marker::Brand;
use std::sync::ledger::Ledger;

/// Names a desk: its ledger, its history, and what that was when the desk was opened. The caller of
/// [`crate::Desk::new`] picks it.
pub trait DeskName: HistoryName + Ledger {
    ghost opened: { HistoryOnTrack };
}

impl DeskName for Brand {
    ghost opened = { nothing_entered };
}
