//! Which group commit it is.

use std::marker::Brand;

/// Names a group commit: the book of the logbook in which its stamps stand. The caller of [`crate::GroupCommit::open`] picks it.
pub trait CommitName {
    ghost use Rattle.logbook.specs.Pages.{Book};

    ghost book: { Book };
}

impl CommitName for Brand {
    ghost book = { record { number = 0; log_name = 0; cells_name = 0 } };
}
