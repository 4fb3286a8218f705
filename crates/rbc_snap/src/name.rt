//! Which history it is.

use std::marker::Brand;

/// Names a history: the book of the logbook in which its moments stand. The caller of [`crate::Press::new`] picks it.
pub trait HistoryName {
    ghost use Rattle.logbook.specs.Pages.{Book};

    ghost book: { Book };
}

impl HistoryName for Brand {
    ghost book = { record { number = 0; log_name = 0; cells_name = 0 } };
}
