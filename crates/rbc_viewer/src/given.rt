//! Bytes that were given to be written. They take no memory: only clauses read them.

ghost use Rattle.std.specs.Prelude.{◌≡◌, ◌++◌, []};
ghost use Rattle.rbc_viewer.specs.Given.{listed};

use std::snapshot::Snapshot;

/// Bytes, the last of them outermost.
#[derive(Drop)]
pub enum Given {
    /// None.
    Nothing,
    /// These, and then one more.
    Then(Snapshot<Given>, u8),
}

impl Given {
    /// No bytes.
    pub(crate) fn nothing() -> Snapshot<Given>
        ensures { listed result.value ≡ [] }
    {
        Snapshot::of(&Given::Nothing)
    }

    /// These bytes, and others behind them.
    pub(crate) fn with(before: Snapshot<Given>, bytes: &[u8]) -> Snapshot<Given>
        ensures { listed result.value ≡ listed before.value ++ bytes.now }
    {
        let mut all = before;
        for byte in bytes {
            let next = Given::Then(all, *byte);
            all = Snapshot::of(&next);
        }
        all
    }
}
