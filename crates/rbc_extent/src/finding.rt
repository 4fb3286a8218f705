//! What a report comes to, before the train's authority is looked at.

ghost use Rattle.std.specs.Prelude.{◌≡◌, ◌≤◌, ◌*◌};
ghost use Rattle.rbc_model.specs.Placing.{renumbered};
ghost use Rattle.rbc_model.specs.declared.limits.TheConstants.{LONGEST_TRACK, MOST_SECTIONS};

use crate::Placed;

/// Where a report places its train, beside the place of the report's group on the line that was known of the train.
#[derive(Drop)]
pub(crate) struct Finding {
    pub(crate) old_origin: u32,
    pub(crate) placed: Placed,
}

impl Finding {
    /// A place of the known line as it is counted on the new one: the group keeps its metre.
    pub(crate) fn now_at(&self, place: u32) -> u32
        requires { place ≤ MOST_SECTIONS * LONGEST_TRACK }
        ensures { result ≡ renumbered self.now.old_origin self.now.placed.placed.origin place }
    {
        self.placed.known();
        (place + self.placed.origin()).saturating_sub(self.old_origin)
    }
}
