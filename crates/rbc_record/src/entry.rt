//! What a record has: entry by entry, what was told or granted.

use crate::Grant;
use rbc_model::Told;

/// An entry of a record.
#[derive(Drop)]
pub enum Entry {
    /// A train or the interlocking told this.
    Heard(Told),
    /// A train was granted this.
    Granted(Grant),
}

const _: () = prove!(size_of::<Entry>() == 40);
