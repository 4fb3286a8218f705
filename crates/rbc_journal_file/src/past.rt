//! What was asked of a file, call by call. It takes no memory: only clauses read it.

ghost use Rattle.std.specs.Prelude.{◌≡◌, ◌++◌, [], List, ℕ};
ghost use Rattle.rbc_journal_file.specs.Past.{listed};

use std::snapshot::Snapshot;

/// Bytes, the last of them outermost.
#[derive(Drop)]
pub enum Bytes {
    /// None.
    Empty,
    /// These, and then one more.
    Then(Snapshot<Bytes>, u8),
}

impl Bytes {
    /// These bytes, to be spoken of.
    pub fn of(bytes: &[u8]) -> Snapshot<Bytes>
        ensures { listed result.value ≡ bytes.now }
    {
        Bytes::behind(Snapshot::of(&Bytes::Empty), bytes)
    }

    /// Bytes, and then these.
    pub fn behind(front: Snapshot<Bytes>, bytes: &[u8]) -> Snapshot<Bytes>
        ensures { listed result.value ≡ listed front.value ++ bytes.now }
    {
        let mut listed = front;
        for byte in bytes {
            let next = Bytes::Then(listed, *byte);
            listed = Snapshot::of(&next);
        }
        listed
    }
}

/// The calls on a file since it was opened, the last of them outermost, and for each whether it succeeded.
#[derive(Drop)]
pub enum Past {
    /// The file was opened, and had these bytes, all of them on the disk.
    Opened(Snapshot<Bytes>),
    /// Bytes were written at an offset.
    Wrote(Snapshot<Past>, usize, Snapshot<Bytes>, bool),
    /// The file was synced.
    Synced(Snapshot<Past>, bool),
    /// A new file with these bytes took its place, and was synced.
    Replaced(Snapshot<Past>, Snapshot<Bytes>, bool),
}
