//! A text in memory.

ghost use Rattle.std.specs.Prelude.{◌≡◌, [], Some, false, take};

use crate::{Sink, WriteFailed};
use std::alloc::Global;

/// A text that grows in memory. It fails where there is none for more of it.
#[derive(Drop)]
pub struct Text {
    /// What was written.
    pub bytes: Vec<u8>,
    /// Whether a write has failed since the text was made or cut.
    pub failed: bool,
}

impl Text {
    /// An empty text.
    pub fn new(alloc: Global) -> Text
        ensures bytes { result.bytes.items ≡ [] }
        ensures failed { result.failed ≡ false }
    {
        Text {
            bytes: Vec::new(alloc),
            failed: false,
        }
    }

    /// Cuts the text to a length. It may grow again.
    pub fn cut(&mut self, length: usize)
        ensures bytes { self.new.bytes.items ≡ take length self.old.bytes.items }
        ensures failed { self.new.failed ≡ false }
    {
        self.bytes.truncate(length);
        self.failed = false;
    }
}

impl Sink for Text {
    ghost written = { λ text. Some text.bytes.items };

    ghost held_back = { λ _. [] };

    ghost failed = { λ text. text.failed };

    fn write(&mut self, bytes: &[u8]) -> Result<usize, WriteFailed> {
        match self.bytes.extend_from_slice(bytes) {
            Ok(()) => Ok(bytes.len()),
            Err(_) => {
                self.failed = true;
                Err(WriteFailed)
            }
        }
    }

    fn flush(&mut self) -> Result<(), WriteFailed> {
        Ok(())
    }

    fn has_failed(&self) -> bool {
        self.failed
    }
}
