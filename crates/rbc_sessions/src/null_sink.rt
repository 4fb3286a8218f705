//! Where replies go that nobody reads.

use rbc_streams::{Sink, WriteFailed};

/// Takes all bytes, and keeps none: for replies to a client that is gone, or whose writer failed.
#[derive(Drop)]
pub struct NullSink;

impl Sink for NullSink {
    ghost use Rattle.std.specs.Prelude.{[], false, None};

    ghost written = { λ _. None };

    ghost held_back = { λ _. [] };

    ghost failed = { λ _. false };

    fn write(&mut self, bytes: &[u8]) -> Result<usize, WriteFailed> {
        Ok(bytes.len())
    }

    fn flush(&mut self) -> Result<(), WriteFailed> {
        Ok(())
    }

    fn has_failed(&self) -> bool {
        false
    }
}
