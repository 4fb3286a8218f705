//! A writer inside a page.

ghost use Rattle.std.specs.Prelude.{◌≡◌, ◌++◌, ℕ, List, [], false, Some};
ghost use Rattle.std.specs.Io.KnownBytes.{Appends};
ghost use Rattle.rbc_viewer.specs.Escapes.{escaped};
ghost use Rattle.rbc_viewer.specs.Given.{listed};

use crate::escaping::write_escaped;
use crate::given::Given;
use rbc_streams::{Sink, WriteFailed};
use std::mem::replace;
use std::snapshot::Snapshot;

/// A writer inside a page: what it is given is written escaped into the writer that it has. What it was given is noted, in
/// proofs alone.
pub struct Escaping<W: Sink> {
    writer: W,
    start: Snapshot<W>,
    given: Snapshot<Given>,
    // What was given stands in the writer, escaped, behind what stood there at the start, while it has not failed.
    ghost whole: { (before : List ℕ) → W.written start.value ≡ Some before → W.failed writer ≡ false
        → W.written writer ≡ Some (before ++ escaped (listed given.value)) },
}

impl<W: Sink> Escaping<W> {
    /// Into this writer, with nothing given so far.
    pub fn new(writer: W) -> Escaping<W>
        ensures writer { result.writer ≡ writer }
        ensures start { result.start.value ≡ writer }
        ensures nothing { listed result.given.value ≡ [] }
    {
        let start = Snapshot::of(&writer);
        Escaping {
            writer,
            start,
            given: Given::nothing(),
        }
    }

    /// The writer back, in which stands what was given, escaped.
    pub fn into_writer(self) -> W
        ensures writer { result ≡ self.writer }
        ensures text { W.failed result ≡ false
            → Appends (W.written self.start.value) (W.written result) (escaped (listed self.given.value)) }
    {
        let Escaping {
            writer,
            start: _,
            given: _,
        } = self;
        writer
    }
}

impl<W: Sink> Sink for Escaping<W> {
    ghost use Rattle.rbc_viewer.specs.Given.{inside, listed};

    ghost written = { λ page. inside (W.written page.start.value) (listed page.given.value) };

    ghost held_back = { λ page. W.held_back page.writer };

    ghost failed = { λ page. W.failed page.writer };

    fn write(&mut self, bytes: &[u8]) -> Result<usize, WriteFailed> {
        write_escaped(bytes, &mut self.writer)?;
        let before = replace(&mut self.given, Given::nothing());
        self.given = Given::with(before, bytes);
        Ok(bytes.len())
    }

    fn flush(&mut self) -> Result<(), WriteFailed> {
        self.writer.flush()
    }

    fn has_failed(&self) -> bool {
        self.writer.has_failed()
    }
}
