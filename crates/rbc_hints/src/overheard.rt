//! What a session writes, at a terminal or elsewhere.

ghost use Rattle.std.specs.Prelude.{◌≡◌};

use crate::passing::Side;
use crate::terminal::Terminal;
use std::io;
use std::io::{Eprint, Write};

/// A writer. At a terminal the replies are heard that pass to it.
#[derive(Drop)]
pub struct Overheard<'a, W, P> {
    writer: W,
    terminal: Option<&'a Terminal<'a, P>>,
}

impl<'a, W, P> Overheard<'a, W, P> {
    /// This writer, at the terminal, if there is one.
    pub fn new(writer: W, terminal: Option<&'a Terminal<'a, P>>) -> Overheard<'a, W, P>
        ensures { result.writer ≡ writer }
    {
        Overheard { writer, terminal }
    }
}

impl<W: Write, P: Eprint> Write for Overheard<'_, W, P> {
    ghost contents = { λ heard. W.contents heard.writer };

    fn write(&mut self, buf: &[u8]) -> io::Result<usize> {
        let taken = self.writer.write(buf);
        if let (Some(terminal), Ok(count)) = (self.terminal, &taken) {
            terminal.pass(Side::Replies, &buf[..*count]);
        }
        taken
    }

    fn flush(&mut self) -> io::Result<()> {
        self.writer.flush()
    }
}
