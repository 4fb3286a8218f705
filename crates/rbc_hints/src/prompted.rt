//! What a session reads, at a terminal or elsewhere.

ghost use Rattle.std.specs.Prelude.{◌≡◌, IsTrue, None, [], take, MatchResult};
ghost use Rattle.std.specs.Io.{ReadsAtMost};
ghost use Rattle.std.specs.Io.KnownBytes.{ReadConsumes};
ghost use Rattle.rbc_hints.specs.Help.{AsksForHelp, Passes, unless_at};

use crate::passing::Side;
use crate::terminal::Terminal;
use rbc_words::{only_word, without_return};
use std::io;
use std::io::{Eprint, Error, ErrorKind, Read};

/// A reader. At a terminal it prompts before each read, and a line `help` is answered there, and not given.
#[derive(Drop)]
pub struct Prompted<'a, R, P> {
    reader: R,
    terminal: Option<&'a Terminal<'a, P>>,
}

impl<'a, R, P> Prompted<'a, R, P> {
    /// This reader, at the terminal, if there is one.
    pub fn new(reader: R, terminal: Option<&'a Terminal<'a, P>>) -> Prompted<'a, R, P>
        ensures { result.reader ≡ reader }
    {
        Prompted { reader, terminal }
    }
}

/// Whether a read gave one line that asks for help.
fn asks_for_help(piece: &[u8]) -> bool
    ensures { IsTrue result → AsksForHelp piece.now }
{
    match piece.split_last() {
        Some((b'\n', line)) => match only_word(without_return(line)) {
            Ok(word) => word == b"help".as_slice(),
            Err(_) => false,
        },
        _ => false,
    }
}

/// Reads at a terminal. Lines that ask for help are answered there, and read over.
fn read_at<R: Read, P: Eprint>(
    reader: &mut R,
    terminal: &Terminal<'_, P>,
    buf: &mut [u8],
) -> io::Result<usize>
    ensures bound { ReadsAtMost result buf.new }
    ensures passes { MatchResult result
        (λ count. Passes (R.remaining reader.old) (R.remaining reader.new) (take count buf.new))
        (λ _. Passes (R.remaining reader.old) (R.remaining reader.new) []) }
{
    for _ in 0..u64::MAX {
        terminal.prompt();
        let count = reader.read(buf)?;
        let piece = &buf[..count];
        if !asks_for_help(piece) {
            if count == 0 {
                terminal.end_input();
            }
            terminal.pass(Side::Requests, piece);
            return Ok(count);
        }
        terminal.help();
    }
    Err(Error::from(ErrorKind::Other))
}

impl<R: Read, P: Eprint> Read for Prompted<'_, R, P> {
    ghost remaining = { λ prompted. unless_at prompted.terminal (R.remaining prompted.reader) };

    fn read(&mut self, buf: &mut [u8]) -> io::Result<usize>
        ensures bound { ReadsAtMost result buf.new }
        ensures bytes { ReadConsumes (unless_at self.old.terminal (R.remaining self.old.reader))
            (unless_at self.new.terminal (R.remaining self.new.reader)) result buf.new }
        ensures terminal { self.new.terminal ≡ self.old.terminal }
        ensures elsewhere { self.old.terminal ≡ None
            → ReadConsumes (R.remaining self.old.reader) (R.remaining self.new.reader) result buf.new }
        ensures passes { MatchResult result
            (λ count. Passes (R.remaining self.old.reader) (R.remaining self.new.reader) (take count buf.new))
            (λ _. Passes (R.remaining self.old.reader) (R.remaining self.new.reader) []) }
    {
        match self.terminal {
            Some(terminal) => read_at(&mut self.reader, terminal, buf),
            None => self.reader.read(buf),
        }
    }
}
