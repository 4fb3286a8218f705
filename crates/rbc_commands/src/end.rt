//! The standard input of a centre that stays up: it tells when to end.

use crate::failure::Failure;
use rbc_duty::server::ServeFault;
use rbc_port::{Closing, PortEnd};
use std::io::{ErrorKind, Read};
use std::sync::{Arc, Wait};
use std::thread;
use std::thread::Threads;
use std::time::Clock;

/// The line that asks for the end.
const WORD: &[u8] = b"end";

/// How many bytes each read takes at most.
const PIECE: usize = 64;

/// Asks for the end once the standard input has ended, or has a line `end`. It is watched in a thread of its own. Nothing waits
/// for that thread, since it may be in a read when the centre ends for another reason: it ends with the program.
///
/// # Errors
///
/// `Serve`, where no thread can be started.
pub(crate) fn watch_input<
    I: Read + Drop + Send + 'static,
    T: Threads + Wait + Clock + Copy + Send + 'static,
>(rt: &T, mut input: I, end: &Arc<PortEnd>) -> Result<(), Failure> {
    let Ok(end) = Arc::try_clone(end) else {
        return Err(Failure::Memory);
    };
    let watching = *rt;
    let watcher = thread::spawn(rt, move || {
        read_to_end(&mut input);
        end.ask(&watching);
    });
    match watcher.is_ok() {
        true => Ok(()),
        false => Err(Failure::Serve(ServeFault::Memory)),
    }
}

/// Reads up to the end of the input, or up to a line `end`. An input that can't be read has ended.
fn read_to_end(input: &mut impl Read) {
    let mut piece = [0; PIECE];
    let mut line = EndLine { matched: Some(0) };
    for _ in 0..u64::MAX {
        match input.read(&mut piece) {
            Ok(0) => return,
            Ok(count) => {
                if line.is_found_in(&piece[..count]) {
                    return;
                }
            }
            Err(error) if error.kind() == ErrorKind::Interrupted => {}
            Err(_) => return,
        }
    }
}

/// How far the line that is read is the word, if it is so far.
#[derive(Drop)]
struct EndLine {
    matched: Option<usize>,
}

impl EndLine {
    /// Goes on through these bytes. Whether a line that is the word ends in them.
    fn is_found_in(&mut self, bytes: &[u8]) -> bool {
        bytes.iter().any(|byte| self.is_found_at(*byte))
    }

    /// Goes on through this byte. Whether a line that is the word ends in it. A carriage return before the line feed is no part
    /// of a line.
    fn is_found_at(&mut self, byte: u8) -> bool {
        let is_whole = self.matched == Some(WORD.len());
        self.matched = match (byte, self.matched) {
            (b'\n', _) => Some(0),
            (b'\r', matched) if is_whole => matched,
            (_, Some(matched)) if WORD.get(matched) == Some(&byte) => matched.checked_add(1),
            _ => None,
        };
        byte == b'\n' && is_whole
    }
}
