//! A reader of lines, over a buffer.

ghost use Rattle.std.specs.Prelude.{◌≡◌, ◌≢◌, ◌+◌, ◌<◌, ◌≤◌, ℕ, List, Option, [], ◌++◌, true, false, ◌-◌, length, take, drop, slice_range, vec_len, is_err, Ok, Some, IfOk, OnErr, IfNone, IfSome, MatchBool};
ghost use Rattle.std.specs.Io.KnownBytes.{Consumes, Keeps, IsAtEnd};
ghost use Rattle.rbc_model.specs.declared.limits.TheConstants.{LONGEST_CHECK_LINE};
ghost use Rattle.rbc_streams.specs.LineReading.{LineReading, at_start, HasNoLineFeed, HasLine, Steps, Advances, KnowsEnd, IsInOrder, IsAhead};

use crate::streams::{ReadFailed, Source};
use memchr::memchr;
use rbc_model::Memory;
use std::alloc::Global;
use std::marker::Model;

/// How many bytes each read asks for at least.
const PIECE: usize = 64 * 1024;

/// What came of a step to the next line.
#[derive(Clone, Copy, Debug, PartialEq, Eq)]
pub enum Advance {
    /// A line was read.
    Line,
    /// The next line has more bytes than a line may have. It is not read.
    Overlong,
    /// The input ended, and no byte is left.
    End,
}

/// Reads a source line by line, through a buffer of its own, up to the first time that it gives no byte.
///
/// A line ends with a line feed, or with the input if it isn't empty. The line feed is no part of it; a carriage return
/// is.
#[derive(Drop)]
pub struct LineReader {
    buffer: Vec<u8>,
    line_start: usize,
    line_end: usize,
    start: usize,
    end: usize,
    // How many of the pending bytes stand before their first line feed: all, if they have none.
    ahead: usize,
    longest: usize,
    ended: bool,
}

impl Model for LineReader {
    ghost Value = { LineReading };

    ghost view = { λ r. record {
      line = slice_range r.buffer.items r.line_start r.line_end;
      taken = slice_range r.buffer.items r.line_start r.start;
      pending = slice_range r.buffer.items r.start r.end;
      longest = r.longest;
      ended = r.ended;
    } };

    ghost invariant = { λ r. IsInOrder (vec_len r.buffer) r.line_start r.line_end r.start r.end r.longest
        × IsAhead (slice_range r.buffer.items r.start r.end) r.ahead };
}

impl LineReader {
    /// A reader of lines with at most `longest` bytes each, before its first line.
    ///
    /// # Errors
    /// There is no memory for its buffer. Later steps need none.
    pub fn new(alloc: Global, longest: usize) -> Result<LineReader, Memory>
        requires { longest ≤ LONGEST_CHECK_LINE }
        ensures { IfOk result (λ lines. lines ≡ at_start longest) }
    {
        Ok(LineReader {
            buffer: vec![in alloc; 0; longest + PIECE]?,
            line_start: 0,
            line_end: 0,
            start: 0,
            end: 0,
            ahead: 0,
            longest,
            ended: false,
        })
    }

    /// The line that the last step read, or nothing if that read no line.
    pub fn line(&self) -> &[u8]
        ensures { result.now ≡ self.now.line }
    {
        &self.buffer[self.line_start..self.line_end]
    }

    /// What the last step took of the input: the line, with the line feed that ended it. The last line may have none.
    pub fn taken(&self) -> &[u8]
        ensures { result.now ≡ self.now.taken }
    {
        &self.buffer[self.line_start..self.start]
    }

    /// Whether a further byte comes. Reads only if no byte is pending, and lets the last line go then. An input that
    /// was seen to end is not read again.
    ///
    /// # Errors
    /// The reader failed.
    pub fn has_more<R: Source>(&mut self, reader: &mut R) -> Result<bool, ReadFailed>
        requires { R.failed reader.old ≡ false }
        ensures failed { R.failed reader.new ≡ is_err result }
        ensures pending { 0 < length self.old.pending → (self.new ≡ self.old) × (reader.new ≡ reader.old) }
        ensures input { (taken : List ℕ) × Consumes (R.left reader.old) (R.left reader.new) taken
            × (self.old.ended ≡ true → taken ≡ []) × (self.new.pending ≡ self.old.pending ++ taken) }
        ensures fault { OnErr result ((self.new.pending ≡ []) × (self.new.ended ≡ false)) }
        ensures answer { IfOk result (λ more. MatchBool more (0 < length self.new.pending)
            ((self.new.pending ≡ []) × (self.new.ended ≡ true))) }
        ensures end { KnowsEnd self.old (R.left reader.old) (R.ended reader.old) → KnowsEnd self.new (R.left reader.new) (R.ended reader.new) }
        ensures ended { self.old.ended ≡ true → self.new.ended ≡ true }
        ensures line { self.old.pending ≡ [] → self.new.line ≡ [] }
        ensures longest { self.new.longest ≡ self.old.longest }
    {
        if self.start < self.end {
            return Ok(true);
        }
        Ok(self.fill(reader)? > 0)
    }

    /// Whether the bytes that came have a further line, with its line feed.
    pub fn has_line(&self) -> bool
        ensures { MatchBool result (HasLine self.now.pending self.now.longest)
            (HasNoLineFeed (take (self.now.longest + 1) self.now.pending)) }
    {
        let count = self.pending().len();
        self.ahead < count && self.ahead <= self.longest
    }

    /// Goes on to the next line, if the bytes that came tell it, and tells what came of that. Reads nothing.
    pub fn step(&mut self) -> Option<Advance>
        ensures some { IfSome result (Steps self.old.pending self.new) }
        ensures not_the_end { IfSome result (λ step. step ≢ Advance.End) }
        ensures none { IfNone result (self.new ≡ self.old) }
        ensures line { HasLine self.old.pending self.old.longest → result ≡ Some Advance.Line }
        ensures longest { self.new.longest ≡ self.old.longest }
        ensures ended { self.new.ended ≡ self.old.ended }
    {
        self.first_line()
    }

    /// Goes on to the next line, and tells what came of that. Reads only if no whole line is pending. An input that was
    /// seen to end is not read again. After a fault all that came is still pending.
    ///
    /// # Errors
    /// The reader failed.
    pub fn advance<R: Source>(&mut self, reader: &mut R) -> Result<Advance, ReadFailed>
        requires { R.failed reader.old ≡ false }
        ensures failed { R.failed reader.new ≡ is_err result }
        ensures next { (taken : List ℕ) × Consumes (R.left reader.old) (R.left reader.new) taken
            × (self.old.ended ≡ true → taken ≡ []) × Advances (self.old.pending ++ taken) self.new result }
        ensures end { KnowsEnd self.old (R.left reader.old) (R.ended reader.old) → KnowsEnd self.new (R.left reader.new) (R.ended reader.new) }
        ensures ended { self.old.ended ≡ true → self.new.ended ≡ true }
        ensures longest { self.new.longest ≡ self.old.longest }
    {
        loop {
            if let Some(step) = self.first_line() {
                return Ok(step);
            }
            if self.fill(reader)? == 0 {
                return Ok(self.last_line());
            }
        }
    }

    // The bytes that came and were not yet given as a line.
    fn pending(&self) -> &[u8]
        ensures { result.now ≡ self.now.pending }
    {
        &self.buffer[self.start..self.end]
    }

    // Gives the first bytes as the line, and lets go of these and of what ends it.
    fn give(&mut self, count: usize, taken: usize)
        requires line { count ≤ taken }
        requires within { taken ≤ length self.old.pending }
        ensures line { self.new.line ≡ take count self.old.pending }
        ensures taken { self.new.taken ≡ take taken self.old.pending }
        ensures pending { self.new.pending ≡ drop taken self.old.pending }
        ensures longest { self.new.longest ≡ self.old.longest }
        ensures ended { self.new.ended ≡ self.old.ended }
    {
        self.line_start = self.start;
        self.line_end = self.start + count;
        self.start += taken;
        self.ahead = bytes_ahead(&self.buffer[self.start..self.end], 0);
    }

    // The step over the first line, if the bytes that came tell it.
    fn first_line(&mut self) -> Option<Advance>
        ensures some { IfSome result (Steps self.old.pending self.new) }
        ensures not_the_end { IfSome result (λ step. step ≢ Advance.End) }
        ensures none { IfNone result ((self.new ≡ self.old) × HasNoLineFeed self.old.pending
            × (length self.old.pending ≤ self.old.longest)) }
        ensures longest { self.new.longest ≡ self.old.longest }
        ensures ended { self.new.ended ≡ self.old.ended }
    {
        let length = self.ahead;
        if length > self.longest {
            self.give(0, 0);
            return Some(Advance::Overlong);
        }
        if length == self.pending().len() {
            return None;
        }
        self.give(length, length + 1);
        Some(Advance::Line)
    }

    // The step at the end of the input.
    fn last_line(&mut self) -> Advance
        requires one_line { HasNoLineFeed self.old.pending }
        requires within { length self.old.pending ≤ self.old.longest }
        requires over { self.old.ended ≡ true }
        ensures step { Steps self.old.pending self.new result }
        ensures longest { self.new.longest ≡ self.old.longest }
        ensures ended { self.new.ended ≡ true }
    {
        let count = self.pending().len();
        self.give(count, count);
        if count == 0 {
            Advance::End
        } else {
            Advance::Line
        }
    }

    // Reads more bytes behind those that pend, and answers how many: none where the input ends, which is then not read
    // again. The last line goes.
    fn fill<R: Source>(&mut self, reader: &mut R) -> Result<usize, ReadFailed>
        requires works { R.failed reader.old ≡ false }
        requires room { length self.old.pending ≤ self.old.longest }
        ensures failed { R.failed reader.new ≡ is_err result }
        ensures ok { IfOk result (λ count. (more : List ℕ) × (length more ≡ count)
            × (self.new.pending ≡ self.old.pending ++ more) × Consumes (R.left reader.old) (R.left reader.new) more
            × (self.old.ended ≡ true → more ≡ []) × (count ≡ 0 → self.new.ended ≡ true)) }
        ensures err { OnErr result ((self.new.pending ≡ self.old.pending) × (self.new.ended ≡ false)
            × Keeps (R.left reader.old) (R.left reader.new)) }
        ensures end { KnowsEnd self.old (R.left reader.old) (R.ended reader.old) → KnowsEnd self.new (R.left reader.new) (R.ended reader.new) }
        ensures ended { self.old.ended ≡ true → self.new.ended ≡ true }
        ensures line { self.new.line ≡ [] }
        ensures longest { self.new.longest ≡ self.old.longest }
    {
        let count = self.end - self.start;
        move_to_front(&mut self.buffer, self.start, self.end);
        self.line_start = 0;
        self.line_end = 0;
        self.start = 0;
        self.end = count;
        if self.ended {
            return Ok(0);
        }
        let more = reader.read(&mut self.buffer[count..])?;
        self.end = count + more;
        self.ended = more == 0;
        self.ahead = bytes_ahead(&self.buffer[..self.end], self.ahead);
        Ok(more)
    }
}

// How many of these bytes stand before their first line feed: all, if they have none. The first `searched` have none.
fn bytes_ahead(bytes: &[u8], searched: usize) -> usize
    requires within { searched ≤ length bytes.now }
    requires none_yet { HasNoLineFeed (take searched bytes.now) }
    ensures { IsAhead bytes.now result }
{
    match memchr(b'\n', &bytes[searched..]) {
        Some(further) => searched + further,
        None => bytes.len(),
    }
}

// Moves these bytes to the front of the buffer.
fn move_to_front(buffer: &mut Vec<u8>, start: usize, end: usize)
    requires ordered { start ≤ end }
    requires within { end ≤ vec_len buffer.old }
    ensures moved { take (end - start) buffer.new.items ≡ slice_range buffer.old.items start end }
    ensures len { vec_len buffer.new ≡ vec_len buffer.old }
{
    if start > 0 {
        buffer.copy_within(start..end, 0);
    }
}
