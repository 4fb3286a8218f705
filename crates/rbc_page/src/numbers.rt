//! What was counted, in the text format that Prometheus reads.

ghost use Rattle.std.specs.Prelude.{◌≡◌, ◌++◌, IfOk};
ghost use Rattle.rbc_page.specs.Metrics.{micros_text, numbers_text, with_all_refused, with_commits, with_connections, with_history, with_number, with_refusals, with_refused, with_replies, with_seconds, with_type, with_value};

use crate::fields::{put, put_decimal};
use rbc_model::Memory;
use std::alloc::Global;

/// How many lines were refused for one reason.
#[derive(Clone, Copy)]
pub struct Refused<'a> {
    /// The word of the reason.
    pub word: &'a [u8],
    /// How many.
    pub count: u64,
}

/// What is told of a centre.
#[derive(Clone, Copy)]
pub struct Numbers<'a> {
    /// Entries of the history.
    pub entries: u64,
    /// How many it may have.
    pub most_entries: u64,
    /// Trains that have reported and not left.
    pub trains: u64,
    /// Sections that are locked.
    pub locked: u64,
    /// Connections that are open.
    pub open: u64,
    /// Connections that have begun.
    pub connections: u64,
    /// Lines that were read.
    pub lines: u64,
    /// Replies `ok`.
    pub ok: u64,
    /// Replies `granted`.
    pub granted: u64,
    /// Replies `blocked`.
    pub blocked: u64,
    /// Lines that were refused.
    pub refused: &'a [Refused<'a>],
    /// Puts into the journal.
    pub commits: u64,
    /// How long all of them took, in whole microseconds.
    pub commit_micros: u64,
}

/// Writes the line that says what a number is.
#[tactic(auto, unfolding(crate::specs::Metrics::with_type))]
fn put_type(text: &mut Vec<u8>, name: &[u8], kind: &[u8]) -> Result<(), Memory>
    ensures { IfOk result (λ done. text.new.items ≡ with_type text.old.items name.now kind.now) }
{
    put(text, b"# TYPE rbc_")?;
    put(text, name)?;
    put(text, b" ")?;
    put(text, kind)?;
    put(text, b"\n")?;
    Ok(())
}

/// Writes the line of a number.
#[tactic(auto, unfolding(crate::specs::Metrics::with_value))]
fn put_value(text: &mut Vec<u8>, name: &[u8], value: u64) -> Result<(), Memory>
    ensures { IfOk result (λ done. text.new.items ≡ with_value text.old.items name.now value) }
{
    put(text, b"rbc_")?;
    put(text, name)?;
    put(text, b" ")?;
    put_decimal(text, value)?;
    put(text, b"\n")?;
    Ok(())
}

/// Writes a number of this kind.
#[tactic(auto, unfolding(crate::specs::Metrics::with_number))]
fn put_number(text: &mut Vec<u8>, name: &[u8], kind: &[u8], value: u64) -> Result<(), Memory>
    ensures { IfOk result (λ done. text.new.items ≡ with_number text.old.items name.now kind.now value) }
{
    put_type(text, name, kind)?;
    put_value(text, name, value)?;
    Ok(())
}

/// Writes the digits behind the point of a time in seconds.
fn put_micros(text: &mut Vec<u8>, micros: u64) -> Result<(), Memory>
    ensures { IfOk result (λ done. text.new.items ≡ text.old.items ++ micros_text micros) }
{
    let mut digits = itoa::Buffer::new();
    let digits = digits.format(micros % 1_000_000 + 1_000_000).as_bytes();
    put(text, digits.get(1..).unwrap_or(&[]))?;
    Ok(())
}

/// Writes the line of a time in whole microseconds, which is told in seconds.
#[tactic(auto, unfolding(crate::specs::Metrics::with_seconds))]
fn put_seconds(text: &mut Vec<u8>, name: &[u8], micros: u64) -> Result<(), Memory>
    ensures { IfOk result (λ done. text.new.items ≡ with_seconds text.old.items name.now micros) }
{
    put(text, b"rbc_")?;
    put(text, name)?;
    put(text, b" ")?;
    put_decimal(text, micros / 1_000_000)?;
    put(text, b".")?;
    put_micros(text, micros)?;
    put(text, b"\n")?;
    Ok(())
}

/// Writes the line of one reason.
#[tactic(auto, unfolding(crate::specs::Metrics::with_refused))]
fn put_refused(text: &mut Vec<u8>, word: &[u8], count: u64) -> Result<(), Memory>
    ensures { IfOk result (λ done. text.new.items ≡ with_refused text.old.items word.now count) }
{
    put(text, b"rbc_refused_total{kind=\"")?;
    put(text, word)?;
    put(text, b"\"} ")?;
    put_decimal(text, count)?;
    put(text, b"\n")?;
    Ok(())
}

/// Writes the lines of all reasons.
fn put_all_refused(text: &mut Vec<u8>, refused: &[Refused<'_>]) -> Result<(), Memory>
    ensures { IfOk result (λ done. text.new.items ≡ with_all_refused text.old.items refused.now) }
{
    for reason in refused {
        put_refused(text, reason.word, reason.count)?;
    }
    Ok(())
}

impl<'a> Numbers<'a> {
    /// Writes how far the history is.
    #[tactic(auto, unfolding(crate::specs::Metrics::with_history))]
    fn put_history(&self, text: &mut Vec<u8>) -> Result<(), Memory>
        ensures { IfOk result (λ done. text.new.items ≡ with_history text.old.items self.now) }
    {
        put_number(text, b"entries", b"gauge", self.entries)?;
        put_number(text, b"most_entries", b"gauge", self.most_entries)?;
        put_number(text, b"trains", b"gauge", self.trains)?;
        put_number(text, b"locked_sections", b"gauge", self.locked)?;
        Ok(())
    }

    /// Writes what is told of connections.
    #[tactic(auto, unfolding(crate::specs::Metrics::with_connections))]
    fn put_connections(&self, text: &mut Vec<u8>) -> Result<(), Memory>
        ensures { IfOk result (λ done. text.new.items ≡ with_connections text.old.items self.now) }
    {
        put_number(text, b"open_connections", b"gauge", self.open)?;
        put_number(text, b"connections_total", b"counter", self.connections)?;
        put_number(text, b"lines_total", b"counter", self.lines)?;
        Ok(())
    }

    /// Writes the replies that refuse nothing.
    #[tactic(auto, unfolding(crate::specs::Metrics::with_replies))]
    fn put_replies(&self, text: &mut Vec<u8>) -> Result<(), Memory>
        ensures { IfOk result (λ done. text.new.items ≡ with_replies text.old.items self.now) }
    {
        put_number(text, b"ok_total", b"counter", self.ok)?;
        put_number(text, b"granted_total", b"counter", self.granted)?;
        put_number(text, b"blocked_total", b"counter", self.blocked)?;
        Ok(())
    }

    /// Writes the replies that refuse, for each reason.
    #[tactic(auto, unfolding(crate::specs::Metrics::with_refusals))]
    fn put_refusals(&self, text: &mut Vec<u8>) -> Result<(), Memory>
        ensures { IfOk result (λ done. text.new.items ≡ with_refusals text.old.items self.now) }
    {
        put_type(text, b"refused_total", b"counter")?;
        put_all_refused(text, self.refused)?;
        Ok(())
    }

    /// Writes what is told of the journal.
    #[tactic(auto, unfolding(crate::specs::Metrics::with_commits))]
    fn put_commits(&self, text: &mut Vec<u8>) -> Result<(), Memory>
        ensures { IfOk result (λ done. text.new.items ≡ with_commits text.old.items self.now) }
    {
        put_number(text, b"commits_total", b"counter", self.commits)?;
        put_type(text, b"commit_seconds_total", b"counter")?;
        put_seconds(text, b"commit_seconds_total", self.commit_micros)?;
        Ok(())
    }

    /// All of it as a text.
    ///
    /// # Errors
    ///
    /// [`Memory`]: there is no room for it.
    #[tactic(auto, unfolding(crate::specs::Metrics::numbers_text))]
    pub fn text(&self, alloc: Global) -> Result<Vec<u8>, Memory>
        ensures { IfOk result (λ text. text.items ≡ numbers_text self.now) }
    {
        let mut text = Vec::new(alloc);
        self.put_history(&mut text)?;
        self.put_connections(&mut text)?;
        self.put_replies(&mut text)?;
        self.put_refusals(&mut text)?;
        self.put_commits(&mut text)?;
        Ok(text)
    }
}
