//! The session over a text with messages: each is printed field by field, and in words.

ghost use Rattle.std.specs.Prelude.{◌≡◌, ◌↔◌, ◌≤◌, ◌/◌, ◌||◌, ℕ, List, Bool, [], not, true, false, length, IsTrue, OnOk, IfOk, Ok, Err};
ghost use Rattle.std.specs.Io.KnownBytes.{Consumes, IsAtEnd};
ghost use Rattle.rbc_model.specs.declared.limits.TheConstants.{LONGEST_CHECK_LINE};
ghost use Rattle.rbc_model.specs.declared.sessions.SessionFault.TheVariants.{Read, Write, Memory as NoMemory};
ghost use Rattle.rbc_model.specs.Talks.{IsTalk};
ghost use Rattle.rbc_streams.specs.Emitting.{Emits};
ghost use Rattle.rbc_decode.specs.Readings.{read_as};
ghost use Rattle.rbc_model.specs.Words.{words_of};
ghost use Rattle.rbc_decode.specs.Spelling.{spelled};
ghost use Rattle.rbc_decode.specs.DecodeText.{spelled_reply, are_refused, told_reply, is_told_refused, told_view};
ghost use Rattle.rbc_decode.specs.DecodeText.{AnswersDecode, DecodesAll, Printing, outcome_of, next_number, opening};
ghost use Rattle.rbc_decode.specs.declared.decoding.Progress.{Progress};

use crate::fields::{Found, Item};
use crate::granted::{GrantedLine, granted_by};
use crate::json_line::{emit_json, emit_wrong_json};
use crate::line::{Meant, meant_in};
use crate::listing::{LIST, NO_FIELD, list_fields};
use crate::spelling::{Octets, Wrong, spell};
use crate::text::{emit_told, emit_wrong};
use rbc_model::limits::LONGEST_CHECK_LINE;
use rbc_streams::{LineHandler, Sink, Source, WriteFailed, outcome, serve_lines};
use rbc_words::SessionFault;
use std::alloc::Global;
use std::thread::Threads;

/// What is known of a message, or of a packet alone, before its fields are read.
#[derive(Clone, Copy)]
pub struct Heading {
    /// The number of its line, from 1 on.
    pub line: u32,
    /// What the line before tells, if it is a line `granted`.
    pub granted: Option<GrantedLine>,
    /// Whether it is a packet alone.
    pub is_packet: bool,
}

/// How a message or a packet alone is printed.
pub trait Form {
    /// What is printed of one, and of digits with which something is wrong.
    ghost printing: { Printing };

    /// Writes what was read under this heading: these fields, and the first fault that was found.
    fn emit_reading<W: Sink>(heading: Heading, items: &[Item], found: Option<Found>, writer: &mut W)
        ensures { Emits W.written W.failed writer.old writer.new
            (printing.told heading.line heading.granted heading.is_packet (read_as items.now found)) };

    /// Writes what is wrong with digits in the line of this number.
    fn emit_wrong<W: Sink>(line: u32, wrong: Wrong, writer: &mut W)
        ensures { Emits W.written W.failed writer.old writer.new (printing.wrong line wrong) };
}

/// Lines of fields, and of words.
pub struct Plain;

impl Form for Plain {
    ghost use Rattle.rbc_decode.specs.DecodeText.{plain};

    ghost printing = { plain };

    fn emit_reading<W: Sink>(
        heading: Heading,
        items: &[Item],
        found: Option<Found>,
        writer: &mut W,
    ) {
        emit_told(heading.line, items, found, writer);
    }

    fn emit_wrong<W: Sink>(line: u32, wrong: Wrong, writer: &mut W) {
        emit_wrong(line, wrong, writer);
    }
}

/// A line of JSON.
pub struct Json;

impl Form for Json {
    ghost use Rattle.rbc_decode.specs.DecodeText.{json};

    ghost printing = { json };

    fn emit_reading<W: Sink>(
        heading: Heading,
        items: &[Item],
        found: Option<Found>,
        writer: &mut W,
    ) {
        emit_json(heading, items, found, writer);
    }

    fn emit_wrong<W: Sink>(line: u32, wrong: Wrong, writer: &mut W) {
        emit_wrong_json(line, wrong, writer);
    }
}

/// How far a session is.
#[derive(Clone, Copy, Debug, PartialEq, Eq)]
pub struct Progress {
    /// The number of the next line, from 1 on.
    pub line: u32,
    /// Whether a message or packet was refused so far.
    pub refused: bool,
    /// What the line before tells, if it is a line `granted`.
    pub granted: Option<GrantedLine>,
}

/// Reads messages and packets.
#[derive(Drop)]
struct Decoder {
    progress: Progress,
    /// Room for the fields of one.
    items: [Item; LIST],
}

impl Decoder {
    /// Counts the next line, and answers its number.
    fn count(&mut self) -> u32
        ensures number { result ≡ self.old.progress.line }
        ensures line { self.new.progress.line ≡ next_number self.old.progress.line }
        ensures refused { self.new.progress.refused ≡ self.old.progress.refused }
        ensures granted { self.new.progress.granted ≡ self.old.progress.granted }
    {
        let line = self.progress.line;
        self.progress.line = line.saturating_add(1);
        line
    }

    /// Keeps what a line tells up to the next one, and answers what the line before it told.
    fn follow(&mut self, granted: Option<GrantedLine>) -> Option<GrantedLine>
        ensures before { result ≡ self.old.progress.granted }
        ensures kept { self.new.progress.granted ≡ granted }
        ensures line { self.new.progress.line ≡ self.old.progress.line }
        ensures refused { self.new.progress.refused ≡ self.old.progress.refused }
    {
        let before = self.progress.granted;
        self.progress.granted = granted;
        before
    }

    /// Writes what the line of this number has told, behind a line that tells this.
    fn emit_told<F: Form, W: Sink>(
        &mut self,
        line: u32,
        granted: Option<GrantedLine>,
        told: Meant,
        writer: &mut W,
    )
        ensures reply { Emits W.written W.failed writer.old writer.new
            (told_reply F.printing line granted (told_view told.entry)) }
        ensures refused { self.new.progress.refused ≡ (self.old.progress.refused || is_told_refused (told_view told.entry)) }
        ensures line { self.new.progress.line ≡ self.old.progress.line }
        ensures granted { self.new.progress.granted ≡ self.old.progress.granted }
    {
        match told {
            Meant::Message(text) => {
                let heading = Heading {
                    line,
                    granted,
                    is_packet: false,
                };
                self.emit_spelled::<F, W>(heading, text, writer);
            }
            // A line `granted` tells of a message alone.
            Meant::Packet(text) => {
                let heading = Heading {
                    line,
                    granted: None,
                    is_packet: true,
                };
                self.emit_spelled::<F, W>(heading, text, writer);
            }
            Meant::None => {}
        }
    }

    /// Writes what the digits of a message tell, or of a packet alone, or what is wrong with them.
    fn emit_spelled<F: Form, W: Sink>(&mut self, heading: Heading, text: &[u8], writer: &mut W)
        ensures reply { Emits W.written W.failed writer.old writer.new
            (spelled_reply F.printing heading.line heading.granted heading.is_packet (spelled 0 (words_of text.now))) }
        ensures refused { self.new.progress.refused
            ≡ (self.old.progress.refused || are_refused heading.is_packet (spelled 0 (words_of text.now))) }
        ensures line { self.new.progress.line ≡ self.old.progress.line }
        ensures granted { self.new.progress.granted ≡ self.old.progress.granted }
    {
        let mut octets = Octets::new();
        if let Err(wrong) = spell(text, &mut octets) {
            self.progress.refused = true;
            F::emit_wrong(heading.line, wrong, writer);
            return;
        }
        let (count, found) = list_fields(heading.is_packet, octets.bytes(), &mut self.items);
        self.progress.refused = self.progress.refused || found.is_some();
        F::emit_reading(heading, &self.items[..count], found, writer);
    }
}

impl<F: Form> LineHandler<F> for Decoder {
    type State = Progress;

    ghost use Rattle.std.specs.Prelude.{⊤, false, refl};
    ghost use Rattle.rbc_model.specs.declared.limits.TheConstants.{LONGEST_CHECK_LINE};
    ghost use Rattle.rbc_decode.specs.DecodeText.{AnswersDecode};

    ghost longest = { LONGEST_CHECK_LINE };

    ghost state = { λ d. d.progress };

    ghost answers = { AnswersDecode F.printing };

    // Decoding never fails.
    ghost ready = { λ _. ⊤ };

    ghost broken = { λ _. false };

    ghost works = { λ _ _. refl };

    ghost goes_on = { λ _ _ _ _ _ _. tt };

    ghost rests = { λ _. 0 };

    fn longest_line() -> usize {
        LONGEST_CHECK_LINE
    }

    fn answer<T: Threads + Sync, W: Sink>(
        &mut self,
        _rt: &T,
        _alloc: Global,
        help: &F,
        line: &[u8],
        _more: bool,
        writer: &mut W,
    ) -> Result<(), WriteFailed> {
        if line.len() > LONGEST_CHECK_LINE {
            return self.refuse(help, writer);
        }
        let number = self.count();
        let granted = self.follow(granted_by(line));
        self.emit_told::<F, W>(number, granted, meant_in(line), writer);
        outcome(writer)
    }

    fn refuse<W: Sink>(&mut self, _help: &F, writer: &mut W) -> Result<(), WriteFailed> {
        let number = self.count();
        let _ = self.follow(None);
        self.progress.refused = true;
        F::emit_wrong(number, Wrong::Overlong, writer);
        outcome(writer)
    }
}

/// Prints each message and packet in the text that is read, field by field and in words, or what is wrong with it and
/// where, in this form. Answers whether none was refused.
///
/// # Errors
/// `Memory` before anything is read or written. Then, for each line in order: `Read` where the reader fails, `Write`
/// where the writer does, `Overlong` behind the reply to a line that is too long; `Lines` where a further byte comes
/// after the last line that a session treats.
pub fn decode<F: Form, R: Source, W: Sink>(
    form: &F,
    rt: &(impl Threads + Sync),
    alloc: Global,
    reader: &mut R,
    writer: &mut W,
) -> Result<bool, SessionFault>
    requires reader { R.failed reader.old ≡ false }
    requires writer { W.failed writer.old ≡ false }

    // A read or write fault is answered exactly where the reader or the writer failed.
    ensures read { (result ≡ Err Read) ↔ IsTrue (R.failed reader.new) }
    ensures write { (result ≡ Err Write) ↔ IsTrue (W.failed writer.new) }

    // Without memory nothing begins.
    ensures memory { result ≡ Err NoMemory → (reader.new ≡ reader.old) × (writer.new ≡ writer.old) }

    // Ok is answered at the end of the input, which the last read found.
    ensures end { OnOk result (IsAtEnd (R.left reader.new)) }
    ensures ended { OnOk result (R.ended reader.new ≡ true) }

    // What was written answers the lines of what was read, and Ok tells whether none was refused.
    ensures talk { (input : List ℕ) × Consumes (R.left reader.old) (R.left reader.new) input × (last : Progress)
        × IsTalk LONGEST_CHECK_LINE (AnswersDecode F.printing) opening last input (W.written writer.old) (W.written writer.new)
        (outcome_of result) × IfOk result (λ all. all ≡ not last.refused) }

    // At the end of the input what was written, and whether none was refused, is one function of what was read.
    ensures answers { IfOk result (λ all. DecodesAll F.printing all (R.left reader.old) (W.written writer.old) (W.written writer.new)) }

    // And it was handed on, unless the writer failed.
    ensures handed_on { W.failed writer.new ≡ false → W.held_back writer.old ≡ [] → W.held_back writer.new ≡ [] }
{
    let mut decoder = Decoder {
        progress: Progress {
            line: 1,
            refused: false,
            granted: None,
        },
        items: [NO_FIELD; LIST],
    };
    serve_lines(rt, alloc, reader, writer, &mut decoder, form)?;
    Ok(!decoder.progress.refused)
}
