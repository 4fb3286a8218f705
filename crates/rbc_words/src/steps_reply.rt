//! The replies of `rbc steps`, printed: a refusal, or a certificate with its packet.

ghost use Rattle.std.specs.Prelude.{◌≡◌, ◌+◌, ◌*◌, ◌≤◌, ℕ, List, [], ◌∷◌, ◌++◌, decimal, codes, length};
ghost use Rattle.rbc_streams.specs.Emitting.{Emits};
ghost use Rattle.rbc_model.specs.Words.{line_of};
ghost use Rattle.rbc_model.specs.StepsReply.{fault_words, refusal_words, refusal_reply};
ghost use Rattle.rbc_model.specs.StepsReply.{profile_line};
ghost use Rattle.rbc_words.specs.Replies.{runs_text, track_text, certificate_lines, certified_text};

use crate::price_table::emit_table;
use crate::tail_buffer::TailBuffer;
use crate::{Spelled, emit_hex_between};
use rbc_model::{LineFault, StepsRefusal};
use rbc_steps::{Profile, Runs};
use rbc_streams::{Sink, emit};

/// Writes the reply to a line that is refused.
pub fn emit_refusal<W: Sink>(refusal: StepsRefusal, writer: &mut W)
    ensures { Emits W.written W.failed writer.old writer.new
        (refusal_reply refusal) }
{
    emit(writer, b"refused ");
    emit_cause(refusal, writer);
}

fn emit_cause<W: Sink>(refusal: StepsRefusal, writer: &mut W)
    ensures { Emits W.written W.failed writer.old writer.new
        (line_of (refusal_words refusal)) }
{
    match refusal {
        StepsRefusal::BadLine(fault) => emit_fault(fault, writer),
        StepsRefusal::NotRising => emit(writer, b"NotRising\n"),
        StepsRefusal::OutOfRange => emit(writer, b"OutOfRange\n"),
        StepsRefusal::Memory => emit(writer, b"Memory\n"),
    }
}

fn emit_fault<W: Sink>(fault: LineFault, writer: &mut W)
    ensures { Emits W.written W.failed writer.old writer.new
        (line_of (fault_words fault)) }
{
    match fault {
        LineFault::Overlong => emit(writer, b"Overlong\n"),
        LineFault::NotText => emit(writer, b"NotText\n"),
        LineFault::Command => emit(writer, b"Command\n"),
        LineFault::Words => emit(writer, b"Words\n"),
        LineFault::Number(word) => emit_last(b"Number ", word as u64, writer),
        LineFault::Name(word) => emit_last(b"Name ", word as u64, writer),
    }
}

/// How many bytes may stand before a number that is written at once with them.
const LONGEST_NAME: usize = 64;

/// Writes the number at the end of a line, behind what it is.
pub fn emit_last<W: Sink>(name: &[u8], number: u64, writer: &mut W)
    ensures { Emits W.written W.failed writer.old writer.new
        (name.now ++ (decimal number ++ 10 ∷ [])) }
{
    let mut text = TailBuffer::new();
    text.byte(b'\n');
    text.number(number);
    if name.len() > LONGEST_NAME {
        emit(writer, name);
        emit(writer, text.bytes());
        return;
    }
    text.text(name);
    emit(writer, text.bytes());
}

/// What a profile was chosen for, and the table that shows that none loses less.
#[derive(Clone, Copy)]
pub struct Basis<'reply, V: Spelled> {
    /// How many steps the profile may have, 1 to 31.
    pub limit: usize,
    /// The track.
    pub track: &'reply Runs<V>,
    /// The rows of the table of prices, one for each number of steps from 1. A table without rows is not printed.
    pub prices: &'reply [Vec<u64>],
}

/// Writes the certificate of a profile: its track, the profile with what it loses, summed over all metres (km/h, or per
/// mille), and the prices.
pub fn emit_certificate<V: Spelled, W: Sink>(
    profile: &Profile<V>,
    loss: u64,
    basis: &Basis<V>,
    writer: &mut W,
)
    ensures { Emits W.written W.failed writer.old writer.new
        (certificate_lines V.kind profile.now loss basis.now) }
{
    emit_track(basis.limit, basis.track, writer);
    emit_profile(profile, loss, writer);
    emit_table(basis.prices, writer);
}

/// Writes the certificate of a profile, and the packet that holds the profile.
pub fn emit_certified<V: Spelled, W: Sink>(
    profile: &Profile<V>,
    loss: u64,
    basis: &Basis<V>,
    packet: &[u8],
    writer: &mut W,
)
    ensures { Emits W.written W.failed writer.old writer.new
        (certified_text V.kind profile.now loss basis.now packet.now) }
{
    emit_certificate(profile, loss, basis, writer);
    emit_hex_between(b"packet ", packet, b"\ndone\n", writer);
}

/// Writes the line of a track, with the limit of steps.
fn emit_track<V: Spelled, W: Sink>(limit: usize, track: &Runs<V>, writer: &mut W)
    ensures { Emits W.written W.failed writer.old writer.new
        (track_text V.kind limit track.now) }
{
    let runs = track.runs();
    let end = u64::from(track.end());
    if runs.len() > SHORT {
        emit_command::<V, W>(limit, writer);
        emit_line_end(runs, b" end ", end, writer);
        return;
    }
    let mut text = TailBuffer::new();
    gather_line_end(runs, b" end ", end, &mut text);
    gather_command::<V>(limit, &mut text);
    emit(writer, text.bytes());
}

/// How many runs or steps a line has at most that is written at once.
const SHORT: usize = 4;

/// Writes the command for such levels, and the limit of steps behind it.
fn emit_command<V: Spelled, W: Sink>(limit: usize, writer: &mut W)
    ensures { Emits W.written W.failed writer.old writer.new
        (V.kind.command ++ (32 ∷ decimal limit)) }
{
    let mut text = TailBuffer::new();
    gather_command::<V>(limit, &mut text);
    emit(writer, text.bytes());
}

/// Puts the command for such levels, and the limit of steps behind it, before a text.
#[inline(always)]
fn gather_command<V: Spelled>(limit: usize, text: &mut TailBuffer)
    requires { length text.old + 37 ≤ 256 }
    ensures { text.new ≡ (V.kind.command ++ (32 ∷ decimal limit)) ++ text.old }
{
    text.number(limit as u64);
    text.byte(b' ');
    text.text(V::command());
}

/// Writes the line of a profile, with what it loses.
fn emit_profile<V: Spelled, W: Sink>(profile: &Profile<V>, loss: u64, writer: &mut W)
    ensures { Emits W.written W.failed writer.old writer.new
        (profile_line V.kind profile.now.steps loss) }
{
    let steps = profile.steps();
    if steps.len() > SHORT {
        emit(writer, b"steps");
        emit_line_end(steps, b" loss ", loss, writer);
        return;
    }
    let mut text = TailBuffer::new();
    gather_line_end(steps, b" loss ", loss, &mut text);
    text.text(b"steps");
    emit(writer, text.bytes());
}

/// Writes the end of a line: runs or steps, and the number at its end behind what it is.
fn emit_line_end<V: Spelled, W: Sink>(runs: &[(u32, V)], name: &[u8], number: u64, writer: &mut W)
    ensures { Emits W.written W.failed writer.old writer.new
        (runs_text V.kind runs.now ++ (name.now ++ (decimal number ++ 10 ∷ []))) }
{
    emit_runs(runs, writer);
    emit_last(name, number, writer);
}

/// Puts the end of a line before a text: runs or steps, and the number at its end behind what it is.
#[inline(always)]
fn gather_line_end<V: Spelled>(runs: &[(u32, V)], name: &[u8], number: u64, text: &mut TailBuffer)
    requires { length text.old + length name.now + 43 * length runs.now + 21 ≤ 256 }
    ensures text { text.new ≡ runs_text V.kind runs.now ++ (name.now ++ (decimal number ++ 10 ∷ text.old)) }
    ensures length { length text.new ≤ length text.old + length name.now + 43 * length runs.now + 21 }
{
    text.byte(b'\n');
    text.number(number);
    text.text(name);
    gather_runs(runs, text);
}

/// How many runs or steps of a longer line are written at once.
const PIECE: usize = 5;

/// Writes runs or steps (start, value), each behind a space.
pub fn emit_runs<V: Spelled, W: Sink>(runs: &[(u32, V)], writer: &mut W)
    ensures { Emits W.written W.failed writer.old writer.new
        (runs_text V.kind runs.now) }
{
    let mut rest = runs;
    while !rest.is_empty() {
        let (piece, more) = rest.split_at(rest.len().min(PIECE));
        emit_piece(piece, writer);
        rest = more;
    }
}

/// Writes a few runs or steps, each behind a space.
fn emit_piece<V: Spelled, W: Sink>(piece: &[(u32, V)], writer: &mut W)
    requires few { length piece.now ≤ 5 }
    ensures { Emits W.written W.failed writer.old writer.new
        (runs_text V.kind piece.now) }
{
    let mut text = TailBuffer::new();
    gather_runs(piece, &mut text);
    emit(writer, text.bytes());
}

/// Puts runs or steps, each behind a space, before a text.
#[inline(always)]
fn gather_runs<V: Spelled>(runs: &[(u32, V)], text: &mut TailBuffer)
    requires { length text.old + 43 * length runs.now ≤ 256 }
    ensures text { text.new ≡ runs_text V.kind runs.now ++ text.old }
    ensures length { length text.new ≤ length text.old + 43 * length runs.now }
{
    for i in (0..runs.len()).rev() {
        let (start, value) = runs[i];
        value.gather(text);
        text.byte(b':');
        text.number(u64::from(start));
        text.byte(b' ');
    }
}
