//! A request, written as a line of a session.

ghost use Rattle.std.specs.Prelude.{◌≡◌, ◌∷◌, false, Ok};
ghost use Rattle.rbc_model.specs.HistoryText.{told_request, IsToldOfTrack};
ghost use Rattle.rbc_model.specs.SceneLines.{report_words};
ghost use Rattle.rbc_model.specs.SessionText.{inquiry_word, nominal_word, parse_session, said_line, said_words, IsSayable};
ghost use Rattle.rbc_model.specs.Sessions.{Prints};
ghost use Rattle.rbc_streams.specs.Emitting.{Emits};
ghost use Rattle.rbc_model.specs.Words.{line_of};
ghost use Rattle.rbc_words.specs.SessionLines.{request_view};

use crate::Request;
use crate::line_words::{Word, emit_line};
use rbc_model::{Inquiry, Report, Told};
use rbc_streams::{Sink, WriteFailed, emit, outcome};
use rbc_track::Track;

/// The request that tells this, its route or section by the name that the track gives it.
pub fn told_request(track: &Track, told: &Told) -> Request
    requires { IsToldOfTrack track.now told.now }
    ensures { request_view result ≡ told_request track.now told.now }
{
    match *told {
        Told::Report(report) => Request::Report(report),
        Told::Lock(route) => Request::Lock(track.route_at(route).name()),
        Told::Free(section) => Request::Free(track.section_at(section).name()),
        Told::Leave(train) => Request::Leave(train),
        Told::GiveBack(train, end) => Request::GiveBack(train, end),
    }
}

/// Writes a request as a line, which `parse` reads back where the number of its train is one. It takes no memory.
///
/// # Errors
///
/// `WriteFailed`, where the writer fails. Then a part of the line stands, from its start.
pub fn print_request<W: Sink>(request: &Request, writer: &mut W) -> Result<(), WriteFailed>
    requires { W.failed writer.old ≡ false }
    ensures text { Prints (W.written writer.old) (W.written writer.new) (W.failed writer.new)
        (line_of (said_words (request_view request.now))) result }
    ensures read_back { IsSayable (request_view request.now)
        → parse_session (said_line (request_view request.now)) ≡ Ok (request_view request.now) }
{
    emit_request(request, writer);
    outcome(writer)
}

/// Writes a request as a line. It takes no memory.
pub fn emit_request<W: Sink>(request: &Request, writer: &mut W)
    ensures { Emits W.written W.failed writer.old writer.new
        (line_of (said_words (request_view request.now))) }
{
    match request {
        Request::Blank => emit(writer, b"\n"),
        Request::Report(report) => emit_report(b"report", report, writer),
        Request::Lock(name) => emit_line(b"lock", &[Word::Name(*name)], writer),
        Request::Free(name) => emit_line(b"free", &[Word::Name(*name)], writer),
        Request::Leave(train) => emit_line(b"leave", &[Word::Number(train.number())], writer),
        Request::GiveBack(train, end) => {
            emit_line(
                b"yield",
                &[Word::Number(train.number()), Word::Number(end.metres())],
                writer,
            )
        }
        Request::Ask(train) => emit_line(b"ask", &[Word::Number(train.number())], writer),
        Request::Inquire(inquiry) => emit_line(inquiry_word(*inquiry), &[], writer),
    }
}

/// Writes a line that tells a report: its first word, and the words of the report behind it. It takes no memory.
pub fn emit_report<W: Sink>(first: &[u8], report: &Report, writer: &mut W)
    ensures { Emits W.written W.failed writer.old writer.new
        (line_of (first.now ∷ report_words report.now)) }
{
    let words = [
        Word::Number(report.train().number()),
        Word::Group(report.group()),
        Word::Text(nominal_word(report.nominal())),
        Word::Number(report.distance().metres()),
        Word::Number(u32::from(report.over())),
        Word::Number(u32::from(report.under())),
        Word::Number(u32::from(report.length())),
        Word::Number(report.time()),
    ];
    emit_line(first, &words, writer);
}

/// What is asked to be shown, as a word.
fn inquiry_word(inquiry: Inquiry) -> &'static [u8]
    ensures { result.now ≡ inquiry_word inquiry }
{
    match inquiry {
        Inquiry::State => b"state",
        Inquiry::Scene => b"scene",
    }
}

/// The direction of a train as a word.
fn nominal_word(nominal: bool) -> &'static [u8]
    ensures { result.now ≡ nominal_word nominal }
{
    if nominal { b"nominal" } else { b"reverse" }
}
