//! What a line of a session asks the centre for.

ghost use Rattle.std.specs.Prelude.{◌≡◌, IfOk};
ghost use Rattle.std.specs.Result.{result_map_both};
ghost use Rattle.rbc_model.specs.SessionText.{IsSayable};
ghost use Rattle.rbc_replies.specs.Replies.{refusal_view};
ghost use Rattle.rbc_session_laws.specs.Commands.{resolve, command_in, IsCommandOfTrack};
ghost use Rattle.rbc_replies.specs.SessionLines.{request_view};
ghost use Rattle.rbc_sessions.specs.SaidLines.{asked_by, IsReadOn};

use rbc_model::Told;
use rbc_replies::SessionRefusal;
use rbc_replies::words::{Request, parse};
use rbc_session_laws::Command;
use rbc_sweep::Track;

/// What a line says, and what that asks the centre for.
#[derive(Clone, Copy)]
pub(crate) struct Said {
    pub(crate) request: Request,
    pub(crate) command: Command,
}

/// What the bytes of a line say, and ask for. It takes no memory.
///
/// # Errors
///
/// - `BadLine`: the line is no request.
/// - `UnknownName`: the track has no route or section of the name that it tells.
pub(crate) fn said_in(track: &Track, line: &[u8]) -> Result<Said, SessionRefusal>
    ensures command { asked_by result ≡ command_in track.now line.now }
    ensures read { IsReadOn track.now result }
{
    match parse(line) {
        Ok(request) => resolved(track, &request),
        Err(fault) => Err(SessionRefusal::BadLine(fault)),
    }
}

/// What a line says, beside what that asks for.
///
/// # Errors
///
/// `UnknownName`: the track has no route or section of the name.
fn resolved(track: &Track, request: &Request) -> Result<Said, SessionRefusal>
    requires sayable { IsSayable (request_view request.now) }
    ensures command { asked_by result ≡ resolve track.now (request_view request.now) }
    ensures read { IsReadOn track.now result }
{
    match resolve(track, *request) {
        Ok(command) => Ok(Said {
            request: *request,
            command,
        }),
        Err(refusal) => Err(refusal),
    }
}

/// What the bytes of a line ask for. It takes no memory.
///
/// # Errors
///
/// - `BadLine`: the line is no request.
/// - `UnknownName`: the track has no route or section of the name that it tells.
pub fn command_in(track: &Track, line: &[u8]) -> Result<Command, SessionRefusal>
    ensures command { result_map_both (λ command. command) refusal_view result ≡ command_in track.now line.now }
    ensures of_track { IfOk result (IsCommandOfTrack track.now) }
{
    match parse(line) {
        Ok(request) => resolve(track, request),
        Err(fault) => Err(SessionRefusal::BadLine(fault)),
    }
}

/// What a line says, its route or section resolved by its name.
///
/// # Errors
///
/// `UnknownName`: the track has none of the name.
pub fn resolve(track: &Track, request: Request) -> Result<Command, SessionRefusal>
    ensures command { result_map_both (λ command. command) refusal_view result
        ≡ resolve track.now (request_view request) }
    ensures of_track { IfOk result (IsCommandOfTrack track.now) }
{
    match request {
        Request::Blank => Ok(Command::Nothing),
        Request::Report(report) => Ok(Command::Event(Told::Report(report))),
        Request::Lock(name) => match track.route(name) {
            Some(route) => Ok(Command::Event(Told::Lock(route))),
            None => Err(SessionRefusal::UnknownName(name)),
        },
        Request::Free(name) => match track.section(name) {
            Some(section) => Ok(Command::Event(Told::Free(section))),
            None => Err(SessionRefusal::UnknownName(name)),
        },
        Request::Leave(train) => Ok(Command::Event(Told::Leave(train))),
        Request::GiveBack(train, end) => Ok(Command::Event(Told::GiveBack(train, end))),
        Request::Ask(train) => Ok(Command::Authority(train.number())),
        Request::Inquire(inquiry) => Ok(Command::Show(inquiry)),
    }
}
