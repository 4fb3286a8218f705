//! What the program does for each of its commands, on the files, streams and sockets of its runtime.
#![tactic(auto)]

mod beginning;
mod end;
mod failure;
mod history;
mod journal;
mod journal_close;
mod journal_fault;
mod journal_follow;
mod journal_report;
mod limit;
mod output;
mod page;
mod reason;
mod serve;
mod serve_journaled;
mod stay;
mod stay_journaled;
mod terminal;
mod track;
mod watching;

pub use beginning::BeginFault;
use beginning::{Begun, begin};
pub use failure::Failure;
pub use history::HistoryFault;
use history::history_of;
use journal::{run_journaled, serve_with, stay_with};
use journal_close::close_journal;
pub use journal_fault::JournalFault;
use journal_report::tell_journal;
use limit::limit_of;
use output::{ended, standard_output};
use page::page_at;
use rbc_certifier::steps;
use rbc_checks::check;
use rbc_command_line::{CentreOptions, Listed, Printing, Service, Shown, Staying, Task};
use rbc_decode::{Form, Json, Plain, decode};
use rbc_hints::Prompted;
use rbc_model::Memory;
use rbc_show::sessions::{self, Record};
use rbc_show::{list, show, show_each, show_each_page, show_page};
use rbc_streams::Stream;
use rbc_track_report::report;
use rbc_viewer::draw;
pub use reason::Reason;
use serve::{Opened, open_port, serve};
use stay::{Entrance, open_entrance, stay_up};
use std::env;
use std::env::Env;
use std::fs::{File, Files};
use std::io::{BufRead, Eprint, IsTerminal};
use std::net::{Net, TcpListener, TcpStream};
use std::sync::{Arc, Wait};
use std::thread::Threads;
use std::time::Clock;
use terminal::{heard_output, terminal_over};
use track::{TrackFile, read_track};
use watching::watch_on;

/// Does what the command line asks for. The version is what `--version` tells.
///
/// # Errors
///
/// Why it could not do all of it: [`Failure::told`] says so on the standard error, and [`Failure::status`] is what the program
/// exits with.
pub fn run<I: BufRead + Drop + IsTerminal + Send + 'static>(
    rt: &(impl Env
        + Files<File = File>
        + Input<Reader = I>
        + Print
        + AllocGlobal
        + Threads
        + Wait
        + Clock
        + Eprint
        + Net<Listener = TcpListener, Stream = TcpStream>
        + Copy
        + Send
        + Sync
        + 'static),
    version: &str,
) -> Result<(), Failure> {
    let alloc = rt.alloc();
    let words: Vec<String> = env::args(rt)?.collect(alloc)?;
    match rbc_command_line::read(alloc, version, words.as_slice())? {
        Task::Steps => answer_input(rt),
        Task::Check => check_input(rt),
        Task::Decode(Printing::Plain) => decode_input(rt, &Plain),
        Task::Decode(Printing::Json) => decode_input(rt, &Json),
        Task::Draw => draw_input(rt),
        Task::Run(centre) => run_centre(rt, &centre),
        Task::Show(shown) => show_session(rt, &shown),
        Task::Track(listed) => list_track(rt, &listed),
        Task::Serve(service) => serve_centre(rt, &service),
        Task::Stay(staying) => stay_at_port(rt, &staying),
        Task::Journal(asked) => tell_journal(rt, &asked),
        Task::Close(closing) => close_journal(rt, &closing),
    }
}

/// Answers the requests for steps of the standard input.
fn answer_input(rt: &(impl Input + Print + AllocGlobal + Threads + Sync)) -> Result<(), Failure> {
    let mut output = standard_output(rt)?;
    let answered = steps(
        rt,
        rt.alloc(),
        &mut Stream::reader(rt.reader()),
        &mut output,
    );
    ended(output, answered.map_err(Failure::from))
}

/// Judges the certificates of the standard input.
fn check_input(rt: &(impl Input + Print + AllocGlobal + Threads + Sync)) -> Result<(), Failure> {
    let mut output = standard_output(rt)?;
    let outcome = match check(
        rt,
        rt.alloc(),
        &mut Stream::reader(rt.reader()),
        &mut output,
    ) {
        Ok(true) => Ok(()),
        Ok(false) => Err(Failure::NotCertified),
        Err(fault) => Err(Failure::Session(fault)),
    };
    ended(output, outcome)
}

/// Writes the page of the standard input, with the verdicts on its certificates.
fn draw_input(rt: &(impl Input + Print + AllocGlobal)) -> Result<(), Failure> {
    let mut output = standard_output(rt)?;
    let outcome = match draw(rt.alloc(), &mut Stream::reader(rt.reader()), &mut output) {
        Ok(true) => Ok(()),
        Ok(false) => Err(Failure::NotCertified),
        Err(fault) => Err(Failure::Session(fault)),
    };
    ended(output, outcome)
}

/// Prints the messages and packets of the standard input in this form.
fn decode_input<F: Form>(
    rt: &(impl Input + Print + AllocGlobal + Threads + Sync),
    form: &F,
) -> Result<(), Failure> {
    let mut output = standard_output(rt)?;
    let reader = &mut Stream::reader(rt.reader());
    let outcome = match decode(form, rt, rt.alloc(), reader, &mut output) {
        Ok(true) => Ok(()),
        Ok(false) => Err(Failure::NotRead),
        Err(fault) => Err(Failure::Session(fault)),
    };
    ended(output, outcome)
}

/// Runs a centre on the track of a file: it answers the lines of the standard input. However they end, the history that
/// they led to is written, if a file is named for it.
fn run_centre<I: BufRead + Drop + IsTerminal>(
    rt: &(impl Files<File = File>
        + Input<Reader = I>
        + Print
        + AllocGlobal
        + Threads
        + Clock
        + Eprint
        + Sync),
    centre: &CentreOptions,
) -> Result<(), Failure> {
    let alloc = rt.alloc();
    let track = read_track(rt, centre.track)?;
    if let Some(journal) = centre.journal {
        return run_journaled(rt, journal, centre, track);
    }
    let track = Arc::new(alloc, track.track).map_err(Memory::from)?;
    let Begun { mut record, scene } = begin(rt, track, centre.from, limit_of(centre.entries))?;
    let terminal = terminal_over(rt, &record)?;
    let history = history_of(rt, centre)?;
    let mut output = heard_output(rt, terminal.as_ref())?;
    let reader = &mut Stream::reader(Prompted::new(rt.reader(), terminal.as_ref()));
    let answered = sessions::run(rt, alloc, reader, &mut output, &mut record);
    if let Some(terminal) = &terminal {
        terminal.end();
    }
    let written = match history {
        Some(file) => file.write(rt, &record, scene),
        None => Ok(()),
    };
    ended(output, answered.map_err(Failure::from))?;
    written
}

/// Shows what the lines of the standard input lead to, on the track of a file, as lines or as a page that draws them.
fn show_session(
    rt: &(impl Files + Input + Print + AllocGlobal + Threads + Sync),
    shown: &Shown,
) -> Result<(), Failure> {
    let alloc = rt.alloc();
    let track = Arc::new(alloc, read_track(rt, shown.track)?.track).map_err(Memory::from)?;
    let record = Record::new(alloc, track)?;
    let mut output = standard_output(rt)?;
    let reader = &mut Stream::reader(rt.reader());
    if shown.page {
        let (output, answered) = if shown.each {
            show_each_page(rt, alloc, record, reader, output)
        } else {
            show_page(rt, alloc, record, reader, output)
        };
        return ended(output, answered.map_err(Failure::from));
    }
    let answered = if shown.each {
        show_each(rt, alloc, record, reader, &mut output)
    } else {
        show(rt, alloc, record, reader, &mut output)
    };
    ended(output, answered.map_err(Failure::from))
}

/// Reads the track of a file, and writes what it has, or all of it as lines, if that is asked for.
fn list_track(rt: &(impl Files + Print + AllocGlobal), listed: &Listed) -> Result<(), Failure> {
    let TrackFile { track, .. } = read_track(rt, listed.track)?;
    let mut output = standard_output(rt)?;
    let written = if listed.lines {
        list(&track, &mut output)
    } else {
        report(&track, &mut output)
    };
    ended(output, written.map_err(Failure::from))
}

/// Serves connections on a port, on the track of a file.
fn serve_centre(
    rt: &(impl Files<File = File>
        + Print
        + AllocGlobal
        + Threads
        + Wait
        + Clock
        + Eprint
        + Net<Listener = TcpListener, Stream = TcpStream>
        + Copy
        + Send
        + Sync
        + 'static),
    service: &Service,
) -> Result<(), Failure> {
    let alloc = rt.alloc();
    let track = read_track(rt, service.track)?;
    if let Some(journal) = service.journal {
        return serve_with(rt, journal, track, service);
    }
    let track = Arc::new(alloc, track.track).map_err(Memory::from)?;
    let most = limit_of(service.entries);
    let log = begin(rt, track, service.from, most)?.record;
    let watch = watch_on(rt, service.terms, most)?;
    let mut output = standard_output(rt)?;
    let outcome = match open_port(rt, service, &watch, &mut output) {
        Ok(Opened { port, minutes }) => {
            let outcome = serve(rt, alloc, port, log, service, &mut output);
            minutes.end(rt);
            outcome
        }
        Err(failure) => Err(failure),
    };
    ended(output, outcome)
}

/// Serves clients that come and go on a port, on the track of a file, until the end is asked for.
fn stay_at_port<I: BufRead + Drop + Send + 'static>(
    rt: &(impl Files<File = File>
        + Input<Reader = I>
        + Print
        + AllocGlobal
        + Threads
        + Wait
        + Clock
        + Eprint
        + Net<Listener = TcpListener, Stream = TcpStream>
        + Copy
        + Send
        + Sync
        + 'static),
    staying: &Staying,
) -> Result<(), Failure> {
    let alloc = rt.alloc();
    let track = read_track(rt, staying.track)?;
    if let Some(journal) = staying.journal {
        return stay_with(rt, journal, track, staying);
    }
    let most = limit_of(staying.entries);
    let watch = watch_on(rt, staying.terms, most)?;
    let page = page_at(rt, staying.page, &track.track, &watch)?;
    let track = Arc::new(alloc, track.track).map_err(Memory::from)?;
    let log = begin(rt, track, staying.from, most)?.record;
    let mut output = standard_output(rt)?;
    let outcome = match open_entrance(rt, staying, &watch, &mut output) {
        Ok(
            Entrance {
                end,
                ports,
                minutes,
            },
        ) => {
            let outcome = stay_up(rt, alloc, &*end, ports, page, log, &mut output);
            minutes.end(rt);
            outcome
        }
        Err(failure) => Err(failure),
    };
    ended(output, outcome)
}
