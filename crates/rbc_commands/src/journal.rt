//! Centres whose history is kept in a journal.

ghost use Rattle.std.specs.Prelude.{◌≡◌, [], IfOk};
ghost use Rattle.rbc_journal.specs.Beginnings.{beginning_of};
ghost use Rattle.rbc_journal.specs.Gates.{IsLine, counted};
ghost use Rattle.rbc_journal_file.specs.Past.{may_leave, seen};
ghost use Rattle.rbc_journal_file.specs.Recorded.{past_of};
ghost use Rattle.rbc_journal.specs.Seals.{IsWholeText};
ghost use Rattle.rbc_show.specs.Journaled.{IsReady};
ghost use Rattle.rbc_show.specs.Records.{begin_of};
ghost use Rattle.rbc_commands.specs.Beginnings.{BeginsAsFile};

use crate::beginning::{Begun, begin_in, lines_at};
use crate::failure::{Failure, at_place, file_failed};
use crate::history::history_of;
use crate::journal_fault::JournalFault;
use crate::limit::limit_of;
use crate::output::{ended, standard_output};
use crate::page::page_at;
use crate::serve::{Opened, open_port};
use crate::serve_journaled::serve_journaled;
use crate::stay::{Entrance, open_entrance};
use crate::stay_journaled::stay_journaled;
use crate::terminal::{heard_output, terminal_over};
use crate::track::TrackFile;
use crate::watching::watch_on;
use rbc_command_line::{CentreOptions, Service, Staying};
use rbc_hints::Prompted;
use rbc_journal::{Readable, beginning_in, begun_file, next_told, read};
use rbc_journal_file::{FoundFile, JournalPaths, Recorded, Timed};
use rbc_model::Memory;
use rbc_show::journaled::{self, JournaledRecord, OpeningFault, RunFault, replay};
use rbc_show::sessions::{EntryLimit, Record};
use rbc_streams::Stream;
use rbc_tally::Tally;
use rbc_trackfile::Track;
use std::fs::{File, Files};
use std::io::{BufRead, Eprint, IsTerminal};
use std::net::{Net, TcpListener, TcpStream};
use std::sync::{Arc, Wait};
use std::thread::Threads;
use std::time::Clock;

/// Runs a centre over the standard input, from what a journal tells on: the record that begins as the journal does gains
/// that first. The history that this leads to is written, if a file is named for it, unless the journal fails.
///
/// # Errors
///
/// `Journal`, where the journal is not opened, or fails; `Memory`; `Session`; `History`.
pub(crate) fn run_journaled<I: BufRead + Drop + IsTerminal>(
    rt: &(impl Files<File = File>
        + Input<Reader = I>
        + Print
        + AllocGlobal
        + Threads
        + Clock
        + Eprint
        + Sync),
    journal: &str,
    centre: &CentreOptions<'_>,
    track: TrackFile,
) -> Result<(), Failure>
    requires { IsLine track.digest }
{
    let place = JournalPaths::at(rt, journal)?;
    let outcome = run_at(rt, &place, centre, track);
    at_place(outcome, place)
}

/// Runs a centre over the standard input, from what the journal whose files stand at this place tells on.
fn run_at<I: BufRead + Drop + IsTerminal>(
    rt: &(impl Files<File = File>
        + Input<Reader = I>
        + Print
        + AllocGlobal
        + Threads
        + Clock
        + Eprint
        + Sync),
    place: &JournalPaths,
    centre: &CentreOptions<'_>,
    track: TrackFile,
) -> Result<(), Failure>
    requires { IsLine track.digest }
{
    let alloc = rt.alloc();
    let wanted = Wanted {
        from: centre.from,
        most: limit_of(centre.entries),
    };
    let (mut record, scene) = untallied(rt, place, track, &wanted)?;
    let terminal = match record.history() {
        Some(history) => terminal_over(rt, history)?,
        None => None,
    };
    let history = history_of(rt, centre)?;
    let mut output = heard_output(rt, terminal.as_ref())?;
    let reader = &mut Stream::reader(Prompted::new(rt.reader(), terminal.as_ref()));
    let answered = journaled::run(rt, alloc, reader, &mut output, &mut record);
    if let Some(terminal) = &terminal {
        terminal.end();
    }
    let written = match (history, record.history()) {
        (Some(file), Some(history)) => file.write(rt, history, scene),
        (Some(file), None) => {
            file.give_up(rt);
            Ok(())
        }
        (None, _) => Ok(()),
    };
    let outcome = match answered {
        Ok(()) => Ok(()),
        Err(RunFault::Session(fault)) => Err(fault.into()),
        Err(RunFault::Journal) => Err(file_failed(&record.into_device())),
    };
    ended(output, outcome)?;
    written
}

/// Serves connections on a port, from what a journal tells on. The port is opened once the journal is.
///
/// # Errors
///
/// `Journal`, where the journal is not opened, or fails; `NoPort`, where the port can't be opened; `Memory`; `Serve`; `Session`.
pub(crate) fn serve_with(
    rt: &(impl Files<File = File>
        + Print
        + AllocGlobal
        + Threads
        + Wait
        + Clock
        + Eprint
        + Net<Listener = TcpListener, Stream = TcpStream>
        + Copy
        + Send
        + Sync
        + 'static),
    journal: &str,
    track: TrackFile,
    service: &Service,
) -> Result<(), Failure>
    requires { IsLine track.digest }
{
    let place = JournalPaths::at(rt, journal)?;
    let outcome = serve_at(rt, &place, track, service);
    at_place(outcome, place)
}

/// Serves connections on a port, from what the journal whose files stand at this place tells on.
fn serve_at(
    rt: &(impl Files<File = File>
        + Print
        + AllocGlobal
        + Threads
        + Wait
        + Clock
        + Eprint
        + Net<Listener = TcpListener, Stream = TcpStream>
        + Copy
        + Send
        + Sync
        + 'static),
    place: &JournalPaths,
    track: TrackFile,
    service: &Service,
) -> Result<(), Failure>
    requires { IsLine track.digest }
{
    let alloc = rt.alloc();
    let wanted = Wanted {
        from: service.from,
        most: limit_of(service.entries),
    };
    let watch = watch_on(rt, service.terms, wanted.most)?;
    let record = tallied(rt, place, track, &wanted, watch.tally())?;
    let mut output = standard_output(rt)?;
    let outcome = match open_port(rt, service, &watch, &mut output) {
        Ok(Opened { port, minutes }) => {
            let outcome = serve_journaled(rt, alloc, port, record, service, &mut output);
            minutes.end(rt);
            outcome
        }
        Err(failure) => Err(failure),
    };
    ended(output, outcome)
}

/// Serves clients that come and go, from what a journal tells on. The port is opened once the journal is.
///
/// # Errors
///
/// `NoPort`, where a port can't be had; `Journal`, where the journal is not opened, or fails; `Memory`; `Serve`; `Session`.
pub(crate) fn stay_with<I: BufRead + Drop + Send + 'static>(
    rt: &(impl Files<File = File>
        + Input<Reader = I>
        + Print
        + AllocGlobal
        + Threads
        + Wait
        + Clock
        + Eprint
        + Net<Listener = TcpListener, Stream = TcpStream>
        + Copy
        + Send
        + Sync
        + 'static),
    journal: &str,
    track: TrackFile,
    staying: &Staying,
) -> Result<(), Failure>
    requires { IsLine track.digest }
{
    let place = JournalPaths::at(rt, journal)?;
    let outcome = stay_at(rt, &place, track, staying);
    at_place(outcome, place)
}

/// Serves clients that come and go, from what the journal whose files stand at this place tells on.
fn stay_at<I: BufRead + Drop + Send + 'static>(
    rt: &(impl Files<File = File>
        + Input<Reader = I>
        + Print
        + AllocGlobal
        + Threads
        + Wait
        + Clock
        + Eprint
        + Net<Listener = TcpListener, Stream = TcpStream>
        + Copy
        + Send
        + Sync
        + 'static),
    place: &JournalPaths,
    track: TrackFile,
    staying: &Staying,
) -> Result<(), Failure>
    requires { IsLine track.digest }
{
    let alloc = rt.alloc();
    let wanted = Wanted {
        from: staying.from,
        most: limit_of(staying.entries),
    };
    let watch = watch_on(rt, staying.terms, wanted.most)?;
    let page = page_at(rt, staying.page, &track.track, &watch)?;
    let record = tallied(rt, place, track, &wanted, watch.tally())?;
    let mut output = standard_output(rt)?;
    let outcome = match open_entrance(rt, staying, &watch, &mut output) {
        Ok(
            Entrance {
                end,
                ports,
                minutes,
            },
        ) => {
            let outcome = stay_journaled(rt, alloc, &*end, ports, page, record, &mut output);
            minutes.end(rt);
            outcome
        }
        Err(failure) => Err(failure),
    };
    ended(output, outcome)
}

/// What is wanted of the history that a journal tells.
#[derive(Clone, Copy)]
struct Wanted<'a> {
    /// The file that tells the scene that it begins with, if one is named: the journal is new then, or tells no entries.
    from: Option<&'a str>,
    /// How many entries it may have.
    most: EntryLimit,
}

/// The record that a journal tells, with its journal, whose commits are counted, if a tally is kept; and the version of the scene
/// that it begins with, if that isn't empty. A missing file is made. What a crash left behind the last line is kept beside the
/// file, and told.
///
/// # Errors
///
/// `Journal`, where the file is no journal of this track, is damaged, begins with another scene than is wanted or tells entries
/// then, tells more entries than the history may have, or fails; `Begin`, where the scene that is wanted can't be had; `Memory`.
fn opened<'r, 't, R: Files<File = File> + AllocGlobal + Threads + Clock + Eprint + Sync>(
    rt: &'r R,
    place: &JournalPaths,
    track: TrackFile,
    wanted: &Wanted<'_>,
    tally: Option<&'t Tally>,
) -> Result<(JournaledRecord<Recorded<Timed<'r, 't, R>>>, Option<u64>), Failure>
    requires { IsLine track.digest }
    ensures ready { IfOk result (λ opened. IsReady (λ file. seen (past_of file)) (λ file. may_leave (past_of file)) opened.0) }
    ensures begins { IfOk result (λ opened. BeginsAsFile opened.0.history (seen (past_of opened.0.journal.device))) }
{
    let alloc = rt.alloc();
    let TrackFile { track, digest } = track;
    let track = Arc::new(alloc, track).map_err(Memory::from)?;
    let found = rbc_journal_file::open(rt, place)?;
    let Some(bytes) = found.bytes() else {
        let lines = lines_at(rt, &track, wanted.from)?;
        let bytes = begun_file(alloc, &digest, lines.as_slice())?;
        let read = readable(bytes.as_slice(), &digest)?;
        return resumed(rt, track, wanted.most, &read, &found, tally);
    };
    let read = readable(bytes, &digest)?;
    check_beginning(rt, &track, wanted.from, &read)?;
    let opened = resumed(rt, track, wanted.most, &read, &found, tally)?;
    if !read.dropped.is_empty() {
        let _ = eprintln!(rt;
            "rbc: journal: {} bytes behind the last line dropped",
            read.dropped.len()
        );
    }
    Ok(opened)
}

/// Looks whether a journal that was found begins with the scene that is wanted, if one is, and tells no entries then.
///
/// # Errors
///
/// `Journal`, where it doesn't; `Begin`, where the scene can't be had; `Memory`.
fn check_beginning(
    rt: &(impl Files + AllocGlobal),
    track: &Arc<Track>,
    from: Option<&str>,
    read: &Readable<'_>,
) -> Result<(), Failure> {
    if from.is_none() {
        return Ok(());
    }
    if next_told(read.text).is_some() {
        return Err(JournalFault::Begun.into());
    }
    let lines = lines_at(rt, track, from)?;
    if beginning_in(rt.alloc(), read.text)?.as_slice() != lines.as_slice() {
        return Err(JournalFault::OtherBeginning.into());
    }
    Ok(())
}

/// The record that begins as a journal does, once it has gained what was read of that, with the version of the scene that it
/// begins with.
///
/// # Errors
///
/// `Journal`, where the journal begins with no scene of the track, a line adds nothing, or the file fails; `Memory`.
fn resumed<'r, 't, R: Files<File = File> + AllocGlobal + Threads + Clock + Sync>(
    rt: &'r R,
    track: Arc<Track>,
    most: EntryLimit,
    read: &Readable<'_>,
    found: &FoundFile<'_>,
    tally: Option<&'t Tally>,
) -> Result<(JournaledRecord<Recorded<Timed<'r, 't, R>>>, Option<u64>), Failure>
    requires whole { IsWholeText read.now.text.now read.now.seal }
    ensures ready { IfOk result (λ opened. IsReady (λ file. seen (past_of file)) (λ file. may_leave (past_of file)) opened.0) }
    ensures begins { IfOk result (λ opened. BeginsAsFile opened.0.history (seen (past_of opened.0.journal.device))) }
{
    let Begun { record, scene } = begin_in(rt.alloc(), track, read.text, most)?;
    let record = recovered(rt, record, read, found, tally)?;
    Ok((record, scene))
}

/// The record that a journal tells, with its journal, whose commits are not counted, and the version of the scene that it begins
/// with.
///
/// # Errors
///
/// The failures of [`opened`].
fn untallied<'r, R: Files<File = File> + AllocGlobal + Threads + Clock + Eprint + Sync>(
    rt: &'r R,
    place: &JournalPaths,
    track: TrackFile,
    wanted: &Wanted<'_>,
) -> Result<(JournaledRecord<Recorded<Timed<'r, 'r, R>>>, Option<u64>), Failure>
    requires { IsLine track.digest }
    ensures ready { IfOk result (λ opened. IsReady (λ file. seen (past_of file)) (λ file. may_leave (past_of file)) opened.0) }
    ensures begins { IfOk result (λ opened. BeginsAsFile opened.0.history (seen (past_of opened.0.journal.device))) }
{
    opened(rt, place, track, wanted, None)
}

/// The record that a journal tells, with its journal, whose commits are counted.
///
/// # Errors
///
/// The failures of [`opened`].
fn tallied<'r, 't, R: Files<File = File> + AllocGlobal + Threads + Clock + Eprint + Sync>(
    rt: &'r R,
    place: &JournalPaths,
    track: TrackFile,
    wanted: &Wanted<'_>,
    tally: &'t Tally,
) -> Result<JournaledRecord<Recorded<Timed<'r, 't, R>>>, Failure>
    requires { IsLine track.digest }
    ensures ready { IfOk result (λ opened. IsReady (λ file. seen (past_of file)) (λ file. may_leave (past_of file)) opened) }
    ensures begins { IfOk result (λ opened. BeginsAsFile opened.history (seen (past_of opened.journal.device))) }
{
    let (record, _scene) = opened(rt, place, track, wanted, Some(tally))?;
    Ok(record)
}

/// What a file with these bytes is read as, beside the track with this digest.
///
/// # Errors
///
/// `Journal`.
pub(crate) fn readable<'a>(bytes: &'a [u8], digest: &[u8; 64]) -> Result<Readable<'a>, Failure>
    ensures { IfOk result (λ file. IsWholeText file.text.now file.seal) }
{
    match read(bytes, digest) {
        Ok(file) => Ok(file),
        Err(fault) => Err(Failure::unread(fault, Some(*digest))),
    }
}

/// The record that what was read of a journal tells: an empty record gains that, and then a new file takes the place of the
/// one that was found.
///
/// # Errors
///
/// `Journal`, where a line adds nothing, or the file fails; `Memory`.
fn recovered<'r, 't, R: Files<File = File> + AllocGlobal + Threads + Clock + Sync>(
    rt: &'r R,
    empty: Record,
    read: &Readable<'_>,
    found: &FoundFile<'_>,
    tally: Option<&'t Tally>,
) -> Result<JournaledRecord<Recorded<Timed<'r, 't, R>>>, Failure>
    requires empty { empty.entries ≡ [] }
    requires whole { IsWholeText read.now.text.now read.now.seal }
    ensures ready { IfOk result (λ opened. IsReady (λ file. seen (past_of file)) (λ file. may_leave (past_of file)) opened) }
    ensures begin { IfOk result (λ opened. begin_of opened.history ≡ begin_of empty) }
    ensures beginning { IfOk result (λ opened. beginning_of (counted (seen (past_of opened.journal.device))) ≡ beginning_of (counted read.now.text.now)) }
{
    let mut record = empty;
    replay(rt, rt.alloc(), &mut record, read.text)?;
    if let Some(tally) = tally {
        tally.reached(record.version());
    }
    let file = found.replaced(rt, read.text, read.dropped)?;
    let device = Recorded::opened(Timed::new(file, rt, tally), read.text);
    match JournaledRecord::over(rt.alloc(), record, read, device) {
        Ok(record) => Ok(record),
        Err((OpeningFault::Device, file)) => Err(file_failed(&file)),
        Err((fault, _)) => Err(fault.into()),
    }
}
