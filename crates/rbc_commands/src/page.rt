//! The page of a centre that stays up.

ghost use Rattle.std.specs.Prelude.{◌≡◌, ◌+◌, ◌≤◌, length, option_to_list, vec_len, IfOk};

use crate::failure::Failure;
use crate::serve::listener_at;
use rbc_command_line::PagePlace;
use rbc_duty::server::ServeFault;
use rbc_model::Memory;
use rbc_page::{Opening, Reception, track_text};
use rbc_port::Watch;
use rbc_show::sessions::{DeskName, Seat};
use rbc_streams::Text;
use rbc_trackfile::Track;
use rbc_viewer::{begin_page, end_page};
use std::alloc::Global;
use std::io::{Eprint, Read, Write};
use std::net::{Net, OpenListener, OpenStream, TcpListener, TcpStream};
use std::time::{Clock, Duration, SystemTime, UNIX_EPOCH};

/// A page that is to be shown: where its clients come, and what they are shown, but for scenes.
#[derive(Drop)]
pub(crate) struct Showing<N> {
    listener: N,
    opening: Opening,
}

/// The page of a centre on this track, which is watched so, if a place is asked for it. Its port is opened, and told on standard
/// error, and also that nobody is asked who they are, where others than this machine can reach it.
///
/// # Errors
///
/// `NoPort`, where the port can't be had; `Memory`.
pub(crate) fn page_at<
    T: Net<Listener = TcpListener, Stream = TcpStream> + AllocGlobal + Clock + Eprint,
>(
    rt: &T,
    place: Option<PagePlace>,
    track: &Track,
    watch: &Watch,
) -> Result<Option<Showing<TcpListener>>, Failure> {
    let Some(PagePlace { address, port }) = place else {
        return Ok(None);
    };
    let alloc = rt.alloc();
    let opening = Opening {
        start: start_of(rt)?,
        viewer: viewer_text(alloc)?,
        track: track_text(alloc, track)?,
        tally: watch.shared_tally()?,
    };
    let listener = listener_at(rt, address, port)?;
    let _ = eprintln!(rt; "rbc: page: http://{address}:{port}/");
    if !address.is_loopback() {
        let _ = eprintln!(rt;
            "rbc: page: whoever reaches it sees it, and nobody is asked who they are"
        );
    }
    Ok(Some(Showing { listener, opening }))
}

/// When the centre has begun, to the nanosecond: what makes the tags of its page its own.
///
/// # Errors
///
/// `Memory`.
fn start_of<T: Clock + AllocGlobal>(rt: &T) -> Result<Vec<u8>, Memory> {
    let passed = match SystemTime::now(rt) {
        Ok(now) => now.duration_since(UNIX_EPOCH).unwrap_or(Duration::ZERO),
        Err(_) => Duration::ZERO,
    };
    let text = format!(in rt.alloc(); "{}.{:09}", passed.as_secs(), passed.subsec_nanos())?;
    Ok(text.into_bytes())
}

/// The viewer, with no lines inside.
///
/// # Errors
///
/// `Memory`.
fn viewer_text(alloc: Global) -> Result<Vec<u8>, Memory> {
    let mut text = Text::new(alloc);
    let written = match begin_page(&mut text) {
        Ok(()) => end_page(b"", &mut text),
        Err(fault) => Err(fault),
    };
    match written {
        Ok(()) => Ok(text.bytes),
        Err(_) => Err(Memory),
    }
}

/// How many seats there are for who looks at a page: one, if there is a page.
pub(crate) fn lookers<N>(page: &Option<Showing<N>>) -> usize
    ensures count { result ≡ length (option_to_list page.now) }
    ensures few { result ≤ 1 }
{
    match page {
        Some(_) => 1,
        None => 0,
    }
}

/// The page, if there is one, opened for a desk that is looked at from the last of these seats.
///
/// # Errors
///
/// `Serve`, where the page's calls would wait, there is no clock, or no room for clients.
pub(crate) fn onlooker_of<
    L: DeskName,
    U: Read + Write + OpenStream + Drop,
    M: OpenListener<Stream = U> + Drop,
>(
    rt: &impl Clock,
    alloc: Global,
    seats: &mut Vec<Seat<L>>,
    page: Option<Showing<M>>,
) -> Result<Option<Reception<L, M, U>>, Failure>
    requires { length (option_to_list page) ≤ vec_len seats.old }
    ensures { IfOk result (λ onlooker. vec_len seats.new + length (option_to_list page) ≡ vec_len seats.old) }
{
    let Some(Showing { listener, opening }) = page else {
        return Ok(None);
    };
    let Some(seat) = seats.pop() else {
        return Ok(None);
    };
    match Reception::open(rt, alloc, listener, seat, opening) {
        Ok(reception) => Ok(Some(reception)),
        Err(_) => Err(Failure::Serve(ServeFault::Port)),
    }
}
