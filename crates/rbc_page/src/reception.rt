//! Where the page's clients are received.

ghost use Rattle.std.specs.Prelude.{◌≡◌, Some, IfErr, IfOk};
ghost use Rattle.rbc_page.specs.Moments.{IsServedAt};

use crate::guest::Guest;
use crate::{Asked, Fixed, Lookout, Numbers, Refused, Resource};
use rbc_desk::{DeskName, Onlooker, Seat, State};
use rbc_model::Memory;
use rbc_tally::{Counts, RefusalKind, Tally};
use std::alloc::Global;
use std::io::{Read, Write};
use std::net::{OpenListener, OpenStream};
use std::sync::{Arc, Wait};
use std::thread;
use std::time::{Clock, Duration, Instant};

/// How many clients are kept.
const MOST_GUESTS: usize = 64;

/// How many answers are told at once.
const MOST_TOLD: usize = 8;

/// How many clients are admitted at once.
const MOST_ADMITTED: usize = 16;

/// How long an answer may be told while others wait, in seconds.
const SHORT_PATIENCE: u64 = 1;

/// How long it is waited before all is looked at again where an answer is told, in thousandths of a second.
const PAUSE_TOLD: u64 = 1;

/// How long else. Nobody sees more than twenty scenes a second, and each one that is told takes time from the trains.
const PAUSE: u64 = 50;

/// What a page is opened with.
#[derive(Drop)]
pub struct Opening {
    /// How the centre has begun: what makes its tags its own. It has no quotes and no control characters.
    pub start: Vec<u8>,
    /// The viewer.
    pub viewer: Vec<u8>,
    /// The lines of the track.
    pub track: Vec<u8>,
    /// What the centre has done.
    pub tally: Arc<Tally>,
}

/// The page's clients, at a listener of which no call waits.
#[derive(Drop)]
pub struct Reception<L: DeskName, N, S> {
    listener: N,
    guests: Vec<Guest<S>>,
    /// The place of the client that is answered first: there was no room for its answer.
    turn: usize,
    lookout: Lookout<L>,
    opening: Opening,
    begin: Instant,
}

impl<L: DeskName, S: Drop, N: OpenListener<Stream = S> + Drop> Reception<L, N, S> {
    /// Opens the page at a listener, for a centre that is looked at from this seat.
    ///
    /// # Errors
    ///
    /// The seat comes back: calls of the listener would wait, there is no clock, or there is no room for clients.
    pub fn open(
        rt: &impl Clock,
        alloc: Global,
        listener: N,
        seat: Seat<L>,
        opening: Opening,
    ) -> Result<Reception<L, N, S>, Seat<L>>
        ensures seat { IfOk result (λ reception. reception.lookout.seat ≡ seat) }
        ensures back { IfErr result (λ back. back ≡ seat) }
    {
        if listener.set_nonblocking(true).is_err() {
            return Err(seat);
        }
        let Ok(begin) = Instant::now(rt) else {
            return Err(seat);
        };
        let Ok(guests) = Vec::with_capacity(alloc, MOST_GUESTS) else {
            return Err(seat);
        };
        Ok(Reception {
            listener,
            guests,
            turn: 0,
            lookout: Lookout::new(alloc, seat),
            opening,
            begin,
        })
    }
}

impl<L: DeskName, S: Read + Write + OpenStream + Drop, N: OpenListener<Stream = S>> Reception<
    L,
    N,
    S,
> {
    /// Admits clients that have come.
    fn admit(&mut self, alloc: Global, now: Duration)
        ensures { self.new.lookout ≡ self.old.lookout }
    {
        for _ in 0..MOST_ADMITTED {
            let Ok((stream, _address)) = self.listener.accept() else {
                return;
            };
            let _ = stream.set_nodelay(true);
            if stream.set_nonblocking(true).is_ok() {
                seat_guest(&mut self.guests, Guest::new(alloc, stream, now));
            }
        }
    }

    /// Hears what has come of all requests.
    fn hear(&mut self, now: Duration)
        ensures { self.new.lookout ≡ self.old.lookout }
    {
        let start = self.opening.start.as_slice();
        for guest in self.guests.iter_mut() {
            guest.hear(start, now);
        }
    }

    /// Writes what is taken of all answers.
    fn tell(&mut self, now: Duration)
        ensures { self.new.lookout ≡ self.old.lookout }
    {
        for guest in self.guests.iter_mut() {
            guest.tell(now);
        }
    }

    /// Lets clients go whose exchange is over or took too long. Where others wait for their answers, so are clients let go
    /// that don't take their own.
    fn let_go(&mut self, now: Duration)
        ensures { self.new.lookout ≡ self.old.lookout }
    {
        let is_crowded = count_told(self.guests.as_slice()) >= MOST_TOLD;
        let mut index = 0;
        for _ in 0..MOST_GUESTS {
            let Some(guest) = self.guests.get(index) else {
                return;
            };
            if guest.is_over(now) || is_crowded && is_slow(guest, now) {
                let _ = self.guests.swap_remove(index);
            } else {
                index += 1;
            }
        }
    }

    /// Answers the requests that are due, as far as there is room for their answers, or turns them away where no lines are kept. It begins
    /// with the one for which there was no room, so that none is passed over for ever.
    fn answer(&mut self, alloc: Global, now: Duration)
        ensures { self.new.lookout ≡ self.old.lookout }
    {
        let Reception {
            guests,
            turn,
            lookout,
            opening,
            ..
        } = self;
        let told = count_told(guests.as_slice());
        let first = if *turn < guests.len() { *turn } else { 0 };
        let (before, behind) = guests.split_at_mut(first);
        *turn = match answer_guests(alloc, behind, told, lookout, opening, now) {
            Round::Stopped(place) => first.saturating_add(place),
            Round::Through(told) => match answer_guests(
                alloc, before, told, lookout, opening, now,
            ) {
                Round::Stopped(place) => place,
                Round::Through(_) => 0,
            },
        };
    }

    /// How long it is since the page was opened.
    fn passed(&self, rt: &impl Clock) -> Duration {
        self.begin.elapsed(rt).unwrap_or(Duration::ZERO)
    }

    /// How long it is waited before all is looked at again.
    fn pause(&self) -> Duration {
        let millis = if count_told(self.guests.as_slice()) > 0 {
            PAUSE_TOLD
        } else {
            PAUSE
        };
        Duration::from_millis(millis)
    }
}

/// Whether a request waits for its answer.
fn any_asks<S>(guests: &[Guest<S>]) -> bool {
    for guest in guests {
        if guest.asked().is_some() {
            return true;
        }
    }
    false
}

/// How many answers are told.
fn count_told<S>(guests: &[Guest<S>]) -> usize {
    let mut count = 0_usize;
    for guest in guests {
        if guest.is_told() {
            count = count.saturating_add(1);
        }
    }
    count
}

/// Whether its answer is told for too long while others wait.
fn is_slow<S>(guest: &Guest<S>, now: Duration) -> bool {
    guest.is_told() && now.saturating_sub(guest.since()) > Duration::from_secs(SHORT_PATIENCE)
}

/// Gives a new client a place: where there is none, that of the one whose exchange is as far as it is for the longest time.
fn seat_guest<S: Drop>(guests: &mut Vec<Guest<S>>, guest: Guest<S>) {
    if guests.len() >= MOST_GUESTS {
        let longest = longest_kept(guests.as_slice());
        if longest < guests.len() {
            let _ = guests.swap_remove(longest);
        }
    }
    let _ = guests.push(guest);
}

/// The place of the one whose exchange is as far as it is for the longest time; the first of them, or 0 where there is none.
fn longest_kept<S>(guests: &[Guest<S>]) -> usize {
    let mut place = 0;
    let mut since = Duration::MAX;
    for (index, guest) in guests.iter().enumerate() {
        if guest.since() < since {
            since = guest.since();
            place = index;
        }
    }
    place
}

/// How it ended that clients were answered in turn.
enum Round {
    /// None waits for room, and so many answers are told.
    Through(usize),
    /// There was no room for an answer to the client at this place.
    Stopped(usize),
}

/// Answers the requests of these clients that are due, as far as there is room beside so many answers that are told.
fn answer_guests<L: DeskName, S>(
    alloc: Global,
    guests: &mut [Guest<S>],
    mut told: usize,
    lookout: &Lookout<L>,
    opening: &Opening,
    now: Duration,
) -> Round {
    for (place, guest) in guests.iter_mut().enumerate() {
        let Some(asked) = guest.asked() else {
            continue;
        };
        if told >= MOST_TOLD {
            return Round::Stopped(place);
        }
        answer_guest(alloc, guest, &asked, lookout, opening, now);
        if guest.is_told() {
            told = told.saturating_add(1);
        }
    }
    Round::Through(told)
}

/// Answers a request, or turns it away where no lines are kept.
fn answer_guest<L: DeskName, S>(
    alloc: Global,
    guest: &mut Guest<S>,
    asked: &Asked,
    lookout: &Lookout<L>,
    opening: &Opening,
    now: Duration,
)
    ensures { IsServedAt opening.now.start.items opening.now.viewer.items opening.now.track.items lookout.now.seat.told guest.old.exchange guest.new.exchange }
{
    let start = opening.start.as_slice();
    if !lookout.is_kept() {
        guest.turn_away(start, now);
        return;
    }
    let metrics = match metrics_for(alloc, asked.page, opening.tally.counts(), lookout.state()) {
        Ok(metrics) => metrics,
        Err(Memory) => {
            guest.turn_away(start, now);
            return;
        }
    };
    let standing = Fixed {
        viewer: opening.viewer.as_slice(),
        track: opening.track.as_slice(),
        metrics: metrics.as_slice(),
    };
    guest.answer(alloc, start, &standing, lookout, now);
}

/// What was counted, as a text, where that is asked for; else none.
///
/// # Errors
///
/// [`Memory`]: there is no room for it.
fn metrics_for(
    alloc: Global,
    page: Resource,
    counts: Counts,
    state: State,
) -> Result<Vec<u8>, Memory> {
    if !matches!(page, Resource::Metrics) {
        return Ok(Vec::new(alloc));
    }
    let refused = refused_in(alloc, &counts)?;
    let numbers = Numbers {
        entries: state.version,
        most_entries: counts.most_entries,
        trains: state.trains as u64,
        locked: state.locked as u64,
        open: counts.open,
        connections: counts.connections,
        lines: counts.lines,
        ok: counts.ok,
        granted: counts.granted,
        blocked: counts.blocked,
        refused: refused.as_slice(),
        commits: counts.commits,
        commit_micros: in_micros(counts.commit_time),
    };
    numbers.text(alloc)
}

/// How many lines were refused for each reason.
///
/// # Errors
///
/// [`Memory`]: there is no room for them.
fn refused_in(alloc: Global, counts: &Counts) -> Result<Vec<Refused<'static>>, Memory> {
    let mut refused = Vec::new(alloc);
    for reason in RefusalKind::ALL {
        let row = Refused {
            word: reason.name().as_bytes(),
            count: counts.refused_for(reason),
        };
        if refused.push(row).is_err() {
            return Err(Memory);
        }
    }
    Ok(refused)
}

/// A time in whole microseconds, as far as they can be told.
fn in_micros(time: Duration) -> u64 {
    time.as_secs()
        .saturating_mul(1_000_000)
        .saturating_add(u64::from(time.subsec_micros()))
}

impl<L: DeskName, S: Read + Write + OpenStream + Drop, N: OpenListener<Stream = S> + Drop> Onlooker<
    L,
> for Reception<L, N, S> {
    ghost seat = { λ reception. Some reception.lookout.seat };

    fn attend<R: Wait + Clock>(&mut self, rt: &R, alloc: Global) -> bool {
        let now = self.passed(rt);
        self.admit(alloc, now);
        self.hear(now);
        let is_asked = any_asks(self.guests.as_slice());
        self.lookout.look_if(rt, alloc, is_asked);
        self.answer(alloc, now);
        self.tell(now);
        self.let_go(now);
        thread::sleep(rt, self.pause());
        true
    }

    fn into_seat(self) -> Option<Seat<L>> {
        let Reception { lookout, .. } = self;
        Some(lookout.into_seat())
    }
}
