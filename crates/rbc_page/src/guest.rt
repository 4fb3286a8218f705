//! A client of the page.

ghost use Rattle.std.specs.Prelude.{◌≡◌, true};
ghost use Rattle.rbc_page.specs.Exchanges.{HasHeard, HasTold, IsTurnedAway, at_first};
ghost use Rattle.rbc_page.specs.Moments.{IsAnsweredAt};

use crate::{Asked, Exchange, Fixed, Lookout, Stage, Status};
use rbc_desk::DeskName;
use std::alloc::Global;
use std::io::{ErrorKind, Read, Write};
use std::time::Duration;

/// How many bytes are read at once.
const PIECE: usize = 1_024;

/// How long a client may take for its request, or for an answer, in seconds.
const PATIENCE: u64 = 5;

/// How long a request waits at most for a version, in seconds.
const LONGEST_WAIT: u64 = 10;

/// A client: its stream, of which no call waits, how far its exchange is, and since when.
#[derive(Drop)]
pub(crate) struct Guest<S> {
    stream: S,
    exchange: Exchange,
    since: Duration,
}

impl<S> Guest<S> {
    /// A client that comes now, with nothing said.
    pub(crate) fn new(alloc: Global, stream: S, now: Duration) -> Guest<S>
        ensures stream { result.stream ≡ stream }
        ensures exchange { result.exchange ≡ at_first }
    {
        Guest {
            stream,
            exchange: Exchange::new(alloc),
            since: now,
        }
    }

    /// The request that waits for its answer, if one does.
    pub(crate) fn asked(&self) -> Option<Asked> {
        match self.exchange.stage() {
            Stage::Waits(asked) => Some(asked),
            Stage::Hears | Stage::Tells(_) | Stage::Over => None,
        }
    }

    /// Whether an answer is told.
    pub(crate) fn is_told(&self) -> bool {
        matches!(self.exchange.stage(), Stage::Tells(_))
    }

    /// Since when its exchange is as far as it is.
    pub(crate) fn since(&self) -> Duration {
        self.since
    }

    /// Whether it is over, or has taken too long.
    pub(crate) fn is_over(&self, now: Duration) -> bool {
        let passed = now.saturating_sub(self.since);
        match self.exchange.stage() {
            Stage::Hears | Stage::Tells(_) => passed > Duration::from_secs(PATIENCE),
            Stage::Waits(_) => passed > Duration::from_secs(LONGEST_WAIT + PATIENCE),
            Stage::Over => true,
        }
    }

    /// Whether its request has waited as long as one may.
    fn is_late(&self, now: Duration) -> bool {
        now.saturating_sub(self.since) >= Duration::from_secs(LONGEST_WAIT)
    }

    /// Answers its request at the moment of the history that the lookout has, unless it waits on.
    pub(crate) fn answer<L: DeskName>(
        &mut self,
        alloc: Global,
        start: &[u8],
        standing: &Fixed<'_>,
        lookout: &Lookout<L>,
        now: Duration,
    )
        requires { lookout.now.is_kept ≡ true }
        ensures stream { self.new.stream ≡ self.old.stream }
        ensures exchange { IsAnsweredAt start.now (record {
          viewer = standing.now.viewer.now;
          track = standing.now.track.now;
          metrics = standing.now.metrics.now;
        }) lookout.now.seat.told self.old.exchange self.new.exchange }
    {
        let Stage::Waits(asked) = self.exchange.stage() else {
            return;
        };
        if asked.is_early(lookout.version()) && !self.is_late(now) {
            return;
        }
        self.exchange
            .answer(alloc, start, &asked, standing, lookout);
        self.since = now;
    }

    /// Tells that there is no room for an answer, where its request waits.
    pub(crate) fn turn_away(&mut self, start: &[u8], now: Duration)
        ensures stream { self.new.stream ≡ self.old.stream }
        ensures exchange { IsTurnedAway start.now self.old.exchange self.new.exchange }
    {
        let Stage::Waits(_) = self.exchange.stage() else {
            return;
        };
        self.exchange.refuse(start, Status::Unavailable);
        self.since = now;
    }
}

impl<S: Read> Guest<S> {
    /// Reads what has come of its request.
    pub(crate) fn hear(&mut self, start: &[u8], now: Duration)
        ensures { HasHeard start.now self.old.exchange self.new.exchange }
    {
        let Stage::Hears = self.exchange.stage() else {
            return;
        };
        let mut piece = [0; PIECE];
        let most = self.exchange.room().min(PIECE);
        match self.stream.read(&mut piece[..most]) {
            Ok(0) => self.exchange.end(),
            Ok(count) => self.exchange.take(start, &piece[..count]),
            Err(error) if is_passing(error.kind()) => return,
            Err(_) => self.exchange.end(),
        }
        if !matches!(self.exchange.stage(), Stage::Hears) {
            self.since = now;
        }
    }
}

impl<S: Write> Guest<S> {
    /// Writes what it takes of its answer.
    pub(crate) fn tell(&mut self, now: Duration)
        ensures { HasTold self.old.exchange (S.contents self.old.stream) (S.contents self.new.stream) }
    {
        let Stage::Tells(stays) = self.exchange.stage() else {
            return;
        };
        match self.stream.write(self.exchange.rest()) {
            Ok(0) => self.exchange.end(),
            Ok(count) => self.exchange.pass(stays, count),
            Err(error) if is_passing(error.kind()) => return,
            Err(_) => self.exchange.end(),
        }
        if !self.is_told() {
            self.since = now;
        }
    }
}

/// Whether a call is to be made again later.
fn is_passing(kind: ErrorKind) -> bool {
    matches!(kind, ErrorKind::WouldBlock | ErrorKind::Interrupted)
}
