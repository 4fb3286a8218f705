//! The lines of the log that tell what a centre has done since the last of them.

use crate::watch::Watch;
use rbc_tally::{Counts, Reader, RefusalKind};
use std::alloc::Global;
use std::fmt;
use std::fmt::Display;
use std::io::Eprint;
use std::time::{Clock, Duration, Instant};

/// How much time lies between two lines, in seconds.
const MINUTE: u64 = 60;

/// Of how many parts of a full history the log warns, and how many a full one has.
const WARNED: u64 = 9;

const PARTS: u64 = 10;

/// What the log tells from minute to minute.
#[derive(Drop)]
pub struct Minutes {
    watch: Watch,
    told: Counts,
    since: Option<Instant>,
    has_warned: bool,
    has_ended: bool,
}

impl Minutes {
    /// From now on.
    pub fn new(rt: &impl Clock, watch: Watch) -> Minutes {
        Minutes {
            told: watch.tally().counts(),
            watch,
            since: Instant::now(rt).ok(),
            has_warned: false,
            has_ended: false,
        }
    }

    /// Tells what was done since the last line, if that is a minute old; and once that the history is nine tenths full.
    pub fn look(&mut self, rt: &(impl Clock + Eprint), alloc: Global) {
        if self.has_ended {
            return;
        }
        self.warn(rt, alloc);
        if self.passed(rt) >= Duration::from_secs(MINUTE) {
            self.tell(rt, alloc);
        }
    }

    /// Tells what was done since the last line, and no more.
    pub fn end(&mut self, rt: &(impl Clock + Eprint), alloc: Global) {
        self.warn(rt, alloc);
        self.tell(rt, alloc);
        self.has_ended = true;
    }

    /// Whether nothing more will be told.
    pub fn has_ended(&self) -> bool {
        self.has_ended
    }

    // How long ago the last line was told.
    fn passed(&self, rt: &impl Clock) -> Duration {
        match self.since {
            Some(since) => since.elapsed(rt).unwrap_or(Duration::ZERO),
            None => Duration::ZERO,
        }
    }

    // Tells what was done since the last line.
    fn tell(&mut self, rt: &(impl Clock + Eprint), alloc: Global) {
        let counts = self.watch.tally().counts();
        let news = Since {
            then: self.told,
            now: counts,
            passed: self.passed(rt),
            longest: self.watch.tally().take_longest(Reader::Log),
        };
        self.watch.log.tell(rt, alloc, &news);
        self.told = counts;
        self.since = Instant::now(rt).ok();
    }

    // Tells once that the history is nine tenths full.
    fn warn(&mut self, rt: &(impl Clock + Eprint), alloc: Global) {
        let fill = Fill(self.watch.tally().counts());
        if !self.has_warned && fill.is_nearly_full() {
            self.watch.log.tell(rt, alloc, &fill);
            self.has_warned = true;
        }
    }
}

/// How full the history is.
#[derive(Drop)]
struct Fill(Counts);

impl Fill {
    /// Whether it has nine tenths of what it may have.
    fn is_nearly_full(&self) -> bool {
        let Fill(counts) = self;
        counts.entries.saturating_mul(PARTS) >= counts.most_entries.saturating_mul(WARNED)
    }
}

impl Display for Fill {
    fn fmt<W: fmt::Write>(&self, f: &mut fmt::Formatter<W>) -> fmt::Result {
        let Fill(counts) = self;
        write!(
            f,
            "the history is nearly full: {} of {} entries",
            counts.entries, counts.most_entries
        )
    }
}

/// What was done from one moment to another.
#[derive(Drop)]
struct Since {
    then: Counts,
    now: Counts,
    passed: Duration,
    longest: Duration,
}

impl Since {
    /// How many lines were read.
    fn lines(&self) -> u64 {
        self.now.lines.saturating_sub(self.then.lines)
    }

    /// How many lines were read in ten seconds.
    fn lines_in_ten_seconds(&self) -> u64 {
        let seconds = self.passed.as_secs().saturating_mul(1_000);
        let millis = seconds.saturating_add(u64::from(self.passed.subsec_millis()));
        let lines = self.lines().saturating_mul(10_000);
        lines.checked_div(millis).unwrap_or(0)
    }

    /// The lines that were refused, of each kind of which there are any.
    fn write_refusals<W: fmt::Write>(&self, f: &mut fmt::Formatter<W>) -> fmt::Result {
        let mut mark = ": ";
        for refusal in RefusalKind::ALL {
            let count = self
                .now
                .refused_for(refusal)
                .saturating_sub(self.then.refused_for(refusal));
            if count > 0 {
                write!(f, "{mark}{refusal} {count}")?;
                mark = ", ";
            }
        }
        Ok(())
    }
}

impl Display for Since {
    fn fmt<W: fmt::Write>(&self, f: &mut fmt::Formatter<W>) -> fmt::Result {
        let (then, now, rate) = (&self.then, &self.now, self.lines_in_ten_seconds());
        write!(
            f,
            "{} lines, {}.{} a second; {} entries, {} left; ok {}, granted {}, blocked {}, shown {}, refused {}",
            self.lines(),
            rate / 10,
            rate % 10,
            now.entries.saturating_sub(then.entries),
            now.entries_left(),
            now.ok.saturating_sub(then.ok),
            now.granted.saturating_sub(then.granted),
            now.blocked.saturating_sub(then.blocked),
            now.shown.saturating_sub(then.shown),
            now.all_refused().saturating_sub(then.all_refused()),
        )?;
        self.write_refusals(f)?;
        write!(
            f,
            "; {} commits, at most {}.{:03} ms; {} connections",
            now.commits.saturating_sub(then.commits),
            self.longest.as_millis(),
            self.longest.subsec_micros() % 1_000,
            now.open,
        )
    }
}
