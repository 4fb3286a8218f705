//! Requests and their answers over one connection, one after the other.

ghost use Rattle.std.specs.Prelude.{◌≡◌, ◌+◌, ◌<◌, ◌≤◌, ◌++◌, ◌⊎◌, false, true, length, drop};
ghost use Rattle.rbc_page.specs.Answers.{refusal_text};
ghost use Rattle.rbc_page.specs.Exchanges.{IsHeardIn, IsTurnedAway, at_first, ended, next_stage, telling};
ghost use Rattle.rbc_page.specs.Moments.{answer_to};
ghost use Rattle.rbc_page.specs.declared.exchange.Stage.TheVariants.{Hears, Tells};

use crate::{Asked, Fixed, Heard, Lookout, Status, hear, refuse};
use rbc_desk::DeskName;
use rbc_model::Memory;
use std::alloc::Global;
use std::marker::Model;

/// How many bytes the head of a request may have.
pub const MOST_HEAD: usize = 8_192;

/// How far an exchange is.
#[derive(Clone, Copy)]
pub enum Stage {
    /// The head of a request is heard.
    Hears,
    /// A request waits for its answer.
    Waits(Asked),
    /// An answer is told, and then the client may ask again, or not.
    Tells(bool),
    /// It is over.
    Over,
}

/// An exchange. Contracts see how far it is, what has come of its request, its answer, and how much of that has gone.
#[derive(Drop)]
pub struct Exchange {
    stage: Stage,
    head: Vec<u8>,
    text: Vec<u8>,
    sent: usize,
}

impl Model for Exchange {
    ghost use Rattle.std.specs.Prelude.{◌≡◌, ◌≤◌, [], length};
    ghost use Rattle.rbc_page.specs.Exchanges.{Exchanged};
    ghost use Rattle.rbc_page.specs.declared.exchange.Stage.TheVariants.{Hears};

    ghost Value = { Exchanged };

    ghost view = { λ e. record { stage = e.stage; head = e.head.items; text = e.text.items; sent = e.sent } };

    ghost invariant = { λ e. (e.sent ≤ length e.text.items) × (length e.head.items ≤ 8192) × (e.stage ≡ Hears → e.text.items ≡ []) };
}

impl Exchange {
    /// One of which nothing has come.
    pub fn new(alloc: Global) -> Exchange
        ensures { result ≡ at_first }
    {
        Exchange {
            stage: Stage::Hears,
            head: Vec::new(alloc),
            text: Vec::new(alloc),
            sent: 0,
        }
    }

    /// How far it is.
    pub fn stage(&self) -> Stage
        ensures { result ≡ self.now.stage }
    {
        self.stage
    }

    /// How many bytes more the head of its request may have.
    pub fn room(&self) -> usize
        ensures { result + length self.now.head ≡ 8192 }
    {
        MOST_HEAD - self.head.len()
    }

    /// Ends it.
    pub fn end(&mut self)
        ensures { self.new ≡ ended }
    {
        self.head.clear();
        self.text.clear();
        self.sent = 0;
        self.stage = Stage::Over;
    }

    /// Goes on with bytes of a request that have come to a centre that has begun so. Where there is no room for them, it is over.
    pub fn take(&mut self, start: &[u8], bytes: &[u8])
        requires hears { self.old.stage ≡ Hears }
        requires room { length self.old.head + length bytes.now ≤ 8192 }
        ensures { IsHeardIn start.now (self.old.head ++ bytes.now) self.new.stage self.new }
    {
        if self.head.extend_from_slice(bytes).is_err() {
            self.end();
            return;
        }
        match hear(start, self.head.as_slice()) {
            Heard::Request(asked) => self.stage = Stage::Waits(asked),
            Heard::Refused(status) => self.refuse(start, status),
            Heard::More if self.head.len() == MOST_HEAD => self.refuse(start, Status::TooLong),
            Heard::More => {}
        }
    }

    /// Tells a refusal, and nothing more. Where there is no room for it, it is over.
    pub fn refuse(&mut self, start: &[u8], status: Status)
        ensures { (self.new ≡ ended) ⊎ (self.new ≡ telling false (refusal_text start.now status)) }
    {
        self.end();
        match refuse(&mut self.text, start, status) {
            Ok(()) => self.stage = Stage::Tells(false),
            Err(Memory) => self.text.clear(),
        }
    }

    /// Tells the answer to a request, at the moment of the history that the lookout has, and nothing more. Where there is no room
    /// for it, that is told; where there is none even for that, it is over.
    pub fn answer<L: DeskName>(
        &mut self,
        alloc: Global,
        start: &[u8],
        asked: &Asked,
        standing: &Fixed<'_>,
        lookout: &Lookout<L>,
    )
        requires kept { lookout.now.is_kept ≡ true }
        ensures { IsTurnedAway start.now self.old self.new ⊎ (self.new ≡ telling asked.now.stays (answer_to start.now (record {
          viewer = standing.now.viewer.now;
          track = standing.now.track.now;
          metrics = standing.now.metrics.now;
        }) asked.now lookout.now.seat.told)) }
    {
        self.end();
        match lookout.answer(alloc, &mut self.text, start, asked, standing) {
            Ok(()) => self.stage = Stage::Tells(asked.stays),
            Err(Memory) => self.refuse(start, Status::Unavailable),
        }
    }

    /// What is left to be told.
    pub fn rest(&self) -> &[u8]
        ensures { result.now ≡ drop self.now.sent self.now.text }
    {
        &self.text[self.sent..]
    }

    /// So many bytes more have gone of what is told. Behind the last one the client may ask again, or it is over.
    pub fn pass(&mut self, stays: bool, count: usize)
        requires tells { self.old.stage ≡ Tells stays }
        requires within { self.old.sent + count ≤ length self.old.text }
        ensures more { self.old.sent + count < length self.old.text
            → self.new ≡ record { stage = self.old.stage; head = self.old.head; text = self.old.text; sent = self.old.sent + count } }
        ensures all { self.old.sent + count ≡ length self.old.text → self.new ≡ next_stage stays }
    {
        self.sent += count;
        if self.sent < self.text.len() {
            return;
        }
        self.end();
        if stays {
            self.stage = Stage::Hears;
        }
    }
}
