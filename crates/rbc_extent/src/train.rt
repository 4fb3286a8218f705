//! A train, as its last report and its authority leave it.

ghost use Rattle.std.specs.Prelude.{◌≡◌, ◌<◌, ◌≤◌, IfOk};
ghost use Rattle.rbc_model.specs.Events.{with_authority, cut_at};
ghost use Rattle.rbc_model.specs.Views.{start_of};
ghost use Rattle.rbc_scene_laws.specs.Good.{IsGoodTrain};
ghost use Rattle.rbc_extent.specs.PlacedTrains.{placed_train};
ghost use Rattle.rbc_extent.specs.ToldTrains.{train_at};

use crate::Placed;
use crate::through::cut_ahead;
use rbc_line::Line;
use rbc_model::{Memory, Report, TrainId};
use std::alloc::Global;
use std::marker::Model;

/// An authority, from one place up to another, which is left out. Empty ones are from a place to itself.
#[derive(Clone, Copy)]
pub(crate) struct Authority {
    pub(crate) from: u32,
    pub(crate) to: u32,
}

/// The places of a train on its line, in metres from the line's start: of the balise group that its last report counts
/// from (the origin), of its min safe rear end and its front, and of its authority, from one up to another.
#[derive(Clone, Copy)]
pub struct Places {
    /// The place of the balise group.
    pub origin: u32,
    /// The place of the first metre that the train may stand on.
    pub rear: u32,
    /// The place behind the last metre that the train may stand on.
    pub front: u32,
    /// The place of the first metre of its authority.
    pub from: u32,
    /// The place behind the last metre of its authority.
    pub to: u32,
}

/// A train: its last report, its line, the place on it of the balise group that the report counts from (the origin),
/// its extent from the min safe rear end to the front, and its authority from one place to another. A place is its
/// distance in metres from the line's start. Its extent and its authority stand on its line, and the authority not
/// behind the rear.
#[derive(Drop)]
pub struct Train {
    report: Report,
    line: Line,
    origin: u32,
    rear: u32,
    front: u32,
    from: u32,
    to: u32,
}

impl Model for Train {
    ghost use Rattle.rbc_extent.specs.TrainsOnTracks.{TrainOnTrack, train_on};
    ghost use Rattle.rbc_scene_laws.specs.Good.{IsGoodTrain};

    ghost Value = { TrainOnTrack };

    ghost view = { λ t. record {
      track = t.line.track;
      train = train_on t.line t.report t.origin t.rear t.front t.from t.to;
    } };

    ghost invariant = { λ t.
        IsGoodTrain t.line.track (train_on t.line t.report t.origin t.rear t.front t.from t.to) };
}

impl Train {
    /// The train that a report places so, with this authority. The legs ahead that neither its extent nor its
    /// authority needs are dropped, save the leg told.
    pub(crate) fn placed(placed: Placed, report: &Report, authority: Authority) -> Train
        requires { IsGoodTrain placed.track
            (placed_train placed.track report.now placed.placed authority.from authority.to) }
        ensures track { result.track ≡ placed.track }
        ensures train { result.train
            ≡ placed_train placed.track report.now placed.placed authority.from authority.to }
    {
        let Authority { from, to } = authority;
        let (origin, rear, front) = (placed.origin(), placed.rear(), placed.front());
        let mut line = placed.into_line();
        cut_ahead(&mut line, report, front.max(to));
        Train {
            report: *report,
            line,
            origin,
            rear,
            front,
            from,
            to,
        }
    }

    /// The train with this last report, on this line at these places. It takes no memory.
    pub fn told(report: &Report, line: Line, places: Places) -> Train
        requires { IsGoodTrain line.track (train_at line report.now places) }
        ensures track { result.track ≡ line.track }
        ensures train { result.train ≡ train_at line report.now places }
    {
        let Places {
            origin,
            rear,
            front,
            from,
            to,
        } = places;
        Train {
            report: *report,
            line,
            origin,
            rear,
            front,
            from,
            to,
        }
    }

    /// The train's number, 1 to 9,999,999.
    pub fn id(&self) -> TrainId
        ensures { result ≡ self.now.train.report.train }
    {
        self.report.train()
    }

    /// The train's last report.
    pub fn report(&self) -> Report
        ensures { result ≡ self.now.train.report }
    {
        self.report
    }

    /// The train stands on its line, with its authority. This does nothing.
    pub fn known(&self)
        ensures { IsGoodTrain self.now.track self.now.train }
    {
        let _ = &self.line;
    }

    /// The legs that the train runs along.
    pub fn line(&self) -> &Line
        ensures track { result.now.track ≡ self.now.track }
        ensures legs { result.now.legs ≡ self.now.train.line }
    {
        &self.line
    }

    /// The place of the balise group that the last report counts from.
    pub fn origin(&self) -> u32
        ensures origin { result ≡ self.now.train.origin }
    {
        self.origin
    }

    /// The place of the first metre that the train may stand on.
    pub fn rear(&self) -> u32
        ensures rear { result ≡ self.now.train.rear }
    {
        self.rear
    }

    /// The place behind the last metre that the train may stand on.
    pub fn front(&self) -> u32
        ensures front { result ≡ self.now.train.front }
    {
        self.front
    }

    /// The place of the first metre of the train's authority.
    pub fn from(&self) -> u32
        ensures from { result ≡ self.now.train.from }
    {
        self.from
    }

    /// The place behind the last metre of the train's authority.
    pub fn to(&self) -> u32
        ensures to { result ≡ self.now.train.to }
    {
        self.to
    }

    /// The place from which the train's way is searched, and from which it is granted an authority: the start of the one it
    /// has, or its front where that lies behind.
    pub fn start(&self) -> u32
        ensures { result ≡ start_of self.now.train }
    {
        self.from.min(self.front)
    }

    /// The train with another authority, on a line that has both its extent and this authority.
    pub fn with_authority(&self, line: Line, from: u32, to: u32) -> Train
        requires track { line.track ≡ self.now.track }
        requires good { IsGoodTrain line.track (with_authority self.now.train line.legs from to) }
        ensures track { result.track ≡ self.now.track }
        ensures train { result.train ≡ with_authority self.now.train line.legs from to }
    {
        Train {
            report: self.report,
            line,
            origin: self.origin,
            rear: self.rear,
            front: self.front,
            from,
            to,
        }
    }

    /// Gives the train another authority, which stands on its line. It takes no memory.
    pub fn hold(&mut self, from: u32, to: u32)
        requires good { IsGoodTrain self.old.track (with_authority self.old.train self.old.train.line from to) }
        ensures track { self.new.track ≡ self.old.track }
        ensures train { self.new.train ≡ with_authority self.old.train self.old.train.line from to }
    {
        self.from = from;
        self.to = to;
    }

    /// Gives back what the authority has from a place on, which is not behind the train's front. The legs that
    /// neither the extent nor the authority needs then are dropped, save that of the last report. It takes no memory.
    pub fn cut_at(&mut self, to: u32)
        requires front { self.old.train.front ≤ to }
        requires from { self.old.train.from ≤ to }
        requires to { to < self.old.train.to }
        ensures track { self.new.track ≡ self.old.track }
        ensures train { self.new.train ≡ cut_at self.old.track self.old.train to }
    {
        cut_ahead(&mut self.line, &self.report, self.front.max(to));
        if self.from < to {
            self.to = to;
        } else {
            self.from = self.front;
            self.to = self.front;
        }
    }

    /// An equal train.
    ///
    /// # Errors
    ///
    /// `Memory`, where the allocator refuses room for the line.
    pub fn copy(&self, alloc: Global) -> Result<Train, Memory>
        ensures { IfOk result (λ train. train ≡ self.now) }
    {
        let line = self.line.copy(alloc)?;
        Ok(Train {
            report: self.report,
            line,
            origin: self.origin,
            rear: self.rear,
            front: self.front,
            from: self.from,
            to: self.to,
        })
    }
}
