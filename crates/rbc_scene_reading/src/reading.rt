//! A scene that is read line by line.

ghost use Rattle.std.specs.Prelude.{◌≡◌, IfOk, IsErrOf, IsOk};
ghost use Rattle.std.specs.Arc.{arc_value};
ghost use Rattle.std.specs.Result.{result_map_both};
ghost use Rattle.rbc_model.specs.declared.memory.OrMemory.TheVariants.{Refused};
ghost use Rattle.rbc_model.specs.Answers.{AnswersAs};
ghost use Rattle.rbc_scene.specs.Books.{scene_of};
ghost use Rattle.rbc_scene_words.specs.LineViews.{line_view};
ghost use Rattle.rbc_scene_words.specs.SceneLine.{parse_scene_line};
ghost use Rattle.rbc_scene_reading.specs.Additions.{AddsTo};
ghost use Rattle.rbc_scene_reading.specs.Reading.{begun, report_fault, whole, with_end, with_extent, with_held, with_line, with_next, with_piece, with_report, with_row_told, with_said, with_text, with_version};

use crate::apart::held_fault;
use crate::fault::SceneFault;
use crate::held::with_held;
use crate::rows::add_needed;
use crate::stage::{Running, Stage};
use crate::standing::stands_on_line;
use rbc_model::limits::{LEGS_A_LINE, MOST_TRAINS};
use rbc_model::{Leg, Memory, OrMemory, Report, RouteId, TrainId};
use rbc_scene::{Book, Locks, Scene};
use rbc_scene_words::{SceneLine, parse};
use rbc_track::Track;
use std::alloc::Global;
use std::marker::Model;
use std::mem;
use std::sync::Arc;

/// What was read of a scene so far. Its locks and its trains make a scene at any time: no metre stands in the authorities of two
/// trains, and each metre of an authority is locked in the direction of its leg.
#[derive(Drop)]
pub(crate) struct Reading {
    version: u64,
    locks: Locks,
    book: Book,
    stage: Stage,
}

impl Model for Reading {
    ghost use Rattle.rbc_scene_reading.specs.Readings.{IsSoFar, Reading, reading_of};

    ghost Value = { Reading };

    ghost view = { λ r. reading_of r.version r.locks r.book r.stage };

    ghost invariant = { λ r. IsSoFar (reading_of r.version r.locks r.book r.stage) };
}

impl Reading {
    /// The reading of the scene of a track, before its first line.
    ///
    /// # Errors
    ///
    /// `Memory`, where the allocator refuses room for the locks.
    pub(crate) fn new(alloc: Global, track: Arc<Track>) -> Result<Reading, Memory>
        ensures { IfOk result (λ reading. reading ≡ begun (arc_value track)) }
    {
        track.known();
        let locks = Locks::new(alloc, &track)?;
        let book = Book::new(alloc, track)?;
        Ok(Reading {
            version: 0,
            locks,
            book,
            stage: Stage::Start,
        })
    }

    /// Adds a line, without its line feed. Where it is refused, or memory is, what was read is of no use.
    ///
    /// # Errors
    ///
    /// `Refused` with the fault of the line. `Memory` comes only of a line that says something.
    pub(crate) fn add_text(
        &mut self,
        alloc: Global,
        line: &[u8],
    ) -> Result<(), OrMemory<SceneFault>>
        ensures reading { AnswersAs (λ done. self.new) result (with_text line.now self.old) }
        ensures memory { IsErrOf result OrMemory.Memory → IsOk (parse_scene_line self.old.track line.now) }
        ensures track { self.new.track ≡ self.old.track }
    {
        match parse(alloc, self.book.track(), line) {
            Ok(said) => self.add(alloc, said),
            Err(OrMemory::Refused(fault)) => Err(OrMemory::Refused(SceneFault::Line(fault))),
            Err(OrMemory::Memory) => Err(OrMemory::Memory),
        }
    }

    /// Adds what a line says.
    fn add(&mut self, alloc: Global, said: SceneLine) -> Result<(), OrMemory<SceneFault>>
        ensures reading { AnswersAs (λ done. self.new) result (with_said (line_view said) self.old) }
        ensures track { self.new.track ≡ self.old.track }
    {
        match said {
            SceneLine::Version(version) => or_memory(self.add_version(version)),
            SceneLine::Locked(leg, route, before) => or_memory(self.add_row(leg, route, before)),
            SceneLine::Reported(report) => or_memory(self.add_report(report)),
            SceneLine::Along(train, origin, legs) => or_memory(self.add_line(train, origin, legs)),
            SceneLine::More(train, legs) => self.add_piece(train, &legs),
            SceneLine::Stands(train, rear, front) => self.add_extent(alloc, train, rear, front),
            SceneLine::Holds(train, from, to) => self.add_held(train, from, to),
            SceneLine::Next => or_memory(self.add_next()),
            SceneLine::Done => or_memory(self.add_end()),
        }
    }

    /// Adds the version.
    fn add_version(&mut self, version: u64) -> Result<(), SceneFault>
        ensures reading { AddsTo result self.new (with_version version self.old) }
        ensures track { self.new.track ≡ self.old.track }
    {
        match &self.stage {
            Stage::Start => {
                self.version = version;
                self.stage = Stage::Rows(0);
                Ok(())
            }
            _ => Err(SceneFault::Order),
        }
    }

    /// Adds a locked section.
    fn add_row(&mut self, leg: Leg, route: RouteId, before: Option<Leg>) -> Result<(), SceneFault>
        ensures reading { AddsTo result self.new (with_row_told leg route before self.old) }
        ensures track { self.new.track ≡ self.old.track }
    {
        let section = leg.section.index();
        if !self.stage.may_be_of(section) {
            return Err(SceneFault::Order);
        }
        add_needed(self.book.track(), &mut self.locks, leg, route, before)?;
        self.stage = Stage::Rows(section + 1);
        Ok(())
    }

    /// Adds a train's report.
    fn add_report(&mut self, report: Report) -> Result<(), SceneFault>
        ensures reading { AddsTo result self.new (with_report report self.old) }
        ensures track { self.new.track ≡ self.old.track }
    {
        if !self.stage.is_between() {
            return Err(SceneFault::Order);
        }
        if let Some(fault) = report_fault(&self.book, &report) {
            return Err(fault);
        }
        self.stage = Stage::Told(report);
        Ok(())
    }

    /// Adds the place of a train's group, and its first legs.
    fn add_line(&mut self, train: TrainId, origin: u64, legs: Vec<Leg>) -> Result<(), SceneFault>
        ensures reading { AddsTo result self.new (with_line train origin legs.items self.old) }
        ensures track { self.new.track ≡ self.old.track }
    {
        let report = self.stage.told_in().ok_or(SceneFault::Order)?;
        if train != report.train() || legs.len() > LEGS_A_LINE {
            return Err(SceneFault::Order);
        }
        let full = legs.len() == LEGS_A_LINE;
        self.stage = Stage::Running(Running {
            report,
            origin,
            legs,
            full,
        });
        Ok(())
    }

    /// Adds more legs of a train's line.
    fn add_piece(&mut self, train: TrainId, legs: &[Leg]) -> Result<(), OrMemory<SceneFault>>
        ensures reading { AnswersAs (λ done. self.new) result (with_piece train legs.now self.old) }
        ensures track { self.new.track ≡ self.old.track }
    {
        let Stage::Running(mut running) = mem::replace(&mut self.stage, Stage::Ended) else {
            return Err(OrMemory::Refused(SceneFault::Order));
        };
        if !running.may_go_on(train, legs) {
            return Err(OrMemory::Refused(SceneFault::Order));
        }
        running.add_piece(legs)?;
        self.stage = Stage::Running(running);
        Ok(())
    }

    /// Adds where a train stands.
    fn add_extent(
        &mut self,
        alloc: Global,
        train: TrainId,
        rear: i64,
        front: i64,
    ) -> Result<(), OrMemory<SceneFault>>
        ensures reading { AnswersAs (λ done. self.new) result (with_extent train rear front self.old) }
        ensures track { self.new.track ≡ self.old.track }
    {
        let Stage::Running(running) = mem::replace(&mut self.stage, Stage::Ended) else {
            return Err(OrMemory::Refused(SceneFault::Order));
        };
        if running.report.train() != train {
            return Err(OrMemory::Refused(SceneFault::Order));
        }
        match stands_on_line(alloc, self.book.track(), &running, rear, front) {
            Ok(standing) => {
                self.stage = Stage::Standing(standing);
                Ok(())
            }
            Err(fault) => Err(fault),
        }
    }

    /// Adds what a train holds.
    fn add_held(&mut self, train: TrainId, from: i64, to: i64) -> Result<(), OrMemory<SceneFault>>
        ensures reading { AnswersAs (λ done. self.new) result (with_held train from to self.old) }
        ensures track { self.new.track ≡ self.old.track }
    {
        let Stage::Standing(standing) = mem::replace(&mut self.stage, Stage::Ended) else {
            return Err(OrMemory::Refused(SceneFault::Order));
        };
        if standing.report.train() != train {
            return Err(OrMemory::Refused(SceneFault::Order));
        }
        let Some(held) = with_held(standing, from, to) else {
            return Err(OrMemory::Refused(SceneFault::OffLine(train)));
        };
        if let Some(fault) = held_fault(&self.locks, &self.book, &held) {
            return Err(OrMemory::Refused(fault));
        }
        self.book.set_place(held)?;
        self.stage = Stage::Held;
        Ok(())
    }

    /// Adds what a train would be granted.
    fn add_next(&mut self) -> Result<(), SceneFault>
        ensures reading { AddsTo result self.new (with_next self.old) }
        ensures track { self.new.track ≡ self.old.track }
    {
        match &self.stage {
            Stage::Held => {
                self.stage = Stage::Between;
                Ok(())
            }
            _ => Err(SceneFault::Order),
        }
    }

    /// Adds the end.
    fn add_end(&mut self) -> Result<(), SceneFault>
        ensures reading { AddsTo result self.new (with_end self.old) }
        ensures track { self.new.track ≡ self.old.track }
    {
        if !self.stage.is_between() {
            return Err(SceneFault::Order);
        }
        self.stage = Stage::Ended;
        Ok(())
    }

    /// The version and the scene.
    ///
    /// # Errors
    ///
    /// `NoEnd`: the end was not told.
    pub(crate) fn whole(self) -> Result<(u64, Scene), SceneFault>
        ensures scene { result_map_both (λ read. (read.0, read.1.scene)) (λ fault. fault) result ≡ whole self }
        ensures track { IfOk result (λ read. read.1.track ≡ self.track) }
    {
        let Reading {
            version,
            locks,
            book,
            stage,
        } = self;
        match stage {
            Stage::Ended => Ok((version, Scene::of(locks, book))),
            _ => Err(SceneFault::NoEnd),
        }
    }
}

/// Why no train with this report may come.
fn report_fault(book: &Book, report: &Report) -> Option<SceneFault>
    ensures { result ≡ report_fault book.now.track (scene_of book.now.trains) report.now }
{
    let train = report.train();
    let track = book.track();
    if book.len() >= MOST_TRAINS {
        return Some(SceneFault::Crowded(train));
    }
    if book.get(train).is_some() {
        return Some(SceneFault::TwiceTold(train));
    }
    if track.group(report.group()).is_none() {
        return Some(SceneFault::UnknownGroup(train));
    }
    report.known();
    if track.farthest_end() < report.distance().metres() + u32::from(report.under()) {
        return Some(SceneFault::TooFar(train));
    }
    None
}

/// The answer of a call that takes no memory.
fn or_memory(answer: Result<(), SceneFault>) -> Result<(), OrMemory<SceneFault>>
    ensures { result ≡ result_map_both (λ done. done) (λ fault. Refused fault) answer }
{
    match answer {
        Ok(()) => Ok(()),
        Err(fault) => Err(OrMemory::Refused(fault)),
    }
}
