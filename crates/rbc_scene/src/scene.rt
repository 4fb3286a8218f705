//! A scene, and what is told in it.

ghost use Rattle.std.specs.Prelude.{◌≡◌, ◌+◌, ◌<◌, ◌≤◌, length, false, true, is_ok, None, Some, Err, Ok, IfErr, IfOk, IfSome, IsTrue, OnErr, OnOk};
ghost use Rattle.std.specs.Arc.{arc_value};
ghost use Rattle.std.specs.Result.{result_err, result_map_both};
ghost use Rattle.rbc_model.specs.declared.memory.OrMemory.TheVariants.{Refused, Memory as NoMemory};
ghost use Rattle.rbc_model.specs.declared.refusals.Refusal.TheVariants.{NotSafe, UnknownTrain};
ghost use Rattle.rbc_model.specs.declared.reports.Told.TheVariants.{Report as ToldReport};
ghost use Rattle.rbc_model.specs.Answers.{AnswersAs, AnswersOrMemory};
ghost use Rattle.rbc_model.specs.Events.{after_free, after_give_back, after_grant, after_leave, after_lock, after_report, after_told, step, with_authority};
ghost use Rattle.rbc_model.specs.Lines.{line_length};
ghost use Rattle.rbc_model.specs.Placing.{reported};
ghost use Rattle.rbc_model.specs.Scenes.{empty_scene, train_numbered};
ghost use Rattle.rbc_model.specs.Trains.{Train as KnownTrain};
ghost use Rattle.rbc_scene.specs.Grants.{granted_train};
ghost use Rattle.rbc_scene.specs.ScenesOnTracks.{scene_on};
ghost use Rattle.rbc_scene_laws.specs.Good.{IsGoodScene};
ghost use Rattle.rbc_scene.specs.Steps.{IsEventOfTrack, IsOfTrack, IsReportTold, LeadTo, MayNeedMemory, StepsOrMemory, StepsTo};
ghost use Rattle.rbc_scene.specs.Steps.{end_cut, end_given_back, granted_at_once, is_crowded, is_out_of_range, reach_of, refused_at_once, told_at_once};

use crate::granting::{GrantedLine, granted_along, granted_to};
use rbc_model::limits::MOST_TRAINS;
use rbc_model::{
    Distance, Event, Leg, Memory, Obstacle, OrMemory, Refusal, Report, RouteId, SectionId, Told,
    TrainId,
};
use rbc_search::{Book, Locks, Train, reach, reported};
use rbc_track::Track;
use std::alloc::Global;
use std::marker::Model;
use std::sync::Arc;

/// The locks and the trains of a track at one moment. No metre stands in the authorities of two trains, and each
/// metre of an authority is locked in the direction of its leg.
#[derive(Drop)]
pub struct Scene {
    locks: Locks,
    book: Book,
}

impl Model for Scene {
    ghost use Rattle.rbc_scene.specs.ScenesOnTracks.{SceneOnTrack, IsKept, scene_on};

    ghost Value = { SceneOnTrack };

    ghost view = { λ s. scene_on s.locks s.book };

    ghost invariant = { λ s. IsKept (scene_on s.locks s.book) };
}

/// The place at this distance beyond the train's group, if the train may give back what its authority has from there
/// on.
fn end_cut(train: &Train, distance: Distance) -> Option<u32>
    ensures { result ≡ end_cut train.now.train distance }
{
    let end = train.to();
    let to = train.origin().checked_add(distance.metres())?;
    if to < end && train.front() <= to && train.from() <= to {
        Some(to)
    } else {
        None
    }
}

/// The answer of a call that takes no memory.
fn or_memory(answer: Result<(), Refusal>) -> Result<(), OrMemory<Refusal>>
    ensures { result ≡ result_map_both (λ done. done) (λ refusal. Refused refusal) answer }
{
    match answer {
        Ok(()) => Ok(()),
        Err(refusal) => Err(OrMemory::Refused(refusal)),
    }
}

impl Scene {
    /// The scene in which nothing is locked and no train has reported.
    ///
    /// # Errors
    ///
    /// `Memory`, where the allocator refuses room for the locks.
    pub fn new(alloc: Global, track: Arc<Track>) -> Result<Scene, Memory>
        ensures { IfOk result (λ scene.
            scene ≡ record { track = arc_value track; scene = empty_scene (arc_value track) }) }
    {
        track.known();
        let locks = Locks::new(alloc, &track)?;
        let book = Book::new(alloc, track)?;
        Ok(Scene { locks, book })
    }

    /// The scene of these locks and these trains. It takes no memory.
    pub fn of(locks: Locks, book: Book) -> Scene
        requires { IsGoodScene book.track (scene_on locks book).scene }
        ensures { result ≡ scene_on locks book }
    {
        book.track().known();
        Scene { locks, book }
    }

    /// The track.
    pub fn track(&self) -> &Arc<Track>
        ensures { arc_value result.now ≡ self.now.track }
    {
        self.book.track()
    }

    /// The locks lead along the track, and each train stands on its line. No metre stands in the authorities of two trains, and
    /// each metre of an authority is locked in the direction of its leg. This does nothing.
    pub fn known(&self)
        ensures { IsGoodScene self.now.track self.now.scene }
    {
        let _ = &self.locks;
    }

    /// The locks.
    pub fn locks(&self) -> &Locks
        ensures locks { result.now ≡ self.now.scene.locks }
    {
        &self.locks
    }

    /// The trains.
    pub fn book(&self) -> &Book
        ensures track { result.now.track ≡ self.now.track }
        ensures trains { result.now.trains ≡ self.now.scene.trains }
    {
        &self.book
    }

    /// A train reports where it is. Where the report is refused, or memory is, nothing changes.
    ///
    /// # Errors
    ///
    /// `Refused` with the first of these:
    /// - `Crowded`: the train is new, and there are 1,024,
    /// - `UnknownGroup`, `Offline`, `Unplaced` or `TooFar`, as [`rbc_search::reported`] says.
    ///
    /// `Memory` is told of a report that is not refused, and of no other.
    pub fn report(&mut self, alloc: Global, report: &Report) -> Result<(), OrMemory<Refusal>>
        ensures reported { StepsOrMemory result self.old self.new
            (after_report self.old.track self.old.scene report.now) }
        ensures refused { IfErr (after_report self.old.track self.old.scene report.now)
            (λ refusal. result ≡ Err (Refused refusal)) }
    {
        if self.is_crowded(report) {
            return Err(OrMemory::Refused(Refusal::Crowded));
        }
        let train = self.train_after(alloc, report)?;
        self.book.set_place(train)?;
        Ok(())
    }

    /// Whether the train that reports is new, and there are 1,024.
    fn is_crowded(&self, report: &Report) -> bool
        ensures { result ≡ is_crowded self.now.scene report.now }
    {
        self.book.get(report.train()).is_none() && self.book.len() >= MOST_TRAINS
    }

    /// Why the report is refused, where nothing has to grow to see it.
    fn report_refusal(&self, report: &Report) -> Option<Refusal>
        ensures { result ≡ told_at_once self.now.track self.now.scene (ToldReport report.now) }
    {
        if self.is_crowded(report) {
            return Some(Refusal::Crowded);
        }
        match self.book.track().group(report.group()) {
            Some(_) => None,
            None => Some(Refusal::UnknownGroup),
        }
    }

    /// The train that reports, after its report.
    fn train_after(&self, alloc: Global, report: &Report) -> Result<Train, OrMemory<Refusal>>
        ensures reported { AnswersAs (λ t. t.train) result (reported self.now.track self.now.scene.locks
            (train_numbered self.now.scene report.now.train) report.now) }
        ensures track { IfOk result (λ t. t.track ≡ self.now.track) }
        ensures refused { IfErr (reported self.now.track self.now.scene.locks
            (train_numbered self.now.scene report.now.train) report.now) (λ refusal. result ≡ Err (Refused refusal)) }
    {
        let known = self.book.get(report.train());
        reported(alloc, self.book.track(), &self.locks, known, report)
    }

    /// A route is locked. It takes no memory.
    ///
    /// # Errors
    ///
    /// `Clash` or `LinkTaken`, as `Locks::lock` says. Nothing changes.
    pub fn lock(&mut self, route: RouteId) -> Result<(), Refusal>
        requires { route < length self.old.track.routes }
        ensures { StepsTo result self.old self.new (after_lock self.old.track self.old.scene route) }
    {
        self.locks.lock(self.book.track(), route)
    }

    /// A section is freed. It takes no memory.
    ///
    /// # Errors
    ///
    /// The first of these, and nothing changes:
    /// - `NotLocked`: the section is not locked,
    /// - `Busy` with the first train whose extent or authority has a metre of it.
    pub fn free(&mut self, section: SectionId) -> Result<(), Refusal>
        ensures { StepsTo result self.old self.new (after_free self.old.track self.old.scene section) }
    {
        if let Some(refusal) = self.free_refusal(section) {
            return Err(refusal);
        }
        self.locks.free(section)
    }

    /// Why the section can't be freed, if it can't.
    fn free_refusal(&self, section: SectionId) -> Option<Refusal>
        ensures { result ≡ result_err (after_free self.now.track self.now.scene section) }
    {
        if self.locks.row(section).is_none() {
            return Some(Refusal::NotLocked(section));
        }
        let train = self.book.standing_on(section)?;
        Some(Refusal::Busy(section, train))
    }

    /// A train leaves. It takes no memory.
    ///
    /// # Errors
    ///
    /// `UnknownTrain`: there is no train of this number. Nothing changes.
    pub fn leave(&mut self, train: TrainId) -> Result<(), Refusal>
        ensures { StepsTo result self.old self.new (after_leave self.old.scene train) }
    {
        if self.book.leave(train) {
            Ok(())
        } else {
            Err(Refusal::UnknownTrain(train))
        }
    }

    /// A train gives back what its authority has from this distance beyond its group on, but not what it stands on or
    /// has run over. It takes no memory.
    ///
    /// # Errors
    ///
    /// The first of these, and nothing changes:
    /// - `UnknownTrain`: there is no train of this number,
    /// - `YieldRange`: its authority does not end beyond that place, or the place lies behind its front or before its
    ///   authority.
    pub fn give_back(&mut self, train: TrainId, distance: Distance) -> Result<(), Refusal>
        ensures { StepsTo result self.old self.new
            (after_give_back self.old.track self.old.scene train distance) }
    {
        let to = self.end_given_back(train, distance)?;
        self.book.give_back(train, to);
        Ok(())
    }

    /// Why the train can't leave, if it can't.
    fn leave_refusal(&self, train: TrainId) -> Option<Refusal>
        ensures { result ≡ result_err (after_leave self.now.scene train) }
    {
        match self.book.get(train) {
            Some(_) => None,
            None => Some(Refusal::UnknownTrain(train)),
        }
    }

    /// Why the train can't give that back, if it can't.
    fn give_back_refusal(&self, train: TrainId, distance: Distance) -> Option<Refusal>
        ensures { result ≡ result_err (after_give_back self.now.track self.now.scene train distance) }
    {
        self.end_given_back(train, distance).err()
    }

    /// The place at which the train's authority ends once it has given back what lies beyond.
    fn end_given_back(&self, train: TrainId, distance: Distance) -> Result<u32, Refusal>
        ensures { result ≡ end_given_back self.now.scene train distance }
    {
        match self.book.get(train) {
            Some(known) => end_cut(known, distance).ok_or(Refusal::YieldRange(train)),
            None => Err(Refusal::UnknownTrain(train)),
        }
    }

    /// A train is granted an authority, from the start of the one it has, or from its front where that lies behind, to
    /// the place at this distance beyond its group. Its line is continued to have the last metre. Where the grant is
    /// refused, or memory is, nothing changes.
    ///
    /// # Errors
    ///
    /// `Refused` with the first of these:
    /// - `UnknownTrain`: there is no train of this number,
    /// - `NotSafe`: the place does not lie beyond the front, takes something back, has an obstacle before it, or no
    ///   message can give it.
    ///
    /// `Memory` may come in place of `NotSafe`, but not where there is no such train, or where no obstacle is needed to
    /// see it: the place lies beyond the farthest end, or not beyond the front, or it takes something back.
    pub fn grant(
        &mut self,
        alloc: Global,
        train: TrainId,
        distance: Distance,
    ) -> Result<(), OrMemory<Refusal>>
        ensures granted { StepsOrMemory result self.old self.new
            (after_grant self.old.track self.old.scene train distance) }
        ensures at_once { IfSome (granted_at_once self.old.track self.old.scene train distance)
            (λ refusal. result ≡ Err (Refused refusal)) }
    {
        let GrantedLine { line, from, to } = self.granted(alloc, train, distance)?;
        self.book.set_held(train, line, from, to);
        Ok(())
    }

    /// The authority that the train is granted up to this distance beyond its group.
    fn granted(
        &self,
        alloc: Global,
        train: TrainId,
        distance: Distance,
    ) -> Result<GrantedLine, OrMemory<Refusal>>
        ensures unknown { train_numbered self.now.scene train ≡ None → result ≡ Err (Refused (UnknownTrain train)) }
        ensures track { IfOk result (λ granted. granted.line.track ≡ self.now.track) }
        ensures granted { (known : KnownTrain) → train_numbered self.now.scene train ≡ Some known
            → AnswersAs (λ g. with_authority known g.line.legs g.from g.to) result
            (granted_train self.now.track self.now.scene known distance) }
        ensures range { (known : KnownTrain) → train_numbered self.now.scene train ≡ Some known
            → is_out_of_range self.now.track known distance ≡ true → result ≡ Err (Refused NotSafe) }
    {
        match self.book.get(train) {
            Some(known) => granted_to(alloc, &self.locks, &self.book, known, distance),
            None => Err(OrMemory::Refused(Refusal::UnknownTrain(train))),
        }
    }

    /// A train is granted an authority that is known to be accepted, along legs that its way is known to begin with, up to a
    /// place at this distance beyond its group, which they reach. No obstacle is searched. Where memory is refused
    /// nothing changes.
    ///
    /// # Errors
    ///
    /// `Memory`, where the place lies beyond the train's line, and the allocator refuses room for a longer one.
    pub fn grant_along(
        &mut self,
        alloc: Global,
        train: TrainId,
        distance: Distance,
        legs: &[Leg],
    ) -> Result<(), Memory>
        requires accepted { IsTrue (is_ok (after_grant self.old.track self.old.scene train distance)) }
        requires along { LeadTo self.old.track self.old.scene train distance legs.now }
        ensures granted { OnOk result ((after_grant self.old.track self.old.scene train distance ≡ Ok self.new.scene)
            × (self.new.track ≡ self.old.track)) }
        ensures on_line { (known : KnownTrain) → train_numbered self.old.scene train ≡ Some known
            → known.origin + distance ≤ line_length self.old.track known.line → result ≡ Ok tt }
        ensures refused { OnErr result (self.new ≡ self.old) }
    {
        if let Some((from, to)) = self.granted_on_line(train, distance) {
            self.book.hold(train, from, to);
            return Ok(());
        }
        let GrantedLine { line, from, to } = self.granted_along(alloc, train, distance, legs)?;
        self.book.set_held(train, line, from, to);
        Ok(())
    }

    /// From where to where the authority that is known to be accepted goes, if the train's line has all of it already.
    fn granted_on_line(&self, train: TrainId, distance: Distance) -> Option<(u32, u32)>
        requires accepted { IsTrue (is_ok (after_grant self.now.track self.now.scene train distance)) }
        ensures on_line { IfSome result (λ places. (known : KnownTrain) → train_numbered self.now.scene train ≡ Some known
            → granted_train self.now.track self.now.scene known distance
            ≡ Ok (with_authority known known.line places.0 places.1)) }
        ensures beyond { result ≡ None → (known : KnownTrain) → train_numbered self.now.scene train ≡ Some known
            → line_length self.now.track known.line < known.origin + distance }
    {
        let known = self.book.get(train)?;
        let line = known.line();
        known.known();
        let farthest = line.length().checked_sub(known.origin())?;
        if distance.metres() > farthest {
            return None;
        }
        Some((known.start(), known.origin() + distance.metres()))
    }

    /// The authority that is known to be accepted, on the train's line along these legs.
    fn granted_along(
        &self,
        alloc: Global,
        train: TrainId,
        distance: Distance,
        legs: &[Leg],
    ) -> Result<GrantedLine, Memory>
        requires accepted { IsTrue (is_ok (after_grant self.now.track self.now.scene train distance)) }
        requires along { LeadTo self.now.track self.now.scene train distance legs.now }
        ensures track { IfOk result (λ granted. granted.line.track ≡ self.now.track) }
        ensures granted { IfOk result (λ g. (known : KnownTrain) → train_numbered self.now.scene train ≡ Some known
            → granted_train self.now.track self.now.scene known distance
            ≡ Ok (with_authority known g.line.legs g.from g.to)) }
    {
        let known = self.book.get(train).unwrap();
        known.known();
        granted_along(alloc, known, distance, legs)
    }

    /// Why what is told would be refused, where nothing has to grow to see it. Of a report that is `Crowded` or
    /// `UnknownGroup`; of all else it is each refusal.
    #[tactic(auto, using(crate::proofs::KeepingLemmas::refuses_at_once))]
    pub fn refusal(&self, told: &Told) -> Option<Refusal>
        requires { IsOfTrack self.now.track told.now }
        ensures at_once { result ≡ told_at_once self.now.track self.now.scene told.now }
        ensures refused { IfSome result (λ refusal.
            after_told self.now.track self.now.scene told.now ≡ Err refusal) }
    {
        match told {
            Told::Report(report) => self.report_refusal(report),
            Told::Lock(route) => self.locks.refusal(self.book.track(), *route),
            Told::Free(section) => self.free_refusal(*section),
            Told::Leave(train) => self.leave_refusal(*train),
            Told::GiveBack(train, distance) => self.give_back_refusal(*train, *distance),
        }
    }

    /// What is told happens. Where it is refused, or memory is, nothing changes.
    ///
    /// # Errors
    ///
    /// The errors of the call for its kind. `Memory` is told of a report that is not refused, and of nothing else.
    pub fn tell(&mut self, alloc: Global, told: &Told) -> Result<(), OrMemory<Refusal>>
        requires { IsOfTrack self.old.track told.now }
        ensures told { StepsOrMemory result self.old self.new (after_told self.old.track self.old.scene told.now) }
        ensures memory { result ≡ Err NoMemory → IsReportTold told.now }
        ensures refused { IfErr (after_told self.old.track self.old.scene told.now)
            (λ refusal. result ≡ Err (Refused refusal)) }
    {
        match told {
            Told::Report(report) => self.report(alloc, report),
            Told::Lock(route) => or_memory(self.lock(*route)),
            Told::Free(section) => or_memory(self.free(*section)),
            Told::Leave(train) => or_memory(self.leave(*train)),
            Told::GiveBack(train, distance) => or_memory(self.give_back(*train, *distance)),
        }
    }

    /// An event happens: something is told, or a train is granted an authority. Where it is refused, or memory is,
    /// nothing changes.
    ///
    /// # Errors
    ///
    /// The errors of the call for its kind. `Memory` comes only for a report that is not refused, and for a grant, where
    /// memory is needed to see whether it is refused.
    pub fn apply(&mut self, alloc: Global, event: &Event) -> Result<(), OrMemory<Refusal>>
        requires { IsEventOfTrack self.old.track event.now }
        ensures steps { StepsOrMemory result self.old self.new (step self.old.track self.old.scene event.now) }
        ensures memory { result ≡ Err NoMemory → MayNeedMemory event.now }
        ensures at_once { IfSome (refused_at_once self.old.track self.old.scene event.now)
            (λ refusal. result ≡ Err (Refused refusal)) }
    {
        match event {
            Event::Tell(told) => self.tell(alloc, told),
            Event::Grant(train, distance) => self.grant(alloc, *train, *distance),
        }
    }

    /// How far the way of a train is clear: what stands at the first place with an obstacle, from the start of its
    /// authority on, or from its front where that lies behind, and that place in metres from the start of its line.
    ///
    /// # Errors
    ///
    /// `Refused` with `UnknownTrain`, before any memory is asked for: there is no train of this number. `Memory`,
    /// where the allocator refuses room for the search.
    pub fn reach(&self, alloc: Global, train: TrainId) -> Result<(Obstacle, i64), OrMemory<Refusal>>
        ensures reach { AnswersOrMemory result (reach_of self.now.track self.now.scene train) }
        ensures unknown { train_numbered self.now.scene train ≡ None → result ≡ Err (Refused (UnknownTrain train)) }
    {
        match self.book.get(train) {
            Some(known) => {
                let found = reach(alloc, &self.locks, &self.book, known)?;
                Ok((found.obstacle(), i64::from(found.place())))
            }
            None => Err(OrMemory::Refused(Refusal::UnknownTrain(train))),
        }
    }

    /// A scene of the same locks and trains on the same track.
    ///
    /// # Errors
    ///
    /// `Memory`, where the allocator refuses room for them.
    pub fn copy(&self, alloc: Global) -> Result<Scene, Memory>
        ensures { IfOk result (λ scene. scene ≡ self.now) }
    {
        let locks = self.locks.copy(alloc)?;
        let book = self.book.copy(alloc)?;
        Ok(Scene { locks, book })
    }

    /// A scene of the same locks and trains on the same track, in the memory of one that is no longer needed.
    ///
    /// # Errors
    ///
    /// `Memory`, where that is too small and the allocator refuses more, or refuses room for a train's line.
    pub fn copy_in(&self, alloc: Global, spare: Scene) -> Result<Scene, Memory>
        ensures { IfOk result (λ scene. scene ≡ self.now) }
    {
        let Scene { locks, book } = spare;
        let locks = self.locks.copy_in(locks)?;
        let book = self.book.copy_in(alloc, book)?;
        Ok(Scene { locks, book })
    }
}
