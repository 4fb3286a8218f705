//! The record of a track.

ghost use Rattle.std.specs.Prelude.{◌≡◌, ◌++◌, ◌∷◌, ◌<◌, ◌≤◌, [], length, map, true, false, slice_get, option_map, None, Ok, Err, IfOk, IfSome, vec_len, vec_capacity};
ghost use Rattle.std.specs.Arc.{arc_value};
ghost use Rattle.std.specs.Option.{option_copied};
ghost use Rattle.rbc_model.specs.declared.memory.OrMemory.TheVariants.{Refused};
ghost use Rattle.rbc_model.specs.declared.refusals.ViewFault.TheVariants.{UnknownTrain};
ghost use Rattle.rbc_model.specs.Answers.{AnswersOrMemory};
ghost use Rattle.rbc_model.specs.Histories.{IsLegal, IsBestHistory, empty_on};
ghost use Rattle.rbc_model.specs.Scenes.{empty_scene, train_numbered};
ghost use Rattle.rbc_model.specs.SoundTracks.{IsInForm};
ghost use Rattle.rbc_model.specs.Views.{view};
ghost use Rattle.rbc_grant.specs.Steps.{IsOfTrack};
ghost use Rattle.rbc_record.specs.declared.faults.ApplyFault.TheVariants.{Full as FullToTold};
ghost use Rattle.rbc_record.specs.declared.faults.CommitFault.TheVariants.{Full as FullToGrants, Stale};
ghost use Rattle.rbc_record.specs.Entries.{entry_of};
ghost use Rattle.rbc_record.specs.Entering.{EntersOrMemory, as_apply_fault, entry_told, entry_granted, is_shown, refused_at_once};
ghost use Rattle.rbc_record.specs.Present.{has_train};
ghost use Rattle.rbc_record.specs.Records.{IsRight, begin_of, begin_on, history_on, scene_now, is_full};

use crate::{ApplyFault, CommitFault, Entry, EntryLimit, Grant, Receipt};
use rbc_grant::{Candidate, Scene, View};
use rbc_model::{Distance, Memory, OrMemory, Refusal, Told, TrainId, ViewFault};
use rbc_track::Track;
use std::alloc::Global;
use std::marker::Model;
use std::sync::Arc;

/// All that was told and granted on a track, the scene that it began with, and the scene that it leads to. It has no
/// more entries than its limit says: 100,000 where nothing else is said.
///
/// However it came about, each authority in it was the best for its train at its moment: no safe end that a message
/// can give lies further, the obstacle that it names stood there, and no steps tell more of the track's speeds and
/// gradients up to the end. And at no moment did a metre stand in the authorities of two trains.
#[derive(Drop)]
pub struct Record {
    begin: Scene,
    most: EntryLimit,
    scene: Scene,
    entries: Vec<Entry>,
}

impl Model for Record {
    ghost use Rattle.std.specs.Prelude.{map};
    ghost use Rattle.rbc_record.specs.Entries.{entry_of};
    ghost use Rattle.rbc_record.specs.Records.{HistoryOnTrack, IsKept};

    ghost Value = { HistoryOnTrack };

    ghost view = { λ r. record {
      track = r.scene.track;
      begin = r.begin.scene;
      most = r.most;
      entries = map entry_of r.entries.items;
    } };

    ghost invariant = { λ r. IsKept r.scene r.begin.scene r.most (map entry_of r.entries.items) };
}

/// A refusal of the scene as a refusal of the record.
fn as_apply_fault(fault: OrMemory<Refusal>) -> OrMemory<ApplyFault>
    ensures { result ≡ as_apply_fault fault }
{
    match fault {
        OrMemory::Refused(refusal) => OrMemory::Refused(ApplyFault::Refused(refusal)),
        OrMemory::Memory => OrMemory::Memory,
    }
}

/// Puts the entry behind the others, where there is room for it, and tells its place.
fn append(entries: &mut Vec<Entry>, entry: Entry) -> u64
    requires { vec_len entries.old < vec_capacity entries.old }
    ensures items { entries.new.items ≡ entries.old.items ++ entry ∷ [] }
    ensures place { result ≡ length entries.old.items }
{
    let place = entries.len() as u64;
    entries.push_reserved(entry);
    place
}

impl Record {
    /// The record of a track, in which nothing was told yet.
    ///
    /// # Errors
    ///
    /// `Memory`, where the allocator refuses room for the scene or for the entries that there may be.
    pub fn new(alloc: Global, track: Arc<Track>) -> Result<Record, Memory>
        ensures { IfOk result (λ r. r ≡ history_on (empty_on (arc_value track)) []) }
    {
        Record::with_limit(alloc, track, EntryLimit::usual())
    }

    /// The record of a track, in which nothing was told yet, and which may have so many entries.
    ///
    /// # Errors
    ///
    /// `Memory`, where the allocator refuses room for the scene or for the entries that there may be.
    pub fn with_limit(alloc: Global, track: Arc<Track>, most: EntryLimit) -> Result<Record, Memory>
        ensures { IfOk result (λ r.
            r ≡ history_on (begin_on (arc_value track) (empty_scene (arc_value track)) most) []) }
    {
        let scene = Scene::new(alloc, track)?;
        Record::from(alloc, scene, most)
    }

    /// The record that begins with this scene, in which nothing was told yet, and which may have so many entries.
    ///
    /// # Errors
    ///
    /// `Memory`, where the allocator refuses room for the entries that there may be, or for the scene that it begins
    /// with.
    pub fn from(alloc: Global, scene: Scene, most: EntryLimit) -> Result<Record, Memory>
        ensures { IfOk result (λ r. r ≡ history_on (begin_on scene.track scene.scene most) []) }
    {
        scene.track().known();
        scene.known();
        most.entries();
        let begin = scene.copy(alloc)?;
        // Room for all entries from the beginning on, so that they never move.
        let entries = Vec::with_capacity(alloc, most.entries())?;
        Ok(Record {
            begin,
            most,
            scene,
            entries,
        })
    }

    /// The track.
    pub fn track(&self) -> &Arc<Track>
        ensures { arc_value result.now ≡ self.now.track }
    {
        self.scene.track()
    }

    /// The scene that the history begins with.
    pub fn begin(&self) -> &Scene
        ensures { result.now.scene ≡ self.now.begin }
    {
        &self.begin
    }

    /// How many entries the record may have.
    pub fn most(&self) -> EntryLimit
        ensures { result ≡ self.now.most }
    {
        self.most
    }

    /// Whatever the entries are, each was accepted after those before it. Each authority, when it was granted, reached to the
    /// farthest safe end that a message can give, with profiles that lose the least, and at no moment did a metre stand in
    /// two. There are no more than there may be. This does nothing.
    pub fn known(&self)
        ensures form { IsInForm self.now.track }
        ensures legal { IsLegal (begin_of self.now) self.now.entries }
        ensures best { IsBestHistory (begin_of self.now) self.now.entries }
        ensures few { length self.now.entries ≤ self.now.most }
    {
        let _ = &self.entries;
    }

    /// It begins with a good scene, and may have 50,000,000 entries at most. This does nothing.
    pub fn right(&self)
        ensures { IsRight self.now }
    {
        let _ = &self.entries;
    }

    /// How many entries the record has: 0 to its limit.
    pub fn version(&self) -> u64
        ensures count { result ≡ length self.now.entries }
    {
        self.entries.len() as u64
    }

    /// The entry at this place, counted from 0. None from the version on.
    pub fn entry(&self, place: u64) -> Option<&Entry>
        ensures { option_map entry_of (option_copied result) ≡ slice_get self.now.entries place }
    {
        self.entries.get(place as usize)
    }

    /// The entries, in order.
    pub fn entries(&self) -> &[Entry]
        ensures { map entry_of result.now ≡ self.now.entries }
    {
        self.entries.as_slice()
    }

    /// Whether the record has as many entries as it may have.
    pub fn is_full(&self) -> bool
        ensures { result ≡ is_full self.now }
    {
        self.entries.len() >= self.most.entries()
    }

    /// Why what is told would not be entered, where nothing has to grow to see it: `Full`, or what [`Scene::refusal`] tells.
    pub fn refusal(&self, told: &Told) -> Option<ApplyFault>
        requires { IsOfTrack self.now.track told.now }
        ensures at_once { result ≡ refused_at_once self.now told.now }
        ensures refused { IfSome result (λ fault. entry_told self.now told.now ≡ Err fault) }
    {
        if self.is_full() {
            return Some(ApplyFault::Full);
        }
        let refusal = self.scene.refusal(told)?;
        Some(ApplyFault::Refused(refusal))
    }

    /// Enters what a train or the interlocking tells. Where it is refused, or memory is, nothing changes.
    ///
    /// # Errors
    ///
    /// `Refused` with the first of these:
    /// - `Full`, before all else: the record has as many entries as it may have,
    /// - `Refused` with the refusal of the scene.
    ///
    /// `Memory` comes in place of no refusal that [`Record::refusal`] tells.
    pub fn apply(&mut self, alloc: Global, told: &Told) -> Result<Receipt, OrMemory<ApplyFault>>
        requires { IsOfTrack self.old.track told.now }
        ensures entered { EntersOrMemory result self.old self.new (entry_told self.old told.now) }
        ensures full { is_full self.old ≡ true → result ≡ Err (Refused FullToTold) }
        ensures at_once { IfSome (refused_at_once self.old told.now) (λ fault. result ≡ Err (Refused fault)) }
    {
        if let Some(fault) = self.refusal(told) {
            return Err(OrMemory::Refused(fault));
        }
        self.entries.reserve(1)?;
        match self.scene.tell(alloc, told) {
            Ok(()) => {
                let place = append(&mut self.entries, Entry::Heard(*told));
                Ok(Receipt::of_told(place, *told))
            }
            Err(fault) => Err(as_apply_fault(fault)),
        }
    }

    /// Enters what the candidate would grant, where it was made of what this record shows its train now, at whatever
    /// version. Where it is refused, or memory is, nothing changes.
    ///
    /// # Errors
    ///
    /// `Refused` with the first of these:
    /// - `Full`, before all else: the record has as many entries as it may have,
    /// - `Stale` with the record's version: the record shows the candidate's train another view, or none.
    ///
    /// `Memory` may come in place of `Stale`, but not where there is no such train.
    pub fn commit(
        &mut self,
        alloc: Global,
        candidate: &Candidate,
    ) -> Result<Receipt, OrMemory<CommitFault>>
        ensures entered { EntersOrMemory result self.old self.new (entry_granted self.old candidate.now) }
        ensures full { is_full self.old ≡ true → result ≡ Err (Refused FullToGrants) }
        ensures gone { is_full self.old ≡ false → train_numbered (scene_now self.old) candidate.now.view.train ≡ None
            → result ≡ Err (Refused (Stale (length self.old.entries))) }
        ensures shown { IfOk result (λ _.
            view self.old.track (scene_now self.old) candidate.now.view.train ≡ Ok candidate.now.view) }
    {
        if self.is_full() {
            return Err(OrMemory::Refused(CommitFault::Full));
        }
        if !self.shows(alloc, candidate.view())? {
            return Err(OrMemory::Refused(CommitFault::Stale(self.version())));
        }
        self.enter(alloc, candidate)
    }

    /// Enters what the candidate would grant, where this record shows its train the candidate's view: nothing was entered
    /// since the view was taken. No views are compared. Where it is refused, or memory is, nothing changes.
    ///
    /// # Errors
    ///
    /// `Refused` with `Full`, before all else: the record has as many entries as it may have. `Memory`, where the allocator
    /// refuses room for the entry or for the train's line, or more keep the authority than can be counted.
    pub fn grant(
        &mut self,
        alloc: Global,
        candidate: &Candidate,
    ) -> Result<Receipt, OrMemory<CommitFault>>
        requires shown { view self.old.track (scene_now self.old) candidate.now.view.train ≡ Ok candidate.now.view }
        ensures entered { EntersOrMemory result self.old self.new (entry_granted self.old candidate.now) }
        ensures full { is_full self.old ≡ true → result ≡ Err (Refused FullToGrants) }
    {
        if self.is_full() {
            return Err(OrMemory::Refused(CommitFault::Full));
        }
        self.enter(alloc, candidate)
    }

    /// Enters what the candidate would grant, where there is room for it and its train is shown its view.
    fn enter(
        &mut self,
        alloc: Global,
        candidate: &Candidate,
    ) -> Result<Receipt, OrMemory<CommitFault>>
        requires room { is_full self.old ≡ false }
        requires shown { is_shown self.old candidate.now.view ≡ true }
        ensures entered { EntersOrMemory result self.old self.new (entry_granted self.old candidate.now) }
    {
        self.entries.reserve(1)?;
        let grant = Grant::of(candidate)?;
        let kept = Grant::of(candidate)?;
        candidate.known();
        let end = Distance::new(candidate.authority().end());
        let legs = candidate.view().legs();
        // What is best for the view that the train is shown is accepted, and the view's legs lead to its end.
        self.scene.grant_along(alloc, candidate.train(), end, legs)?;
        let place = append(&mut self.entries, Entry::Granted(grant));
        Ok(Receipt::of_grant(place, kept))
    }

    /// Whether the train of the view is shown just this view.
    fn shows(&self, alloc: Global, wanted: &View) -> Result<bool, Memory>
        ensures shown { IfOk result (λ shown. shown ≡ is_shown self.now wanted.now) }
        ensures gone { train_numbered (scene_now self.now) wanted.now.train ≡ None → result ≡ Ok false }
    {
        match self.view(alloc, wanted.train()) {
            Ok(shown) => Ok(*wanted == shown),
            Err(OrMemory::Refused(_)) => Ok(false),
            Err(OrMemory::Memory) => Err(Memory),
        }
    }

    /// Whether there is a train of this number.
    pub fn has_train(&self, train: TrainId) -> bool
        ensures { result ≡ has_train self.now train }
    {
        self.scene.book().get(train).is_some()
    }

    /// What the train of this number is shown where it asks how far it may run.
    ///
    /// # Errors
    ///
    /// `Refused` with the first of these:
    /// - `UnknownTrain`, before any memory is asked for: there is no train of this number,
    /// - `Blocked` with what stands at the reach, and the reach in metres from the train's group, where no safe end can
    ///   be given by a message.
    ///
    /// `Memory`, where the allocator refuses room for the search or the view.
    pub fn view(&self, alloc: Global, train: TrainId) -> Result<View, OrMemory<ViewFault>>
        ensures view { AnswersOrMemory result (view self.now.track (scene_now self.now) train) }
        ensures train { IfOk result (λ v. v.train ≡ train) }
        ensures unknown { train_numbered (scene_now self.now) train ≡ None → result ≡ Err (Refused UnknownTrain) }
    {
        rbc_grant::view(alloc, &self.scene, train)
    }

    /// The scene that the history leads to.
    pub fn scene(&self) -> &Scene
        ensures { result.now ≡ record { track = self.now.track; scene = scene_now self.now } }
    {
        &self.scene
    }

    /// A copy of the scene that the history leads to, apart from the record.
    ///
    /// # Errors
    ///
    /// `Memory`, where the allocator refuses room for it.
    pub fn snapshot(&self, alloc: Global) -> Result<Scene, Memory>
        ensures { IfOk result (λ s. s ≡ record { track = self.now.track; scene = scene_now self.now }) }
    {
        Ok(self.scene.copy(alloc)?)
    }

    /// A copy of the scene that the history leads to, apart from the record, in the memory of a scene that is no longer needed.
    ///
    /// # Errors
    ///
    /// `Memory`, where that is too small and the allocator refuses more, or refuses room for a train's line.
    pub fn snapshot_in(&self, alloc: Global, spare: Scene) -> Result<Scene, Memory>
        ensures { IfOk result (λ s. s ≡ record { track = self.now.track; scene = scene_now self.now }) }
    {
        Ok(self.scene.copy_in(alloc, spare)?)
    }
}
