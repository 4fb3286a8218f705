//! The trains of a track in order of arrival.

ghost use Rattle.std.specs.Prelude.{◌≡◌, ◌<◌, ◌≤◌, [], length, map, None, Some, IfOk, IsTrue, OnErr, OnOk, find, is_some, option_map};
ghost use Rattle.std.specs.Arc.{arc_value};
ghost use Rattle.std.specs.Map.Iter.{ShowsInOrder, deref};
ghost use Rattle.std.specs.Option.{option_copied};
ghost use Rattle.rbc_model.specs.Events.{cut_at, stands_on, with_authority, with_train};
ghost use Rattle.rbc_model.specs.Histories.{AuthoritiesAreApart};
ghost use Rattle.rbc_model.specs.Scenes.{authority_has, extent_has};
ghost use Rattle.rbc_scene_laws.specs.Good.{IsGoodTrain};
ghost use Rattle.rbc_book.specs.Books.{HoldsOfTrain, IsGoodBook, book_with, book_without, number_in, scene_of, train_in};
ghost use Rattle.indexmap.specs.IndexMap.{values};
ghost use Rattle.rbc_extent.specs.TrainsOnTracks.{TrainOnTrack};
ghost use Rattle.rbc_book.specs.Entries.{number_on, on_track};
ghost use Rattle.rbc_book.specs.Presence.{IsAlong, others_along, tally_of};
ghost use Rattle.rbc_model.specs.declared.limits.TheConstants.{MOST_TRAINS};

use crate::places::{authority_has, extent_has, stands_on};
use crate::presence::{Presence, Tally, count_in, count_out, nobody_on, recount, tally_at};
use indexmap::IndexMap;
use indexmap::map::Values;
use rbc_extent::{Line, Train};
use rbc_model::{Memory, Metre, SectionId, TrainId};
use rbc_track::Track;
use std::alloc::Global;
use std::marker::Model;
use std::sync::Arc;

/// Trains by their numbers, in order of arrival.
type Trains = IndexMap<u32, Train>;

/// The trains of a track in order of arrival, at most 1,024. No two have one number, and no metre stands in the authorities
/// of two. It knows how many have a leg of each section on their lines, so that it need not look at those that don't.
#[derive(Drop)]
pub struct Book {
    track: Arc<Track>,
    trains: Trains,
    presence: Presence,
}

/// Which of some trains have a leg of a section on their lines.
#[derive(Clone, Copy)]
pub enum Along<'a> {
    /// None has one.
    Nobody,
    /// This one alone has.
    One(&'a Train),
    /// Two or more have.
    Several,
}

impl Model for Book {
    ghost use Rattle.std.specs.Arc.{arc_value};
    ghost use Rattle.rbc_book.specs.Books.{Book};
    ghost use Rattle.rbc_book.specs.Entries.{AreEntries, book_of, trains_of};
    ghost use Rattle.rbc_book.specs.Presence.{ArePresent};

    ghost Value = { Book };

    ghost view = { λ b. book_of (arc_value b.track) b.trains.entries };

    ghost invariant = { λ b. AreEntries (arc_value b.track) b.trains.entries
        × ArePresent (arc_value b.track) (trains_of b.trains.entries) b.presence.items };
}

/// The first of the trains whose authority has the metre.
fn first_holder(trains: &Trains, metre: Metre) -> Option<TrainId>
    ensures { result ≡ option_map number_on
        (find (λ (t : TrainOnTrack). authority_has t.track metre t.train) (values trains.now)) }
{
    let holder = trains.values().find(|train| authority_has(train, metre))?;
    Some(holder.id())
}

/// The first of the trains whose extent has the metre.
fn first_occupant(trains: &Trains, metre: Metre) -> Option<TrainId>
    ensures { result ≡ option_map number_on
        (find (λ (t : TrainOnTrack). extent_has t.track metre t.train) (values trains.now)) }
{
    let occupant = trains.values().find(|train| extent_has(train, metre))?;
    Some(occupant.id())
}

/// The first of the trains whose extent or authority has a metre of the section.
fn first_standing_on(trains: &Trains, section: SectionId) -> Option<TrainId>
    ensures { result ≡ option_map number_on
        (find (λ (t : TrainOnTrack). stands_on t.track section t.train) (values trains.now)) }
{
    let standing = trains.values().find(|train| stands_on(train, section))?;
    Some(standing.id())
}

/// A copy of the trains, in their order of arrival, in the memory of trains that are no longer needed.
fn copy_of(alloc: Global, trains: &Trains, spare: Trains) -> Result<Trains, Memory>
    ensures { IfOk result (λ copy. copy.entries ≡ trains.now.entries) }
{
    let mut copy = spare;
    copy.clear();
    for (number, train) in trains.iter() {
        copy.insert(*number, train.copy(alloc)?)?;
    }
    Ok(copy)
}

impl Book {
    /// The book of no trains.
    ///
    /// # Errors
    ///
    /// `Memory`, where the allocator refuses room for what is counted on the sections.
    pub fn new(alloc: Global, track: Arc<Track>) -> Result<Book, Memory>
        ensures { IfOk result (λ book. book ≡ record { track = arc_value track; trains = [] }) }
    {
        let presence = nobody_on(alloc, track.section_count())?;
        Ok(Book {
            track,
            trains: IndexMap::new(alloc),
            presence,
        })
    }

    /// Each train stands on its line, with its authority. No two have one number, and no metre stands in the authorities of
    /// two. This does nothing.
    pub fn known(&self)
        ensures { IsGoodBook self.now }
    {
        let _ = &self.trains;
    }

    /// The track that the trains run on.
    pub fn track(&self) -> &Arc<Track>
        ensures track { arc_value result.now ≡ self.now.track }
    {
        &self.track
    }

    /// How many trains there are.
    pub fn len(&self) -> usize
        ensures { result ≡ length self.now.trains }
    {
        self.trains.len()
    }

    /// The trains in order of arrival.
    pub fn trains(&self) -> Values<'_, u32, Train>
        ensures trains { result ≡ map (on_track self.now.track) self.now.trains }
        ensures runs { ShowsInOrder (deref {X = TrainOnTrack}) }
    {
        self.trains.values()
    }

    /// The train of this number, if it is there.
    pub fn get(&self, id: TrainId) -> Option<&Train>
        ensures { option_copied result ≡ option_map (on_track self.now.track) (train_in self.now id) }
    {
        self.trains.get(&id.number())
    }

    /// The tally of the trains but the one of this number that have a leg of the section on their lines. Where one is there
    /// alone its number tells which one it is, and no line is looked at.
    fn tally_but(&self, id: TrainId, section: SectionId) -> Tally
        ensures { result ≡ tally_of section (book_without self.now id).trains }
    {
        let tally = tally_at(&self.presence, section);
        if tally.trains > 1 {
            let own = self.trains.get(&id.number());
            return tally.less(own, section);
        }
        if tally.numbers == u64::from(id.number()) {
            Tally::nobody()
        } else {
            tally
        }
    }

    /// Of the trains but the one of this number, those that have a leg of the section on their lines. It looks at no other
    /// train.
    pub fn others_along(&self, id: TrainId, section: SectionId) -> Along<'_>
        ensures { IsAlong (map (on_track self.now.track) (others_along self.now id section)) result }
    {
        let trains = &self.trains;
        let tally = self.tally_but(id, section);
        if tally.trains == 0 {
            return Along::Nobody;
        }
        if tally.trains > 1 {
            return Along::Several;
        }
        let alone = tally.numbers as u32;
        Along::One(trains.get(&alone).unwrap())
    }

    /// Puts in the train as it is now, in the place of the one of its number; a new train is last, and there may be as many
    /// as 1,024. It may hold no metre that another train holds. Where memory is refused nothing changes.
    ///
    /// # Errors
    ///
    /// `Memory`, where the allocator refuses room for a new train. A train that is there needs none.
    pub fn set_place(&mut self, train: Train) -> Result<(), Memory>
        requires track { train.track ≡ self.old.track }
        requires room { train_in self.old train.train.report.train ≡ None → length self.old.trains < MOST_TRAINS }
        requires apart { AuthoritiesAreApart self.old.track (with_train (scene_of self.old.trains) train.train) }
        ensures placed { OnOk result (self.new ≡ book_with self.old train.train) }
        ensures refused { OnErr result (self.new ≡ self.old) }
        ensures new { OnErr result (train_in self.old train.train.report.train ≡ None) }
    {
        train.known();
        train.report().known();
        let number = train.id().number();
        let before = self.trains.insert(number, train)?;
        let after = self.trains.get(&number).unwrap();
        recount(&mut self.presence, before.as_ref(), after);
        Ok(())
    }

    /// Gives a train another authority, on a line that has both its extent and this authority. It may hold no
    /// metre that another train holds. It takes no memory.
    pub fn set_held(&mut self, id: TrainId, line: Line, from: u32, to: u32)
        requires known { IsTrue (is_some (train_in self.old id)) }
        requires track { line.track ≡ self.old.track }
        requires good { HoldsOfTrain self.old id
            (λ train. IsGoodTrain self.old.track (with_authority train line.legs from to)) }
        requires apart { HoldsOfTrain self.old id (λ train. AuthoritiesAreApart self.old.track
            (with_train (scene_of self.old.trains) (with_authority train line.legs from to))) }
        ensures { HoldsOfTrain self.old id
            (λ train. self.new ≡ book_with self.old (with_authority train line.legs from to)) }
    {
        let train = self.get(id).unwrap();
        let held = train.with_authority(line, from, to);
        match self.set_place(held) {
            Ok(()) => {}
            Err(_) => unreachable!(),
        }
    }

    /// Gives a train another authority, which stands on the line that it has. It may hold no metre that another train holds.
    /// It takes no memory.
    pub fn hold(&mut self, id: TrainId, from: u32, to: u32)
        requires known { IsTrue (is_some (train_in self.old id)) }
        requires good { HoldsOfTrain self.old id
            (λ train. IsGoodTrain self.old.track (with_authority train train.line from to)) }
        requires apart { HoldsOfTrain self.old id (λ train. AuthoritiesAreApart self.old.track
            (with_train (scene_of self.old.trains) (with_authority train train.line from to))) }
        ensures { HoldsOfTrain self.old id
            (λ train. self.new ≡ book_with self.old (with_authority train train.line from to)) }
    {
        let train = self.trains.get_mut(&id.number()).unwrap();
        train.hold(from, to);
        train.known();
    }

    /// A train gives back what its authority has from a place on, which is not behind its front. The legs that
    /// neither its extent nor its authority needs then are dropped. It takes no memory.
    pub fn give_back(&mut self, id: TrainId, to: u32)
        requires known { IsTrue (is_some (train_in self.old id)) }
        requires front { HoldsOfTrain self.old id (λ train. train.front ≤ to) }
        requires from { HoldsOfTrain self.old id (λ train. train.from ≤ to) }
        requires to { HoldsOfTrain self.old id (λ train. to < train.to) }
        ensures { HoldsOfTrain self.old id
            (λ train. self.new ≡ book_with self.old (cut_at self.old.track train to)) }
    {
        let train = self.trains.get_mut(&id.number()).unwrap();
        count_out(&mut self.presence, train);
        train.cut_at(to);
        train.known();
        count_in(&mut self.presence, train);
    }

    /// Takes out the train of this number. Tells whether it was there. A train that comes again is last.
    pub fn leave(&mut self, id: TrainId) -> bool
        ensures left { self.new ≡ book_without self.old id }
        ensures known { result ≡ is_some (train_in self.old id) }
    {
        match self.trains.shift_remove(&id.number()) {
            Some(train) => {
                count_out(&mut self.presence, &train);
                true
            }
            None => false,
        }
    }

    /// The first train whose authority has the metre.
    pub fn holder(&self, metre: Metre) -> Option<TrainId>
        ensures { result ≡ option_map number_in (find (authority_has self.now.track metre) self.now.trains) }
    {
        first_holder(&self.trains, metre)
    }

    /// The first train whose extent has the metre.
    pub fn occupant(&self, metre: Metre) -> Option<TrainId>
        ensures { result ≡ option_map number_in (find (extent_has self.now.track metre) self.now.trains) }
    {
        first_occupant(&self.trains, metre)
    }

    /// The first train whose extent or authority has a metre of the section.
    pub fn standing_on(&self, section: SectionId) -> Option<TrainId>
        ensures { result ≡ option_map number_in (find (stands_on self.now.track section) self.now.trains) }
    {
        if tally_at(&self.presence, section).trains == 0 {
            return None;
        }
        first_standing_on(&self.trains, section)
    }

    /// A book of the same trains on the same track.
    ///
    /// # Errors
    ///
    /// `Memory`, where the allocator refuses room for the trains.
    pub fn copy(&self, alloc: Global) -> Result<Book, Memory>
        ensures { IfOk result (λ book. book ≡ self.now) }
    {
        let track = self.track.clone()?;
        let room = IndexMap::with_capacity(alloc, self.trains.len())?;
        let trains = copy_of(alloc, &self.trains, room)?;
        let presence = Vec::from_slice(alloc, self.presence.as_slice())?;
        Ok(Book {
            track,
            trains,
            presence,
        })
    }

    /// A book of the same trains on the same track, in the memory of one that is no longer needed.
    ///
    /// # Errors
    ///
    /// `Memory`, where the allocator refuses room for the trains.
    pub fn copy_in(&self, alloc: Global, spare: Book) -> Result<Book, Memory>
        ensures { IfOk result (λ book. book ≡ self.now) }
    {
        let Book {
            track: _,
            trains,
            mut presence,
        } = spare;
        let track = self.track.clone()?;
        let trains = copy_of(alloc, &self.trains, trains)?;
        presence.clear();
        presence.extend_from_slice(self.presence.as_slice())?;
        Ok(Book {
            track,
            trains,
            presence,
        })
    }
}
