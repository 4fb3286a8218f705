//! The lock rows of a track's sections.

ghost use Rattle.std.specs.Prelude.{◌≡◌, ◌<◌, length, IfOk, IfSome, fold};
ghost use Rattle.std.specs.Result.{result_err};
ghost use Rattle.rbc_model.specs.Locks.{no_locks, locked, freed, row, next, prev};
ghost use Rattle.rbc_model.specs.Locks.{clash, taken_link, needed_rows, with_row};
ghost use Rattle.rbc_scene_laws.specs.Good.{OneRowBehindEach};
ghost use Rattle.rbc_locks.specs.Added.{added};
ghost use Rattle.rbc_locks.specs.Changes.{ChangesAs};
ghost use Rattle.rbc_locks.specs.Room.{HasRoom, HaveRoom, lock_refusal};

use crate::next_table::NextTable;
use rbc_model::{Leg, Lock, Memory, Refusal, RouteId, SectionId};
use rbc_track::{Route, Track};
use std::alloc::Global;
use std::marker::Model;

/// Which sections of a track the interlocking has locked, each in a direction, for a route, and behind a leg if there
/// is one. No section has two locks, and no leg stands before two locked sections.
///
/// All calls that take a section, a leg or a route mean one of the track whose locks these are.
#[derive(Drop)]
pub struct Locks {
    rows: Vec<Option<Lock>>,
    next_legs: NextTable,
}

impl Model for Locks {
    ghost use Rattle.rbc_model.specs.Locks.{Locks};
    ghost use Rattle.rbc_locks.specs.NextTables.{IsNextTable};

    ghost Value = { Locks };

    ghost view = { λ locks. locks.rows.items };

    ghost invariant = { λ locks. IsNextTable locks.rows.items locks.next_legs };
}

/// The first of the route's sections that is locked.
fn first_locked(locks: &Locks, route: &Route) -> Option<SectionId>
    ensures { result ≡ clash locks.now route.now }
{
    route
        .legs()
        .iter()
        .map(|leg| leg.section)
        .find(|section| locks.row(*section).is_some())
}

/// The first of the legs before, as the route has them, that a section is locked behind.
fn first_taken(locks: &Locks, route: &Route) -> Option<Leg>
    ensures { result ≡ taken_link locks.now route.now }
{
    let mut before = route.after();
    for leg in route.legs() {
        if let Some(leg_before) = &before
            && locks.next(*leg_before).is_some()
        {
            return Some(*leg_before);
        }
        before = Some(*leg);
    }
    None
}

/// Why the route can't be locked, if it can't: a section of it is locked, or one is locked behind a leg before.
fn refusal_of(locks: &Locks, route: &Route) -> Option<Refusal>
    ensures { result ≡ lock_refusal locks.now route.now }
{
    if let Some(section) = first_locked(locks, route) {
        return Some(Refusal::Clash(section));
    }
    let leg = first_taken(locks, route)?;
    Some(Refusal::LinkTaken(leg))
}

impl Locks {
    /// No section of the track is locked.
    ///
    /// # Errors
    ///
    /// `Memory`, where the allocator refuses room for the rows.
    pub fn new(alloc: Global, track: &Track) -> Result<Locks, Memory>
        ensures { IfOk result (λ locks. locks ≡ no_locks track.now) }
    {
        let sections = track.section_count();
        let mut rows = Vec::new(alloc);
        rows.resize(sections, None)?;
        let next_legs = NextTable::new(alloc, sections)?;
        Ok(Locks { rows, next_legs })
    }

    /// Why a route can't be locked, if it can't: what `lock` would answer.
    pub fn refusal(&self, track: &Track, route: RouteId) -> Option<Refusal>
        requires { route < length track.now.routes }
        ensures { result ≡ result_err (locked track.now self.now route) }
    {
        refusal_of(self, track.route_at(route))
    }

    /// Locks the sections of a route, each in the direction of the route's leg and behind the route's leg before it;
    /// the first one behind the leg that the route is entered from, if there is one.
    ///
    /// # Errors
    ///
    /// The first of these, and no section is locked or freed by the call:
    /// - `Clash` with the first of the route's sections that is locked,
    /// - `LinkTaken` with the first of the legs before that another section is locked behind.
    pub fn lock(&mut self, track: &Track, route: RouteId) -> Result<(), Refusal>
        requires locks { length self.old ≡ length track.now.sections }
        requires route { route < length track.now.routes }
        ensures locked { ChangesAs result self.old self.new (locked track.now self.old route) }
        ensures sections { length self.new ≡ length self.old }
    {
        let asked = track.route_at(route);
        if let Some(refusal) = refusal_of(self, asked) {
            return Err(refusal);
        }
        // A track is sound: a route has each section once, and enters no two of them from one leg.
        track.known();
        self.add_rows(route, asked);
        Ok(())
    }

    /// Locks the section of a leg in its direction, for a route, and behind a leg if there is one. It takes no memory.
    ///
    /// # Errors
    ///
    /// The first of these, and nothing changes:
    /// - `Clash`: the section is locked,
    /// - `LinkTaken`: another section is locked behind the leg before.
    pub fn add(&mut self, leg: Leg, route: RouteId, before: Option<Leg>) -> Result<(), Refusal>
        requires leg { leg.section < length self.old }
        requires before { IfSome before (λ behind. behind.section < length self.old) }
        ensures added { ChangesAs result self.old self.new (added self.old route leg before) }
        ensures sections { length self.new ≡ length self.old }
    {
        if self.row(leg.section).is_some() {
            return Err(Refusal::Clash(leg.section));
        }
        if let Some(leg_before) = &before
            && self.next(*leg_before).is_some()
        {
            return Err(Refusal::LinkTaken(*leg_before));
        }
        self.add_row(route, before, &leg);
        Ok(())
    }

    /// Frees a section.
    ///
    /// # Errors
    ///
    /// `NotLocked`, where the section is not locked. Nothing changes.
    pub fn free(&mut self, section: SectionId) -> Result<(), Refusal>
        ensures freed { ChangesAs result self.old self.new (freed self.old section) }
        ensures sections { length self.new ≡ length self.old }
    {
        let Some(lock) = self.row(section) else {
            return Err(Refusal::NotLocked(section));
        };
        self.rows[section.index()] = None;
        if let Some(before) = &lock.before {
            self.next_legs.set(*before, None);
        }
        Ok(())
    }

    /// No two sections are locked behind the same leg. This does nothing.
    pub fn known(&self)
        ensures one_behind { OneRowBehindEach self.now }
    {
        let _ = &self.rows;
    }

    /// How many sections the track of these locks has.
    pub fn section_count(&self) -> usize
        ensures count { result ≡ length self.now }
    {
        self.rows.len()
    }

    /// The section's lock, if it is locked.
    pub fn row(&self, section: SectionId) -> Option<Lock>
        ensures { result ≡ row self.now section }
    {
        self.rows.get(section.index()).copied().flatten()
    }

    /// The leg that is locked behind this one, if there is one.
    pub fn next(&self, leg: Leg) -> Option<Leg>
        ensures { result ≡ next self.now leg }
    {
        self.next_legs.get(leg)
    }

    /// The leg that this one is locked behind, if it is locked in its direction and behind a leg.
    pub fn prev(&self, leg: Leg) -> Option<Leg>
        ensures { result ≡ prev self.now leg }
    {
        let lock = self.row(leg.section)?;
        if lock.direction == leg.direction {
            lock.before
        } else {
            None
        }
    }

    /// Equal locks.
    ///
    /// # Errors
    ///
    /// `Memory`, where the allocator refuses room for the rows.
    pub fn copy(&self, alloc: Global) -> Result<Locks, Memory>
        ensures { IfOk result (λ locks. locks ≡ self.now) }
    {
        let rows = Vec::from_slice(alloc, self.rows.as_slice())?;
        let next_legs = self.next_legs.copy(alloc)?;
        Ok(Locks { rows, next_legs })
    }

    /// Equal locks, in the memory of locks that are no longer needed.
    ///
    /// # Errors
    ///
    /// `Memory`, where that is too small and the allocator refuses more.
    pub fn copy_in(&self, spare: Locks) -> Result<Locks, Memory>
        ensures { IfOk result (λ locks. locks ≡ self.now) }
    {
        let Locks {
            mut rows,
            next_legs,
        } = spare;
        rows.clear();
        rows.extend_from_slice(self.rows.as_slice())?;
        let next_legs = self.next_legs.copy_in(next_legs)?;
        Ok(Locks { rows, next_legs })
    }

    /// Locks each of the route's legs behind the one before it.
    fn add_rows(&mut self, number: RouteId, route: &Route)
        requires { HaveRoom number self.old (needed_rows route.now) }
        ensures { self.new ≡ fold (with_row number) self.old (needed_rows route.now) }
    {
        let mut before = route.after();
        for leg in route.legs() {
            self.add_row(number, before, leg);
            before = Some(*leg);
        }
    }

    /// Locks the leg for a route, behind another leg if there is one.
    fn add_row(&mut self, route: RouteId, before: Option<Leg>, leg: &Leg)
        requires { HasRoom self.old (leg.now, before) }
        ensures { self.new ≡ with_row route self.old (leg.now, before) }
    {
        if let Some(leg_before) = &before {
            self.next_legs.set(*leg_before, Some(*leg));
        }
        self.rows[leg.section.index()] = Some(Lock {
            direction: leg.direction,
            route,
            before,
        });
    }
}
