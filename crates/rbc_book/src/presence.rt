//! How many trains have a leg of a section on their lines, and which one it is where it is one.
//!
//! The numbers of the trains are added up, so that who is there is known without a list, and changes take no memory.

ghost use Rattle.std.specs.Prelude.{◌≡◌, ◌≢◌, ℕ, ◌<◌, ◌≤◌, length, true, IfOk, IfSome};
ghost use Rattle.std.specs.Option.{option_copied};
ghost use Rattle.rbc_model.specs.Lines.{has_section};
ghost use Rattle.rbc_model.specs.declared.limits.TheConstants.{LAST_TRAIN};
ghost use Rattle.rbc_book.specs.Presence.{HasRoom, nobody, tally_at, tally_less, tally_with, tally_without, with_one, without_one};

use rbc_extent::Train;
use rbc_model::{Memory, SectionId, TrainId};
use std::alloc::Global;

/// How many trains have a leg of a section on their lines, and the sum of their numbers.
#[derive(Clone, Copy)]
pub(crate) struct Tally {
    pub(crate) trains: u32,
    pub(crate) numbers: u64,
}

/// For each section of a track, the tally of the trains that have a leg of it on their lines.
pub(crate) type Presence = Vec<Tally>;

impl Tally {
    /// The tally of no train.
    pub(crate) fn nobody() -> Tally
        ensures { result ≡ nobody }
    {
        Tally {
            trains: 0,
            numbers: 0,
        }
    }

    /// The tally with a train more.
    pub(crate) fn with(self, train: TrainId) -> Tally
        requires room { HasRoom self }
        requires number { train ≤ LAST_TRAIN }
        ensures { result ≡ with_one train self }
    {
        Tally {
            trains: self.trains + 1,
            numbers: self.numbers + u64::from(train.number()),
        }
    }

    /// The tally with a train less.
    pub(crate) fn without(self, train: TrainId) -> Tally
        ensures { result ≡ without_one train self }
    {
        Tally {
            trains: self.trains.saturating_sub(1),
            numbers: self.numbers.saturating_sub(u64::from(train.number())),
        }
    }

    /// The tally of a section without this train, if there is one, where it was counted.
    pub(crate) fn less(self, train: Option<&Train>, section: SectionId) -> Tally
        ensures { result ≡ tally_less (option_copied train.entry) section self }
    {
        match train {
            Some(train) if train.line().has_section(section) => self.without(train.id()),
            _ => self,
        }
    }
}

/// The tallies of a track with this number of sections, on which no train is.
pub(crate) fn nobody_on(alloc: Global, sections: usize) -> Result<Presence, Memory>
    ensures size { IfOk result (λ presence. length presence.items ≡ sections) }
    ensures empty { IfOk result (λ presence. (section : ℕ) → tally_at presence.items section ≡ nobody) }
{
    let mut presence = Vec::new(alloc);
    presence.resize(sections, Tally::nobody())?;
    Ok(presence)
}

/// What a table has for a section. No train is on one that the track has not.
pub(crate) fn tally_at(presence: &Presence, section: SectionId) -> Tally
    ensures { result ≡ tally_at presence.now.items section }
{
    match presence.get(section.index()) {
        Some(tally) => *tally,
        None => Tally::nobody(),
    }
}

/// Puts in what a table has for a section.
fn put(presence: &mut Presence, section: SectionId, tally: Tally)
    requires { section < length presence.old.items }
    ensures size { length presence.new.items ≡ length presence.old.items }
    ensures put { tally_at presence.new.items section ≡ tally }
    ensures others { (other : ℕ) → other ≢ section
        → tally_at presence.new.items other ≡ tally_at presence.old.items other }
{
    presence[section.index()] = tally;
}

/// Counts a train on the sections of its line.
pub(crate) fn count_in(presence: &mut Presence, train: &Train)
    requires size { length presence.old.items ≡ length train.now.track.sections }
    requires room { (section : ℕ) → has_section train.now.train.line section ≡ true
        → HasRoom (tally_at presence.old.items section) }
    ensures size { length presence.new.items ≡ length presence.old.items }
    ensures counted { (section : ℕ) → tally_at presence.new.items section
        ≡ tally_with train.now.train section (tally_at presence.old.items section) }
{
    train.report().known();
    let line = train.line();
    let legs = line.legs();
    line.known();
    for leg in legs {
        let tally = tally_at(presence, leg.section).with(train.id());
        put(presence, leg.section, tally);
    }
}

/// Counts a train no more on the sections of its line.
pub(crate) fn count_out(presence: &mut Presence, train: &Train)
    requires size { length presence.old.items ≡ length train.now.track.sections }
    ensures size { length presence.new.items ≡ length presence.old.items }
    ensures counted { (section : ℕ) → tally_at presence.new.items section
        ≡ tally_without train.now.train section (tally_at presence.old.items section) }
{
    let line = train.line();
    let legs = line.legs();
    line.known();
    for leg in legs {
        let tally = tally_at(presence, leg.section).without(train.id());
        put(presence, leg.section, tally);
    }
}

/// Counts a train where it is now, and no more where it was, if it was anywhere.
pub(crate) fn recount(presence: &mut Presence, before: Option<&Train>, after: &Train)
    requires size { length presence.old.items ≡ length after.now.track.sections }
    requires track { IfSome before (λ train. train.now.track ≡ after.now.track) }
    requires room { (section : ℕ) → has_section after.now.train.line section ≡ true
        → HasRoom (tally_less (option_copied before) section (tally_at presence.old.items section)) }
    ensures size { length presence.new.items ≡ length presence.old.items }
    ensures counted { (section : ℕ) → tally_at presence.new.items section ≡ tally_with after.now.train section
        (tally_less (option_copied before.entry) section (tally_at presence.old.items section)) }
{
    match before {
        Some(train) => {
            count_out(presence, train);
            count_in(presence, after);
        }
        None => count_in(presence, after),
    }
}
