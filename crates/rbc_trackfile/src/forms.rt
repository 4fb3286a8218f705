//! Names, legs, directions and step limits at the keys of an entry.
ghost use Rattle.std.specs.Prelude.{◌≡◌};
ghost use Rattle.toml.specs.Data.{as_integer, as_str};
ghost use Rattle.toml.specs.View.{view};
ghost use Rattle.rbc_model.specs.declared.limits.TheConstants.{MOST_STEPS};
ghost use Rattle.rbc_model.specs.Names.{name_in, leg_in, direction_in};
ghost use Rattle.rbc_model.specs.TrackFile.{number_from_to};
ghost use Rattle.rbc_trackfile.specs.TomlFile.{entry_view};
ghost use Rattle.rbc_trackfile.specs.Told.{in_form_told, required_told, optional_told, leg_if_any_told, item_told};

use crate::entry::FileEntry;
use crate::items::{ListItem, ListValue};
use rbc_model::limits::MOST_STEPS;
use rbc_model::{Direction, FileFault, Key, OrMemory};
use rbc_track::{LegName, Name, StepLimit};
use std::alloc::Global;
use toml::Value;

/// The direction that a text is.
fn direction_in(text: &str) -> Option<Direction>
    ensures { result ≡ direction_in text.now }
{
    match text.as_bytes() {
        [b'+'] => Some(Direction::Rising),
        [b'-'] => Some(Direction::Falling),
        _ => None,
    }
}

impl<'a> FileEntry<'a> {
    /// The name that a value is.
    #[tactic(auto, unfolding(crate::specs::Told::in_form_told))]
    fn name_in(self, key: Key, value: &Value) -> Result<Name, FileFault>
        ensures { result ≡ in_form_told as_str name_in (entry_view self.entry) key (view value.now) }
    {
        let Some(text) = value.as_str() else {
            return Err(self.wrong(key));
        };
        match Name::new(text.as_bytes()) {
            Some(name) => Ok(name),
            None => Err(self.range(key)),
        }
    }

    /// The name at a key that must be there.
    #[tactic(auto, unfolding(crate::specs::Told::required_told))]
    pub(crate) fn name(self, key: Key) -> Result<Name, FileFault>
        ensures { result ≡ required_told as_str name_in (entry_view self.entry) key }
    {
        let value = self.required(key)?;
        self.name_in(key, value)
    }

    /// The leg that a value is.
    #[tactic(auto, unfolding(crate::specs::Told::in_form_told))]
    fn leg_in(self, key: Key, value: &Value) -> Result<LegName, FileFault>
        ensures { result ≡ in_form_told as_str leg_in (entry_view self.entry) key (view value.now) }
    {
        let Some(text) = value.as_str() else {
            return Err(self.wrong(key));
        };
        match LegName::new(text.as_bytes()) {
            Some(leg) => Ok(leg),
            None => Err(self.range(key)),
        }
    }

    /// The leg at a key that must be there.
    #[tactic(auto, unfolding(crate::specs::Told::required_told))]
    pub(crate) fn leg(self, key: Key) -> Result<LegName, FileFault>
        ensures { result ≡ required_told as_str leg_in (entry_view self.entry) key }
    {
        let value = self.required(key)?;
        self.leg_in(key, value)
    }

    /// The leg at a key, if the key is there.
    #[tactic(auto, unfolding(crate::specs::Told::leg_if_any_told))]
    pub(crate) fn leg_if_any(self, key: Key) -> Result<Option<LegName>, FileFault>
        ensures { result ≡ leg_if_any_told (entry_view self.entry) key }
    {
        match self.value(key) {
            Some(value) => Ok(Some(self.leg_in(key, value)?)),
            None => Ok(None),
        }
    }

    /// The direction that a value is.
    #[tactic(auto, unfolding(crate::specs::Told::in_form_told))]
    fn direction_in(self, key: Key, value: &Value) -> Result<Direction, FileFault>
        ensures { result ≡ in_form_told as_str direction_in (entry_view self.entry) key (view value.now) }
    {
        let Some(text) = value.as_str() else {
            return Err(self.wrong(key));
        };
        match direction_in(text) {
            Some(direction) => Ok(direction),
            None => Err(self.range(key)),
        }
    }

    /// The direction at a key that must be there.
    #[tactic(auto, unfolding(crate::specs::Told::required_told))]
    pub(crate) fn direction(self, key: Key) -> Result<Direction, FileFault>
        ensures { result ≡ required_told as_str direction_in (entry_view self.entry) key }
    {
        let value = self.required(key)?;
        self.direction_in(key, value)
    }

    /// The step limit that a value is, 1 to 31.
    fn step_limit_in(self, key: Key, value: &Value) -> Result<StepLimit, FileFault>
        ensures { result
            ≡ in_form_told as_integer (number_from_to 1 MOST_STEPS) (entry_view self.entry) key (view value.now) }
    {
        let steps = self.number_in(key, value, 1, MOST_STEPS as u32)?;
        Ok(StepLimit::new(steps as usize).unwrap())
    }

    /// The step limit at a key, 1 to 31; an absent key stands for 31.
    #[tactic(auto, unfolding(crate::specs::Told::optional_told))]
    pub(crate) fn step_limit(self, key: Key) -> Result<StepLimit, FileFault>
        ensures { result
            ≡ optional_told as_integer (number_from_to 1 MOST_STEPS) MOST_STEPS (entry_view self.entry) key }
    {
        match self.value(key) {
            Some(value) => self.step_limit_in(key, value),
            None => Ok(StepLimit::new(MOST_STEPS).unwrap()),
        }
    }
}

impl ListItem for LegName {
    ghost item_at = { item_told as_str leg_in };

    #[tactic(auto, unfolding(crate::specs::Told::item_told))]
    fn read(_alloc: Global, item: ListValue) -> Result<LegName, OrMemory<FileFault>> {
        Ok(item.within.leg_in(item.key, item.value)?)
    }
}
