//! Step profiles, as a packet holds them.
ghost use Rattle.std.specs.Prelude.{ℕ, ◌≡◌, ◌<◌, ◌≤◌, Some, IsTrue};
ghost use Rattle.rbc_model.specs.Profiles.{value_at, profile_of, is_within, loss, IsProfile};
ghost use Rattle.rbc_model.specs.declared.limits.TheConstants.{LONGEST_TRACK, MOST_STEPS};

use crate::{Level, Runs, rows};
use rbc_model::ProfileFault;
use rbc_model::limits::MOST_STEPS;
use std::marker::Model;

/// A step profile: 1 to 31 steps (start, value) that the radio message can express, each up to the next one's start,
/// the last one up to the end. Starts are in metres. It is kept in place and takes no memory.
#[derive(Drop)]
pub struct Profile<V: Level> {
    steps: [(u32, V); MOST_STEPS],
    count: usize,
    end: u32,
}

impl<V: Level> Model for Profile<V> {
    ghost use Rattle.std.specs.Prelude.{◌≤◌, take};
    ghost use Rattle.rbc_model.specs.Profiles.{StepFunction, IsProfile};
    ghost use Rattle.rbc_model.specs.declared.limits.TheConstants.{LONGEST_TRACK, MOST_STEPS};

    ghost Value = { StepFunction V };

    ghost view = { λ p. record { steps = take p.count p.steps; end = p.end } };

    ghost invariant = { λ p. IsProfile V.levels 1 MOST_STEPS p.end (take p.count p.steps)
        × (p.count ≤ MOST_STEPS) × (p.end ≤ LONGEST_TRACK) };
}

impl<V: Level> Profile<V> {
    /// The profile that the rows (start, value) make up to the end, in metres. It takes no memory.
    ///
    /// # Errors
    ///
    /// - `Empty`: there is no row.
    /// - `NotRising`: the first start is not 0, or the starts do not rise.
    /// - `OutOfRange`: a start is not below the end, the end is above 100,000 m, or there are more than 31 rows.
    /// - `NotExpressible`: a message has no such value.
    pub fn new(rows: &[(u32, V)], end: u32) -> Result<Profile<V>, ProfileFault>
        ensures { result ≡ profile_of V.levels end rows.now }
    {
        let Some(first) = rows.first() else {
            return Err(ProfileFault::Empty);
        };
        if !rows::rise_from_zero(rows) {
            return Err(ProfileFault::NotRising);
        }
        if !rows::lie_below(rows, end) || rows.len() > MOST_STEPS {
            return Err(ProfileFault::OutOfRange);
        }
        if !rows::expressible(rows) {
            return Err(ProfileFault::NotExpressible);
        }
        let mut steps = [*first; MOST_STEPS];
        steps[..rows.len()].copy_from_slice(rows);
        Ok(Profile {
            steps,
            count: rows.len(),
            end,
        })
    }

    /// The steps are a profile whose end lies within the limit. This does nothing.
    pub fn known(&self)
        ensures profile { IsProfile V.levels 1 MOST_STEPS self.now.end self.now.steps }
        ensures within_limit { self.now.end ≤ LONGEST_TRACK }
    {
        let _ = &self.steps;
    }

    /// Where the profile ends, in metres: 1 to 100,000.
    pub fn end(&self) -> u32
        ensures { result ≡ self.now.end }
    {
        self.end
    }

    /// A copy of the profile, which takes no memory.
    pub fn copy(&self) -> Profile<V>
        ensures { result ≡ self.now }
    {
        let mut steps = [self.steps[0]; MOST_STEPS];
        steps.copy_from_slice(&self.steps);
        Profile {
            steps,
            count: self.count,
            end: self.end,
        }
    }

    /// The steps as (start, value).
    pub fn steps(&self) -> &[(u32, V)]
        ensures { result.now ≡ self.now.steps }
    {
        &self.steps[..self.count]
    }

    /// The level at a metre of the profile.
    pub fn at(&self, x: u32) -> V
        requires { x < self.now.end }
        ensures { value_at self.now.steps x ≡ Some result }
    {
        self.known();
        rows::at(self.steps(), x)
    }

    /// What a train loses on the track where this profile, which is nowhere above it, is given: the sum of the prices
    /// of the single metres.
    pub fn loss(&self, track: &Runs<V>) -> u64
        requires ends { track.now.end ≡ self.now.end }
        requires below { (x : ℕ) → x < self.now.end
            → IsTrue (is_within V.levels (value_at track.now.steps x) (value_at self.now.steps x)) }
        ensures { result ≡ loss V.levels self.now.end (value_at track.now.steps) self.now.steps }
    {
        track.known();
        self.known();
        rows::loss(track.runs(), self.steps(), self.end)
    }
}
