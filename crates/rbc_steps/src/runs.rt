//! Track functions.
ghost use Rattle.std.specs.Prelude.{ℕ, List, ◌≡◌, ◌+◌, ◌<◌, ◌≤◌, ◌↔◌, [], ◌∷◌, ◌++◌, map, neg_ℤ, Some, Err, IfOk, IfErr};
ghost use Rattle.rbc_model.specs.Profiles.{value_at, starts_of, runs_of, IsTrackFunction, Follows, Reverses};
ghost use Rattle.rbc_model.specs.declared.limits.TheConstants.{LONGEST_TRACK};

use crate::{Grade, Level, rows};
use rbc_model::limits::LONGEST_TRACK;
use rbc_model::{AppendFault, Memory, RunsFault};
use std::alloc::Global;
use std::iter;
use std::marker::Model;

/// A track function: a level for each metre from 0 to its end, as runs (start, value), each up to the next one's
/// start. Starts are in metres. Neighbouring runs differ in value, so equal functions are equal values.
#[derive(Drop)]
pub struct Runs<V: Level> {
    runs: Vec<(u32, V)>,
    end: u32,
}

impl<V: Level> Model for Runs<V> {
    ghost use Rattle.std.specs.Prelude.{◌≤◌};
    ghost use Rattle.rbc_model.specs.Profiles.{StepFunction, IsTrackFunction};
    ghost use Rattle.rbc_model.specs.declared.limits.TheConstants.{LONGEST_TRACK};

    ghost Value = { StepFunction V };

    ghost view = { λ r. record { steps = r.runs.items; end = r.end } };

    ghost invariant = { λ r. IsTrackFunction V.levels r.end r.runs.items × (r.end ≤ LONGEST_TRACK) };
}

impl<V: Level> Runs<V> {
    /// The track that the rows (start, value) make up to the end, in metres. Neighbours with one value are joined.
    ///
    /// # Errors
    ///
    /// - `Empty`: there is no row.
    /// - `NotRising`: the first start is not 0, or the starts do not rise.
    /// - `OutOfRange`: a start is not below the end, or the end is above 100,000 m.
    pub fn new(mut rows: Vec<(u32, V)>, end: u32) -> Result<Runs<V>, RunsFault>
        ensures track { result ≡ runs_of V.levels end rows.items }
        ensures values { IfOk result (λ r. (x : ℕ) → value_at r.steps x ≡ value_at rows.items x) }
    {
        if rows.is_empty() {
            return Err(RunsFault::Empty);
        }
        if !rows::rise_from_zero(&rows) {
            return Err(RunsFault::NotRising);
        }
        if !rows::lie_below(&rows, end) {
            return Err(RunsFault::OutOfRange);
        }
        rows::join(&mut rows);
        Ok(Runs { runs: rows, end })
    }

    /// The runs are a track function whose end lies within the limit. This does nothing.
    pub fn known(&self)
        ensures track { IsTrackFunction V.levels self.now.end self.now.steps }
        ensures within_limit { self.now.end ≤ LONGEST_TRACK }
    {
        let _ = &self.runs;
    }

    /// Where the track ends, in metres: 1 to 100,000.
    pub fn end(&self) -> u32
        ensures { result ≡ self.now.end }
    {
        self.end
    }

    /// The runs as (start, value).
    pub fn runs(&self) -> &[(u32, V)]
        ensures { result.now ≡ self.now.steps }
    {
        self.runs.as_slice()
    }

    /// The level at a metre of the track.
    pub fn at(&self, x: u32) -> V
        requires { x < self.now.end }
        ensures { value_at self.now.steps x ≡ Some result }
    {
        rows::at(&self.runs, x)
    }

    /// The metres at which the level changes: the starts of the runs, and the end.
    ///
    /// # Errors
    ///
    /// [`Memory`] where there is none for the list.
    pub fn breaks(&self, alloc: Global) -> Result<Vec<u32>, Memory>
        ensures { IfOk result (λ metres. metres.items ≡ starts_of self.now.steps ++ self.now.end ∷ []) }
    {
        let starts = self.runs.iter().map(|run| run.0);
        Ok(starts.chain(iter::once(self.end)).collect(alloc)?)
    }

    /// Puts another track behind this one, which stays as it is after an error.
    ///
    /// # Errors
    ///
    /// - `OutOfRange`: the two together are longer than 100,000 m.
    /// - `Memory`, unless the other track only goes on with this one's last level.
    pub fn append(&mut self, other: &Runs<V>) -> Result<(), AppendFault>
        ensures follows { IfOk result (λ _. Follows self.old other.now self.new) }
        ensures track { IsTrackFunction V.levels self.new.end self.new.steps }
        ensures within_limit { self.new.end ≤ LONGEST_TRACK }
        ensures too_long { result ≡ Err AppendFault.OutOfRange ↔ LONGEST_TRACK < self.old.end + other.now.end }
        ensures unchanged { IfErr result (λ _. self.new ≡ self.old) }

        // Where the other track only goes on with the last run's value nothing grows, so no memory is refused.
        ensures no_growth { (front : List (ℕ × V)) (start : ℕ) (v : V) → self.old.steps ≡ front ++ (start, v) ∷ []
            → other.now.steps ≡ (0, v) ∷ [] → result ≡ Err AppendFault.Memory → ⊥ }
    {
        if other.end > LONGEST_TRACK - self.end {
            return Err(AppendFault::OutOfRange);
        }
        let last = self.runs.len() - 1;
        let joined = rows::same(other.runs[0].1, self.runs[last].1);
        let later = &other.runs[usize::from(joined)..];
        rows::extend_moved(&mut self.runs, later, self.end).map_err(|_| AppendFault::Memory)?;
        self.end += other.end;
        Ok(())
    }

    /// The track run the other way.
    ///
    /// # Errors
    ///
    /// [`Memory`] where there is none for the runs.
    pub fn reversed(&self, alloc: Global) -> Result<Runs<V>, Memory>
        ensures back { IfOk result (λ r. Reverses self.now r) }
        ensures track { IfOk result (λ r. IsTrackFunction V.levels r.end r.steps) }
    {
        let runs = rows::reversed(alloc, &self.runs, self.end)?;
        Ok(Runs {
            runs,
            end: self.end,
        })
    }
}

impl Runs<Grade> {
    /// The track with each gradient negated: uphill is downhill.
    ///
    /// # Errors
    ///
    /// [`Memory`] where there is none for the runs.
    pub fn negated(&self, alloc: Global) -> Result<Runs<Grade>, Memory>
        ensures end { IfOk result (λ r. r.end ≡ self.now.end) }
        ensures runs { IfOk result (λ r. r.steps ≡ map (λ run. (run.0, neg_ℤ run.1)) self.now.steps) }
    {
        let runs = rows::negated(alloc, &self.runs)?;
        Ok(Runs {
            runs,
            end: self.end,
        })
    }
}

/// Equal functions are equal values: tracks that end at one metre and have the same level at each metre are the same
/// runs. This is a law, and does nothing.
pub fn one_spelling<V: Level>(one: &Runs<V>, other: &Runs<V>)
    requires ends { one.now.end ≡ other.now.end }
    requires levels { (x : ℕ) → x < one.now.end → value_at one.now.steps x ≡ value_at other.now.steps x }
    ensures { one.now ≡ other.now }
{
    one.known();
    other.known();
}
