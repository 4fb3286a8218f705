//! How many steps a profile may have.

ghost use Rattle.std.specs.Prelude.{◌≡◌, ◌≤◌, Some, None, if◌then◌else◌};
ghost use Rattle.rbc_model.specs.Results.{is_from_to};
ghost use Rattle.rbc_model.specs.declared.limits.TheConstants.{MOST_STEPS};

use rbc_model::limits::MOST_STEPS;
use std::marker::Model;

/// How many steps a profile may have: 1 to 31.
#[derive(Clone, Copy, Debug, PartialEq, Eq)]
pub struct StepLimit {
    steps: usize,
}

impl Model for StepLimit {
    ghost use Rattle.std.specs.Prelude.{ℕ, ◌≤◌};
    ghost use Rattle.rbc_model.specs.declared.limits.TheConstants.{MOST_STEPS};

    ghost Value = { ℕ };

    ghost view = { λ limit. limit.steps };

    ghost invariant = { λ limit. (1 ≤ limit.steps) × (limit.steps ≤ MOST_STEPS) };

    ghost inverse = { λ steps. record { steps = steps } };
}

impl StepLimit {
    /// The limit of this number of steps, if that is 1 to 31.
    pub fn new(steps: usize) -> Option<StepLimit>
        ensures { result ≡ (if is_from_to 1 MOST_STEPS steps then Some steps else None) }
    {
        if steps >= 1 && steps <= MOST_STEPS {
            Some(StepLimit { steps })
        } else {
            None
        }
    }

    /// The number of steps.
    pub fn steps(self) -> usize
        ensures value { result ≡ self }
        ensures at_least { 1 ≤ result }
        ensures at_most { result ≤ MOST_STEPS }
    {
        self.steps
    }
}
