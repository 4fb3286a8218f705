//! What was done, and the outcomes in the order of the list.

ghost use Rattle.std.specs.Prelude.{◌≡◌, ℕ, ◌+◌, ◌≤◌, ◌++◌, [], List, IsPermutation, flat_map};
ghost use Rattle.std.specs.Prelude.{length, map, sum_by, vec_capacity, vec_len};
ghost use Rattle.std.specs.List.Sorted.{IsNonDecreasingBy};
ghost use Rattle.rbc_sweep.specs.Jobs.{numbered, AreSameJobs};
ghost use Rattle.rbc_sweep.specs.Outcomes.{train_of};
ghost use Rattle.rbc_sweep.specs.Serving.{all_of, jobs, outcome_of, place_of};

use crate::Outcome;

/// The outcome for the train at this place of the list.
#[derive(Drop)]
pub(crate) struct Done {
    pub(crate) place: usize,
    pub(crate) outcome: Outcome,
}

/// Puts more behind what was done.
fn put_behind(done: &mut Vec<Done>, more: Vec<Done>)
    requires { vec_len done.old + vec_len more ≤ vec_capacity done.old }
    ensures items { done.new.items ≡ done.old.items ++ more.items }
    ensures capacity { vec_capacity done.new ≡ vec_capacity done.old }
{
    for one in more {
        done.push_reserved(one);
    }
}

/// What was done, and behind it what others did.
pub(crate) fn put_together(mut done: Vec<Done>, others: Vec<Vec<Done>>) -> Vec<Done>
    requires { vec_len done + length (all_of others.items) ≤ vec_capacity done }
    ensures { result.items ≡ done.items ++ all_of others.items }
{
    for other in others {
        put_behind(&mut done, other);
    }
    done
}

/// What was done, in the order of the list.
fn sorted(mut done: Vec<Done>) -> Vec<Done>
    ensures permutation { IsPermutation done.items result.items }
    ensures count { vec_len result ≡ vec_len done }
    ensures sorted { IsNonDecreasingBy place_of result.items }
{
    done.sort_unstable_by_key(|one| one.place);
    done
}

/// The outcomes alone.
fn outcomes_of(done: Vec<Done>, mut outcomes: Vec<Outcome>) -> Vec<Outcome>
    requires empty { outcomes.items ≡ [] }
    requires room { vec_len done ≤ vec_capacity outcomes }
    ensures { result.items ≡ map outcome_of done.items }
{
    for one in done {
        outcomes.push_reserved(one.outcome);
    }
    outcomes
}

/// The outcomes in the order of the list.
pub(crate) fn in_order(done: Vec<Done>, outcomes: Vec<Outcome>) -> Vec<Outcome>
    requires empty { outcomes.items ≡ [] }
    requires room { vec_len done ≤ vec_capacity outcomes }
    ensures permutation { IsPermutation (map outcome_of done.items) result.items }
    ensures trains { (trains : List ℕ) → AreSameJobs (numbered 0 trains) (jobs done.items)
        → map train_of result.items ≡ trains }
{
    outcomes_of(sorted(done), outcomes)
}
