//! The least of many sums.
ghost use Rattle.std.specs.Prelude.{◌≡◌, ℕ, ◌+◌, ◌-◌, ◌<◌, ◌≤◌, map, length, slice_index};
ghost use Rattle.rbc_costs.specs.Sums.{IsCheapest, price_up_to};

use crate::total::Total;

/// The least price with one step more than those `before` have, where the least one from the breaks below `from` is known.
/// What that step costs from each break from there on stands in `costs`, `cut` places before the break's number. There is no
/// way out of the loop before its end: a processor takes several breaks at once.
pub fn cheapest_from<N: Total>(known: N, before: &[N], costs: &[N], from: usize, cut: usize) -> N
    requires some { 0 < from }
    requires low { cut ≤ from }
    requires inside { from ≤ cut + length costs.now }
    requires room { cut + length costs.now ≤ length before.now + 1 }
    requires small { (i : ℕ) → slice_index (map N.number before.now) i ≤ N.most }
    requires small_costs { (i : ℕ) → slice_index (map N.number costs.now) i ≤ N.most }
    ensures { (cost : ℕ → ℕ) → ((i : ℕ) → from ≤ i → i < cut + length costs.now → slice_index (map N.number costs.now) (i - cut) ≡ cost i)
        → IsCheapest (price_up_to (map N.number before.now)) cost from (N.number known)
        → IsCheapest (price_up_to (map N.number before.now)) cost (cut + length costs.now) (N.number result) }
{
    let mut price = known;
    for i in from - cut..costs.len() {
        price = price.least(before[cut + i - 1].plus(costs[i]));
    }
    price
}

/// The least price with one step more than those `before` have, where that step costs so much from each break.
pub fn cheapest<N: Total>(before: &[N], costs: &[N]) -> N
    requires some { 0 < length costs.now }
    requires room { length costs.now ≤ length before.now + 1 }
    requires small { (i : ℕ) → slice_index (map N.number before.now) i ≤ N.most }
    requires small_costs { (i : ℕ) → slice_index (map N.number costs.now) i ≤ N.most }
    ensures { IsCheapest (price_up_to (map N.number before.now)) (slice_index (map N.number costs.now))
        (length costs.now) (N.number result) }
{
    cheapest_from(costs[0], before, costs, 1, 0)
}

/// Four totals.
#[derive(Clone, Copy)]
pub struct Four<N: Total> {
    /// The first one.
    pub first: N,
    /// The second one.
    pub second: N,
    /// The third one.
    pub third: N,
    /// The fourth one.
    pub fourth: N,
}

/// The least prices with one step more than those `before` have, from the breaks up to that of their number: for four
/// costs of that step at once, so that each price is read once for all of them.
pub fn cheapest_four<N: Total>(
    before: &[N],
    first: &[N],
    second: &[N],
    third: &[N],
    fourth: &[N],
) -> Four<N>
    requires rooms { (length before.now < length first.now) × (length before.now < length second.now)
        × (length before.now < length third.now) × (length before.now < length fourth.now) }
    requires small { (i : ℕ) → slice_index (map N.number before.now) i ≤ N.most }
    requires small_first { (i : ℕ) → slice_index (map N.number first.now) i ≤ N.most }
    requires small_second { (i : ℕ) → slice_index (map N.number second.now) i ≤ N.most }
    requires small_third { (i : ℕ) → slice_index (map N.number third.now) i ≤ N.most }
    requires small_fourth { (i : ℕ) → slice_index (map N.number fourth.now) i ≤ N.most }
    ensures first { IsCheapest (price_up_to (map N.number before.now)) (slice_index (map N.number first.now))
        (length before.now + 1) (N.number result.first) }
    ensures second { IsCheapest (price_up_to (map N.number before.now)) (slice_index (map N.number second.now))
        (length before.now + 1) (N.number result.second) }
    ensures third { IsCheapest (price_up_to (map N.number before.now)) (slice_index (map N.number third.now))
        (length before.now + 1) (N.number result.third) }
    ensures fourth { IsCheapest (price_up_to (map N.number before.now)) (slice_index (map N.number fourth.now))
        (length before.now + 1) (N.number result.fourth) }
{
    let mut one = first[0];
    let mut two = second[0];
    let mut three = third[0];
    let mut four = fourth[0];
    for i in 0..before.len() {
        let price = before[i];
        one = one.least(price.plus(first[i + 1]));
        two = two.least(price.plus(second[i + 1]));
        three = three.least(price.plus(third[i + 1]));
        four = four.least(price.plus(fourth[i + 1]));
    }
    Four {
        first: one,
        second: two,
        third: three,
        fourth: four,
    }
}
