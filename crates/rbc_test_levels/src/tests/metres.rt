//! The plain way to reduce: each cut at each metre is tried.

ghost use Rattle.std.specs.Prelude.{◌≡◌};

use rbc_steps::Level;

/// Whether the one level is no higher than the other.
fn is_at_most<V: Level>(a: V, b: V) -> bool
    ensures { result ≡ V.levels.at_most a b }
{
    a.known();
    b.known();
    a <= b
}

/// The lower of two levels.
fn lower<V: Level>(a: V, b: V) -> V {
    if is_at_most(a, b) { a } else { b }
}

/// The least of the values, or `first` where that is lower.
fn least<V: Level>(values: &[V], first: V) -> V {
    let mut least = first;
    for value in values {
        least = lower(least, *value);
    }
    least
}

/// What is lost on these metres by one step at the floor of their least value.
fn lost_by_one<V: Level>(values: &[V]) -> u64 {
    let [first, ..] = values else {
        return 0;
    };
    let given = least(values, *first).floor();
    let mut sum = 0u64;
    for value in values {
        if is_at_most(given, *value) {
            sum = sum.saturating_add(value.price(given));
        }
    }
    sum
}

/// The least that at most this number of steps loses on these metres.
pub(crate) fn least_loss<V: Level>(values: &[V], steps: usize) -> u64 {
    if values.is_empty() {
        return 0;
    }
    if steps == 0 {
        return u64::MAX;
    }
    let mut least = u64::MAX;
    for last in 0..values.len() {
        let later = least_loss(&values[last + 1..], steps - 1);
        least = least.min(lost_by_one(&values[..last + 1]).saturating_add(later));
    }
    least
}
