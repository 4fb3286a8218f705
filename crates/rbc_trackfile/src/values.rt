//! Values of TOML as numbers, and the sorts of a list's values.
ghost use Rattle.std.specs.Prelude.{◌≡◌, ◌≤◌, is_some, IfSome, map};
ghost use Rattle.std.specs.List.{list_all};
ghost use Rattle.toml.specs.View.{view};
ghost use Rattle.rbc_model.specs.TrackFile.{number_from_to, pair_of};
ghost use Rattle.rbc_trackfile.specs.TomlFile.{toml_document};
ghost use Rattle.rbc_trackfile.specs.Told.{pair_sort, table_sort, is_of_sort};

use toml::Value;

/// The sorts of which the values of a list can be.
#[derive(Clone, Copy)]
pub(crate) enum Sort {
    Text,
    /// A list of two whole numbers.
    Pair,
    Table,
}

/// The number, if it lies from `low` to `high`.
pub(crate) fn number_from_to(low: u32, high: u32, number: i64) -> Option<u32>
    ensures value { result ≡ number_from_to low high number }
    ensures low { IfSome result (λ number. low ≤ number) }
    ensures high { IfSome result (λ number. number ≤ high) }
{
    if number >= i64::from(low) && number <= i64::from(high) {
        Some(number as u32)
    } else {
        None
    }
}

/// The two whole numbers that a list of two is.
pub(crate) fn pair_in(value: &Value) -> Option<(i64, i64)>
    ensures { result ≡ pair_sort (view value.now) }
{
    match value.as_array() {
        Some(values) => pair_of(values),
        None => None,
    }
}

/// The two whole numbers that the values are.
fn pair_of(values: &[Value]) -> Option<(i64, i64)>
    ensures { result ≡ pair_of toml_document (map view values.now) }
{
    let [first, second] = values else {
        return None;
    };
    match (first.as_integer(), second.as_integer()) {
        (Some(first), Some(second)) => Some((first, second)),
        _ => None,
    }
}

/// Whether a value is a table.
fn is_table(value: &Value) -> bool
    ensures { result ≡ is_some (table_sort (view value.now)) }
{
    value.is_table()
}

/// Whether a value is of the sort.
fn is_of_sort(sort: Sort, value: &Value) -> bool
    ensures { result ≡ is_of_sort sort (view value.now) }
{
    match sort {
        Sort::Text => value.is_str(),
        Sort::Pair => pair_in(value).is_some(),
        Sort::Table => is_table(value),
    }
}

/// Whether each value is of the sort.
pub(crate) fn are_of_sort(sort: Sort, values: &[Value]) -> bool
    ensures { result ≡ list_all (λ value. is_of_sort sort (view value)) values.now }
{
    values.iter().all(|value| is_of_sort(sort, value))
}
