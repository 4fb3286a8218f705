//! Places of a table.
ghost use Rattle.std.specs.Prelude.{◌≡◌};
ghost use Rattle.rbc_price.specs.Places.{comes_before, earlier};

/// A price and one before it: in row `row`, counted from 0, up to the break `to`, and in the row before, up to the
/// break `from`.
#[derive(Clone, Copy, Debug, PartialEq, Eq)]
pub(crate) struct PricePlace {
    pub(crate) row: usize,
    pub(crate) from: usize,
    pub(crate) to: usize,
}

/// Whether the one place comes before the other: by its row, then by `to`, then by `from`.
fn comes_before(one: PricePlace, other: PricePlace) -> bool
    ensures { result ≡ comes_before one other }
{
    one.row < other.row
        || one.row == other.row
            && (one.to < other.to || one.to == other.to && one.from < other.from)
}

/// The earlier of two places, where there are two.
pub(crate) fn earlier(one: Option<PricePlace>, other: Option<PricePlace>) -> Option<PricePlace>
    ensures { result ≡ earlier one other }
{
    let (Some(a), Some(b)) = (one, other) else {
        return one.or(other);
    };
    Some(if comes_before(b, a) { b } else { a })
}
