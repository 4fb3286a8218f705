//! Certificates: their lines, and why a price table certifies no profile.

/// Why a price table does not show that a profile is best for a track. Rows count from 1; the metres of an inequality
/// are breaks of the track.
#[derive(Clone, Copy, Debug, PartialEq, Eq)]
pub enum Reason {
    /// The limit is not 1 to 31, the profile does not end where the track does, or the table has too few or too
    /// many rows or prices.
    Shape,
    /// The profile is above the track at this metre, the first such one.
    Above(u32),
    /// The price in this row, up to the second metre, is above that of one step less, up to the first metre, with what
    /// one step loses in between. It is the first such price by its row, then by the second metre, then by the first.
    Inequality(usize, u32, u32),
    /// The profile does not lose what the last price says.
    NotAttained,
    /// The profile has more steps than the limit.
    Steps,
}

/// The lines of a certificate, by their first word.
#[derive(Clone, Copy, Debug, PartialEq, Eq)]
pub enum Part {
    /// `speed` or `grade`: the track.
    Head,
    /// `steps`: the profile, with what it loses.
    Profile,
    /// `prices`: a row of the price table.
    Row,
}
