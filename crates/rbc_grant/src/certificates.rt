//! What shows that two profiles lose least.

/// What two profiles lose, summed over the metres.
#[derive(Clone, Copy, Debug, PartialEq, Eq)]
pub struct Losses {
    /// By the speeds, in km/h times metres.
    pub speeds: u64,
    /// By the gradients, in per mille times metres.
    pub grades: u64,
}

/// The tables of prices that show that no profiles lose less: in each a row for each number of steps from 1, and in a
/// row the least that this number of steps loses up to each break of the track, from the first break behind 0.
#[derive(Drop)]
pub struct PriceTables {
    /// Of the speeds.
    pub speeds: Vec<Vec<u64>>,
    /// Of the gradients.
    pub grades: Vec<Vec<u64>>,
}
