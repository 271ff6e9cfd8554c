//! Two signals that overlap.

/// Two signals of a message that overlap, by their indexes. The first is the lower one.
#[derive(Clone, Copy, Debug, PartialEq, Eq)]
pub struct Pair {
    /// The index of the one.
    pub first: usize,
    /// The index of the other, which is later.
    pub second: usize,
}
