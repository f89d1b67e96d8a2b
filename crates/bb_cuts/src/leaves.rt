//! The leaves of a cut.

/// Up to four nodes of a graph, or the variables that they are. Where there are fewer, the others are 0, which is
/// false.
#[derive(Debug, Clone, Copy, PartialEq, Eq)]
pub(crate) struct Leaves {
    pub first: u64,
    pub second: u64,
    pub third: u64,
    pub fourth: u64,
}
