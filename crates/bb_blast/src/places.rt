/// Which bit of which source an input of a graph is.
#[derive(Debug, Clone, Copy, PartialEq, Eq)]
pub struct Placed {
    /// The number of the source.
    pub source: u32,
    pub bit: u32,
    /// The number of the input's node in the graph.
    pub node: u64,
}
