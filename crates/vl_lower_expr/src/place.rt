/// Where the numbers of a declared name stand: in cells, which hold nodes, or in a memory of the net.
#[derive(Debug, Clone, Copy, PartialEq, Eq)]
pub enum Place {
    /// A vector, in this cell.
    Vector(usize),
    /// A memory word by word, from this cell on, in the order of its bounds.
    Words(usize),
    /// A memory that is one of the net, by its number there.
    Memory(u32),
}
