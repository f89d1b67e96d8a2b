use fv_text::Word;

/// The number of a node: its place in the list of nodes.
pub type NodeId = u64;

/// A node: its kind, with the nodes that it reads and its widths in bits.
#[derive(Debug, Clone, Copy, PartialEq, Eq)]
pub enum Node {
    Konst(Word),
    /// An input, by its number.
    Input(u32),
    /// A register, by its number.
    Reg(u32),
    /// The word of a memory at an address; 0 past the last word.
    Read(u32, NodeId),
    Not(NodeId),
    And(NodeId, NodeId),
    Or(NodeId, NodeId),
    Xor(NodeId, NodeId),
    Add(NodeId, NodeId),
    Sub(NodeId, NodeId),
    Mul(NodeId, NodeId),
    /// 1 where both are equal.
    Eq(NodeId, NodeId),
    /// 1 where the first is less.
    Ult(NodeId, NodeId),
    /// 1 where the first is less, both read in two's complement.
    Slt(NodeId, NodeId),
    Shl(NodeId, NodeId),
    Lshr(NodeId, NodeId),
    /// Filled with the sign bit.
    Ashr(NodeId, NodeId),
    /// The high part first.
    Concat(NodeId, NodeId),
    /// The second where the first, of one bit, is 1, and else the third.
    Mux(NodeId, NodeId, NodeId),
    /// The lowest bit that is taken, and how many are.
    Slice(NodeId, u32, u32),
    /// Extended by zeros to a width.
    Zext(NodeId, u32),
    /// Extended by the sign bit to a width.
    Sext(NodeId, u32),
}
