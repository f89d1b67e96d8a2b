use crate::node::NodeId;
use fv_text::{List, Text};

/// What a name of a design is in a net.
#[derive(Debug, Clone, Copy, PartialEq, Eq)]
pub enum Place {
    Node(NodeId),
    /// A memory, by its number.
    Mem(u32),
}

/// A name of a design.
#[derive(Debug, Drop)]
pub struct NetName {
    pub text: Text,
    /// In bits; of a memory that of a word.
    pub width: u32,
    pub place: Place,
    pub output: bool,
    /// The declared range of a memory, its left bound first. Word `i` is the one `i` places from the left bound.
    pub words: Option<(i64, i64)>,
}

/// Which bits of a name an input or a register is: its bit `j` is the bit `bits[j]` of the name.
#[derive(Debug, Drop)]
pub struct Spot {
    /// The place of the name in the list of names.
    pub name: u32,
    pub bits: List<u32>,
}

/// The names of a design, in the order of their declarations.
#[derive(Debug, Drop)]
pub struct Names {
    pub list: List<NetName>,
    /// One for each input.
    pub inputs: List<Spot>,
    /// One for each register.
    pub regs: List<Spot>,
    /// For each memory the place of its name in the list of names.
    pub mems: List<u32>,
}
