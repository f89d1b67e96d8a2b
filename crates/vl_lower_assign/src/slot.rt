use crate::spread::BitPlace;
use wn_net::NodeId;

/// What holds the bits of a slot: a cell, or one of so many cells by a node that counts from the first.
#[derive(Debug, Clone, Copy, PartialEq, Eq)]
pub enum Holder {
    Cell(usize),
    Word {
        first: usize,
        count: usize,
        address: NodeId,
    },
    /// No cell: what is written there is dropped.
    Nowhere,
}

/// Bits of a cell, from a place on.
#[derive(Debug, Clone, Copy, PartialEq, Eq)]
pub struct Slot {
    pub holder: Holder,
    pub place: BitPlace,
    /// How many bits.
    pub count: u32,
    /// The width of the cell.
    pub width: u32,
}
