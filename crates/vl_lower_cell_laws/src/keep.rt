/// Of a cell, bit by bit.
#[derive(Debug, Clone, Copy, PartialEq, Eq)]
pub struct Keep {
    /// Driven by a combinational block.
    pub driven: u128,
    /// With a value at first.
    pub known: u128,
    /// That value.
    pub value: u128,
}
