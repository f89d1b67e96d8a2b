/// A sum with a word that is moved to the left (RISC-V Bit-Manipulation 1.0.0, extension Zba).
#[derive(Debug, Clone, Copy, PartialEq, Eq)]
pub enum ShiftAddRow {
    Sh1add,
    Sh2add,
    Sh3add,
}

/// What is done with one bit of a word (extension Zbs).
#[derive(Debug, Clone, Copy, PartialEq, Eq)]
pub enum BitRow {
    Clear,
    Extract,
    Invert,
    Set,
}

/// A row of Zba or Zbs.
#[derive(Debug, Clone, Copy, PartialEq, Eq)]
pub enum ZbRow {
    ShiftAdd(ShiftAddRow),
    /// The number of the bit stands in a register.
    Bit(BitRow),
    /// It stands in the word.
    BitImmediate(BitRow),
}
