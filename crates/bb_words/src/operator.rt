/// An operator on two words of one width.
#[derive(Debug, Clone, Copy, PartialEq, Eq)]
pub enum PairOperator {
    And,
    Or,
    Xor,
    Add,
    Sub,
    Mul,
    /// In one bit, as the two below.
    Eq,
    /// Both read without a sign.
    Ult,
    /// Both read in two's complement.
    Slt,
}

/// A shift of a word by the number of another one.
#[derive(Debug, Clone, Copy, PartialEq, Eq)]
pub enum ShiftOperator {
    /// To the left.
    Shl,
    /// To the right, filled with 0.
    Lshr,
    /// To the right, filled with the sign bit.
    Ashr,
}
