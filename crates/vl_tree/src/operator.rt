/// An operator before one operand (IEEE 1364-2005, section 5.1). From `ReductionAnd` on they join the operand's bits.
#[derive(Debug, Clone, Copy, PartialEq, Eq)]
pub enum UnaryOperator {
    /// `+`
    Plus,
    /// `-`
    Minus,
    /// `!`
    LogicalNot,
    /// `~`
    BitwiseNot,
    /// `&`
    ReductionAnd,
    /// `~&`
    ReductionNand,
    /// `|`
    ReductionOr,
    /// `~|`
    ReductionNor,
    /// `^`
    ReductionXor,
    /// `~^`
    ReductionXnor,
    /// `^~`, another spelling of `~^`
    ReductionXnorCaretFirst,
}

/// An operator between two operands (IEEE 1364-2005, section 5.1).
#[derive(Debug, Clone, Copy, PartialEq, Eq)]
pub enum BinaryOperator {
    /// `*`
    Multiply,
    /// `/`
    Divide,
    /// `%`
    Remainder,
    /// `+`
    Add,
    /// `-`
    Subtract,
    /// `<<`
    ShiftLeft,
    /// `>>`
    ShiftRight,
    /// `<<<`
    ArithmeticShiftLeft,
    /// `>>>`
    ArithmeticShiftRight,
    /// `<`
    Less,
    /// `<=`
    LessEqual,
    /// `>`
    Greater,
    /// `>=`
    GreaterEqual,
    /// `==`
    Equal,
    /// `!=`
    NotEqual,
    /// `===`, of one meaning with `==` where values have no unknown bits
    CaseEqual,
    /// `!==`, of one meaning with `!=`
    CaseNotEqual,
    /// `&`
    BitwiseAnd,
    /// `^`
    BitwiseXor,
    /// `~^`
    BitwiseXnor,
    /// `^~`, another spelling of `~^`
    BitwiseXnorCaretFirst,
    /// `|`
    BitwiseOr,
    /// `&&`
    LogicalAnd,
    /// `||`
    LogicalOr,
}

/// A system function that gives its operand another sign (IEEE 1364-2005, section 5.5).
#[derive(Debug, Clone, Copy, PartialEq, Eq)]
pub enum Cast {
    /// `$signed`
    Signed,
    /// `$unsigned`
    Unsigned,
}
