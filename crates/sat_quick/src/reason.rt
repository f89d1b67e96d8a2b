/// Why a literal is true. Literals are codes.
#[derive(Debug, Clone, Copy)]
pub(crate) enum Reason {
    /// It was decided.
    Decision,
    /// The clause with this id has no other literal.
    Unit { id: u32 },
    /// The clause with this id has one other literal, which is false.
    Short { id: u32, other: u32 },
    /// The other literals of the clause at this place are false.
    Long { at: u32 },
}

/// A clause whose literals are all false.
#[derive(Debug, Clone, Copy)]
pub(crate) enum Conflict {
    Empty { id: u32 },
    Unit { id: u32, lit: u32 },
    Short { id: u32, one: u32, other: u32 },
    Long { at: u32 },
}
