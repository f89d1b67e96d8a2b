use fv_text::Text;

/// What a bit is in the clauses of a certificate.
#[derive(Debug, Clone, Copy, PartialEq, Eq)]
pub enum NoteLiteral {
    /// 0, whatever the variables are: `F`.
    Zero,
    /// 1: `T`.
    One,
    /// A literal of the clause file: n for variable n, and -n for its complement.
    Clause(i64),
}

/// A literal of a certificate, and the bit of a name in a cycle that it is.
#[derive(Debug, Drop)]
pub struct Note {
    pub literal: NoteLiteral,
    pub cycle: u32,
    pub bit: u32,
    /// The full name, or that of a memory's word.
    pub name: Text,
}
