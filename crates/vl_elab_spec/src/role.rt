//! What a name is declared as.

/// What a name with a shape is declared as (IEEE 1364-2005, sections 3.2 and 12.3). One with `anyseq` or `anyconst`
/// stays a net or a variable.
#[derive(Debug, Clone, Copy, PartialEq, Eq)]
pub enum Role {
    Net,
    Input,
    Variable,
}
