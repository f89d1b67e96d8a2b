use fv_text::Text;

/// What a declared name stands for. Rule of this project.
#[derive(Debug, Clone, Copy, PartialEq, Eq)]
pub enum Class {
    /// An input of the top module.
    Input,
    Reset,
    Clock,
    /// Free in each cycle.
    EachCycle,
    /// Free, and the same in all cycles.
    Once,
    Net,
    Variable,
}

/// A declared name (IEEE 1364-2005, sections 3.2, 3.3 and 3.9). A scalar has the range `[0:0]`.
#[derive(Drop)]
pub struct Decl {
    pub name: Text,
    /// In bits.
    pub width: u32,
    pub signed: bool,
    /// The bounds of the range.
    pub left: i64,
    pub right: i64,
    /// The bounds of the range of words, of a memory.
    pub words: Option<(i64, i64)>,
    pub class: Class,
    pub output: bool,
}
