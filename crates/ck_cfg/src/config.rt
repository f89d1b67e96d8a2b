use crate::kind::CheckKind;
use fv_text::{List, Text};
use rv_table::Isa;

/// A line of Verilog text or an expression, without the blanks at both ends.
#[derive(Debug, Drop)]
pub struct Piece {
    /// The line of the configuration, from 1. It stands still at 2^32 - 1.
    pub line: u32,
    pub text: Text,
}

/// Verilog text for the checks of one kind.
#[derive(Debug, Drop)]
pub struct KindPiece {
    pub kind: CheckKind,
    pub piece: Piece,
}

/// How deep the checks of a kind go, in clock cycles.
#[derive(Debug, Clone, Copy, PartialEq, Eq)]
pub struct Depth {
    pub kind: CheckKind,
    /// The channel that the line is for; None where it is for each that has no line of its own.
    pub channel: Option<u32>,
    /// The first cycle whose retirements count. It is 1 for insn, ill and imem.
    pub start: u32,
    /// The cycle of the retirement that is looked for; where the kind has none, the cycle of the check.
    pub trig: u32,
    /// The cycle of the check.
    pub cycle: u32,
}

/// What a configuration says.
#[derive(Debug, Drop)]
pub struct Config {
    pub isa: Isa,
    /// How many instructions may retire in one cycle: the number of channels.
    pub nret: u32,
    pub depths: List<Depth>,
    /// The first word of each depth line that is skipped.
    pub skips: List<Text>,
    pub defines: List<Piece>,
    pub kind_defines: List<KindPiece>,
    /// The names of the Verilog files, with the places of the core's name and of the base folder open.
    pub files: List<Text>,
    /// The names of the checks that come first.
    pub sort: List<Text>,
    pub assumes: List<Piece>,
}
