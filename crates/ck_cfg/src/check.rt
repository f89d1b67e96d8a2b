use crate::kind::CheckKind;
use fv_text::Text;
use rv_table::RowId;

/// One check.
#[derive(Debug, Drop)]
pub struct Check {
    /// `insn_ROW_chN`, and `KIND_chN` for the other kinds.
    pub name: Text,
    pub kind: CheckKind,
    /// The row, where the kind is insn.
    pub row: Option<RowId>,
    pub channel: u32,
    /// The first cycle whose retirements count.
    pub start: u32,
    /// The cycle of the retirement that is looked for; where the kind has none, the cycle of the check.
    pub trig: u32,
    /// The cycle of the check.
    pub cycle: u32,
}
