use fv_text::Text;
use rv_zb::ZbRow;

/// A check of a row of Zba or Zbs.
#[derive(Debug, Drop)]
pub struct ZbCheck {
    /// `insn_ROW_chN`.
    pub name: Text,
    pub row: ZbRow,
    /// The channel in which a word of the row retires, from 0.
    pub channel: u32,
    /// The cycle of that retirement, and of the check.
    pub cycle: u32,
}
