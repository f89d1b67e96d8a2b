//! When a word matches a row.
ghost use Rattle.std.specs.Prelude.{◌≡◌, ◌<◌, ◌^◌, ◌∷◌, [], true, false, find, IfSome, IfNone, Some};
ghost use Rattle.rv_table.specs.declared.demand.Demand.TheVariants.{Is};
ghost use Rattle.rv_zb.specs.Rows as table;

use crate::row::{BitRow, ShiftAddRow, ZbRow};
use rv_table::Demand;

/// What a word of a row holds: its bits 6:0, 14:12 and 31:25.
#[derive(Debug, Clone, Copy, PartialEq, Eq)]
pub struct Code {
    pub opcode: u32,
    pub funct3: u32,
    pub funct7: u32,
}

impl Code {
    fn of_registers(funct3: u32, funct7: u32) -> Code
        ensures { result ≡ record { opcode = 0x33; funct3 = funct3; funct7 = funct7 } }
    {
        Code {
            opcode: 0x33,
            funct3,
            funct7,
        }
    }

    fn of_immediate(funct3: u32, funct7: u32) -> Code
        ensures { result ≡ record { opcode = 0x13; funct3 = funct3; funct7 = funct7 } }
    {
        Code {
            opcode: 0x13,
            funct3,
            funct7,
        }
    }
}

impl ZbRow {
    pub(crate) fn code(self) -> Code
        ensures asked { table.zb_demands self ≡ Is 6 0 result.opcode ∷ Is 14 12 result.funct3 ∷
            Is 31 25 result.funct7 ∷ [] }
        ensures opcode { result.opcode < 2 ^ 7 }
        ensures funct3 { result.funct3 < 2 ^ 3 }
        ensures funct7 { result.funct7 < 2 ^ 7 }
    {
        match self {
            ZbRow::ShiftAdd(ShiftAddRow::Sh1add) => Code::of_registers(2, 0x10),
            ZbRow::ShiftAdd(ShiftAddRow::Sh2add) => Code::of_registers(4, 0x10),
            ZbRow::ShiftAdd(ShiftAddRow::Sh3add) => Code::of_registers(6, 0x10),
            ZbRow::Bit(BitRow::Clear) => Code::of_registers(1, 0x24),
            ZbRow::Bit(BitRow::Extract) => Code::of_registers(5, 0x24),
            ZbRow::Bit(BitRow::Invert) => Code::of_registers(1, 0x34),
            ZbRow::Bit(BitRow::Set) => Code::of_registers(1, 0x14),
            ZbRow::BitImmediate(BitRow::Clear) => Code::of_immediate(1, 0x24),
            ZbRow::BitImmediate(BitRow::Extract) => Code::of_immediate(5, 0x24),
            ZbRow::BitImmediate(BitRow::Invert) => Code::of_immediate(1, 0x34),
            ZbRow::BitImmediate(BitRow::Set) => Code::of_immediate(1, 0x14),
        }
    }

    /// Whether the word is one of the row.
    #[tactic(auto, unfolding(crate::specs::Rows::zb_matches))]
    pub fn matches(self, insn: u32) -> bool
        ensures { result ≡ table.zb_matches self insn }
    {
        let code = self.code();
        Demand::Is(6, 0, code.opcode).is_met(insn)
            && Demand::Is(14, 12, code.funct3).is_met(insn)
            && Demand::Is(31, 25, code.funct7).is_met(insn)
    }
}

/// The row of Zba and Zbs that the word matches: at most one does. None exactly where none does.
#[tactic(auto, using(crate::proofs::Unique::search))]
pub fn zb_row_of(insn: u32) -> Option<ZbRow>
    ensures found { IfSome result (table.IsZbMatch insn) }
    ensures only { (row : ZbRow) → table.zb_matches row insn ≡ true → result ≡ Some row }
    ensures none { IfNone result ((row : ZbRow) → table.zb_matches row insn ≡ false) }
{
    row_among(ZbRow::all(), insn)
}

fn row_among(rows: &[ZbRow], insn: u32) -> Option<ZbRow>
    ensures { result ≡ find (λ row. table.zb_matches row insn) rows.now }
{
    rows.iter().copied().find(|row| row.matches(insn))
}
