ghost use Rattle.std.specs.Prelude.{◌≡◌};
ghost use Rattle.rv_table.specs.Assembled.{AreRegisters};
ghost use Rattle.rv_table.specs.Compressed as compressed;

use crate::assemble::Operands;
use crate::half::{
    addi4spn_immediate, addi16sp_immediate, branch_offset, far, jump_offset, lui_immediate,
    lwsp_offset, near_high, near_low, second, six, swsp_offset, word_offset,
};
use crate::row::{BaseRow, BranchRow, CompressedRow, ImmediateRow, LoadRow, RegisterRow, StoreRow};

impl CompressedRow {
    /// The row of the expansion.
    pub fn base(self) -> BaseRow
        ensures { result ≡ (compressed.compressed_row self).base }
    {
        match self {
            CompressedRow::CAddi4spn
            | CompressedRow::CAddi
            | CompressedRow::CLi
            | CompressedRow::CAddi16sp => BaseRow::Immediate(ImmediateRow::Addi),
            CompressedRow::CLw | CompressedRow::CLwsp => BaseRow::Load(LoadRow::Lw),
            CompressedRow::CSw | CompressedRow::CSwsp => BaseRow::Store(StoreRow::Sw),
            CompressedRow::CJal | CompressedRow::CJ => BaseRow::Jal,
            CompressedRow::CJr | CompressedRow::CJalr => BaseRow::Jalr,
            CompressedRow::CLui => BaseRow::Lui,
            CompressedRow::CSlli => BaseRow::Immediate(ImmediateRow::Slli),
            CompressedRow::CSrli => BaseRow::Immediate(ImmediateRow::Srli),
            CompressedRow::CSrai => BaseRow::Immediate(ImmediateRow::Srai),
            CompressedRow::CAndi => BaseRow::Immediate(ImmediateRow::Andi),
            CompressedRow::CSub => BaseRow::Register(RegisterRow::Sub),
            CompressedRow::CXor => BaseRow::Register(RegisterRow::Xor),
            CompressedRow::COr => BaseRow::Register(RegisterRow::Or),
            CompressedRow::CAnd => BaseRow::Register(RegisterRow::And),
            CompressedRow::CMv | CompressedRow::CAdd => BaseRow::Register(RegisterRow::Add),
            CompressedRow::CBeqz => BaseRow::Branch(BranchRow::Beq),
            CompressedRow::CBnez => BaseRow::Branch(BranchRow::Bne),
        }
    }

    /// The registers and the immediate of the expansion.
    #[tactic(auto, unfolding(crate::specs::Compressed::operands))]
    pub(crate) fn operands(self, half: u32) -> Operands
        ensures value { result ≡ compressed.operands self half }
        ensures registers { AreRegisters result }
    {
        let low = near_low(half);
        let high = near_high(half);
        let d = far(half);
        let t = second(half);
        match self {
            CompressedRow::CAddi4spn => Operands::new(low, 2, 0, addi4spn_immediate(half)),
            CompressedRow::CLw => Operands::new(low, high, 0, word_offset(half)),
            CompressedRow::CSw => Operands::new(0, high, low, word_offset(half)),
            CompressedRow::CAddi => Operands::new(d, d, 0, six(half)),
            CompressedRow::CJal => Operands::new(1, 0, 0, jump_offset(half)),
            CompressedRow::CLi => Operands::new(d, 0, 0, six(half)),
            CompressedRow::CAddi16sp => Operands::new(2, 2, 0, addi16sp_immediate(half)),
            CompressedRow::CLui => Operands::new(d, 0, 0, lui_immediate(half)),
            CompressedRow::CSrli | CompressedRow::CSrai => Operands::new(high, high, 0, t),
            CompressedRow::CAndi => Operands::new(high, high, 0, six(half)),
            CompressedRow::CSub | CompressedRow::CXor | CompressedRow::COr | CompressedRow::CAnd =>
                Operands::new(high, high, low, 0),
            CompressedRow::CJ => Operands::new(0, 0, 0, jump_offset(half)),
            CompressedRow::CBeqz | CompressedRow::CBnez => {
                Operands::new(0, high, 0, branch_offset(half))
            }
            CompressedRow::CSlli => Operands::new(d, d, 0, t),
            CompressedRow::CLwsp => Operands::new(d, 2, 0, lwsp_offset(half)),
            CompressedRow::CJr => Operands::new(0, d, 0, 0),
            CompressedRow::CMv => Operands::new(d, 0, t, 0),
            CompressedRow::CJalr => Operands::new(1, d, 0, 0),
            CompressedRow::CAdd => Operands::new(d, d, t, 0),
            CompressedRow::CSwsp => Operands::new(0, 2, t, swsp_offset(half)),
        }
    }
}
