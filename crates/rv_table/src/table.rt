//! What each row asks of a word, as data.
ghost use Rattle.std.specs.Prelude.{◌≡◌};
ghost use Rattle.rv_table.specs.Compressed as compressed;
ghost use Rattle.rv_table.specs.Matching as matching;
ghost use Rattle.rv_table.specs.Rows as rows;

use crate::demand::Demand::{self, Is, Isnt, SomeOfSix};
use crate::row::{
    BaseRow, BranchRow, CompressedRow, ImmediateRow, LoadRow, MultiplyRow, RegisterRow, RowId,
    StoreRow,
};

/// What the row asks: the word matches it exactly where all of it is met.
pub fn demands(row: RowId) -> &'static [Demand]
    ensures { result.now ≡ matching.demands row }
{
    match row {
        RowId::Base(base) => base.demands(),
        RowId::Compressed(compressed) => compressed.demands(),
    }
}

impl BranchRow {
    fn demands(self) -> &'static [Demand]
        ensures { result.now ≡ matching.pattern_demands (rows.branch_row self).pattern }
    {
        match self {
            BranchRow::Beq => &[Is(6, 0, 0x63), Is(14, 12, 0)],
            BranchRow::Bne => &[Is(6, 0, 0x63), Is(14, 12, 1)],
            BranchRow::Blt => &[Is(6, 0, 0x63), Is(14, 12, 4)],
            BranchRow::Bge => &[Is(6, 0, 0x63), Is(14, 12, 5)],
            BranchRow::Bltu => &[Is(6, 0, 0x63), Is(14, 12, 6)],
            BranchRow::Bgeu => &[Is(6, 0, 0x63), Is(14, 12, 7)],
        }
    }
}

impl LoadRow {
    fn demands(self) -> &'static [Demand]
        ensures { result.now ≡ matching.pattern_demands (rows.load_row self).pattern }
    {
        match self {
            LoadRow::Lb => &[Is(6, 0, 0x03), Is(14, 12, 0)],
            LoadRow::Lh => &[Is(6, 0, 0x03), Is(14, 12, 1)],
            LoadRow::Lw => &[Is(6, 0, 0x03), Is(14, 12, 2)],
            LoadRow::Lbu => &[Is(6, 0, 0x03), Is(14, 12, 4)],
            LoadRow::Lhu => &[Is(6, 0, 0x03), Is(14, 12, 5)],
        }
    }
}

impl StoreRow {
    fn demands(self) -> &'static [Demand]
        ensures { result.now ≡ matching.pattern_demands (rows.store_row self).pattern }
    {
        match self {
            StoreRow::Sb => &[Is(6, 0, 0x23), Is(14, 12, 0)],
            StoreRow::Sh => &[Is(6, 0, 0x23), Is(14, 12, 1)],
            StoreRow::Sw => &[Is(6, 0, 0x23), Is(14, 12, 2)],
        }
    }
}

impl ImmediateRow {
    fn demands(self) -> &'static [Demand]
        ensures { result.now ≡ matching.pattern_demands (rows.immediate_row self).pattern }
    {
        match self {
            ImmediateRow::Addi => &[Is(6, 0, 0x13), Is(14, 12, 0)],
            ImmediateRow::Slti => &[Is(6, 0, 0x13), Is(14, 12, 2)],
            ImmediateRow::Sltiu => &[Is(6, 0, 0x13), Is(14, 12, 3)],
            ImmediateRow::Xori => &[Is(6, 0, 0x13), Is(14, 12, 4)],
            ImmediateRow::Ori => &[Is(6, 0, 0x13), Is(14, 12, 6)],
            ImmediateRow::Andi => &[Is(6, 0, 0x13), Is(14, 12, 7)],
            ImmediateRow::Slli => &[Is(6, 0, 0x13), Is(14, 12, 1), Is(31, 25, 0x00)],
            ImmediateRow::Srli => &[Is(6, 0, 0x13), Is(14, 12, 5), Is(31, 25, 0x00)],
            ImmediateRow::Srai => &[Is(6, 0, 0x13), Is(14, 12, 5), Is(31, 25, 0x20)],
        }
    }
}

impl RegisterRow {
    fn demands(self) -> &'static [Demand]
        ensures { result.now ≡ matching.pattern_demands (rows.register_row self).pattern }
    {
        match self {
            RegisterRow::Add => &[Is(6, 0, 0x33), Is(14, 12, 0), Is(31, 25, 0x00)],
            RegisterRow::Sub => &[Is(6, 0, 0x33), Is(14, 12, 0), Is(31, 25, 0x20)],
            RegisterRow::Sll => &[Is(6, 0, 0x33), Is(14, 12, 1), Is(31, 25, 0x00)],
            RegisterRow::Slt => &[Is(6, 0, 0x33), Is(14, 12, 2), Is(31, 25, 0x00)],
            RegisterRow::Sltu => &[Is(6, 0, 0x33), Is(14, 12, 3), Is(31, 25, 0x00)],
            RegisterRow::Xor => &[Is(6, 0, 0x33), Is(14, 12, 4), Is(31, 25, 0x00)],
            RegisterRow::Srl => &[Is(6, 0, 0x33), Is(14, 12, 5), Is(31, 25, 0x00)],
            RegisterRow::Sra => &[Is(6, 0, 0x33), Is(14, 12, 5), Is(31, 25, 0x20)],
            RegisterRow::Or => &[Is(6, 0, 0x33), Is(14, 12, 6), Is(31, 25, 0x00)],
            RegisterRow::And => &[Is(6, 0, 0x33), Is(14, 12, 7), Is(31, 25, 0x00)],
        }
    }
}

impl MultiplyRow {
    fn demands(self) -> &'static [Demand]
        ensures { result.now ≡ matching.pattern_demands (rows.multiply_row self).pattern }
    {
        match self {
            MultiplyRow::Mul => &[Is(6, 0, 0x33), Is(14, 12, 0), Is(31, 25, 0x01)],
            MultiplyRow::Mulh => &[Is(6, 0, 0x33), Is(14, 12, 1), Is(31, 25, 0x01)],
            MultiplyRow::Mulhsu => &[Is(6, 0, 0x33), Is(14, 12, 2), Is(31, 25, 0x01)],
            MultiplyRow::Mulhu => &[Is(6, 0, 0x33), Is(14, 12, 3), Is(31, 25, 0x01)],
            MultiplyRow::Div => &[Is(6, 0, 0x33), Is(14, 12, 4), Is(31, 25, 0x01)],
            MultiplyRow::Divu => &[Is(6, 0, 0x33), Is(14, 12, 5), Is(31, 25, 0x01)],
            MultiplyRow::Rem => &[Is(6, 0, 0x33), Is(14, 12, 6), Is(31, 25, 0x01)],
            MultiplyRow::Remu => &[Is(6, 0, 0x33), Is(14, 12, 7), Is(31, 25, 0x01)],
        }
    }
}

impl BaseRow {
    fn demands(self) -> &'static [Demand]
        ensures { result.now ≡ matching.pattern_demands (rows.base_row self).pattern }
    {
        match self {
            BaseRow::Lui => &[Is(6, 0, 0x37)],
            BaseRow::Auipc => &[Is(6, 0, 0x17)],
            BaseRow::Jal => &[Is(6, 0, 0x6f)],
            BaseRow::Jalr => &[Is(6, 0, 0x67), Is(14, 12, 0)],
            BaseRow::Branch(row) => row.demands(),
            BaseRow::Load(row) => row.demands(),
            BaseRow::Store(row) => row.demands(),
            BaseRow::Immediate(row) => row.demands(),
            BaseRow::Register(row) => row.demands(),
            BaseRow::Multiply(row) => row.demands(),
        }
    }
}

impl CompressedRow {
    /// 16 zeros above a half word with the row's bits 1:0 and 15:13, and what else it asks.
    fn demands(self) -> &'static [Demand]
        ensures { result.now ≡ matching.half_demands (compressed.compressed_row self) }
    {
        match self {
            CompressedRow::CAddi4spn => &[
                Is(31, 16, 0),
                Is(1, 0, 0),
                Is(15, 13, 0),
                Isnt(12, 5, 0),
            ],
            CompressedRow::CLw => &[Is(31, 16, 0), Is(1, 0, 0), Is(15, 13, 2)],
            CompressedRow::CSw => &[Is(31, 16, 0), Is(1, 0, 0), Is(15, 13, 6)],
            CompressedRow::CAddi => &[Is(31, 16, 0), Is(1, 0, 1), Is(15, 13, 0)],
            CompressedRow::CJal => &[Is(31, 16, 0), Is(1, 0, 1), Is(15, 13, 1)],
            CompressedRow::CLi => &[Is(31, 16, 0), Is(1, 0, 1), Is(15, 13, 2)],
            CompressedRow::CAddi16sp => &[
                Is(31, 16, 0),
                Is(1, 0, 1),
                Is(15, 13, 3),
                Is(11, 7, 2),
                SomeOfSix,
            ],
            CompressedRow::CLui => &[
                Is(31, 16, 0),
                Is(1, 0, 1),
                Is(15, 13, 3),
                Isnt(11, 7, 2),
                SomeOfSix,
            ],
            CompressedRow::CSrli => &[
                Is(31, 16, 0),
                Is(1, 0, 1),
                Is(15, 13, 4),
                Is(11, 10, 0),
                Is(12, 12, 0),
            ],
            CompressedRow::CSrai => &[
                Is(31, 16, 0),
                Is(1, 0, 1),
                Is(15, 13, 4),
                Is(11, 10, 1),
                Is(12, 12, 0),
            ],
            CompressedRow::CAndi => &[Is(31, 16, 0), Is(1, 0, 1), Is(15, 13, 4), Is(11, 10, 2)],
            CompressedRow::CSub => &[
                Is(31, 16, 0),
                Is(1, 0, 1),
                Is(15, 13, 4),
                Is(11, 10, 3),
                Is(12, 12, 0),
                Is(6, 5, 0),
            ],
            CompressedRow::CXor => &[
                Is(31, 16, 0),
                Is(1, 0, 1),
                Is(15, 13, 4),
                Is(11, 10, 3),
                Is(12, 12, 0),
                Is(6, 5, 1),
            ],
            CompressedRow::COr => &[
                Is(31, 16, 0),
                Is(1, 0, 1),
                Is(15, 13, 4),
                Is(11, 10, 3),
                Is(12, 12, 0),
                Is(6, 5, 2),
            ],
            CompressedRow::CAnd => &[
                Is(31, 16, 0),
                Is(1, 0, 1),
                Is(15, 13, 4),
                Is(11, 10, 3),
                Is(12, 12, 0),
                Is(6, 5, 3),
            ],
            CompressedRow::CJ => &[Is(31, 16, 0), Is(1, 0, 1), Is(15, 13, 5)],
            CompressedRow::CBeqz => &[Is(31, 16, 0), Is(1, 0, 1), Is(15, 13, 6)],
            CompressedRow::CBnez => &[Is(31, 16, 0), Is(1, 0, 1), Is(15, 13, 7)],
            CompressedRow::CSlli => &[Is(31, 16, 0), Is(1, 0, 2), Is(15, 13, 0), Is(12, 12, 0)],
            CompressedRow::CLwsp => &[Is(31, 16, 0), Is(1, 0, 2), Is(15, 13, 2), Isnt(11, 7, 0)],
            CompressedRow::CJr => &[
                Is(31, 16, 0),
                Is(1, 0, 2),
                Is(15, 13, 4),
                Is(12, 12, 0),
                Is(6, 2, 0),
                Isnt(11, 7, 0),
            ],
            CompressedRow::CMv => &[
                Is(31, 16, 0),
                Is(1, 0, 2),
                Is(15, 13, 4),
                Is(12, 12, 0),
                Isnt(6, 2, 0),
            ],
            CompressedRow::CJalr => &[
                Is(31, 16, 0),
                Is(1, 0, 2),
                Is(15, 13, 4),
                Is(12, 12, 1),
                Is(6, 2, 0),
                Isnt(11, 7, 0),
            ],
            CompressedRow::CAdd => &[
                Is(31, 16, 0),
                Is(1, 0, 2),
                Is(15, 13, 4),
                Is(12, 12, 1),
                Isnt(6, 2, 0),
            ],
            CompressedRow::CSwsp => &[Is(31, 16, 0), Is(1, 0, 2), Is(15, 13, 6)],
        }
    }
}
