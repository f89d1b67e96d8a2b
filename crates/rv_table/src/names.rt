ghost use Rattle.std.specs.Prelude.{◌≡◌};
ghost use Rattle.rv_table.specs.Rows as rows;
ghost use Rattle.rv_table.specs.Compressed.{compressed_row};
ghost use Rattle.rv_table.specs.Matching as matching;

use crate::row::{
    BaseRow, BranchRow, CompressedRow, ImmediateRow, LoadRow, MultiplyRow, RegisterRow, RowId,
    StoreRow,
};

/// The row's name as the assembler writes it, in small letters; of a compressed row with `_` for the dot.
pub fn row_name(row: RowId) -> &'static str
    ensures { result.now ≡ matching.name row }
{
    match row {
        RowId::Base(base) => base.name(),
        RowId::Compressed(compressed) => compressed.name(),
    }
}

impl BaseRow {
    fn name(self) -> &'static str
        ensures { result.now ≡ (rows.base_row self).name }
    {
        match self {
            BaseRow::Lui => "lui",
            BaseRow::Auipc => "auipc",
            BaseRow::Jal => "jal",
            BaseRow::Jalr => "jalr",
            BaseRow::Branch(row) => row.name(),
            BaseRow::Load(row) => row.name(),
            BaseRow::Store(row) => row.name(),
            BaseRow::Immediate(row) => row.name(),
            BaseRow::Register(row) => row.name(),
            BaseRow::Multiply(row) => row.name(),
        }
    }
}

impl BranchRow {
    fn name(self) -> &'static str
        ensures { result.now ≡ (rows.branch_row self).name }
    {
        match self {
            BranchRow::Beq => "beq",
            BranchRow::Bne => "bne",
            BranchRow::Blt => "blt",
            BranchRow::Bge => "bge",
            BranchRow::Bltu => "bltu",
            BranchRow::Bgeu => "bgeu",
        }
    }
}

impl LoadRow {
    fn name(self) -> &'static str
        ensures { result.now ≡ (rows.load_row self).name }
    {
        match self {
            LoadRow::Lb => "lb",
            LoadRow::Lh => "lh",
            LoadRow::Lw => "lw",
            LoadRow::Lbu => "lbu",
            LoadRow::Lhu => "lhu",
        }
    }
}

impl StoreRow {
    fn name(self) -> &'static str
        ensures { result.now ≡ (rows.store_row self).name }
    {
        match self {
            StoreRow::Sb => "sb",
            StoreRow::Sh => "sh",
            StoreRow::Sw => "sw",
        }
    }
}

impl ImmediateRow {
    fn name(self) -> &'static str
        ensures { result.now ≡ (rows.immediate_row self).name }
    {
        match self {
            ImmediateRow::Addi => "addi",
            ImmediateRow::Slti => "slti",
            ImmediateRow::Sltiu => "sltiu",
            ImmediateRow::Xori => "xori",
            ImmediateRow::Ori => "ori",
            ImmediateRow::Andi => "andi",
            ImmediateRow::Slli => "slli",
            ImmediateRow::Srli => "srli",
            ImmediateRow::Srai => "srai",
        }
    }
}

impl RegisterRow {
    fn name(self) -> &'static str
        ensures { result.now ≡ (rows.register_row self).name }
    {
        match self {
            RegisterRow::Add => "add",
            RegisterRow::Sub => "sub",
            RegisterRow::Sll => "sll",
            RegisterRow::Slt => "slt",
            RegisterRow::Sltu => "sltu",
            RegisterRow::Xor => "xor",
            RegisterRow::Srl => "srl",
            RegisterRow::Sra => "sra",
            RegisterRow::Or => "or",
            RegisterRow::And => "and",
        }
    }
}

impl MultiplyRow {
    fn name(self) -> &'static str
        ensures { result.now ≡ (rows.multiply_row self).name }
    {
        match self {
            MultiplyRow::Mul => "mul",
            MultiplyRow::Mulh => "mulh",
            MultiplyRow::Mulhsu => "mulhsu",
            MultiplyRow::Mulhu => "mulhu",
            MultiplyRow::Div => "div",
            MultiplyRow::Divu => "divu",
            MultiplyRow::Rem => "rem",
            MultiplyRow::Remu => "remu",
        }
    }
}

impl CompressedRow {
    fn name(self) -> &'static str
        ensures { result.now ≡ (compressed_row self).name }
    {
        match self {
            CompressedRow::CAddi4spn => "c_addi4spn",
            CompressedRow::CLw => "c_lw",
            CompressedRow::CSw => "c_sw",
            CompressedRow::CAddi => "c_addi",
            CompressedRow::CJal => "c_jal",
            CompressedRow::CLi => "c_li",
            CompressedRow::CAddi16sp => "c_addi16sp",
            CompressedRow::CLui => "c_lui",
            CompressedRow::CSrli => "c_srli",
            CompressedRow::CSrai => "c_srai",
            CompressedRow::CAndi => "c_andi",
            CompressedRow::CSub => "c_sub",
            CompressedRow::CXor => "c_xor",
            CompressedRow::COr => "c_or",
            CompressedRow::CAnd => "c_and",
            CompressedRow::CJ => "c_j",
            CompressedRow::CBeqz => "c_beqz",
            CompressedRow::CBnez => "c_bnez",
            CompressedRow::CSlli => "c_slli",
            CompressedRow::CLwsp => "c_lwsp",
            CompressedRow::CJr => "c_jr",
            CompressedRow::CMv => "c_mv",
            CompressedRow::CJalr => "c_jalr",
            CompressedRow::CAdd => "c_add",
            CompressedRow::CSwsp => "c_swsp",
        }
    }
}
