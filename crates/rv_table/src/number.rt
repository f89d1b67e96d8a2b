ghost use Rattle.std.specs.Prelude.{◌≡◌, ◌<◌, ◌↔◌, slice_get, IsNone, Some};
ghost use Rattle.rv_table.specs.Matching as matching;

use crate::row::{
    BaseRow, BranchRow, CompressedRow, ImmediateRow, LoadRow, MultiplyRow, RegisterRow, RowId,
    StoreRow,
};

impl RowId {
    const ALL: [RowId; 70] = [
        RowId::Base(BaseRow::Lui),
        RowId::Base(BaseRow::Auipc),
        RowId::Base(BaseRow::Jal),
        RowId::Base(BaseRow::Jalr),
        RowId::Base(BaseRow::Branch(BranchRow::Beq)),
        RowId::Base(BaseRow::Branch(BranchRow::Bne)),
        RowId::Base(BaseRow::Branch(BranchRow::Blt)),
        RowId::Base(BaseRow::Branch(BranchRow::Bge)),
        RowId::Base(BaseRow::Branch(BranchRow::Bltu)),
        RowId::Base(BaseRow::Branch(BranchRow::Bgeu)),
        RowId::Base(BaseRow::Load(LoadRow::Lb)),
        RowId::Base(BaseRow::Load(LoadRow::Lh)),
        RowId::Base(BaseRow::Load(LoadRow::Lw)),
        RowId::Base(BaseRow::Load(LoadRow::Lbu)),
        RowId::Base(BaseRow::Load(LoadRow::Lhu)),
        RowId::Base(BaseRow::Store(StoreRow::Sb)),
        RowId::Base(BaseRow::Store(StoreRow::Sh)),
        RowId::Base(BaseRow::Store(StoreRow::Sw)),
        RowId::Base(BaseRow::Immediate(ImmediateRow::Addi)),
        RowId::Base(BaseRow::Immediate(ImmediateRow::Slti)),
        RowId::Base(BaseRow::Immediate(ImmediateRow::Sltiu)),
        RowId::Base(BaseRow::Immediate(ImmediateRow::Xori)),
        RowId::Base(BaseRow::Immediate(ImmediateRow::Ori)),
        RowId::Base(BaseRow::Immediate(ImmediateRow::Andi)),
        RowId::Base(BaseRow::Immediate(ImmediateRow::Slli)),
        RowId::Base(BaseRow::Immediate(ImmediateRow::Srli)),
        RowId::Base(BaseRow::Immediate(ImmediateRow::Srai)),
        RowId::Base(BaseRow::Register(RegisterRow::Add)),
        RowId::Base(BaseRow::Register(RegisterRow::Sub)),
        RowId::Base(BaseRow::Register(RegisterRow::Sll)),
        RowId::Base(BaseRow::Register(RegisterRow::Slt)),
        RowId::Base(BaseRow::Register(RegisterRow::Sltu)),
        RowId::Base(BaseRow::Register(RegisterRow::Xor)),
        RowId::Base(BaseRow::Register(RegisterRow::Srl)),
        RowId::Base(BaseRow::Register(RegisterRow::Sra)),
        RowId::Base(BaseRow::Register(RegisterRow::Or)),
        RowId::Base(BaseRow::Register(RegisterRow::And)),
        RowId::Base(BaseRow::Multiply(MultiplyRow::Mul)),
        RowId::Base(BaseRow::Multiply(MultiplyRow::Mulh)),
        RowId::Base(BaseRow::Multiply(MultiplyRow::Mulhsu)),
        RowId::Base(BaseRow::Multiply(MultiplyRow::Mulhu)),
        RowId::Base(BaseRow::Multiply(MultiplyRow::Div)),
        RowId::Base(BaseRow::Multiply(MultiplyRow::Divu)),
        RowId::Base(BaseRow::Multiply(MultiplyRow::Rem)),
        RowId::Base(BaseRow::Multiply(MultiplyRow::Remu)),
        RowId::Compressed(CompressedRow::CAddi4spn),
        RowId::Compressed(CompressedRow::CLw),
        RowId::Compressed(CompressedRow::CSw),
        RowId::Compressed(CompressedRow::CAddi),
        RowId::Compressed(CompressedRow::CJal),
        RowId::Compressed(CompressedRow::CLi),
        RowId::Compressed(CompressedRow::CAddi16sp),
        RowId::Compressed(CompressedRow::CLui),
        RowId::Compressed(CompressedRow::CSrli),
        RowId::Compressed(CompressedRow::CSrai),
        RowId::Compressed(CompressedRow::CAndi),
        RowId::Compressed(CompressedRow::CSub),
        RowId::Compressed(CompressedRow::CXor),
        RowId::Compressed(CompressedRow::COr),
        RowId::Compressed(CompressedRow::CAnd),
        RowId::Compressed(CompressedRow::CJ),
        RowId::Compressed(CompressedRow::CBeqz),
        RowId::Compressed(CompressedRow::CBnez),
        RowId::Compressed(CompressedRow::CSlli),
        RowId::Compressed(CompressedRow::CLwsp),
        RowId::Compressed(CompressedRow::CJr),
        RowId::Compressed(CompressedRow::CMv),
        RowId::Compressed(CompressedRow::CJalr),
        RowId::Compressed(CompressedRow::CAdd),
        RowId::Compressed(CompressedRow::CSwsp),
    ];

    /// The rows in order: 37 of RV32I, 8 of M, 25 of C.
    pub fn all() -> &'static [RowId]
        ensures { result.now ≡ matching.rows }
    {
        &RowId::ALL
    }

    /// The row of a number, in the order of `all`. None exactly where the number is above 69.
    #[tactic(auto, using(crate::proofs::Places::none_above))]
    pub fn new(number: u32) -> Option<RowId>
        ensures row { result ≡ slice_get matching.rows number }
        ensures none { IsNone result ↔ (69 < number) }
    {
        row_at(RowId::all(), number as usize)
    }

    /// The row's place in the order of `all`, from 0 to 69.
    #[tactic(auto, using(crate::proofs::Places::row_at))]
    pub fn number(self) -> u32
        ensures value { result ≡ matching.number self }
        ensures place { slice_get matching.rows result ≡ Some self }
    {
        match self {
            RowId::Base(base) => base.number(),
            RowId::Compressed(compressed) => compressed.number(),
        }
    }
}

fn row_at(rows: &[RowId], index: usize) -> Option<RowId>
    ensures { result ≡ slice_get rows.now index }
{
    rows.get(index).copied()
}

impl CompressedRow {
    fn number(self) -> u32
        ensures { result ≡ matching.compressed_number self }
    {
        45 + self as u32
    }
}

impl BaseRow {
    fn number(self) -> u32
        ensures { result ≡ matching.base_number self }
    {
        match self {
            BaseRow::Lui => 0,
            BaseRow::Auipc => 1,
            BaseRow::Jal => 2,
            BaseRow::Jalr => 3,
            BaseRow::Branch(row) => 4 + row as u32,
            BaseRow::Load(row) => 10 + row as u32,
            BaseRow::Store(row) => 15 + row as u32,
            BaseRow::Immediate(row) => 18 + row as u32,
            BaseRow::Register(row) => 27 + row as u32,
            BaseRow::Multiply(row) => 37 + row as u32,
        }
    }
}
