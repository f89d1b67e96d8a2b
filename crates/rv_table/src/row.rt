/// A conditional branch (RISC-V unprivileged manual, section 2.5).
#[derive(Debug, Clone, Copy, PartialEq, Eq)]
pub enum BranchRow {
    Beq,
    Bne,
    Blt,
    Bge,
    Bltu,
    Bgeu,
}

/// A load (section 2.6).
#[derive(Debug, Clone, Copy, PartialEq, Eq)]
pub enum LoadRow {
    Lb,
    Lh,
    Lw,
    Lbu,
    Lhu,
}

/// A store (section 2.6).
#[derive(Debug, Clone, Copy, PartialEq, Eq)]
pub enum StoreRow {
    Sb,
    Sh,
    Sw,
}

/// A computation on a register and an immediate (section 2.4).
#[derive(Debug, Clone, Copy, PartialEq, Eq)]
pub enum ImmediateRow {
    Addi,
    Slti,
    Sltiu,
    Xori,
    Ori,
    Andi,
    Slli,
    Srli,
    Srai,
}

/// A computation on two registers (section 2.4).
#[derive(Debug, Clone, Copy, PartialEq, Eq)]
pub enum RegisterRow {
    Add,
    Sub,
    Sll,
    Slt,
    Sltu,
    Xor,
    Srl,
    Sra,
    Or,
    And,
}

/// A multiplication or division (chapter 7, extension M).
#[derive(Debug, Clone, Copy, PartialEq, Eq)]
pub enum MultiplyRow {
    Mul,
    Mulh,
    Mulhsu,
    Mulhu,
    Div,
    Divu,
    Rem,
    Remu,
}

/// A row of a whole word: RV32I (chapter 2), or M (chapter 7).
#[derive(Debug, Clone, Copy, PartialEq, Eq)]
pub enum BaseRow {
    Lui,
    Auipc,
    Jal,
    Jalr,
    Branch(BranchRow),
    Load(LoadRow),
    Store(StoreRow),
    Immediate(ImmediateRow),
    Register(RegisterRow),
    Multiply(MultiplyRow),
}

/// A row of a half word (chapter 16, extension C).
#[derive(Debug, Clone, Copy, PartialEq, Eq)]
pub enum CompressedRow {
    CAddi4spn,
    CLw,
    CSw,
    CAddi,
    CJal,
    CLi,
    CAddi16sp,
    CLui,
    CSrli,
    CSrai,
    CAndi,
    CSub,
    CXor,
    COr,
    CAnd,
    CJ,
    CBeqz,
    CBnez,
    CSlli,
    CLwsp,
    CJr,
    CMv,
    CJalr,
    CAdd,
    CSwsp,
}

/// A row of the tables.
#[derive(Debug, Clone, Copy, PartialEq, Eq)]
pub enum RowId {
    Base(BaseRow),
    Compressed(CompressedRow),
}
