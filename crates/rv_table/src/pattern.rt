ghost use Rattle.std.specs.Prelude.{◌≡◌, Some, None};
ghost use Rattle.rv_table.specs.Rows as rows;

use crate::row::{BaseRow, BranchRow, ImmediateRow, LoadRow, MultiplyRow, RegisterRow, StoreRow};

/// How a word is laid out (RISC-V unprivileged manual, section 2.2).
#[derive(Debug, Clone, Copy, PartialEq, Eq)]
pub enum Form {
    R,
    I,
    S,
    B,
    U,
    J,
}

/// What a word of a row holds: its opcode, and funct3 and funct7 where the row fixes them.
#[derive(Debug, Clone, Copy, PartialEq, Eq)]
pub struct Pattern {
    pub opcode: u32,
    pub funct3: Option<u32>,
    pub funct7: Option<u32>,
    pub form: Form,
}

impl Pattern {
    fn with_opcode(opcode: u32, form: Form) -> Pattern
        ensures { result ≡ record { opcode = opcode; funct3 = None; funct7 = None; form = form } }
    {
        Pattern {
            opcode,
            funct3: None,
            funct7: None,
            form,
        }
    }

    fn with_funct3(opcode: u32, form: Form, funct3: u32) -> Pattern
        ensures { result ≡ record { opcode = opcode; funct3 = Some funct3; funct7 = None; form = form } }
    {
        Pattern {
            opcode,
            funct3: Some(funct3),
            funct7: None,
            form,
        }
    }

    fn with_funct7(opcode: u32, form: Form, funct3: u32, funct7: u32) -> Pattern
        ensures { result ≡ record { opcode = opcode; funct3 = Some funct3; funct7 = Some funct7; form = form } }
    {
        Pattern {
            opcode,
            funct3: Some(funct3),
            funct7: Some(funct7),
            form,
        }
    }
}

impl BranchRow {
    fn pattern(self) -> Pattern
        ensures { result ≡ (rows.branch_row self).pattern }
    {
        match self {
            BranchRow::Beq => Pattern::with_funct3(0x63, Form::B, 0),
            BranchRow::Bne => Pattern::with_funct3(0x63, Form::B, 1),
            BranchRow::Blt => Pattern::with_funct3(0x63, Form::B, 4),
            BranchRow::Bge => Pattern::with_funct3(0x63, Form::B, 5),
            BranchRow::Bltu => Pattern::with_funct3(0x63, Form::B, 6),
            BranchRow::Bgeu => Pattern::with_funct3(0x63, Form::B, 7),
        }
    }
}

impl LoadRow {
    fn pattern(self) -> Pattern
        ensures { result ≡ (rows.load_row self).pattern }
    {
        match self {
            LoadRow::Lb => Pattern::with_funct3(0x03, Form::I, 0),
            LoadRow::Lh => Pattern::with_funct3(0x03, Form::I, 1),
            LoadRow::Lw => Pattern::with_funct3(0x03, Form::I, 2),
            LoadRow::Lbu => Pattern::with_funct3(0x03, Form::I, 4),
            LoadRow::Lhu => Pattern::with_funct3(0x03, Form::I, 5),
        }
    }
}

impl StoreRow {
    fn pattern(self) -> Pattern
        ensures { result ≡ (rows.store_row self).pattern }
    {
        match self {
            StoreRow::Sb => Pattern::with_funct3(0x23, Form::S, 0),
            StoreRow::Sh => Pattern::with_funct3(0x23, Form::S, 1),
            StoreRow::Sw => Pattern::with_funct3(0x23, Form::S, 2),
        }
    }
}

impl ImmediateRow {
    fn pattern(self) -> Pattern
        ensures { result ≡ (rows.immediate_row self).pattern }
    {
        match self {
            ImmediateRow::Addi => Pattern::with_funct3(0x13, Form::I, 0),
            ImmediateRow::Slti => Pattern::with_funct3(0x13, Form::I, 2),
            ImmediateRow::Sltiu => Pattern::with_funct3(0x13, Form::I, 3),
            ImmediateRow::Xori => Pattern::with_funct3(0x13, Form::I, 4),
            ImmediateRow::Ori => Pattern::with_funct3(0x13, Form::I, 6),
            ImmediateRow::Andi => Pattern::with_funct3(0x13, Form::I, 7),
            ImmediateRow::Slli => Pattern::with_funct7(0x13, Form::I, 1, 0x00),
            ImmediateRow::Srli => Pattern::with_funct7(0x13, Form::I, 5, 0x00),
            ImmediateRow::Srai => Pattern::with_funct7(0x13, Form::I, 5, 0x20),
        }
    }
}

impl RegisterRow {
    fn pattern(self) -> Pattern
        ensures { result ≡ (rows.register_row self).pattern }
    {
        match self {
            RegisterRow::Add => Pattern::with_funct7(0x33, Form::R, 0, 0x00),
            RegisterRow::Sub => Pattern::with_funct7(0x33, Form::R, 0, 0x20),
            RegisterRow::Sll => Pattern::with_funct7(0x33, Form::R, 1, 0x00),
            RegisterRow::Slt => Pattern::with_funct7(0x33, Form::R, 2, 0x00),
            RegisterRow::Sltu => Pattern::with_funct7(0x33, Form::R, 3, 0x00),
            RegisterRow::Xor => Pattern::with_funct7(0x33, Form::R, 4, 0x00),
            RegisterRow::Srl => Pattern::with_funct7(0x33, Form::R, 5, 0x00),
            RegisterRow::Sra => Pattern::with_funct7(0x33, Form::R, 5, 0x20),
            RegisterRow::Or => Pattern::with_funct7(0x33, Form::R, 6, 0x00),
            RegisterRow::And => Pattern::with_funct7(0x33, Form::R, 7, 0x00),
        }
    }
}

impl MultiplyRow {
    fn pattern(self) -> Pattern
        ensures { result ≡ (rows.multiply_row self).pattern }
    {
        match self {
            MultiplyRow::Mul => Pattern::with_funct7(0x33, Form::R, 0, 0x01),
            MultiplyRow::Mulh => Pattern::with_funct7(0x33, Form::R, 1, 0x01),
            MultiplyRow::Mulhsu => Pattern::with_funct7(0x33, Form::R, 2, 0x01),
            MultiplyRow::Mulhu => Pattern::with_funct7(0x33, Form::R, 3, 0x01),
            MultiplyRow::Div => Pattern::with_funct7(0x33, Form::R, 4, 0x01),
            MultiplyRow::Divu => Pattern::with_funct7(0x33, Form::R, 5, 0x01),
            MultiplyRow::Rem => Pattern::with_funct7(0x33, Form::R, 6, 0x01),
            MultiplyRow::Remu => Pattern::with_funct7(0x33, Form::R, 7, 0x01),
        }
    }
}

impl BaseRow {
    /// What a word of the row holds.
    pub fn pattern(self) -> Pattern
        ensures { result ≡ (rows.base_row self).pattern }
    {
        match self {
            BaseRow::Lui => Pattern::with_opcode(0x37, Form::U),
            BaseRow::Auipc => Pattern::with_opcode(0x17, Form::U),
            BaseRow::Jal => Pattern::with_opcode(0x6f, Form::J),
            BaseRow::Jalr => Pattern::with_funct3(0x67, Form::I, 0),
            BaseRow::Branch(row) => row.pattern(),
            BaseRow::Load(row) => row.pattern(),
            BaseRow::Store(row) => row.pattern(),
            BaseRow::Immediate(row) => row.pattern(),
            BaseRow::Register(row) => row.pattern(),
            BaseRow::Multiply(row) => row.pattern(),
        }
    }
}
