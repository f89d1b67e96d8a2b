ghost use Rattle.std.specs.Prelude.{◌≡◌, true, ◌<◌, ◌≤◌, ◌*◌, ◌^◌};
ghost use Rattle.rv_table.specs.Assembled.{is_lawful};
ghost use Rattle.rv_table.specs.Rows.{base_row};
ghost use Rattle.rv_table.specs.Matching.{matches};
ghost use Rattle.rv_table.specs.Effect as effect;

use crate::arithmetic::{
    is_less_signed, product, quotient, quotient_signed, remainder, remainder_signed, shifted_left,
    shifted_right, shifted_right_signed, truth, upper_product, upper_product_mixed,
    upper_product_signed,
};
use crate::assemble::assembled;
use crate::field::{i_immediate, j_immediate, sign_extended, u_immediate};
use crate::pattern::Pattern;
use crate::retire::{Effect, Opts, Retire};
use crate::row::{
    BaseRow, BranchRow, CompressedRow, ImmediateRow, LoadRow, MultiplyRow, RegisterRow, RowId,
    StoreRow,
};
use crate::step::Step;

/// What the instruction of the row does at this retirement's program counter, source values and memory word. A
/// compressed row does what its expansion does, and is 2 bytes long.
#[tactic(auto, unfolding(crate::specs::Effect::effect))]
pub fn effect_of(row: RowId, retire: &Retire, opts: Opts) -> Effect
    requires { matches row retire.now.insn ≡ true }
    ensures { result ≡ effect.effect row retire.now opts }
{
    match row {
        RowId::Base(base) => base.word_effect(retire.insn, 4, retire, opts),
        RowId::Compressed(row) => {
            row.base()
                .word_effect(row.expansion(retire.insn), 2, retire, opts)
        }
    }
}

impl CompressedRow {
    /// The word that a half word of the row stands for.
    #[tactic(auto, unfolding(crate::specs::Effect::expansion))]
    pub(crate) fn expansion(self, half: u32) -> u32
        ensures { result ≡ effect.expansion self half }
    {
        assembled(lawful_pattern(self.base()), self.operands(half))
    }
}

#[tactic(auto, using(crate::proofs::Lawful::lawful))]
fn lawful_pattern(row: BaseRow) -> Pattern
    ensures value { result ≡ (base_row row).pattern }
    ensures lawful { is_lawful result ≡ true }
{
    row.pattern()
}

impl BaseRow {
    fn word_effect(self, word: u32, length: u32, retire: &Retire, opts: Opts) -> Effect
        ensures { result ≡ effect.word_effect self word length retire.now opts }
    {
        self.effect(&Step::new(self.pattern().form, word, length, retire, opts))
    }

    #[tactic(auto, unfolding(crate::specs::Effect::base_effect))]
    fn effect(self, step: &Step) -> Effect
        ensures { result ≡ effect.base_effect self step.now }
    {
        match self {
            BaseRow::Lui => step.gives(u_immediate(step.word)),
            BaseRow::Auipc => step.gives(step.pc.wrapping_add(u_immediate(step.word))),
            BaseRow::Jal => step.jumps(step.pc.wrapping_add(j_immediate(step.word))),
            BaseRow::Jalr => {
                let target = step.s1.wrapping_add(i_immediate(step.word));
                step.jumps(target - target % 2)
            }
            BaseRow::Branch(row) => step.branches(row.is_taken(step.s1, step.s2)),
            BaseRow::Load(row) => step.loads(row.size(), row.extended(step.loaded(row.size()))),
            BaseRow::Store(row) => step.stores(row.size()),
            BaseRow::Immediate(row) => step.gives(row.result(step.s1, i_immediate(step.word))),
            BaseRow::Register(row) => step.gives(row.result(step.s1, step.s2)),
            BaseRow::Multiply(row) if step.opts.altops => {
                step.gives(row.alternative_result(step.s1, step.s2))
            }
            BaseRow::Multiply(row) => step.gives(row.result(step.s1, step.s2)),
        }
    }
}

impl BranchRow {
    fn is_taken(self, a: u32, b: u32) -> bool
        ensures { result ≡ effect.is_taken self a b }
    {
        match self {
            BranchRow::Beq => a == b,
            BranchRow::Bne => a != b,
            BranchRow::Blt => is_less_signed(a, b),
            BranchRow::Bge => !is_less_signed(a, b),
            BranchRow::Bltu => a < b,
            BranchRow::Bgeu => a >= b,
        }
    }
}

impl LoadRow {
    /// In bytes.
    fn size(self) -> u32
        ensures value { result ≡ effect.load_size self }
        ensures some { 0 < result }
        ensures most { result ≤ 4 }
    {
        match self {
            LoadRow::Lb | LoadRow::Lbu => 1,
            LoadRow::Lh | LoadRow::Lhu => 2,
            LoadRow::Lw => 4,
        }
    }

    /// What a register gets of the bytes.
    fn extended(self, bytes: u32) -> u32
        requires { bytes < 2 ^ (8 * effect.load_size self) }
        ensures { result ≡ effect.extended self bytes }
    {
        match self {
            LoadRow::Lb => sign_extended(8, bytes),
            LoadRow::Lh => sign_extended(16, bytes),
            LoadRow::Lw | LoadRow::Lbu | LoadRow::Lhu => bytes,
        }
    }
}

impl StoreRow {
    /// In bytes.
    fn size(self) -> u32
        ensures value { result ≡ effect.store_size self }
        ensures some { 0 < result }
        ensures most { result ≤ 4 }
    {
        match self {
            StoreRow::Sb => 1,
            StoreRow::Sh => 2,
            StoreRow::Sw => 4,
        }
    }
}

impl ImmediateRow {
    fn result(self, a: u32, b: u32) -> u32
        ensures { result ≡ effect.immediate_result self a b }
    {
        match self {
            ImmediateRow::Addi => a.wrapping_add(b),
            ImmediateRow::Slti => truth(is_less_signed(a, b)),
            ImmediateRow::Sltiu => truth(a < b),
            ImmediateRow::Xori => a ^ b,
            ImmediateRow::Ori => a | b,
            ImmediateRow::Andi => a & b,
            ImmediateRow::Slli => shifted_left(a, b),
            ImmediateRow::Srli => shifted_right(a, b),
            ImmediateRow::Srai => shifted_right_signed(a, b),
        }
    }
}

impl RegisterRow {
    fn result(self, a: u32, b: u32) -> u32
        ensures { result ≡ effect.register_result self a b }
    {
        match self {
            RegisterRow::Add => a.wrapping_add(b),
            RegisterRow::Sub => a.wrapping_sub(b),
            RegisterRow::Sll => shifted_left(a, b),
            RegisterRow::Slt => truth(is_less_signed(a, b)),
            RegisterRow::Sltu => truth(a < b),
            RegisterRow::Xor => a ^ b,
            RegisterRow::Srl => shifted_right(a, b),
            RegisterRow::Sra => shifted_right_signed(a, b),
            RegisterRow::Or => a | b,
            RegisterRow::And => a & b,
        }
    }
}

impl MultiplyRow {
    fn result(self, a: u32, b: u32) -> u32
        ensures { result ≡ effect.multiply_result self a b }
    {
        match self {
            MultiplyRow::Mul => product(a, b),
            MultiplyRow::Mulh => upper_product_signed(a, b),
            MultiplyRow::Mulhsu => upper_product_mixed(a, b),
            MultiplyRow::Mulhu => upper_product(a, b),
            MultiplyRow::Div => quotient_signed(a, b),
            MultiplyRow::Divu => quotient(a, b),
            MultiplyRow::Rem => remainder_signed(a, b),
            MultiplyRow::Remu => remainder(a, b),
        }
    }

    /// The results of this project's table that stands for those of M.
    fn alternative_result(self, a: u32, b: u32) -> u32
        ensures { result ≡ effect.alternative_result self a b }
    {
        match self {
            MultiplyRow::Mul => a.wrapping_add(b) ^ 0x5876063e,
            MultiplyRow::Mulh => a.wrapping_add(b) ^ 0xf6583fb7,
            MultiplyRow::Mulhsu => a.wrapping_sub(b) ^ 0xecfbe137,
            MultiplyRow::Mulhu => a.wrapping_add(b) ^ 0x949ce5e8,
            MultiplyRow::Div => a.wrapping_sub(b) ^ 0x7f8529ec,
            MultiplyRow::Divu => a.wrapping_sub(b) ^ 0x10e8fd70,
            MultiplyRow::Rem => a.wrapping_sub(b) ^ 0x8da68fa5,
            MultiplyRow::Remu => a.wrapping_sub(b) ^ 0x3138d0e1,
        }
    }
}
