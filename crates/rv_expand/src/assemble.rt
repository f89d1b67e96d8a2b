//! The word of a row with its registers and its immediate, as nodes.
#![tactic(auto, using(wn_net::proofs::Laws::additions, rv_table::proofs::AssembledLemmas::parts))]

ghost use Rattle.std.specs.Prelude.{◌≡◌, true, ◌+◌, ◌-◌, ◌<◌, ◌≤◌, ◌^◌, unwrap_or, IfOk};
ghost use Rattle.fv_bits.specs.Bits.{joined};
ghost use Rattle.rv_table.specs.Assembled as assembled;
ghost use Rattle.rv_table.specs.Fields.{field, moved};
ghost use Rattle.rv_table.specs.declared.pattern.Form.TheVariants.{R, I, S, B, U, J};
ghost use Rattle.wn_net.specs.Net.{IsNodeOf, value_at};
ghost use Rattle.wn_net.specs.Changes.{AddsNodes, Shows};
ghost use Rattle.rv_expand.specs.Operands.{AreOperands, operands_at};

use crate::operands::OperandNodes;
use crate::span::{Span, behind};
use fv_text::Memory;
use rv_table::{Form, Pattern, funct3_of, opcode_of};
use rv_words::{beside, constant, field, join};
use wn_net::{Net, NodeId};

/// The parts 31:25, 24:20 and 19:15 of a word.
fn upper_parts(net: &mut Net, high: NodeId, middle: NodeId, rs1: NodeId) -> Result<NodeId, Memory>
    requires high { IsNodeOf net.old 7 high }
    requires middle { IsNodeOf net.old 5 middle }
    requires rs1 { IsNodeOf net.old 5 rs1 }
    ensures adds { AddsNodes net.old net.new }
    ensures shows { IfOk result (Shows net.old net.new 17 (λ g. joined 5
        (joined 5 (value_at net.old g high) (value_at net.old g middle)) (value_at net.old g rs1))) }
{
    let front = join(net, high, 7, middle, 5)?;
    let parts = join(net, front, 12, rs1, 5)?;
    Ok(parts)
}

/// Two parts of which the first is a number.
fn after_number(net: &mut Net, width: u32, number: u32, low: NodeId) -> Result<NodeId, Memory>
    requires some { 1 ≤ width }
    requires few { width ≤ 32 }
    requires within { number < 2 ^ width }
    requires low { IsNodeOf net.old 5 low }
    ensures adds { AddsNodes net.old net.new }
    ensures shows { IfOk result (Shows net.old net.new (width + 5)
        (λ g. joined 5 number (value_at net.old g low))) }
{
    let number = constant(net, width, number)?;
    let parts = join(net, number, width, low, 5)?;
    Ok(parts)
}

/// The parts of a node of this width in front of an opcode.
fn before_opcode(net: &mut Net, front: NodeId, width: u32, opcode: u32) -> Result<NodeId, Memory>
    requires front { IsNodeOf net.old width front }
    requires few { width ≤ 25 }
    requires within { opcode < 2 ^ 7 }
    ensures adds { AddsNodes net.old net.new }
    ensures shows { IfOk result (Shows net.old net.new (width + 7)
        (λ g. joined 7 (value_at net.old g front) opcode)) }
{
    let opcode = constant(net, 7, opcode)?;
    let parts = join(net, front, width, opcode, 7)?;
    Ok(parts)
}

/// The parts 14:12, 11:7 and 6:0 of a word.
fn lower_parts(net: &mut Net, funct3: u32, low: NodeId, opcode: u32) -> Result<NodeId, Memory>
    requires funct3 { funct3 < 2 ^ 3 }
    requires low { IsNodeOf net.old 5 low }
    requires opcode { opcode < 2 ^ 7 }
    ensures adds { AddsNodes net.old net.new }
    ensures shows { IfOk result (Shows net.old net.new 15
        (λ g. joined 7 (joined 5 funct3 (value_at net.old g low)) opcode)) }
{
    let front = after_number(net, 3, funct3, low)?;
    let parts = before_opcode(net, front, 8, opcode)?;
    Ok(parts)
}

/// A word of the parts of the pattern and these.
fn of_parts(
    net: &mut Net,
    pattern: Pattern,
    low: NodeId,
    rs1: NodeId,
    middle: NodeId,
    high: NodeId,
) -> Result<NodeId, Memory>
    requires lawful { assembled.is_lawful pattern ≡ true }
    requires low { IsNodeOf net.old 5 low }
    requires rs1 { IsNodeOf net.old 5 rs1 }
    requires middle { IsNodeOf net.old 5 middle }
    requires high { IsNodeOf net.old 7 high }
    ensures adds { AddsNodes net.old net.new }
    ensures shows { IfOk result (Shows net.old net.new 32 (λ g. assembled.of_parts pattern.opcode
        (value_at net.old g low) (assembled.funct3_of pattern) (value_at net.old g rs1)
        (value_at net.old g middle) (value_at net.old g high))) }
{
    let upper = upper_parts(net, high, middle, rs1)?;
    let lower = lower_parts(net, funct3_of(pattern), low, opcode_of(pattern))?;
    let word = join(net, upper, 17, lower, 15)?;
    Ok(word)
}

/// A word of the pattern's opcode, a register and the bits above.
fn of_upper(net: &mut Net, pattern: Pattern, rd: NodeId, upper: NodeId) -> Result<NodeId, Memory>
    requires lawful { assembled.is_lawful pattern ≡ true }
    requires rd { IsNodeOf net.old 5 rd }
    requires upper { IsNodeOf net.old 20 upper }
    ensures adds { AddsNodes net.old net.new }
    ensures shows { IfOk result (Shows net.old net.new 32
        (λ g. assembled.of_upper pattern.opcode (value_at net.old g rd) (value_at net.old g upper))) }
{
    let front = join(net, upper, 20, rd, 5)?;
    let word = before_opcode(net, front, 25, opcode_of(pattern))?;
    Ok(word)
}

/// funct7 where the row fixes it, and else 0.
fn funct7_or_zero(net: &mut Net, pattern: Pattern) -> Result<NodeId, Memory>
    requires lawful { assembled.is_lawful pattern ≡ true }
    ensures adds { AddsNodes net.old net.new }
    ensures shows { IfOk result (Shows net.old net.new 7 (λ g. unwrap_or pattern.funct7 0)) }
{
    match pattern.funct7 {
        Some(funct7) => constant(net, 7, funct7),
        None => constant(net, 7, 0),
    }
}

/// funct7 where the row fixes it, and else the bits 11:5 of the immediate.
fn funct7_or_upper(net: &mut Net, pattern: Pattern, immediate: NodeId) -> Result<NodeId, Memory>
    requires lawful { assembled.is_lawful pattern ≡ true }
    requires immediate { IsNodeOf net.old 32 immediate }
    ensures adds { AddsNodes net.old net.new }
    ensures shows { IfOk result (Shows net.old net.new 7
        (λ g. unwrap_or pattern.funct7 (field 11 5 (value_at net.old g immediate)))) }
{
    match pattern.funct7 {
        Some(funct7) => constant(net, 7, funct7),
        None => field(net, immediate, 11, 5),
    }
}

/// imm[4:1|11] of a branch.
fn branch_low(net: &mut Net, immediate: NodeId) -> Result<NodeId, Memory>
    requires { IsNodeOf net.old 32 immediate }
    ensures adds { AddsNodes net.old net.new }
    ensures shows { IfOk result (Shows net.old net.new 5 (λ g. moved 4 1 1 (value_at net.old g immediate)
        + field 11 11 (value_at net.old g immediate))) }
{
    let front = field(net, immediate, 4, 1)?;
    let bits = beside(net, front, 4, immediate, 11, 11)?;
    Ok(bits)
}

/// imm[12|10:5] of a branch.
fn branch_high(net: &mut Net, immediate: NodeId) -> Result<NodeId, Memory>
    requires { IsNodeOf net.old 32 immediate }
    ensures adds { AddsNodes net.old net.new }
    ensures shows { IfOk result (Shows net.old net.new 7 (λ g. moved 12 12 6 (value_at net.old g immediate)
        + field 10 5 (value_at net.old g immediate))) }
{
    let front = field(net, immediate, 12, 12)?;
    let bits = beside(net, front, 1, immediate, 10, 5)?;
    Ok(bits)
}

/// Bits 31:12 of a jump, by its immediate.
fn jump_part(net: &mut Net, immediate: NodeId) -> Result<NodeId, Memory>
    requires { IsNodeOf net.old 32 immediate }
    ensures adds { AddsNodes net.old net.new }
    ensures shows { IfOk result (Shows net.old net.new 20
        (λ g. assembled.jump_part (value_at net.old g immediate))) }
{
    let sign = field(net, immediate, 20, 20)?;
    let rest = [
        Span { high: 10, low: 1 },
        Span { high: 11, low: 11 },
        Span { high: 19, low: 12 },
    ];
    let bits = behind(net, sign, 1, immediate, &rest)?;
    Ok(bits)
}

fn of_immediate(net: &mut Net, pattern: Pattern, operands: &OperandNodes) -> Result<NodeId, Memory>
    requires lawful { assembled.is_lawful pattern ≡ true }
    requires operands { AreOperands net.old operands.now }
    ensures adds { AddsNodes net.old net.new }
    ensures shows { IfOk result (Shows net.old net.new 32
        (λ g. assembled.laid_out I pattern (operands_at net.old g operands.now))) }
{
    let low = field(net, operands.immediate, 4, 0)?;
    let high = funct7_or_upper(net, pattern, operands.immediate)?;
    let word = of_parts(net, pattern, operands.rd, operands.rs1, low, high)?;
    Ok(word)
}

fn of_registers(net: &mut Net, pattern: Pattern, operands: &OperandNodes) -> Result<NodeId, Memory>
    requires lawful { assembled.is_lawful pattern ≡ true }
    requires operands { AreOperands net.old operands.now }
    ensures adds { AddsNodes net.old net.new }
    ensures shows { IfOk result (Shows net.old net.new 32
        (λ g. assembled.laid_out R pattern (operands_at net.old g operands.now))) }
{
    let high = funct7_or_zero(net, pattern)?;
    let word = of_parts(net, pattern, operands.rd, operands.rs1, operands.rs2, high)?;
    Ok(word)
}

fn of_store(net: &mut Net, pattern: Pattern, operands: &OperandNodes) -> Result<NodeId, Memory>
    requires lawful { assembled.is_lawful pattern ≡ true }
    requires operands { AreOperands net.old operands.now }
    ensures adds { AddsNodes net.old net.new }
    ensures shows { IfOk result (Shows net.old net.new 32
        (λ g. assembled.laid_out S pattern (operands_at net.old g operands.now))) }
{
    let low = field(net, operands.immediate, 4, 0)?;
    let high = field(net, operands.immediate, 11, 5)?;
    let word = of_parts(net, pattern, low, operands.rs1, operands.rs2, high)?;
    Ok(word)
}

fn of_branch(net: &mut Net, pattern: Pattern, operands: &OperandNodes) -> Result<NodeId, Memory>
    requires lawful { assembled.is_lawful pattern ≡ true }
    requires operands { AreOperands net.old operands.now }
    ensures adds { AddsNodes net.old net.new }
    ensures shows { IfOk result (Shows net.old net.new 32
        (λ g. assembled.laid_out B pattern (operands_at net.old g operands.now))) }
{
    let low = branch_low(net, operands.immediate)?;
    let high = branch_high(net, operands.immediate)?;
    let word = of_parts(net, pattern, low, operands.rs1, operands.rs2, high)?;
    Ok(word)
}

fn of_upper_immediate(
    net: &mut Net,
    pattern: Pattern,
    operands: &OperandNodes,
) -> Result<NodeId, Memory>
    requires lawful { assembled.is_lawful pattern ≡ true }
    requires operands { AreOperands net.old operands.now }
    ensures adds { AddsNodes net.old net.new }
    ensures shows { IfOk result (Shows net.old net.new 32
        (λ g. assembled.laid_out U pattern (operands_at net.old g operands.now))) }
{
    let upper = field(net, operands.immediate, 31, 12)?;
    let word = of_upper(net, pattern, operands.rd, upper)?;
    Ok(word)
}

fn of_jump(net: &mut Net, pattern: Pattern, operands: &OperandNodes) -> Result<NodeId, Memory>
    requires lawful { assembled.is_lawful pattern ≡ true }
    requires operands { AreOperands net.old operands.now }
    ensures adds { AddsNodes net.old net.new }
    ensures shows { IfOk result (Shows net.old net.new 32
        (λ g. assembled.laid_out J pattern (operands_at net.old g operands.now))) }
{
    let upper = jump_part(net, operands.immediate)?;
    let word = of_upper(net, pattern, operands.rd, upper)?;
    Ok(word)
}

/// The word of the pattern with these registers and this immediate.
#[tactic(auto, unfolding(rv_table::specs::Assembled::assembled))]
pub(crate) fn assembled(
    net: &mut Net,
    pattern: Pattern,
    operands: &OperandNodes,
) -> Result<NodeId, Memory>
    requires lawful { assembled.is_lawful pattern ≡ true }
    requires operands { AreOperands net.old operands.now }
    ensures adds { AddsNodes net.old net.new }
    ensures shows { IfOk result (Shows net.old net.new 32
        (λ g. assembled.assembled pattern (operands_at net.old g operands.now))) }
{
    match pattern.form {
        Form::R => of_registers(net, pattern, operands),
        Form::I => of_immediate(net, pattern, operands),
        Form::S => of_store(net, pattern, operands),
        Form::B => of_branch(net, pattern, operands),
        Form::U => of_upper_immediate(net, pattern, operands),
        Form::J => of_jump(net, pattern, operands),
    }
}
