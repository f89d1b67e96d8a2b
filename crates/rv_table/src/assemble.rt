ghost use Rattle.std.specs.Prelude.{◌≡◌, ◌+◌, ◌*◌, ◌^◌, ◌<◌, true, unwrap_or};
ghost use Rattle.rv_table.specs.Assembled as assembled;

use crate::field::{field, moved};
use crate::pattern::{Form, Pattern};

/// The registers and the immediate of a word, each 0 where its form has none.
#[derive(Debug, Clone, Copy, PartialEq, Eq)]
pub struct Operands {
    pub rd: u32,
    pub rs1: u32,
    pub rs2: u32,
    pub immediate: u32,
}

impl Operands {
    pub(crate) fn new(rd: u32, rs1: u32, rs2: u32, immediate: u32) -> Operands
        requires rd { rd < 32 }
        requires rs1 { rs1 < 32 }
        requires rs2 { rs2 < 32 }
        ensures value { result ≡ record { rd = rd; rs1 = rs1; rs2 = rs2; immediate = immediate } }
        ensures registers { assembled.AreRegisters result }
    {
        Operands {
            rd,
            rs1,
            rs2,
            immediate,
        }
    }
}

/// The word of a row with these registers and this immediate.
#[tactic(auto, using(crate::proofs::AssembledLemmas::parts), unfolding(crate::specs::Assembled::assembled))]
pub(crate) fn assembled(pattern: Pattern, operands: Operands) -> u32
    requires lawful { assembled.is_lawful pattern ≡ true }
    requires registers { assembled.AreRegisters operands }
    ensures { result ≡ assembled.assembled pattern operands }
{
    let Operands {
        rd,
        rs1,
        rs2,
        immediate,
    } = operands;
    match pattern.form {
        Form::R => of_parts(pattern, rd, rs1, rs2, fixed_or(pattern.funct7, 0)),
        Form::I => of_parts(
            pattern,
            rd,
            rs1,
            field(immediate, 4, 0),
            fixed_or(pattern.funct7, field(immediate, 11, 5)),
        ),
        Form::S => of_parts(
            pattern,
            field(immediate, 4, 0),
            rs1,
            rs2,
            field(immediate, 11, 5),
        ),
        Form::B => of_parts(
            pattern,
            moved(immediate, 4, 1, 1) + field(immediate, 11, 11),
            rs1,
            rs2,
            moved(immediate, 12, 12, 6) + field(immediate, 10, 5),
        ),
        Form::U => of_upper(pattern, rd, field(immediate, 31, 12)),
        Form::J => of_upper(pattern, rd, jump_part(immediate)),
    }
}

/// Bits 31:12 of a jump, by its immediate.
fn jump_part(immediate: u32) -> u32
    ensures value { result ≡ assembled.jump_part immediate }
    ensures small { result < 2 ^ 20 }
{
    moved(immediate, 20, 20, 19)
        + moved(immediate, 10, 1, 9)
        + moved(immediate, 11, 11, 8)
        + field(immediate, 19, 12)
}

/// funct7 where the row fixes it, and else the other number.
fn fixed_or(funct7: Option<u32>, other: u32) -> u32
    requires fixed { assembled.is_part_below (2 ^ 7) funct7 ≡ true }
    requires other { other < 2 ^ 7 }
    ensures value { result ≡ unwrap_or funct7 other }
    ensures small { result < 2 ^ 7 }
{
    match funct7 {
        Some(fixed) => fixed,
        None => other,
    }
}

/// funct3, 0 where the row has none.
pub fn funct3_of(pattern: Pattern) -> u32
    requires lawful { assembled.is_lawful pattern ≡ true }
    ensures value { result ≡ assembled.funct3_of pattern }
    ensures small { result < 2 ^ 3 }
{
    match pattern.funct3 {
        Some(funct3) => funct3,
        None => 0,
    }
}

/// The opcode, bits 6:0 of a word.
pub fn opcode_of(pattern: Pattern) -> u32
    requires lawful { assembled.is_lawful pattern ≡ true }
    ensures value { result ≡ pattern.opcode }
    ensures small { result < 2 ^ 7 }
{
    pattern.opcode
}

fn of_parts(pattern: Pattern, low: u32, rs1: u32, middle: u32, high: u32) -> u32
    requires lawful { assembled.is_lawful pattern ≡ true }
    requires low { low < 2 ^ 5 }
    requires rs1 { rs1 < 2 ^ 5 }
    requires middle { middle < 2 ^ 5 }
    requires high { high < 2 ^ 7 }
    ensures { result ≡ assembled.of_parts pattern.opcode low (assembled.funct3_of pattern) rs1 middle high }
{
    let lower = opcode_of(pattern) + low * (1 << 7) + funct3_of(pattern) * (1 << 12);
    lower + rs1 * (1 << 15) + middle * (1 << 20) + high * (1 << 25)
}

fn of_upper(pattern: Pattern, rd: u32, upper: u32) -> u32
    requires lawful { assembled.is_lawful pattern ≡ true }
    requires rd { rd < 2 ^ 5 }
    requires upper { upper < 2 ^ 20 }
    ensures { result ≡ assembled.of_upper pattern.opcode rd upper }
{
    opcode_of(pattern) + rd * (1 << 7) + upper * (1 << 12)
}
