ghost use Rattle.std.specs.Prelude.{◌≡◌, IfOk};
ghost use Rattle.vl_prep.specs.Macros.{Held, held};
ghost use Rattle.vl_text.specs.Predefined.{common, define_compressed, define_retirements, digits_of, prologue};
ghost use Rattle.vl_text.specs.Predefined.{ArePredefinedFor};

use fv_text::Memory;
use std::alloc::Global;
use vl_prep::{Macros, prep};
use vl_token::lex;

/// What the predefined macros say of the core.
#[derive(Debug, Clone, Copy, PartialEq, Eq)]
pub struct Core {
    /// Whether its instruction set has the extension C.
    pub compressed: bool,
    pub retirements: Retirements,
}

/// How many instructions retire in a cycle.
#[derive(Debug, Clone, Copy, PartialEq, Eq)]
pub enum Retirements {
    One,
    Two,
}

impl Retirements {
    fn digits(self) -> &'static [u8]
        ensures { result.now ≡ digits_of self }
    {
        match self {
            Retirements::One => b"1",
            Retirements::Two => b"2",
        }
    }
}

/// What is defined for an instruction set with C alone.
const COMPRESSED: &[u8] = b"`define RISCV_FORMAL_COMPRESSED \n";

/// What stands before the number of retirements.
const FRONT: &[u8] = b"`define RISCV_FORMAL_NRET ";

/// What is defined for each core.
const COMMON: &[u8] = b"\n\
`define RISCV_FORMAL \n\
`define RISCV_FORMAL_XLEN 32\n\
`define RISCV_FORMAL_ILEN 32\n\
`define rvformal_rand_reg (* anyseq *) reg\n\
`define rvformal_const_rand_reg (* anyconst *) reg\n\
`define rvformal_rand_const_reg (* anyconst *) reg\n\
`define RVFI_OUTPUTS output [`RISCV_FORMAL_NRET * 1 - 1 : 0] rvfi_valid, \
output [`RISCV_FORMAL_NRET * 64 - 1 : 0] rvfi_order, \
output [`RISCV_FORMAL_NRET * 32 - 1 : 0] rvfi_insn, \
output [`RISCV_FORMAL_NRET * 1 - 1 : 0] rvfi_trap, \
output [`RISCV_FORMAL_NRET * 1 - 1 : 0] rvfi_halt, \
output [`RISCV_FORMAL_NRET * 1 - 1 : 0] rvfi_intr, \
output [`RISCV_FORMAL_NRET * 2 - 1 : 0] rvfi_mode, \
output [`RISCV_FORMAL_NRET * 2 - 1 : 0] rvfi_ixl, \
output [`RISCV_FORMAL_NRET * 5 - 1 : 0] rvfi_rs1_addr, \
output [`RISCV_FORMAL_NRET * 5 - 1 : 0] rvfi_rs2_addr, \
output [`RISCV_FORMAL_NRET * 32 - 1 : 0] rvfi_rs1_rdata, \
output [`RISCV_FORMAL_NRET * 32 - 1 : 0] rvfi_rs2_rdata, \
output [`RISCV_FORMAL_NRET * 5 - 1 : 0] rvfi_rd_addr, \
output [`RISCV_FORMAL_NRET * 32 - 1 : 0] rvfi_rd_wdata, \
output [`RISCV_FORMAL_NRET * 32 - 1 : 0] rvfi_pc_rdata, \
output [`RISCV_FORMAL_NRET * 32 - 1 : 0] rvfi_pc_wdata, \
output [`RISCV_FORMAL_NRET * 32 - 1 : 0] rvfi_mem_addr, \
output [`RISCV_FORMAL_NRET * 4 - 1 : 0] rvfi_mem_rmask, \
output [`RISCV_FORMAL_NRET * 4 - 1 : 0] rvfi_mem_wmask, \
output [`RISCV_FORMAL_NRET * 32 - 1 : 0] rvfi_mem_rdata, \
output [`RISCV_FORMAL_NRET * 32 - 1 : 0] rvfi_mem_wdata\n\
`define RVFI_WIRES wire [`RISCV_FORMAL_NRET * 1 - 1 : 0] rvfi_valid; \
wire [`RISCV_FORMAL_NRET * 64 - 1 : 0] rvfi_order; \
wire [`RISCV_FORMAL_NRET * 32 - 1 : 0] rvfi_insn; \
wire [`RISCV_FORMAL_NRET * 1 - 1 : 0] rvfi_trap; \
wire [`RISCV_FORMAL_NRET * 1 - 1 : 0] rvfi_halt; \
wire [`RISCV_FORMAL_NRET * 1 - 1 : 0] rvfi_intr; \
wire [`RISCV_FORMAL_NRET * 2 - 1 : 0] rvfi_mode; \
wire [`RISCV_FORMAL_NRET * 2 - 1 : 0] rvfi_ixl; \
wire [`RISCV_FORMAL_NRET * 5 - 1 : 0] rvfi_rs1_addr; \
wire [`RISCV_FORMAL_NRET * 5 - 1 : 0] rvfi_rs2_addr; \
wire [`RISCV_FORMAL_NRET * 32 - 1 : 0] rvfi_rs1_rdata; \
wire [`RISCV_FORMAL_NRET * 32 - 1 : 0] rvfi_rs2_rdata; \
wire [`RISCV_FORMAL_NRET * 5 - 1 : 0] rvfi_rd_addr; \
wire [`RISCV_FORMAL_NRET * 32 - 1 : 0] rvfi_rd_wdata; \
wire [`RISCV_FORMAL_NRET * 32 - 1 : 0] rvfi_pc_rdata; \
wire [`RISCV_FORMAL_NRET * 32 - 1 : 0] rvfi_pc_wdata; \
wire [`RISCV_FORMAL_NRET * 32 - 1 : 0] rvfi_mem_addr; \
wire [`RISCV_FORMAL_NRET * 4 - 1 : 0] rvfi_mem_rmask; \
wire [`RISCV_FORMAL_NRET * 4 - 1 : 0] rvfi_mem_wmask; \
wire [`RISCV_FORMAL_NRET * 32 - 1 : 0] rvfi_mem_rdata; \
wire [`RISCV_FORMAL_NRET * 32 - 1 : 0] rvfi_mem_wdata;\n\
`define RVFI_CONN .rvfi_valid(rvfi_valid), \
.rvfi_order(rvfi_order), \
.rvfi_insn(rvfi_insn), \
.rvfi_trap(rvfi_trap), \
.rvfi_halt(rvfi_halt), \
.rvfi_intr(rvfi_intr), \
.rvfi_mode(rvfi_mode), \
.rvfi_ixl(rvfi_ixl), \
.rvfi_rs1_addr(rvfi_rs1_addr), \
.rvfi_rs2_addr(rvfi_rs2_addr), \
.rvfi_rs1_rdata(rvfi_rs1_rdata), \
.rvfi_rs2_rdata(rvfi_rs2_rdata), \
.rvfi_rd_addr(rvfi_rd_addr), \
.rvfi_rd_wdata(rvfi_rd_wdata), \
.rvfi_pc_rdata(rvfi_pc_rdata), \
.rvfi_pc_wdata(rvfi_pc_wdata), \
.rvfi_mem_addr(rvfi_mem_addr), \
.rvfi_mem_rmask(rvfi_mem_rmask), \
.rvfi_mem_wmask(rvfi_mem_wmask), \
.rvfi_mem_rdata(rvfi_mem_rdata), \
.rvfi_mem_wdata(rvfi_mem_wdata)\n";

fn for_compressed() -> &'static [u8]
    ensures { result.now ≡ define_compressed }
{
    COMPRESSED
}

fn before_retirements() -> &'static [u8]
    ensures { result.now ≡ define_retirements }
{
    FRONT
}

#[tactic(auto, unfolding(crate::specs::Predefined::common))]
fn for_each_core() -> &'static [u8]
    ensures { result.now ≡ common }
{
    COMMON
}

/// The text that defines the macros.
fn text(alloc: Global, core: Core) -> Result<Vec<u8>, Memory>
    ensures { IfOk result (λ text. text.items ≡ prologue core) }
{
    let mut text = Vec::new(alloc);
    if core.compressed {
        text.extend_from_slice(for_compressed())?;
    }
    text.extend_from_slice(before_retirements())?;
    text.extend_from_slice(core.retirements.digits())?;
    text.extend_from_slice(for_each_core())?;
    Ok(text)
}

/// The macros that are defined before a text is read (riscv-formal).
///
/// The text that defines them is fixed for each core, and no part refuses it: a test reads it.
pub fn predefined(alloc: Global, core: Core) -> Result<Macros, Memory>
    ensures found { IfOk result (λ macros. ArePredefinedFor core (held macros)) }
    ensures one { IfOk result (λ macros. (other : Held) → ArePredefinedFor core other → other ≡ held macros) }
{
    let text = text(alloc, core)?;
    defined_by(alloc, core, text.as_slice())
}

/// The macros that the text defines.
fn defined_by(alloc: Global, core: Core, text: &[u8]) -> Result<Macros, Memory>
    requires { text.now ≡ prologue core }
    ensures found { IfOk result (λ macros. ArePredefinedFor core (held macros)) }
    ensures one { IfOk result (λ macros. (other : Held) → ArePredefinedFor core other → other ≡ held macros) }
{
    let Ok(tokens) = lex(alloc, text, 0, 1) else {
        return Err(Memory);
    };
    match prep(alloc, Macros::empty(alloc), tokens.as_slice()) {
        Ok((_output, macros)) => Ok(macros),
        Err(_) => Err(Memory),
    }
}
