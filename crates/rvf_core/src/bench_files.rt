//! The configuration and the design of `bench N`, as files in memory.

ghost use Rattle.std.specs.Prelude.{◌≡◌, IfOk, Some};
ghost use Rattle.fv_base.specs.Kept.{sure_names};
ghost use Rattle.fv_base.specs.Outside.{SameFiles};
ghost use Rattle.rvf_core.specs.Bench as bench;

use fv_base::SureFiles;
use fv_text::Memory;
use itoa::Buffer;
use std::alloc::Global;

/// The name of the configuration.
const CONFIG: &str = "checks.cfg";

/// The name of the design.
const DESIGN: &str = "bench.v";

const CONFIG_TEXT: &[u8] = b"[options]\n\
isa rv32i\n\
\n\
[depth]\n\
insn 3\n\
ill 3\n\
reg 1 4\n\
pc_fwd 1 4\n\
pc_bwd 1 4\n\
causal 1 4\n\
unique 1 2 4\n\
\n\
[verilog-files]\n\
bench.v\n";

/// The design up to the number of registers.
const HEAD: &[u8] = b"module rvfi_wrapper (input clock, input reset, `RVFI_OUTPUTS);\n  \
`rvformal_rand_reg [31:0] insn;\n  \
reg [31:0] regs [0:";

/// Up to the number that the first operand is below.
const REGISTERS: &[u8] = b"-1];\n  \
reg [31:0] pc = 0;\n  \
reg [63:0] order = 0;\n  \
wire [4:0] rs = insn[19:15], rd = insn[11:7];\n  \
wire go = !reset && insn[6:0] == 7'h13 && insn[14:12] == 0 && rs < ";

/// Up to the number that the second one is below.
const AND: &[u8] = b" && rd < ";

const REST: &[u8] = b";\n  \
wire [31:0] a = rs == 0 ? 0 : regs[rs];\n  \
wire [31:0] sum = a + {{20{insn[31]}}, insn[31:20]};\n  \
always @(posedge clock)\n    \
if (go) begin regs[rd] <= sum; pc <= pc + 4; order <= order + 1; end\n  \
assign rvfi_valid = go, rvfi_order = order, rvfi_insn = insn, rvfi_trap = 0, rvfi_halt = 0;\n  \
assign rvfi_intr = 0, rvfi_mode = 3, rvfi_ixl = 1, rvfi_rs1_addr = rs, rvfi_rs2_addr = 0;\n  \
assign rvfi_rs1_rdata = a, rvfi_rs2_rdata = 0, rvfi_rd_addr = rd, rvfi_rd_wdata = rd == 0 ? 0 : sum;\n  \
assign rvfi_pc_rdata = pc, rvfi_pc_wdata = pc + 4, rvfi_mem_addr = 0, rvfi_mem_rmask = 0;\n  \
assign rvfi_mem_wmask = 0, rvfi_mem_rdata = 0, rvfi_mem_wdata = 0;\n\
endmodule\n";

/// A core that adds numbers to so many registers.
fn design_text(alloc: Global, size: u32) -> Result<Vec<u8>, Memory>
    ensures { IfOk result (λ text. text.items ≡ bench.design_text size) }
{
    let mut buffer = Buffer::new();
    let digits = buffer.format(size).as_bytes();
    let mut text = Vec::from_slice(alloc, HEAD)?;
    text.extend_from_slice(digits)?;
    text.extend_from_slice(REGISTERS)?;
    text.extend_from_slice(digits)?;
    text.extend_from_slice(AND)?;
    text.extend_from_slice(digits)?;
    text.extend_from_slice(REST)?;
    Ok(text)
}

/// The files of `bench` with so many registers.
pub(crate) fn bench_files(alloc: Global, size: u32) -> Result<SureFiles, Memory>
    ensures { IfOk result (λ files. SameFiles (Some (bench.held_of size)) (Some (sure_names files))) }
{
    let config = String::from_str(alloc, CONFIG)?;
    let config_text = Vec::from_slice(alloc, CONFIG_TEXT)?;
    let design = String::from_str(alloc, DESIGN)?;
    let design_text = design_text(alloc, size)?;
    let mut files = Vec::new(alloc);
    files.push((config, config_text))?;
    files.push((design, design_text))?;
    SureFiles::new(alloc, files)
}
