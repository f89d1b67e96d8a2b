//! The texts of a line. In each `\n` stands for a line's end, `\h` for the head of a top module with the outputs of the
//! RISC-V Formal Interface, `\z` for items that assign 0 to all of these but `rvfi_valid`, and `\|` ends one text and
//! begins the next.

use std::alloc::{AllocError, Global};

const HEAD: &[u8] = b"module rvfi_wrapper(input clock, input reset, `RVFI_OUTPUTS);";

const ZEROS: &[u8] =
    b"assign rvfi_order = 0, rvfi_insn = 0, rvfi_trap = 0, rvfi_halt = 0, rvfi_intr = 0;\
assign rvfi_mode = 0, rvfi_ixl = 0, rvfi_rs1_addr = 0, rvfi_rs2_addr = 0, rvfi_rs1_rdata = 0;\
assign rvfi_rs2_rdata = 0, rvfi_rd_addr = 0, rvfi_rd_wdata = 0, rvfi_pc_rdata = 0, rvfi_pc_wdata = 0;\
assign rvfi_mem_addr = 0, rvfi_mem_rmask = 0, rvfi_mem_wmask = 0, rvfi_mem_rdata = 0, rvfi_mem_wdata = 0;";

pub(crate) fn parts(alloc: Global, line: &[u8]) -> Result<Vec<Vec<u8>>, AllocError> {
    let mut parts = Vec::new(alloc);
    let mut part = Vec::new(alloc);
    let mut escaped = false;
    for byte in line.iter().copied() {
        if escaped {
            escaped = false;
            if byte == b'|' {
                parts.push(part)?;
                part = Vec::new(alloc);
            } else {
                part.extend_from_slice(meant(byte))?;
            }
        } else if byte == b'\\' {
            escaped = true;
        } else {
            part.push(byte)?;
        }
    }
    parts.push(part)?;
    Ok(parts)
}

/// What stands behind a backslash for this byte.
fn meant(byte: u8) -> &'static [u8] {
    match byte {
        b'n' => b"\n",
        b'h' => HEAD,
        b'z' => ZEROS,
        _ => b"",
    }
}
