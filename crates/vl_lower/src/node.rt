//! The node of a cell.

ghost use Rattle.std.specs.Prelude.{◌≡◌, ◌≤◌, ◌<◌, ◌+◌, ◌-◌, ◌^◌, IfOk, length};
ghost use Rattle.vl_lower_cell_laws.specs.Keeps.{bits_number, cell_number, kept_bits, registers_of};
ghost use Rattle.wn_net.specs.Changes.{AddsRegs};
ghost use Rattle.vl_lower.specs.Held.{Holds, bit_number, bit_registers};

use crate::keeping::{bit_start, has_bit, is_whole, whole_start};
use fv_text::{Memory, Word};
use vl_lower_cell_laws::Keep;
use wn_net::{Net, NodeId};

/// The register of a bit, or 0 where a combinational block drives it.
fn bit_node(net: &mut Net, keep: &Keep, bit: u32) -> Result<NodeId, Memory>
    requires bit { bit < 128 }
    requires room { length net.old.regs < 2 ^ 32 - 1 }
    ensures adds { AddsRegs net.old net.new }
    ensures holds { IfOk result (Holds net.old net.new (bit_registers keep.now bit) 1 (bit_number keep.now bit)) }
{
    if has_bit(keep.driven, bit) {
        let Some(zero) = Word::new(1, 0) else {
            unreachable!()
        };
        let zero = net.konst(zero)?;
        return Ok(zero);
    }
    let node = net.reg(1, bit_start(keep, bit))?;
    Ok(node)
}

/// One bit behind the other, from the highest on.
fn bits_node(net: &mut Net, keep: &Keep, width: u32) -> Result<NodeId, Memory>
    requires some { 1 ≤ width }
    requires few { width ≤ 128 }
    requires room { length net.old.regs + 128 < 2 ^ 32 - 1 }
    ensures adds { AddsRegs net.old net.new }
    ensures holds { IfOk result (Holds net.old net.new (kept_bits keep.now width) width
        (bits_number keep.now width)) }
{
    let mut left = width - 1;
    let mut node = bit_node(net, keep, left)?;
    while left > 0 {
        left -= 1;
        let bit = bit_node(net, keep, left)?;
        node = net.concat(node, bit)?;
    }
    Ok(node)
}

/// Adds the registers of a cell of so many bits, and answers the node that has the cell's number. After an error the
/// net may have more nodes and registers.
pub(crate) fn cell_node(net: &mut Net, keep: &Keep, width: u32) -> Result<NodeId, Memory>
    requires some { 1 ≤ width }
    requires few { width ≤ 128 }
    requires room { length net.old.regs + 128 < 2 ^ 32 - 1 }
    ensures adds { AddsRegs net.old net.new }
    ensures holds { IfOk result (Holds net.old net.new (registers_of keep.now width) width
        (cell_number keep.now width)) }
{
    if is_whole(keep, width) {
        let node = net.reg(width, whole_start(keep, width))?;
        return Ok(node);
    }
    Ok(bits_node(net, keep, width)?)
}
