//! The inputs, registers and memories of a net, without its other nodes.
ghost use Rattle.std.specs.Prelude.{◌≡◌, ◌+◌, Some, length, slice_get, IfOk, OnOk};
ghost use Rattle.wn_net.specs.Net.{IsNet};
ghost use Rattle.wn_opt.specs.Parts.{HasParts};

use fv_text::{List, Memory};
use std::alloc::Global;
use wn_net::{Input, Mem, Net, Reg};

/// Adds an input like this one.
fn add_input(part: &mut Net, input: &Input, net: &Net, index: usize) -> Result<(), Memory>
    requires whole { IsNet net.now }
    requires before { HasParts net.now part.old index 0 0 }
    requires at { slice_get net.now.inputs index ≡ Some input.now }
    ensures { OnOk result (HasParts net.now part.new (index + 1) 0 0) }
{
    part.input(input.width, input.kind)?;
    Ok(())
}

/// Adds the inputs of a net, each with its node.
fn add_inputs(part: &mut Net, net: &Net) -> Result<(), Memory>
    requires { HasParts net.now part.old 0 0 0 }
    ensures { OnOk result (HasParts net.now part.new (length net.now.inputs) 0 0) }
{
    for (index, input) in net.inputs().iter().enumerate() {
        add_input(part, input, net, index)?;
    }
    Ok(())
}

/// Adds a register like this one, which keeps its number.
fn add_reg(part: &mut Net, reg: &Reg, net: &Net, index: usize) -> Result<(), Memory>
    requires whole { IsNet net.now }
    requires before { HasParts net.now part.old (length net.now.inputs) index 0 }
    requires at { slice_get net.now.regs index ≡ Some reg.now }
    ensures { OnOk result (HasParts net.now part.new (length net.now.inputs) (index + 1) 0) }
{
    part.reg(reg.width, reg.init)?;
    Ok(())
}

/// Adds the registers of a net, each with its node, which is its next value.
fn add_regs(part: &mut Net, net: &Net) -> Result<(), Memory>
    requires { HasParts net.now part.old (length net.now.inputs) 0 0 }
    ensures { OnOk result (HasParts net.now part.new (length net.now.inputs) (length net.now.regs) 0) }
{
    for (index, reg) in net.regs().iter().enumerate() {
        add_reg(part, reg, net, index)?;
    }
    Ok(())
}

/// Adds a memory like this one, without writes.
fn add_mem(alloc: Global, part: &mut Net, mem: &Mem, net: &Net, index: usize) -> Result<(), Memory>
    requires whole { IsNet net.now }
    requires before { HasParts net.now part.old (length net.now.inputs) (length net.now.regs) index }
    requires at { slice_get net.now.mems index ≡ Some mem.now }
    ensures { OnOk result (HasParts net.now part.new (length net.now.inputs)
        (length net.now.regs) (index + 1)) }
{
    let init = Vec::from_slice(alloc, mem.init.as_slice())?;
    part.mem(mem.width, mem.words, List::from_vec(init))?;
    Ok(())
}

/// Adds the memories of a net, without writes.
fn add_mems(alloc: Global, part: &mut Net, net: &Net) -> Result<(), Memory>
    requires { HasParts net.now part.old (length net.now.inputs) (length net.now.regs) 0 }
    ensures { OnOk result (HasParts net.now part.new (length net.now.inputs)
        (length net.now.regs) (length net.now.mems)) }
{
    for (index, mem) in net.mems().iter().enumerate() {
        add_mem(alloc, part, mem, net, index)?;
    }
    Ok(())
}

/// A net with the inputs and the registers of a net, each with its node, and with its memories without writes.
pub(crate) fn frame(alloc: Global, net: &Net) -> Result<Net, Memory>
    ensures { IfOk result (λ part. HasParts net.now part (length net.now.inputs) (length net.now.regs)
        (length net.now.mems)) }
{
    let mut part = Net::new(alloc);
    add_inputs(&mut part, net)?;
    add_regs(&mut part, net)?;
    add_mems(alloc, &mut part, net)?;
    Ok(part)
}
