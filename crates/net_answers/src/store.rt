//! Registers, memories and assumptions of a net, for any row. The answer is whether the row fits the net.

ghost use Rattle.std.specs.Prelude.{IfOk};
ghost use Rattle.std.specs.List.{AllByRecursion};
ghost use Rattle.wn_net.specs.Net.{IsInitOf, IsNode, IsNodeOf};

use crate::part::{node_at, number_at, short_at, word};
use fv_text::{List, Memory, Word};
use std::alloc::Global;
use wn_net::{Init, MemWrite, Net, NodeId};

/// Changes the net as a part says; None of a part that makes a node.
pub(crate) fn change(alloc: Global, net: &mut Net, part: &str) -> Result<Option<bool>, Memory> {
    let fits = match word(part, 0) {
        "reg" => register(net, short_at(part, 1), word(part, 2))?,
        "next" => set_next(net, short_at(part, 1), node_at(part, 2)),
        "mem" => memory(alloc, net, part)?,
        "write" => write(net, part)?,
        "read" => read(net, short_at(part, 1), node_at(part, 2))?,
        "assume" => assume(net, node_at(part, 1))?,
        _ => return Ok(None),
    };
    Ok(Some(fits))
}

/// What a register or a word of a width begins with; a number of more bits counts as 0.
fn init_of(width: u32, word: &str) -> Init
    ensures { IsInitOf width result }
{
    if word == "free" {
        return Init::Free;
    }
    let number = number_at(word, 0);
    match Word::new(width, number) {
        Some(_) => Init::Known(number),
        None => Init::Known(0),
    }
}

fn register(net: &mut Net, width: u32, init: &str) -> Result<bool, Memory> {
    if width < 1 || width > 128 || net.regs().len() > 1000 {
        return Ok(false);
    }
    net.reg(width, init_of(width, init))?;
    Ok(true)
}

fn set_next(net: &mut Net, reg: u32, next: NodeId) -> bool {
    if !net.has(next) {
        return false;
    }
    let width = net.width(next);
    let regs = net.regs();
    if reg as usize >= regs.len() {
        return false;
    }
    if regs[reg as usize].width != width {
        return false;
    }
    net.set_next(reg, next);
    true
}

/// What the words of a memory begin with.
fn inits(alloc: Global, width: u32, part: &str) -> Result<List<Init>, Memory>
    ensures { IfOk result (λ init. AllByRecursion (IsInitOf width) init) }
{
    let mut inits = List::new(alloc);
    for (place, word) in part.split(' ').enumerate() {
        if place > 1 {
            inits.push(init_of(width, word))?;
        }
    }
    Ok(inits)
}

fn memory(alloc: Global, net: &mut Net, part: &str) -> Result<bool, Memory> {
    let width = short_at(part, 1);
    let init = inits(alloc, width, part)?;
    let words = init.len();
    if width < 1 || width > 128 || words < 1 || words > 1000 || net.mems().len() > 1000 {
        return Ok(false);
    }
    net.mem(width, words as u32, init)?;
    Ok(true)
}

fn write(net: &mut Net, part: &str) -> Result<bool, Memory> {
    let write = MemWrite {
        enable: node_at(part, 2),
        addr: node_at(part, 3),
        mask: node_at(part, 4),
        value: node_at(part, 5),
    };
    if !net.has(write.enable) || !net.has(write.addr) || net.width(write.enable) != 1 {
        return Ok(false);
    }
    if !net.has(write.mask) || !net.has(write.value) {
        return Ok(false);
    }
    write_to(net, short_at(part, 1), write)
}

/// A write whose nodes are there.
fn write_to(net: &mut Net, mem: u32, write: MemWrite) -> Result<bool, Memory>
    requires enable { IsNodeOf net.old 1 write.enable }
    requires addr { IsNode net.old write.addr }
    requires mask { IsNode net.old write.mask }
    requires value { IsNode net.old write.value }
{
    let mems = net.mems();
    if mem as usize >= mems.len() {
        return Ok(false);
    }
    let width = mems[mem as usize].width;
    if net.width(write.mask) != width || net.width(write.value) != width {
        return Ok(false);
    }
    net.mem_write(mem, write)?;
    Ok(true)
}

fn read(net: &mut Net, mem: u32, addr: NodeId) -> Result<bool, Memory> {
    if !net.has(addr) || mem as usize >= net.mems().len() {
        return Ok(false);
    }
    net.read(mem, addr)?;
    Ok(true)
}

fn assume(net: &mut Net, node: NodeId) -> Result<bool, Memory> {
    if !net.has(node) {
        return Ok(false);
    }
    net.assume(node)?;
    Ok(true)
}
