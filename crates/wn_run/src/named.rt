//! The latest node that something names.
ghost use Rattle.std.specs.Prelude.{◌+◌, ◌≤◌, ◌<◌, length, map, slice_index, slice_index_or, []};
ghost use Rattle.wn_run.specs.Named.{AreBelow, AreMemsBelow, AreRegsBelow, AreWritesBelow};

use wn_net::{Mem, MemWrite, NodeId, Reg};

/// The later one of two nodes.
fn later(last: usize, id: NodeId) -> usize
    ensures more { last ≤ result }
    ensures below { id < result + 1 }
{
    let id = id as usize;
    if last < id { id } else { last }
}

/// A node that is neither before `start` nor before the next node of a register.
pub(crate) fn last_of_regs(regs: &[Reg], start: usize) -> usize
    ensures more { start ≤ result }
    ensures below { AreRegsBelow regs.now (result + 1) }
{
    let mut last = start;
    for reg in regs {
        last = later(last, reg.next);
    }
    last
}

/// The same of nodes.
pub(crate) fn last_of_nodes(ids: &[NodeId], start: usize) -> usize
    ensures more { start ≤ result }
    ensures below { AreBelow ids.now (result + 1) }
{
    let mut last = start;
    for id in ids {
        last = later(last, *id);
    }
    last
}

/// The same of the nodes of a write.
fn last_of_write(write: &MemWrite, start: usize) -> usize
    ensures more { start ≤ result }
    ensures enable { write.now.enable < result + 1 }
    ensures addr { write.now.addr < result + 1 }
    ensures mask { write.now.mask < result + 1 }
    ensures value { write.now.value < result + 1 }
{
    let last = later(start, write.enable);
    let last = later(last, write.addr);
    let last = later(last, write.mask);
    later(last, write.value)
}

fn last_of_writes(writes: &[MemWrite], start: usize) -> usize
    ensures more { start ≤ result }
    ensures below { AreWritesBelow writes.now (result + 1) }
{
    let mut last = start;
    for write in writes {
        last = last_of_write(write, last);
    }
    last
}

/// The same of the writes of memories.
pub(crate) fn last_of_mems(mems: &[Mem], start: usize) -> usize
    ensures more { start ≤ result }
    ensures below { AreMemsBelow mems.now (result + 1) }
{
    let mut last = start;
    for mem in mems {
        last = last_of_writes(mem.writes.as_slice(), last);
    }
    last
}
