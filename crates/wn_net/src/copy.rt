//! Copies of a net, and a net taken apart.
ghost use Rattle.std.specs.Prelude.{◌≡◌, IfOk};

use crate::net::Net;
use crate::node::Node;
use crate::parts::Mem;
use fv_text::{List, Memory};
use std::alloc::Global;

/// The same items once more.
fn copied<T: Copy + Drop>(alloc: Global, items: &[T]) -> Result<Vec<T>, Memory>
    ensures { IfOk result (λ made. made.items ≡ items.now) }
{
    let mut made = Vec::with_capacity(alloc, items.len())?;
    made.extend_from_slice(items)?;
    Ok(made)
}

fn mem_copied(alloc: Global, mem: &Mem) -> Result<Mem, Memory>
    ensures { IfOk result (λ made. made ≡ mem.now) }
{
    let init = copied(alloc, mem.init.as_slice())?;
    let writes = copied(alloc, mem.writes.as_slice())?;
    Ok(Mem {
        width: mem.width,
        words: mem.words,
        init: List::from_vec(init),
        writes: List::from_vec(writes),
    })
}

fn mems_copied(alloc: Global, mems: &[Mem]) -> Result<Vec<Mem>, Memory>
    ensures { IfOk result (λ made. made.items ≡ mems.now) }
{
    let mut made = Vec::with_capacity(alloc, mems.len())?;
    for mem in mems {
        made.push(mem_copied(alloc, mem)?)?;
    }
    Ok(made)
}

impl Net {
    /// An equal net, which shares nothing with this one.
    pub fn copy(&self) -> Result<Net, Memory>
        ensures { IfOk result (λ net. net ≡ self.now) }
    {
        let nodes = copied(self.alloc, self.nodes.as_slice())?;
        let widths = copied(self.alloc, self.widths.as_slice())?;
        let regs = copied(self.alloc, self.regs.as_slice())?;
        let mems = mems_copied(self.alloc, self.mems.as_slice())?;
        let inputs = copied(self.alloc, self.inputs.as_slice())?;
        let assumes = copied(self.alloc, self.assumes.as_slice())?;
        Ok(Net {
            alloc: self.alloc,
            nodes,
            widths,
            regs,
            mems,
            inputs,
            assumes,
        })
    }

    /// The nodes, without a copy.
    pub fn into_nodes(self) -> List<Node>
        ensures { result ≡ self.nodes }
    {
        let Net {
            alloc: _,
            nodes,
            widths: _,
            regs: _,
            mems: _,
            inputs: _,
            assumes: _,
        } = self;
        List::from_vec(nodes)
    }
}
