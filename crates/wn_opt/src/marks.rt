//! Which nodes, registers and memories are needed.
ghost use Rattle.std.specs.Prelude.{◌≡◌, ◌<◌, [], Some, false, length, replicate, slice_get, IfOk, OnOk};
ghost use Rattle.wn_net.specs.Net.{AreNodes};
ghost use Rattle.wn_net.specs.declared.node.Node.{Node};
ghost use Rattle.wn_net.specs.declared.node.Node.TheVariants as node;
ghost use Rattle.wn_opt.specs.Needed.{IsIn, IsNeeded};
ghost use Rattle.wn_opt.specs.Marks.{AreIn, AreNeeded, AreNeeds, AreWritesIn, AreWritesNeeded, Goes, IsFollowed};
ghost use Rattle.wn_opt.specs.Marks.{IsSet, Walks};

use crate::operands::operands_of;
use fv_text::Memory;
use std::alloc::Global;
use wn_net::{MemWrite, Net, Node, NodeId};

/// Needed nodes, registers and memories, as far as they were found.
#[derive(Drop)]
pub(crate) struct Marks {
    pub(crate) nodes: Vec<bool>,
    pub(crate) regs: Vec<bool>,
    pub(crate) mems: Vec<bool>,
    /// The marked nodes, in the order in which they were found.
    pub(crate) list: Vec<NodeId>,
}

/// So many marks, none of them set.
fn unmarked(alloc: Global, count: usize) -> Result<Vec<bool>, Memory>
    ensures { IfOk result (λ v. v.items ≡ replicate count false) }
{
    let marks = vec![in alloc; false; count]?;
    Ok(marks)
}

impl Marks {
    fn new(alloc: Global, net: &Net, roots: &[NodeId]) -> Result<Marks, Memory>
        requires { AreNodes net.now roots.now }
        ensures walks { IfOk result (Walks net.now roots.now) }
        ensures none { IfOk result (λ m. m.list.items ≡ []) }
    {
        let node_marks = unmarked(alloc, net.nodes().len())?;
        let reg_marks = unmarked(alloc, net.regs().len())?;
        let mem_marks = unmarked(alloc, net.mems().len())?;
        Ok(Marks {
            nodes: node_marks,
            regs: reg_marks,
            mems: mem_marks,
            list: Vec::new(alloc),
        })
    }

    /// Marks a needed node.
    fn mark(&mut self, net: &Net, roots: &[NodeId], id: NodeId) -> Result<(), Memory>
        requires walks { Walks net.now roots.now self.old }
        requires needed { IsNeeded net.now roots.now id }
        ensures goes { OnOk result (Goes net.now roots.now self.old self.new) }
        ensures listed { OnOk result (IsIn self.new.list.items id) }
    {
        if self.nodes[id as usize] {
            return Ok(());
        }
        self.list.push(id)?;
        self.nodes[id as usize] = true;
        Ok(())
    }

    /// Marks needed nodes.
    fn mark_all(&mut self, net: &Net, roots: &[NodeId], ids: &[NodeId]) -> Result<(), Memory>
        requires walks { Walks net.now roots.now self.old }
        requires needed { AreNeeded net.now roots.now ids.now }
        ensures goes { OnOk result (Goes net.now roots.now self.old self.new) }
        ensures listed { OnOk result (AreIn self.new.list.items ids.now) }
    {
        for id in ids {
            self.mark(net, roots, *id)?;
        }
        Ok(())
    }

    /// Marks the nodes of needed writes.
    fn mark_writes(
        &mut self,
        net: &Net,
        roots: &[NodeId],
        writes: &[MemWrite],
    ) -> Result<(), Memory>
        requires walks { Walks net.now roots.now self.old }
        requires needed { AreWritesNeeded net.now roots.now writes.now }
        ensures goes { OnOk result (Goes net.now roots.now self.old self.new) }
        ensures listed { OnOk result (AreWritesIn self.new.list.items writes.now) }
    {
        for write in writes {
            let ids = [write.enable, write.addr, write.mask, write.value];
            self.mark_all(net, roots, &ids)?;
        }
        Ok(())
    }

    /// Marks a register that a needed node reads, and the node of its next value.
    fn mark_reg(
        &mut self,
        net: &Net,
        roots: &[NodeId],
        user: NodeId,
        reg: u32,
    ) -> Result<(), Memory>
        requires walks { Walks net.now roots.now self.old }
        requires needed { IsNeeded net.now roots.now user }
        requires reads { slice_get net.now.nodes user ≡ Some (node.Reg reg) }
        ensures goes { OnOk result (Goes net.now roots.now self.old self.new) }
        ensures followed { OnOk result (IsFollowed net.now self.new (node.Reg reg)) }
    {
        let next = net.regs()[reg as usize].next;
        self.mark(net, roots, next)?;
        self.regs[reg as usize] = true;
        Ok(())
    }

    /// Marks a memory that a needed node reads, and the nodes of its writes.
    fn mark_mem(
        &mut self,
        net: &Net,
        roots: &[NodeId],
        user: NodeId,
        mem: u32,
        addr: NodeId,
    ) -> Result<(), Memory>
        requires walks { Walks net.now roots.now self.old }
        requires needed { IsNeeded net.now roots.now user }
        requires reads { slice_get net.now.nodes user ≡ Some (node.Read mem addr) }
        ensures goes { OnOk result (Goes net.now roots.now self.old self.new) }
        ensures marked { OnOk result (IsSet self.new.mems.items mem) }
    {
        if self.mems[mem as usize] {
            return Ok(());
        }
        let writes = net.mems()[mem as usize].writes.as_slice();
        self.mark_writes(net, roots, writes)?;
        self.mems[mem as usize] = true;
        Ok(())
    }

    /// Marks all that a needed node makes needed.
    fn follow(&mut self, net: &Net, roots: &[NodeId], user: NodeId) -> Result<(), Memory>
        requires walks { Walks net.now roots.now self.old }
        requires there { user < length net.now.nodes }
        requires listed { IsIn self.old.list.items user }
        ensures goes { OnOk result (Goes net.now roots.now self.old self.new) }
        ensures followed { OnOk result ((x : Node) → slice_get net.now.nodes user ≡ Some x
            → IsFollowed net.now self.new x) }
    {
        let node = net.nodes()[user as usize];
        let operands = operands_of(&node);
        self.mark_all(net, roots, &operands.ids[..operands.count])?;
        match node {
            Node::Reg(reg) => Ok(self.mark_reg(net, roots, user, reg)?),
            Node::Read(mem, addr) => Ok(self.mark_mem(net, roots, user, mem, addr)?),
            _ => Ok(()),
        }
    }

    /// Marks all that the marked nodes make needed.
    fn follow_all(&mut self, net: &Net, roots: &[NodeId]) -> Result<(), Memory>
        requires walks { Walks net.now roots.now self.old }
        requires roots { AreIn self.old.list.items roots.now }
        ensures { OnOk result (AreNeeds net.now roots.now self.new) }
    {
        let mut place = 0;
        while place < self.list.len() {
            let user = self.list[place];
            self.follow(net, roots, user)?;
            place += 1;
        }
        Ok(())
    }
}

/// The nodes, registers and memories on which the roots rest, the roots with them. Each node is followed once, and the
/// writes of each memory.
pub(crate) fn needed(alloc: Global, net: &Net, roots: &[NodeId]) -> Result<Marks, Memory>
    requires { AreNodes net.now roots.now }
    ensures { IfOk result (AreNeeds net.now roots.now) }
{
    let mut marks = Marks::new(alloc, net, roots)?;
    marks.mark_all(net, roots, roots)?;
    marks.follow_all(net, roots)?;
    Ok(marks)
}
