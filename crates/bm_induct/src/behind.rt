//! The nodes of a net once more, and what names them.
ghost use Rattle.std.specs.Prelude.{◌≡◌, ◌+◌, ◌<◌, ◌^◌, length, map, OnOk};
ghost use Rattle.std.specs.List.{AllByRecursion};
ghost use Rattle.wn_net.specs.Net.{IsNet, IsWriteOf};
ghost use Rattle.wn_net.specs.Changes.{Keeps, mem_width};
ghost use Rattle.bm_induct.specs.Rebuilt.{offset};
ghost use Rattle.bm_induct.specs.Stages as stages;

use crate::how::Rebuild;
use crate::moved::{moved, put_node};
use fv_text::Memory;
use wn_net::{MemWrite, Net};

/// A node for each node of the net. Numbers become higher by `more`.
pub(crate) fn put_nodes(made: &mut Net, net: &Net, how: Rebuild, more: u64) -> Result<(), Memory>
    requires more { more ≡ offset net.now }
    requires few { more < 2 ^ 33 }
    requires long { length net.now.nodes < 2 ^ 63 }
    requires begun { made.old ≡ stages.with_nodes how net.now 0 }
    ensures nodes { OnOk result (made.new ≡ stages.with_nodes how net.now (length net.now.nodes)) }
    ensures stand { OnOk result (stages.Stand net.now made.new) }
{
    for node in net.nodes() {
        let copy = moved(net, how, more, node);
        put_node(made, &copy)?;
    }
    Ok(())
}

/// The next nodes of the registers.
pub(crate) fn put_nexts(made: &mut Net, net: &Net, how: Rebuild, more: u64)
    requires more { more ≡ offset net.now }
    requires few { more < 2 ^ 33 }
    requires long { length net.now.nodes < 2 ^ 63 }
    requires begun { made.old ≡ stages.with_nexts how net.now 0 }
    requires stand { stages.Stand net.now made.old }
    ensures nexts { made.new ≡ stages.with_nexts how net.now (length net.now.regs) }
    ensures stand { stages.Stand net.now made.new }
{
    for (index, own) in net.regs().iter().enumerate() {
        let next = own.next + more;
        made.set_next(index as u32, next);
    }
}

/// The writes of the memory at a place.
fn put_writes(
    made: &mut Net,
    net: &Net,
    index: u32,
    writes: &[MemWrite],
    more: u64,
) -> Result<(), Memory>
    requires more { more ≡ offset net.now }
    requires few { more < 2 ^ 33 }
    requires long { length net.now.nodes < 2 ^ 63 }
    requires mem { index < length made.old.mems }
    requires writes { AllByRecursion (IsWriteOf net.now (mem_width made.old index)) writes.now }
    requires stand { stages.Stand net.now made.old }
    ensures new { OnOk result (made.new ≡ record made.old {
      mems = stages.with_writes index (map (stages.moved_write net.now) writes.now) made.old.mems;
    }) }
    ensures stand { OnOk result (stages.Stand net.now made.new) }
{
    for write in writes {
        let copy = MemWrite {
            enable: write.enable + more,
            addr: write.addr + more,
            mask: write.mask + more,
            value: write.value + more,
        };
        made.mem_write(index, copy)?;
    }
    Ok(())
}

/// The writes of the memories.
pub(crate) fn put_mem_writes(
    made: &mut Net,
    net: &Net,
    how: Rebuild,
    more: u64,
) -> Result<(), Memory>
    requires more { more ≡ offset net.now }
    requires few { more < 2 ^ 33 }
    requires long { length net.now.nodes < 2 ^ 63 }
    requires begun { made.old ≡ stages.with_mem_writes how net.now 0 }
    requires stand { stages.Stand net.now made.old }
    ensures writes { OnOk result (made.new ≡ stages.with_mem_writes how net.now (length net.now.mems)) }
    ensures stand { OnOk result (stages.Stand net.now made.new) }
{
    for (index, own) in net.mems().iter().enumerate() {
        put_writes(made, net, index as u32, own.writes.as_slice(), more)?;
    }
    Ok(())
}

/// The assumptions.
pub(crate) fn put_assumes(made: &mut Net, net: &Net, how: Rebuild, more: u64) -> Result<(), Memory>
    requires more { more ≡ offset net.now }
    requires few { more < 2 ^ 33 }
    requires long { length net.now.nodes < 2 ^ 63 }
    requires begun { made.old ≡ stages.with_assumes how net.now 0 }
    requires stand { stages.Stand net.now made.old }
    ensures assumes { OnOk result (made.new ≡ stages.with_assumes how net.now (length net.now.assumes)) }
    ensures stand { OnOk result (stages.Stand net.now made.new) }
{
    for id in net.assumes() {
        let copy = *id + more;
        made.assume(copy)?;
    }
    Ok(())
}
