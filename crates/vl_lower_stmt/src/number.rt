//! Numbers of nodes that depend on nothing.

ghost use Rattle.std.specs.Prelude.{◌≡◌, [], IfOk, map};
ghost use Rattle.wn_net.specs.Net as spec;
ghost use Rattle.wn_net.specs.Net.{AreNodes, value_at};
ghost use Rattle.vl_lower_stmt.specs.First.{nothing_given};

use fv_text::{List, Memory};
use std::alloc::Global;
use wn_net::{Net, NodeId, State};

/// The value of each node of a net without inputs, registers and memories.
fn values_of(alloc: Global, net: &Net) -> Result<Vec<u128>, Memory>
    requires inputs { net.now.inputs ≡ [] }
    requires regs { net.now.regs ≡ [] }
    requires mems { net.now.mems ≡ [] }
    ensures { IfOk result (λ values. values.items ≡ spec.values_of net.now nothing_given) }
{
    let state = State {
        regs: List::new(alloc),
        mems: List::new(alloc),
    };
    let mut values = vec![in alloc; 0; net.nodes().len()]?;
    net.eval(&[], &state, values.as_mut_slice());
    Ok(values)
}

/// The numbers of these nodes.
pub(crate) fn numbers_of(alloc: Global, net: &Net, cells: &[NodeId]) -> Result<List<u128>, Memory>
    requires inputs { net.now.inputs ≡ [] }
    requires regs { net.now.regs ≡ [] }
    requires mems { net.now.mems ≡ [] }
    requires cells { AreNodes net.now cells.now }
    ensures { IfOk result (λ numbers. numbers ≡ map (value_at net.now nothing_given) cells.now) }
{
    let values = values_of(alloc, net)?;
    let mut numbers = List::new(alloc);
    for cell in cells {
        numbers.push(values[*cell as usize])?;
    }
    Ok(numbers)
}
