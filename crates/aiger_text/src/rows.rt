//! Which gates a gate uses.
ghost use Rattle.std.specs.Prelude.{◌≡◌, ◌++◌, ◌<◌, ◌^◌, All, OnOk, IfOk};
ghost use Rattle.aiger_text.specs.Wires as spec;
ghost use Rattle.aiger_text.specs.Wires.{IsFew, gate_target};

use crate::wires::{Wire, Wired};
use bb_aig::Lit;
use fv_text::{List, Memory};
use std::alloc::Global;

/// Adds the gate of a literal, by its number among the gates, if the literal is one's.
fn put_target(row: &mut List<u32>, inputs: usize, lit: Lit) -> Result<(), Memory>
    requires { lit < 2 ^ 33 }
    ensures { OnOk result (row.new ≡ row.old ++ gate_target inputs lit) }
{
    let node = (lit / 2) as usize;
    if node > inputs {
        row.push((node - inputs - 1) as u32)?;
    }
    Ok(())
}

fn row_of(alloc: Global, inputs: usize, wire: Wire) -> Result<List<u32>, Memory>
    requires { IsFew wire }
    ensures { IfOk result (λ row. row ≡ spec.row_of inputs wire) }
{
    let mut row = List::new(alloc);
    put_target(&mut row, inputs, wire.left)?;
    put_target(&mut row, inputs, wire.right)?;
    Ok(row)
}

impl Wired {
    /// For each gate the gates that it uses.
    pub(crate) fn successors(&self, alloc: Global) -> Result<Vec<List<u32>>, Memory>
        requires { All IsFew self.now.wires.items }
        ensures { IfOk result (λ rows. rows.items ≡ spec.successors self.now.inputs self.now.wires.items) }
    {
        let mut rows = Vec::new(alloc);
        let wires = self.wires.as_slice();
        for wire in wires {
            rows.push(row_of(alloc, self.inputs, *wire)?)?;
        }
        Ok(rows)
    }
}
