//! The output and the gates of a text by nodes in place of variables.
ghost use Rattle.std.specs.Prelude.{◌≡◌, ◌+◌, ◌*◌, ◌<◌, ◌^◌, None, Some, length, map, OnOk, IfOk, IfErr, IfSome};
ghost use Rattle.aiger_text.specs.Faults.{OrMemory};
ghost use Rattle.aiger_text.specs.Profile.{unknown_line, undefined_line};
ghost use Rattle.aiger_text.specs.Bodies.{IsBody, said_of};
ghost use Rattle.aiger_text.specs.Wires as spec;
ghost use Rattle.aiger_text.specs.Wires.{IsUndefined, IsWired};

use crate::body::Body;
use crate::fault::AagFault;
use crate::gate::Gate;
use bb_aig::Lit;
use indexmap::IndexSet;
use std::alloc::Global;

/// At most so many variables are defined, so that the numbers of nodes fit 32 bits. More of them want memory.
const MOST_VARIABLES: usize = (1 << 32) - 1;

/// The operands of a gate as literals of nodes, and its line.
#[derive(Debug, Clone, Copy)]
pub(crate) struct Wire {
    pub line: u32,
    pub left: Lit,
    pub right: Lit,
}

/// Node 0 is false, and behind it stand the inputs and then the gates, in the order of lines.
#[derive(Drop)]
pub(crate) struct Wired {
    pub inputs: usize,
    pub root: Lit,
    pub wires: Vec<Wire>,
}

/// A literal by the node of its variable. None where the variable isn't among these.
fn wire_end(variables: &IndexSet<u128>, literal: u128) -> Option<Lit>
    requires { length variables.now.keys < 2 ^ 32 }
    ensures { result ≡ spec.wire_end variables.now.keys literal }
{
    let sign = (literal % 2) as u64;
    let variable = literal / 2;
    if variable == 0 {
        return Some(sign);
    }
    let index = variables.get_index_of(&variable)?;
    Some(2 * (index as u64 + 1) + sign)
}

fn wire_of(variables: &IndexSet<u128>, gate: Gate) -> Option<Wire>
    requires { length variables.now.keys < 2 ^ 32 }
    ensures { result ≡ spec.wire_of variables.now.keys gate }
{
    let left = wire_end(variables, gate.left)?;
    let right = wire_end(variables, gate.right)?;
    Some(Wire {
        line: gate.line,
        left,
        right,
    })
}

fn wires_of(
    alloc: Global,
    variables: &IndexSet<u128>,
    gates: &[Gate],
) -> Result<Vec<Wire>, AagFault>
    requires { length variables.now.keys < 2 ^ 32 }
    ensures wires { IfOk result (λ v. map (λ w. Some w) v.items ≡ map (spec.wire_of variables.now.keys) gates.now) }
    ensures known { OnOk result (unknown_line variables.now.keys gates.now ≡ None) }
    ensures unknown { IfErr result (IsUndefined (unknown_line variables.now.keys gates.now)) }
{
    let mut wires = Vec::new(alloc);
    for gate in gates {
        let Some(wire) = wire_of(variables, *gate) else {
            return Err(AagFault::Undefined { line: gate.line });
        };
        wires.push(wire)?;
    }
    Ok(wires)
}

impl Body {
    /// The output and the gates by nodes.
    pub(crate) fn wired(&self, alloc: Global) -> Result<Wired, AagFault>
        requires { IsBody self.now }
        ensures wired { IfOk result (λ w. IsWired (said_of self.now) w.inputs w.root w.wires.items) }
        ensures defined { OnOk result (undefined_line (said_of self.now) ≡ None) }
        ensures undefined { IfErr result (IsUndefined (undefined_line (said_of self.now))) }
    {
        if self.variables.len() > MOST_VARIABLES {
            return Err(AagFault::Memory);
        }
        let Some(root) = wire_end(&self.variables, self.output.literal) else {
            return Err(AagFault::Undefined {
                line: self.output.line,
            });
        };
        let wires = wires_of(alloc, &self.variables, self.gates.as_slice())?;
        Ok(Wired {
            inputs: self.inputs.len(),
            root,
            wires,
        })
    }
}
