ghost use Rattle.std.specs.Prelude.{◌≡◌, ◌<◌, ◌≤◌, ◌++◌, ◌^◌, length, IfOk, OnOk};
ghost use Rattle.bb_aig.specs.Graph.{inputs_of, IsLit};
ghost use Rattle.aiger_text.specs.Profile.{SaysGraph};
ghost use Rattle.aiger_text.specs.Written.{
  aag_text,
  header_text,
  inputs_text,
  gates_text,
  names_text,
  input_text,
  gate_text,
  name_text,
  with_end,
};

use bb_aig::{Aig, AigNode, Lit};
use fv_text::{Memory, Text};
use itoa::Buffer;
use std::alloc::Global;

/// The text of a graph, whose output is the root, with names of its inputs, in order.
pub fn aag(alloc: Global, aig: &Aig, root: Lit, names: &[Text]) -> Result<Vec<u8>, Memory>
    ensures text { IfOk result (λ bytes. bytes.items ≡ aag_text aig.now root names.now) }
    ensures says { IfOk result (λ bytes. IsLit aig.now root → SaysGraph bytes.items aig.now root) }
{
    let mut out = Vec::new(alloc);
    let nodes = aig.behind_false();
    put_header(&mut out, aig)?;
    put_inputs(&mut out, nodes)?;
    put_number(&mut out, root, b'\n')?;
    put_gates(&mut out, nodes)?;
    put_names(&mut out, names)?;
    Ok(out)
}

/// A number, and the byte behind it.
fn put_number(out: &mut Vec<u8>, number: u64, end: u8) -> Result<(), Memory>
    ensures { OnOk result (out.new.items ≡ out.old.items ++ with_end end number) }
{
    let mut buffer = Buffer::new();
    out.extend_from_slice(buffer.format(number).as_bytes())?;
    out.push(end)?;
    Ok(())
}

#[tactic(auto, using(crate::proofs::InputsCounted::some_node, crate::proofs::InputsCounted::inputs_below))]
fn put_header(out: &mut Vec<u8>, aig: &Aig) -> Result<(), Memory>
    ensures { OnOk result (out.new.items ≡ out.old.items ++ header_text aig.now) }
{
    let most = aig.len() as u64 - 1;
    let inputs = aig.inputs();
    out.extend_from_slice(b"aag ")?;
    put_number(out, most, b' ')?;
    put_number(out, inputs, b' ')?;
    out.extend_from_slice(b"0 1 ")?;
    put_number(out, most - inputs, b'\n')?;
    Ok(())
}

/// The line of a node, if it is an input.
fn put_input(out: &mut Vec<u8>, index: u64, node: &AigNode) -> Result<(), Memory>
    requires { index < 2 ^ 63 }
    ensures { OnOk result (out.new.items ≡ out.old.items ++ input_text index node.now) }
{
    match node {
        AigNode::False => Ok(()),
        AigNode::Input(_) => put_number(out, 2 * index, b'\n'),
        AigNode::And(_, _) => Ok(()),
    }
}

/// The lines of the inputs among the nodes behind node 0.
fn put_inputs(out: &mut Vec<u8>, nodes: &[AigNode]) -> Result<(), Memory>
    requires { length nodes.now ≤ 2 ^ 62 }
    ensures { OnOk result (out.new.items ≡ out.old.items ++ inputs_text 1 nodes.now) }
{
    for (index, node) in nodes.iter().enumerate() {
        put_input(out, index as u64 + 1, node)?;
    }
    Ok(())
}

/// The line of a node, if it is a gate.
fn put_gate(out: &mut Vec<u8>, index: u64, node: &AigNode) -> Result<(), Memory>
    requires { index < 2 ^ 63 }
    ensures { OnOk result (out.new.items ≡ out.old.items ++ gate_text index node.now) }
{
    match node {
        AigNode::False => Ok(()),
        AigNode::Input(_) => Ok(()),
        AigNode::And(left, right) => {
            put_number(out, 2 * index, b' ')?;
            put_number(out, *left, b' ')?;
            put_number(out, *right, b'\n')
        }
    }
}

/// The lines of the gates among the nodes behind node 0.
fn put_gates(out: &mut Vec<u8>, nodes: &[AigNode]) -> Result<(), Memory>
    requires { length nodes.now ≤ 2 ^ 62 }
    ensures { OnOk result (out.new.items ≡ out.old.items ++ gates_text 1 nodes.now) }
{
    for (index, node) in nodes.iter().enumerate() {
        put_gate(out, index as u64 + 1, node)?;
    }
    Ok(())
}

/// The line that names an input.
fn put_name(out: &mut Vec<u8>, index: usize, name: &Text) -> Result<(), Memory>
    ensures { OnOk result (out.new.items ≡ out.old.items ++ name_text index name.now) }
{
    out.push(b'i')?;
    put_number(out, index as u64, b' ')?;
    out.extend_from_slice(name.bytes())?;
    out.push(b'\n')?;
    Ok(())
}

fn put_names(out: &mut Vec<u8>, names: &[Text]) -> Result<(), Memory>
    ensures { OnOk result (out.new.items ≡ out.old.items ++ names_text 0 names.now) }
{
    for (index, name) in names.iter().enumerate() {
        put_name(out, index, name)?;
    }
    Ok(())
}
