//! The lines behind the header.
ghost use Rattle.std.specs.Prelude.{◌≡◌, ◌==◌, ◌<◌, ◌^◌, [], length, nat_lt, false};
ghost use Rattle.aiger_text.specs.Lines.{lines};
ghost use Rattle.aiger_text.specs.Said as spec;
ghost use Rattle.aiger_text.specs.Said.{gate_line, read_inputs};
ghost use Rattle.aiger_text.specs.Bodies.{said_of, AreInputs, IsBody, Goes, Reads};

use crate::fault::AagFault;
use crate::gate::{Gate, Output, gate_of};
use crate::header::Sizes;
use crate::inputs::{Inputs, define};
use crate::line::next_line;
use crate::number::literal;
use fv_lines::next_place;
use indexmap::IndexSet;
use std::alloc::Global;

/// What lines say so far, and the set of the variables that they define.
#[derive(Drop)]
pub(crate) struct Body {
    pub inputs: Vec<u128>,
    pub output: Output,
    pub gates: Vec<Gate>,
    pub variables: IndexSet<u128>,
}

impl Body {
    /// No gates yet.
    #[tactic(auto, using(crate::proofs::BodyLaws::no_gates))]
    fn new(alloc: Global, inputs: Inputs, output: Output) -> Body
        requires { AreInputs inputs }
        ensures body { IsBody result }
        ensures value { said_of result ≡ record { inputs = inputs.literals.items; output = output; gates = [] } }
    {
        let Inputs {
            literals,
            variables,
        } = inputs;
        Body {
            inputs: literals,
            output,
            gates: Vec::new(alloc),
            variables,
        }
    }

    /// Whether there are as many gates as the header says.
    fn is_full(&self, sizes: Sizes) -> bool
        ensures { result ≡ (length self.now.gates.items == sizes.gates) }
    {
        self.gates.len() as u128 == sizes.gates
    }

    /// One gate more.
    #[tactic(auto, using(crate::proofs::BodyLaws::gate_bad))]
    fn take(&mut self, most: u128, line: u32, text: &[u8]) -> Result<(), AagFault>
        requires body { IsBody self.old }
        requires most { most < 10 ^ 20 }
        ensures { Goes self.new result (gate_line most line (said_of self.old) text.now) }
    {
        let Some(gate) = gate_of(text, most, line) else {
            return Err(AagFault::Literal { line });
        };
        define(&mut self.variables, line, gate.literal)?;
        self.gates.push(gate)?;
        Ok(())
    }

    /// The gates, as many as the header says. The first line of the text has this number.
    fn take_all(&mut self, sizes: Sizes, first: u32, text: &[u8]) -> Result<(), AagFault>
        requires body { IsBody self.old }
        requires most { sizes.most < 10 ^ 20 }
        ensures { Goes self.new result (spec.read_gates sizes first (said_of self.old) (lines text.now)) }
    {
        let mut rest = text;
        let mut line = first;
        while !rest.is_empty() {
            if self.is_full(sizes) {
                return Ok(());
            }
            let (text, behind) = next_line(rest);
            self.take(sizes.most, line, text)?;
            line = next_place(line);
            rest = behind;
        }
        if self.is_full(sizes) {
            Ok(())
        } else {
            Err(AagFault::Open { line })
        }
    }
}

/// The inputs, the output and the gates. The first line of the text has this number.
pub(crate) fn read_body(
    alloc: Global,
    sizes: Sizes,
    first: u32,
    text: &[u8],
) -> Result<Body, AagFault>
    requires { sizes.most < 10 ^ 20 }
    ensures { Reads result (read_inputs sizes first [] (lines text.now)) }
{
    let mut inputs = Inputs::new(alloc);
    let (line, rest) = inputs.take_all(sizes, first, text)?;
    read_behind(alloc, sizes, line, inputs, rest)
}

/// The output and the gates, behind all inputs.
fn read_behind(
    alloc: Global,
    sizes: Sizes,
    line: u32,
    inputs: Inputs,
    text: &[u8],
) -> Result<Body, AagFault>
    requires inputs { AreInputs inputs }
    requires most { sizes.most < 10 ^ 20 }
    requires many { nat_lt (length inputs.literals.items) sizes.inputs ≡ false }
    requires more { 0 < length text.now }
    ensures { Reads result (read_inputs sizes line inputs.literals.items (lines text.now)) }
{
    let (first, rest) = next_line(text);
    let Some(literal) = literal(first, sizes.most) else {
        return Err(AagFault::Literal { line });
    };
    let mut body = Body::new(alloc, inputs, Output { line, literal });
    body.take_all(sizes, next_place(line), rest)?;
    Ok(body)
}
