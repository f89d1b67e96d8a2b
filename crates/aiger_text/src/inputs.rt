//! The lines of the inputs.
ghost use Rattle.std.specs.Prelude.{
  ◌≡◌,
  ◌++◌,
  ◌∷◌,
  ◌<◌,
  ◌^◌,
  [],
  length,
  nat_eq,
  nat_lt,
  true,
  false,
  OnOk,
  IfOk,
  IfErr,
};
ghost use Rattle.std.specs.List.{list_any};
ghost use Rattle.aiger_text.specs.declared.fault.AagFault.TheVariants as fault;
ghost use Rattle.aiger_text.specs.Faults.{OrMemory};
ghost use Rattle.aiger_text.specs.Lines.{lines};
ghost use Rattle.aiger_text.specs.Said.{variable, input_line, read_inputs};
ghost use Rattle.aiger_text.specs.Bodies.{AreInputs, InputsGo};

use crate::fault::AagFault;
use crate::gate::defined_literal;
use crate::header::Sizes;
use crate::line::next_line;
use fv_lines::next_place;
use indexmap::IndexSet;
use std::alloc::Global;

/// The inputs so far, and the set of their variables.
#[derive(Drop)]
pub(crate) struct Inputs {
    pub literals: Vec<u128>,
    pub variables: IndexSet<u128>,
}

/// Adds the variable of a literal, if it isn't there.
pub(crate) fn define(
    variables: &mut IndexSet<u128>,
    line: u32,
    literal: u128,
) -> Result<(), AagFault>
    ensures new { OnOk result (list_any (nat_eq (variable literal)) variables.old.keys ≡ false) }
    ensures keys { OnOk result (variables.new.keys ≡ variables.old.keys ++ variable literal ∷ []) }
    ensures twice { IfErr result (λ e. OrMemory e ((e ≡ fault.Twice line)
        × (list_any (nat_eq (variable literal)) variables.old.keys ≡ true))) }
{
    let added = variables.insert(literal / 2)?;
    if added {
        Ok(())
    } else {
        Err(AagFault::Twice { line })
    }
}

impl Inputs {
    pub(crate) fn new(alloc: Global) -> Inputs
        ensures inputs { AreInputs result }
        ensures none { result.literals.items ≡ [] }
    {
        Inputs {
            literals: Vec::new(alloc),
            variables: IndexSet::new(alloc),
        }
    }

    /// Whether there are fewer than the header says.
    fn lacks(&self, sizes: Sizes) -> bool
        ensures { result ≡ nat_lt (length self.now.literals.items) sizes.inputs }
    {
        (self.literals.len() as u128) < sizes.inputs
    }

    /// One input more.
    #[tactic(auto, using(crate::proofs::BodyLaws::input_bad))]
    fn take(&mut self, most: u128, line: u32, text: &[u8]) -> Result<(), AagFault>
        requires inputs { AreInputs self.old }
        requires most { most < 10 ^ 20 }
        ensures { InputsGo self.new result (input_line most line self.old.literals.items text.now) }
    {
        let Some(literal) = defined_literal(text, most) else {
            return Err(AagFault::Literal { line });
        };
        define(&mut self.variables, line, literal)?;
        self.literals.push(literal)?;
        Ok(())
    }

    /// The inputs, as many as the header says: the number of the line behind them, and the text from this line on, of
    /// which there is some. The first line of the text has this number.
    #[tactic(auto, using(crate::proofs::BodyLaws::inputs_open))]
    pub(crate) fn take_all<'a>(
        &mut self,
        sizes: Sizes,
        first: u32,
        text: &'a [u8],
    ) -> Result<(u32, &'a [u8]), AagFault>
        requires inputs { AreInputs self.old }
        requires most { sizes.most < 10 ^ 20 }
        ensures inputs { OnOk result (AreInputs self.new) }
        ensures reads { IfOk result (λ at. read_inputs sizes at.0 self.new.literals.items (lines at.1.now)
            ≡ read_inputs sizes first self.old.literals.items (lines text.now)) }
        ensures many { OnOk result (nat_lt (length self.new.literals.items) sizes.inputs ≡ false) }
        ensures more { IfOk result (λ at. 0 < length at.1.now) }
        ensures err { IfErr result (λ e. OrMemory e
            (read_inputs sizes first self.old.literals.items (lines text.now) ≡ Err e)) }
    {
        let mut rest = text;
        let mut line = first;
        while !rest.is_empty() {
            if !self.lacks(sizes) {
                return Ok((line, rest));
            }
            let (text, behind) = next_line(rest);
            self.take(sizes.most, line, text)?;
            line = next_place(line);
            rest = behind;
        }
        Err(AagFault::Open { line })
    }
}
