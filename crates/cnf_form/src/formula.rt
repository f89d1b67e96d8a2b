ghost use Rattle.std.specs.Prelude.{
  ◌≡◌,
  ℕ,
  ◌<◌,
  ◌≤◌,
  ◌^◌,
  [],
  ◌∷◌,
  ◌++◌,
  length,
  slice_get,
  slice_index_or,
  OnOk,
  OnErr,
  OnSome,
  IfSome,
};
ghost use Rattle.std.specs.Prelude.{IsTrue, ◌↔◌};
ghost use Rattle.std.specs.Option.{option_copied};
ghost use Rattle.cnf_form.specs.Cnf.{Cnf, IsLiteral, AreLiterals, AreClauses};

use crate::flat::{part_at, push_starts};
use fv_text::Memory;
use std::alloc::Global;
use std::marker::Model;

/// A formula in conjunctive normal form: a number of variables, and clauses.
///
/// A clause is a list of literals, of which one has to be true: `n` for the variable `n`, and `-n` for its complement,
/// with variables from 1 on, as in DIMACS.
#[derive(Debug, Drop)]
pub struct Formula {
    vars: u64,
    /// The literals of all clauses, one clause behind the other.
    literals: Vec<i64>,
    /// Where each clause begins among them. It ends where the next one begins.
    starts: Vec<u32>,
}

impl Model for Formula {
    ghost use Rattle.std.specs.Prelude.{◌<◌, ◌^◌, length};
    ghost use Rattle.cnf_form.specs.Cnf.{Cnf, AreClauses};
    ghost use Rattle.cnf_form.specs.Flat.{Fills, clauses_from};

    ghost Value = { Cnf };

    ghost view = { λ f. record { vars = f.vars; clauses = clauses_from f.literals.items f.starts.items } };

    ghost invariant = { λ f. (f.vars < 2 ^ 63) × AreClauses f.vars (clauses_from f.literals.items f.starts.items)
        × Fills f.starts.items (length f.literals.items) };
}

impl Formula {
    /// A formula without a clause.
    pub fn new(alloc: Global, vars: u64) -> Formula
        requires { vars < 2 ^ 63 }
        ensures vars { result.vars ≡ vars }
        ensures clauses { result.clauses ≡ [] }
    {
        Formula {
            vars,
            literals: Vec::new(alloc),
            starts: Vec::new(alloc),
        }
    }

    /// Adds a clause behind the others. The literals before it are fewer than `2^32`; more are taken as want of memory,
    /// after which all is as before.
    pub fn push(&mut self, lits: &[i64]) -> Result<(), Memory>
        requires { AreLiterals self.old.vars lits.now }
        ensures ok { OnOk result (self.new.clauses ≡ self.old.clauses ++ lits.now ∷ []) }
        ensures vars { self.new.vars ≡ self.old.vars }
        ensures err { OnErr result (self.new ≡ self.old) }
    {
        let Ok(start) = u32::try_from(self.literals.len()) else {
            return Err(Memory);
        };
        self.starts.reserve(1)?;
        self.literals.extend_from_slice(lits)?;
        self.starts.push_reserved(start);
        Ok(())
    }

    /// Adds all clauses of another formula behind the others, in one go. Its literals, and those that stand before them,
    /// are fewer than `2^32`; more are taken as want of memory, after which all is as before.
    pub fn push_all(&mut self, other: &Formula) -> Result<(), Memory>
        requires { other.now.vars ≤ self.old.vars }
        ensures ok { OnOk result (self.new.clauses ≡ self.old.clauses ++ other.now.clauses) }
        ensures vars { self.new.vars ≡ self.old.vars }
        ensures err { OnErr result (self.new ≡ self.old) }
    {
        let end = self.literals.len();
        if end.saturating_add(other.literals.len()) > u32::MAX as usize {
            return Err(Memory);
        }
        self.starts.reserve(other.starts.len())?;
        self.literals.extend_from_slice(&other.literals)?;
        push_starts(&mut self.starts, &other.starts, end);
        Ok(())
    }

    /// The number of variables. It is below `2^63`, so each variable and its complement are an `i64`.
    pub fn vars(&self) -> u64
        ensures value { result ≡ self.now.vars }
        ensures small { result < 2 ^ 63 }
    {
        self.vars
    }

    /// The number of clauses. Their literals name variables of the formula.
    pub fn len(&self) -> usize
        ensures value { result ≡ length self.now.clauses }
        ensures small { result < 2 ^ 63 }
        ensures literals { AreClauses self.now.vars self.now.clauses }
    {
        self.starts.len()
    }

    pub fn is_empty(&self) -> bool
        ensures { IsTrue result ↔ (self.now.clauses ≡ []) }
    {
        self.len() == 0
    }

    /// The clause at the place, from 0 on. None exactly where the index isn't below the length.
    pub fn clause(&self, index: usize) -> Option<&[i64]>
        ensures value { option_copied result ≡ slice_get self.now.clauses index }
        ensures literals { IfSome result (λ lits. AreLiterals self.now.vars lits.now) }
    {
        part_at(&self.literals, &self.starts, index)
    }
}

/// The clause at a place below the length.
pub fn clause_at(formula: &Formula, index: usize) -> &[i64]
    requires { index < length formula.now.clauses }
    ensures value { result.now ≡ slice_index_or formula.now.clauses index result.now }
    ensures literals { AreLiterals formula.now.vars result.now }
{
    match formula.clause(index) {
        Some(clause) => clause,
        None => &[],
    }
}

/// Whether the literals may be a clause of a formula with so many variables.
pub fn are_literals(lits: &[i64], vars: u64) -> bool
    ensures { IsTrue result ↔ AreLiterals vars lits.now }
{
    for lit in lits {
        if !is_literal(lit, vars) {
            return false;
        }
    }
    true
}

/// Whether the literal is not 0 and names one of so many variables.
pub(crate) fn is_literal(lit: &i64, vars: u64) -> bool
    ensures { IsTrue result ↔ IsLiteral vars lit.now }
{
    let var = lit.unsigned_abs();
    0 < var && var <= vars
}
