//! The clauses of a graph.
ghost use Rattle.std.specs.Prelude.{
  ◌≡◌,
  ℕ,
  ◌+◌,
  ◌*◌,
  ◌<◌,
  ◌≤◌,
  ◌^◌,
  [],
  ◌++◌,
  ◌∷◌,
  length,
  IfOk,
  OnOk,
  pos,
};
ghost use Rattle.std.specs.List.{AllByRecursion};
ghost use Rattle.cnf_form.specs.Cnf.{IsLiteral};
ghost use Rattle.bb_aig.specs.Graph.{IsLit, IsFitting};
ghost use Rattle.bb_clauses.specs.Clauses as spec;
ghost use Rattle.bb_clauses.specs.Clauses.{Tells};

use bb_aig::{Aig, AigNode, Lit, complement};
use cnf_form::Formula;
use fv_text::Memory;
use std::alloc::Global;

/// A literal of a node other than node 0, as that of a variable.
fn to_literal(vars: u64, lit: Lit) -> i64
    requires some { 2 ≤ lit }
    requires below { lit < 2 * vars + 2 }
    requires few { vars < 2 ^ 63 }
    ensures value { result ≡ spec.to_literal lit }
    ensures names { IsLiteral vars result }
{
    let var = (lit / 2) as i64;
    if lit % 2 == 1 { -var } else { var }
}

/// Adds the clause of these literals, where it says anything: not where one is 1, which is true, and without those that
/// are 0, which is false. A literal is twice the number of a variable, and 1 more where it is negated. The only error is
/// that no memory is left, and the clauses are then as they were.
pub fn push_clause(alloc: Global, formula: &mut Formula, lits: &[Lit]) -> Result<(), Memory>
    requires { AllByRecursion (λ l. l < 2 * formula.old.vars + 2) lits.now }
    ensures clauses { OnOk result (formula.new.clauses ≡ formula.old.clauses ++ spec.clause_of [] lits.now) }
    ensures vars { formula.new.vars ≡ formula.old.vars }
{
    let vars = formula.vars();
    let mut taken = Vec::new(alloc);
    for lit in lits {
        if *lit == 1 {
            return Ok(());
        }
        if *lit != 0 {
            taken.push(to_literal(vars, *lit))?;
        }
    }
    formula.push(taken.as_slice())
}

/// Says by three clauses that a literal is true exactly where both others are; those that say nothing aren't added. The
/// only error is that no memory is left, and some of the three may then stand.
pub fn push_and(
    alloc: Global,
    formula: &mut Formula,
    lit: Lit,
    a: Lit,
    b: Lit,
) -> Result<(), Memory>
    requires whole { lit < 2 * formula.old.vars + 2 }
    requires left { a < 2 * formula.old.vars + 2 }
    requires right { b < 2 * formula.old.vars + 2 }
    requires few { formula.old.vars ≤ 2 ^ 62 }
    ensures clauses { OnOk result (formula.new.clauses ≡ formula.old.clauses ++ spec.and_clauses lit a b) }
    ensures vars { formula.new.vars ≡ formula.old.vars }
{
    push_clause(alloc, formula, &[complement(lit), a])?;
    push_clause(alloc, formula, &[complement(lit), b])?;
    push_clause(alloc, formula, &[lit, complement(a), complement(b)])
}

/// Adds the clauses of a node.
fn push_node(
    alloc: Global,
    formula: &mut Formula,
    index: usize,
    node: &AigNode,
) -> Result<(), Memory>
    requires fits { (i : ℕ) × IsFitting index i node.now }
    requires within { index < formula.old.vars }
    requires few { formula.old.vars ≤ 2 ^ 62 }
    ensures clauses { OnOk result (formula.new.clauses ≡ formula.old.clauses ++ spec.node_clauses index node.now) }
    ensures vars { formula.new.vars ≡ formula.old.vars }
{
    match node {
        AigNode::False => Ok(()),
        AigNode::Input(_) => Ok(()),
        AigNode::And(a, b) => push_and(alloc, formula, 2 * index as u64, *a, *b),
    }
}

/// Says that a variable is true. The only error is that no memory is left.
pub fn push_true(formula: &mut Formula, var: u64) -> Result<(), Memory>
    requires some { 1 ≤ var }
    requires within { var ≤ formula.old.vars }
    requires few { var ≤ 2 ^ 62 }
    ensures clauses { OnOk result (formula.new.clauses ≡ formula.old.clauses ++ (pos var ∷ []) ∷ []) }
    ensures vars { formula.new.vars ≡ formula.old.vars }
{
    formula.push(&[var as i64])
}

/// The clauses that are true exactly where variables have the values of the nodes, and behind them that the root is
/// true: three for a gate. Variable `n` is node `n`, and the last variable is the root.
pub fn clauses_of(alloc: Global, aig: &Aig, root: Lit) -> Result<Formula, Memory>
    requires { IsLit aig.now root }
    ensures { IfOk result (λ f. Tells aig.now root f) }
{
    let count = aig.len() as u64;
    let mut formula = Formula::new(alloc, count);
    let behind = aig.behind_false();
    for (index, node) in behind.iter().enumerate() {
        push_node(alloc, &mut formula, index + 1, node)?;
    }
    push_and(alloc, &mut formula, 2 * count, root, 1)?;
    push_true(&mut formula, count)?;
    Ok(formula)
}
