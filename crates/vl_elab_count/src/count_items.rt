//! Nodes of items, ports and parameters.
ghost use Rattle.std.specs.Prelude.{◌≡◌, ◌+◌};
ghost use Rattle.vl_mean.specs.ConstantFaults.{capped};
ghost use Rattle.vl_mean.specs.FlatLaw.{nodes, target_nodes as target_nodes_of};
ghost use Rattle.vl_mean.specs.Walk.{Place};
ghost use Rattle.vl_elab_spec.specs.Counts as counts;
ghost use Rattle.vl_elab_count.specs.Parts as spec;

use crate::exprs::{expr_nodes, target_nodes};
use crate::stmts::stmt_nodes;
use vl_mean::widths::plus;
use vl_tree::{Assignment, DeclaredName, Expr, Item, ItemKind, Parameter, Range, RegionMark};

/// A value that may be there.
pub fn optional_nodes(value: &Option<Expr>) -> u64
    ensures { result ≡ capped (counts.value_nodes value.now) }
{
    match value {
        None => 0,
        Some(value) => expr_nodes(value),
    }
}

/// A declared range: the nodes of its bounds.
#[tactic(auto, using(crate::proofs::CountSums::sums))]
pub fn range_nodes(range: &Option<Range>) -> u64
    ensures { result ≡ capped (counts.range_nodes range.now) }
{
    match range {
        None => 0,
        Some(range) => {
            let left = expr_nodes(&range.left);
            let right = expr_nodes(&range.right);
            plus(left, right)
        }
    }
}

#[tactic(auto, using(crate::proofs::CountSums::sums))]
fn name_nodes(name: &DeclaredName) -> u64
    ensures { result ≡ capped (counts.range_nodes name.now.words + counts.value_nodes name.now.value + 1) }
{
    let words = range_nodes(&name.words);
    let value = optional_nodes(&name.value);
    plus(plus(words, value), 1)
}

#[tactic(auto, using(crate::proofs::CountSums::sums))]
fn names_nodes(all: &[DeclaredName]) -> u64
    ensures { result ≡ capped (counts.name_nodes all.now) }
{
    let mut total = 0;
    let mut place = all.len();
    while place > 0 {
        place -= 1;
        let here = name_nodes(&all[place]);
        total = plus(here, total);
    }
    total
}

#[tactic(auto, using(crate::proofs::CountSums::sums))]
fn one_parameter(parameter: &Parameter) -> u64
    ensures { result ≡ capped (counts.range_nodes parameter.now.shape.range + nodes parameter.now.value + 1) }
{
    let range = range_nodes(&parameter.shape.range);
    let value = expr_nodes(&parameter.value);
    plus(plus(range, value), 1)
}

/// Parameters: one for each, and the nodes of their ranges and values.
#[tactic(auto, using(crate::proofs::CountSums::sums))]
pub fn parameter_nodes(all: &[Parameter]) -> u64
    ensures { result ≡ capped (counts.parameter_nodes all.now) }
{
    let mut total = 0;
    let mut place = all.len();
    while place > 0 {
        place -= 1;
        let here = one_parameter(&all[place]);
        total = plus(here, total);
    }
    total
}

#[tactic(auto, using(crate::proofs::CountSums::sums))]
fn one_assignment(assignment: &Assignment) -> u64
    ensures { result ≡ capped (target_nodes_of assignment.now.target + nodes assignment.now.value) }
{
    let target = target_nodes(&assignment.target);
    let value = expr_nodes(&assignment.value);
    plus(target, value)
}

#[tactic(auto, using(crate::proofs::CountSums::sums))]
fn assignment_nodes(all: &[Assignment]) -> u64
    ensures { result ≡ capped (counts.assignment_nodes all.now) }
{
    let mut total = 0;
    let mut place = all.len();
    while place > 0 {
        place -= 1;
        let here = one_assignment(&all[place]);
        total = plus(here, total);
    }
    total
}

/// An `if` by itself.
#[tactic(auto, using(crate::proofs::CountSums::sums))]
fn if_nodes(condition: &Expr) -> u64
    ensures { result ≡ capped (nodes condition.now + 1) }
{
    plus(expr_nodes(condition), 1)
}

/// An item by itself: of a loop its head with all its turns, of an `if` its condition. Blocks are counted where they
/// are walked, a generate region at its `generate`. `turns`: how many nodes a loop's turns have.
#[tactic(auto, using(crate::proofs::CountSums::sums))]
pub fn item_nodes(item: &Item, turns: u64) -> u64
    ensures { (at : Place) → spec.TurnsHave at item.now turns → result ≡ capped (counts.item_nodes at item.now) }
{
    match &item.kind {
        ItemKind::Declaration(declaration) => {
            let range = range_nodes(&declaration.shape.range);
            let names = names_nodes(declaration.names.as_slice());
            plus(plus(range, names), 1)
        }
        ItemKind::Integer(names) => plus(names_nodes(names.as_slice()), 1),
        ItemKind::Parameter(_, all) => plus(parameter_nodes(all.as_slice()), 1),
        ItemKind::Assign(all) => plus(assignment_nodes(all.as_slice()), 1),
        ItemKind::Always(_, stmt) | ItemKind::Initial(stmt) => plus(stmt_nodes(stmt), 1),
        ItemKind::Genvar(_) | ItemKind::Instance(_) | ItemKind::Generate(RegionMark::Open) => 1,
        ItemKind::Generate(RegionMark::Close) => 0,
        ItemKind::For(head, _) => plus(plus(expr_nodes(&head.start), turns), 1),
        ItemKind::If(condition, _, _) => if_nodes(condition),
    }
}
