//! The nodes of items without blocks and turns, one behind the other.
ghost use Rattle.std.specs.Prelude.{◌≡◌};
ghost use Rattle.vl_elab_places.specs.Passing as spec;

use crate::cursor::Cursor;
use crate::exprs::{pass_expr, pass_target};
use crate::stmts::pass_stmt;
use fv_text::Pos;
use vl_tree::{Assignment, DeclaredName, Expr, Item, ItemKind, Parameter, Range, RegionMark};

/// Behind a value that may be there.
pub(crate) fn pass_value(value: &Option<Expr>, start: Cursor) -> Cursor
    ensures { result ≡ spec.value_passed value.now start }
{
    match value {
        None => start,
        Some(value) => pass_expr(value, start),
    }
}

/// Behind the bounds of a declared range.
pub(crate) fn pass_range(range: &Option<Range>, start: Cursor) -> Cursor
    ensures { result ≡ spec.range_passed range.now start }
{
    match range {
        None => start,
        Some(range) => {
            let between = pass_expr(&range.left, start);
            pass_expr(&range.right, between)
        }
    }
}

fn pass_name(name: &DeclaredName, start: Cursor) -> Cursor
    ensures { result ≡ spec.value_passed name.now.value
        (spec.range_passed name.now.words (spec.moved 1 name.now.pos start)) }
{
    let at = start.moved(1, name.pos);
    let between = pass_range(&name.words, at);
    pass_value(&name.value, between)
}

fn pass_declared(all: &[DeclaredName], start: Cursor) -> Cursor
    ensures { result ≡ spec.declared_passed all.now start }
{
    let mut at = start;
    for name in all {
        at = pass_name(name, at);
    }
    at
}

/// Behind a parameter.
pub(crate) fn pass_parameter(parameter: &Parameter, start: Cursor) -> Cursor
    ensures { result ≡ spec.expr_passed parameter.now.value
        (spec.range_passed parameter.now.shape.range (spec.moved 1 parameter.now.pos start)) }
{
    let at = start.moved(1, parameter.pos);
    let between = pass_range(&parameter.shape.range, at);
    pass_expr(&parameter.value, between)
}

fn pass_parameters(all: &[Parameter], start: Cursor) -> Cursor
    ensures { result ≡ spec.parameters_passed all.now start }
{
    let mut at = start;
    for parameter in all {
        at = pass_parameter(parameter, at);
    }
    at
}

fn pass_assignment(assignment: &Assignment, start: Cursor) -> Cursor
    ensures { result ≡ spec.expr_passed assignment.now.value (spec.target_passed assignment.now.target start) }
{
    let between = pass_target(&assignment.target, start);
    pass_expr(&assignment.value, between)
}

fn pass_assignments(all: &[Assignment], start: Cursor) -> Cursor
    ensures { result ≡ spec.assignments_passed all.now start }
{
    let mut at = start;
    for assignment in all {
        at = pass_assignment(assignment, at);
    }
    at
}

/// Behind an item without what its turns add: of a loop behind its start, of an `if` behind its condition. A generate
/// region counts at its beginning.
pub(crate) fn pass_item(item: &Item, start: Cursor) -> Cursor
    ensures { result ≡ spec.own_passed item.now start }
{
    let at = start.moved(1, item.pos);
    match &item.kind {
        ItemKind::Generate(RegionMark::Close) => start,
        ItemKind::Declaration(declaration) => {
            let between = pass_range(&declaration.shape.range, at);
            pass_declared(declaration.names.as_slice(), between)
        }
        ItemKind::Integer(names) => pass_declared(names.as_slice(), at),
        ItemKind::Parameter(_, all) => pass_parameters(all.as_slice(), at),
        ItemKind::Assign(all) => pass_assignments(all.as_slice(), at),
        ItemKind::Always(_, stmt) | ItemKind::Initial(stmt) => pass_stmt(stmt, at),
        ItemKind::Genvar(_) | ItemKind::Instance(_) | ItemKind::Generate(RegionMark::Open) => at,
        ItemKind::For(head, _) => pass_expr(&head.start, at),
        ItemKind::If(condition, _, _) => pass_expr(condition, at),
    }
}
