//! What an instance joins to the ports of its module.
ghost use Rattle.std.specs.Prelude.{◌≡◌, ◌∷◌, [], Some, OnOk};
ghost use Rattle.std.specs.Option.{option_copied};
ghost use Rattle.vl_tree.specs.declared.declaration.Direction.TheVariants as direction;
ghost use Rattle.vl_mean.specs.Parts as parts;
ghost use Rattle.vl_mean.specs.Scopes as scopes_spec;
ghost use Rattle.vl_elab_emit.specs.Behind as spec;
ghost use Rattle.vl_elab_emit.specs.OwnParts.{joined_part};

use crate::values::{plain_expr, plain_target};
use fv_text::{Memory, Pos, Text};
use std::alloc::Global;
use vl_elab_check_stmt::target_of;
use vl_elab_draft::{Draft, Scopes, write_equation};
use vl_size::{Class, Decl};
use vl_tree::{Direction, Expr, ExprKind};

fn is_clock_decl(decl: Option<&Decl>) -> bool
    ensures { result ≡ scopes_spec.is_clock_decl (option_copied decl.entry) }
{
    match decl {
        None => false,
        Some(decl) => matches!(decl.class, Class::Clock),
    }
}

/// Whether an expression is the clock, by its plain name.
pub fn is_clock(expr: &Expr, scopes: &Scopes) -> bool
    ensures { result ≡ scopes_spec.is_clock scopes.now (Some expr.now) }
{
    match &expr.kind {
        ExprKind::Name(name, all) => all.is_empty() && is_clock_decl(scopes.declared(name)),
        ExprKind::Number(_) | ExprKind::Paren(_) | ExprKind::Unary(_, _) => false,
        ExprKind::Binary(_, _, _) | ExprKind::Conditional(_, _, _) => false,
        ExprKind::Concat(_) | ExprKind::Repeat(_, _) | ExprKind::Cast(_, _) => false,
    }
}

/// An input has the value of what it is joined to, but the clock has none.
fn write_input(
    alloc: Global,
    pos: Pos,
    port: &Text,
    value: &Expr,
    scopes: &Scopes,
    inside: &Scopes,
    draft: &mut Draft,
) -> Result<(), Memory>
    ensures { OnOk result (spec.StandBehind draft.old (spec.placed_at pos
        (parts.connection_part scopes.now inside.now direction.Input port.now value.now)) draft.new) }
{
    if is_clock(value, scopes) {
        return Ok(());
    }
    let target = plain_target(alloc, port)?;
    write_equation(alloc, pos, &target, inside, value, scopes, draft)
}

/// What an output is joined to has its value.
fn write_output(
    alloc: Global,
    pos: Pos,
    port: &Text,
    value: &Expr,
    scopes: &Scopes,
    inside: &Scopes,
    draft: &mut Draft,
) -> Result<(), Memory>
    ensures { OnOk result (spec.StandBehind draft.old (spec.placed_at pos
        (parts.connection_part scopes.now inside.now direction.Output port.now value.now)) draft.new) }
{
    let target = target_of(alloc, value)?;
    match target {
        None => Ok(()),
        Some(target) => {
            let value = plain_expr(alloc, port)?;
            write_equation(alloc, pos, &target, scopes, &value, inside, draft)
        }
    }
}

/// Writes what an instance joins to a port of its module (IEEE 1364-2005, section 12.3.6): an input has the value of
/// what it is joined to, but the clock has none; what an output is joined to has its value. `direction`: that of the
/// port, None where the module has none of the name; `scopes`: those around the instance, `inside`: those of the
/// module in it. The place is that of the connection.
#[tactic(auto, using(crate::proofs::Standing::nothing_more))]
pub fn write_joined(
    alloc: Global,
    pos: Pos,
    direction: Option<Direction>,
    port: &Text,
    value: &Option<Expr>,
    scopes: &Scopes,
    inside: &Scopes,
    draft: &mut Draft,
) -> Result<(), Memory>
    ensures { OnOk result (spec.StandBehind draft.old (spec.placed_at pos
        (joined_part scopes.now inside.now direction port.now value.now)) draft.new) }
{
    match value {
        None => Ok(()),
        Some(value) => match direction {
            None => Ok(()),
            Some(Direction::Input) => write_input(alloc, pos, port, value, scopes, inside, draft),
            Some(Direction::Output) => write_output(alloc, pos, port, value, scopes, inside, draft),
        },
    }
}
