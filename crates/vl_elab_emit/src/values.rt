//! Values in declarations: that of a net is an assignment, that of a variable its value at first.
ghost use Rattle.std.specs.Prelude.{◌≡◌, ◌∷◌, [], IfOk, OnOk};
ghost use Rattle.vl_mean.specs.Parts as parts;
ghost use Rattle.vl_elab_emit.specs.Behind as spec;
ghost use Rattle.vl_elab_emit.specs.OwnParts.{placed_values};

use crate::starting::write_start;
use fv_text::{List, Memory, Pos, Text};
use std::alloc::Global;
use vl_elab_draft::{Draft, Scopes, write_equation};
use vl_tree::{DeclaredName, Expr, ExprKind, Lval, LvalKind, NetKind};

/// The place of what isn't written.
fn nowhere() -> Pos
    ensures { result ≡ parts.here }
{
    Pos {
        file: 1,
        line: 1,
        col: 1,
    }
}

/// A name by itself as a target.
pub(crate) fn plain_target(alloc: Global, name: &Text) -> Result<Lval, Memory>
    ensures { IfOk result (λ l. l ≡ parts.plain_target name.now) }
{
    let name = name.copied(alloc)?;
    Ok(Lval {
        pos: nowhere(),
        kind: LvalKind::Name(name, List::new(alloc)),
    })
}

/// A name by itself as an expression.
pub(crate) fn plain_expr(alloc: Global, name: &Text) -> Result<Expr, Memory>
    ensures { IfOk result (λ e. e ≡ parts.plain name.now) }
{
    let name = name.copied(alloc)?;
    Ok(Expr {
        pos: nowhere(),
        kind: ExprKind::Name(name, List::new(alloc)),
    })
}

fn write_value(
    alloc: Global,
    pos: Pos,
    kind: NetKind,
    name: &Text,
    value: &Expr,
    scopes: &Scopes,
    draft: &mut Draft,
) -> Result<(), Memory>
    requires { spec.MayStandBehind draft.old (parts.value_part scopes.now kind name.now value.now ∷ []) }
    ensures { OnOk result (spec.StandBehind draft.old
        (spec.placed_at pos (parts.value_part scopes.now kind name.now value.now ∷ [])) draft.new) }
{
    let target = plain_target(alloc, name)?;
    match kind {
        NetKind::Wire => write_equation(alloc, pos, &target, scopes, value, scopes, draft),
        NetKind::Reg => write_start(alloc, &target, value, scopes, draft),
    }
}

/// Writes the value in the declaration of a name, where there is one: that of a net is an assignment, that of a
/// variable its value at first (IEEE 1364-2005, sections 6.1.1 and 6.2.1). The place is that of the name or the port.
pub fn write_optional_value(
    alloc: Global,
    pos: Pos,
    kind: NetKind,
    name: &Text,
    value: &Option<Expr>,
    scopes: &Scopes,
    draft: &mut Draft,
) -> Result<(), Memory>
    requires { spec.MayStandBehind draft.old (parts.optional_value scopes.now kind name.now value.now) }
    ensures { OnOk result (spec.StandBehind draft.old
        (spec.placed_at pos (parts.optional_value scopes.now kind name.now value.now)) draft.new) }
{
    match value {
        None => Ok(()),
        Some(value) => write_value(alloc, pos, kind, name, value, scopes, draft),
    }
}

/// Writes the values of names that are declared together, in order. The place of each is that of its name.
pub(crate) fn write_values(
    alloc: Global,
    kind: NetKind,
    all: &[DeclaredName],
    scopes: &Scopes,
    draft: &mut Draft,
) -> Result<(), Memory>
    requires { spec.MayStandBehind draft.old (parts.values_of scopes.now kind all.now) }
    ensures { OnOk result (spec.StandBehind draft.old (placed_values scopes.now kind all.now) draft.new) }
{
    for name in all {
        write_optional_value(
            alloc,
            name.pos,
            kind,
            &name.name,
            &name.value,
            scopes,
            draft,
        )?;
    }
    Ok(())
}
