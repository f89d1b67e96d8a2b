//! Nets and variables in a scope whose constants stand in it.
ghost use Rattle.std.specs.Prelude.{◌≡◌, ◌++◌, ◌∷◌, IfOk, OnOk, drop};
ghost use Rattle.vl_size.specs.Table.{AreDifferent, IsPlain};
ghost use Rattle.vl_mean.specs.Runs.{Each};
ghost use Rattle.vl_elab_spec.specs.Meanings.{faulty};
ghost use Rattle.vl_elab_scope.specs.Seen.{innermost, with_name};
ghost use Rattle.vl_elab_const.specs.Openable.{IsInRange};
ghost use Rattle.vl_elab_flatten.specs.Levels as spec;

use fv_text::{Memory, Text};
use std::alloc::Global;
use vl_elab_draft::Scope;
use vl_elab_scope::{Level, Meaning, Names};
use vl_size::Decl;

/// No number is known of a net or a variable.
fn hide_one(alloc: Global, name: &Text, level: &mut Level) -> Result<(), Memory>
    ensures { OnOk result (level.new ≡ with_name level.old name.now faulty) }
{
    level.add(name.copied(alloc)?, Meaning::Faulty)
}

fn hide_all(alloc: Global, decls: &[Decl], level: &mut Level) -> Result<(), Memory>
    ensures { OnOk result (level.new ≡ spec.hidden level.old decls.now) }
{
    for decl in decls {
        hide_one(alloc, &decl.name, level)?;
    }
    Ok(())
}

fn hide(alloc: Global, decls: &[Decl], numbers: &mut Names) -> Result<(), Memory>
    ensures { OnOk result (numbers.new ≡ spec.hidden (innermost numbers.old) decls.now ∷ drop 1 numbers.old) }
{
    let mut level = numbers.take(alloc);
    hide_all(alloc, decls, &mut level)?;
    numbers.enter(level)
}

fn copied(alloc: Global, decl: &Decl) -> Result<Decl, Memory>
    ensures { IfOk result (λ d. d ≡ decl.now) }
{
    Ok(Decl {
        name: decl.name.copied(alloc)?,
        width: decl.width,
        signed: decl.signed,
        left: decl.left,
        right: decl.right,
        words: decl.words,
        class: decl.class,
        output: decl.output,
    })
}

fn declare_all(alloc: Global, decls: &[Decl], scope: &mut Scope) -> Result<(), Memory>
    requires different { AreDifferent (scope.old.decls ++ decls.now) }
    requires plain { Each IsPlain decls.now }
    requires in_range { Each IsInRange decls.now }
    ensures { OnOk result (scope.new ≡ spec.with_decls scope.old decls.now) }
{
    for decl in decls {
        let decl = copied(alloc, decl)?;
        scope.declare(alloc, decl)?;
    }
    Ok(())
}

/// Declares nets and variables in a scope, where they hide the constants around it.
pub(crate) fn fill(
    alloc: Global,
    decls: &[Decl],
    scope: &mut Scope,
    numbers: &mut Names,
) -> Result<(), Memory>
    requires different { AreDifferent (scope.old.decls ++ decls.now) }
    requires plain { Each IsPlain decls.now }
    requires in_range { Each IsInRange decls.now }
    ensures scope { OnOk result (scope.new ≡ spec.with_decls scope.old decls.now) }
    ensures numbers { OnOk result (numbers.new ≡ spec.hidden (innermost numbers.old) decls.now ∷ drop 1 numbers.old) }
{
    hide(alloc, decls, numbers)?;
    declare_all(alloc, decls, scope)
}
