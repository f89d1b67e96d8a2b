//! Declarations under their full names.
ghost use Rattle.std.specs.Prelude.{◌≡◌, ◌++◌, ◌∷◌, [], IfOk, OnOk};
ghost use Rattle.vl_mean.specs.Parts.{declares_all};
ghost use Rattle.vl_elab_emit.specs.Behind as spec;

use fv_text::Memory;
use std::alloc::Global;
use vl_elab_draft::{Draft, Path, Scopes};
use vl_size::Decl;

/// Writes declarations under their full names, in order: the path of their scope stands before each name (IEEE
/// 1364-2005, section 12.5). `scopes`: which may hold the full names. Where no memory is left the first ones may be
/// written.
pub fn write_declarations(
    alloc: Global,
    path: &Path,
    scopes: &Scopes,
    all: &[Decl],
    draft: &mut Draft,
) -> Result<(), Memory>
    requires { spec.MayStandBehind draft.old (declares_all path.now all.now) }
    ensures { OnOk result
        (spec.StandBehind draft.old (spec.unplaced (declares_all path.now all.now)) draft.new) }
{
    for decl in all {
        write_declaration(alloc, path, scopes, decl, draft)?;
    }
    Ok(())
}

fn write_declaration(
    alloc: Global,
    path: &Path,
    scopes: &Scopes,
    decl: &Decl,
    draft: &mut Draft,
) -> Result<(), Memory>
    requires { spec.MayStandBehind draft.old (declares_all path.now (decl.now ∷ [])) }
    ensures { OnOk result
        (spec.StandBehind draft.old (spec.unplaced (declares_all path.now (decl.now ∷ []))) draft.new) }
{
    let decl = under(alloc, path, scopes, decl)?;
    draft.declare(decl)
}

/// The declaration under its full name.
fn under(alloc: Global, path: &Path, scopes: &Scopes, decl: &Decl) -> Result<Decl, Memory>
    ensures { IfOk result (λ d. d ≡ record decl.now { name = path.now ++ decl.now.name }) }
{
    let name = scopes.under(alloc, path, &decl.name)?;
    Ok(Decl {
        name,
        width: decl.width,
        signed: decl.signed,
        left: decl.left,
        right: decl.right,
        words: decl.words,
        class: decl.class,
        output: decl.output,
    })
}
