//! Targets with full names, and with numbers in place of constants.
ghost use Rattle.std.specs.Prelude.{◌≡◌, IfOk};
ghost use Rattle.vl_tree.specs.Lval.{lvals};
ghost use Rattle.vl_mean_flat.specs.FullNames as spec;

use crate::exprs::flat_selects;
use crate::scopes::Scopes;
use fv_text::{List, Memory};
use std::alloc::Global;
use vl_tree::{Lval, LvalKind};

/// The target with each name in full, and with the number of each constant in its selects (IEEE 1364-2005, sections
/// 12.4.1 and 12.5).
#[cycle(target)]
#[tactic(auto, using(vl_tree::specs::LvalFalls::parts_fall))]
pub fn flat_lval(alloc: Global, target: &Lval, scopes: &Scopes) -> Result<Lval, Memory>
    ensures { IfOk result (λ l. l ≡ spec.flat_lval scopes.now target.now) }
{
    let pos = target.pos;
    match &target.kind {
        LvalKind::Name(text, all) => {
            let name = scopes.full(alloc, text)?;
            let selects = flat_selects(alloc, all.as_slice(), scopes)?;
            Ok(Lval {
                pos,
                kind: LvalKind::Name(name, selects),
            })
        }
        LvalKind::Concat(parts) => {
            let parts = flat_lvals(alloc, parts.as_slice(), scopes)?;
            Ok(Lval {
                pos,
                kind: LvalKind::Concat(parts),
            })
        }
    }
}

#[cycle(target)]
fn flat_lvals(alloc: Global, all: &[Lval], scopes: &Scopes) -> Result<List<Lval>, Memory>
    ensures { IfOk result (λ ls. lvals ls ≡ spec.flat_lvals scopes.now (lvals all.now)) }
{
    let mut parts = List::new(alloc);
    for part in all {
        parts.push(flat_lval(alloc, part, scopes)?)?;
    }
    Ok(parts)
}
