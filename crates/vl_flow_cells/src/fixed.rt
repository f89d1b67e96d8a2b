ghost use Rattle.std.specs.Prelude.{◌≡◌, ◌&&◌, List};
ghost use Rattle.vl_mean.specs.FlatLaw.{flat_scopes};
ghost use Rattle.vl_mean.specs.Targets as targets;
ghost use Rattle.vl_size.specs.declared.decl.Decl.{Decl};
ghost use Rattle.vl_tree.specs.Expr.{Selects};
ghost use Rattle.vl_tree.specs.ExprView.{selects, with_select};

use vl_size::is_constant;
use vl_tree::Select;

/// Whether the select has no varying index.
#[tactic(auto, using(crate::proofs::FixedSelects::fixed_selects))]
fn is_fixed(select: &Select) -> bool
    ensures { (ds : List Decl) (rest : Selects) → targets.are_fixed (flat_scopes ds) (with_select select.now rest)
        ≡ (result && targets.are_fixed (flat_scopes ds) rest) }
{
    match select {
        Select::Bit(_, index) => is_constant(index),
        Select::Part(_, _, _) => true,
        Select::Indexed(_, start, _) => is_constant(start),
    }
}

/// Whether none of the selects has a varying index.
pub fn are_fixed(all: &[Select]) -> bool
    ensures { (ds : List Decl) → result ≡ targets.are_fixed (flat_scopes ds) (selects all.now) }
{
    for select in all {
        if !is_fixed(select) {
            return false;
        }
    }
    true
}
