//! What is known to be a constant has its number, whatever else is found to be one.
ghost use Rattle.std.specs.Prelude.{◌≡◌, ℕ, List, Option, true};
ghost use Rattle.vl_tree.specs.Expr.{Expr};
ghost use Rattle.vl_mean.specs.declared.const_number.Const.{Const};
ghost use Rattle.vl_mean.specs.Constants.{constant_operand, settled};
ghost use Rattle.vl_size.specs.Size.{index_of};
ghost use Rattle.vl_elab_spec.specs.Meanings.{Names, bound, constants, is_known};
ghost use Rattle.vl_elab_spec.specs.Among.{AreAmong};

/// While a design is judged, a parameter whose own declaration is refused isn't known; by the definitions it has a
/// number all the same. An expression that is known has no such name in it.
pub fn known_constants_stay()
    ensures settled { (ns : List Names) (all : List ℕ → Option Const) → AreAmong (constants ns) all → (e : Expr)
        → is_known ns e ≡ true → settled (constants ns) e ≡ settled all e }
    ensures bound { (ns : List Names) (all : List ℕ → Option Const) → AreAmong (constants ns) all → (e : Expr)
        → is_known ns e ≡ true → bound ns e ≡ index_of (constant_operand all e) }
{}
