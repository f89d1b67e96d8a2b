//! Steps that are walked one behind the other.
ghost use Rattle.std.specs.Prelude.{◌≡◌, ◌∷◌, ◌++◌, [], List, Option, Some, None};
ghost use Rattle.vl_tree.specs.declared.source.Module.{Module};
ghost use Rattle.vl_mean.specs.Walk.{Step};
ghost use Rattle.vl_elab_spec.specs.declared.elab_fault.ElabFault.{ElabFault};
ghost use Rattle.vl_elab_spec.specs.Refused.{Totals, all_counted, counted, lowest, refusals_at};
ghost use Rattle.vl_elab_spec.specs.declared.totals.Totals as kept;
ghost use Rattle.vl_elab_spec.specs.Walked.{AreTotals, AreWalked};

/// Where the first steps are refused, no others are looked at, and else these go on behind them.
pub fn steps_are_walked_in_order()
    ensures none { (ms : List Module) (t : Totals) (new : kept.Totals) → AreTotals new t
        → AreWalked ms t new [] None }
    ensures one { (ms : List Module) (t : Totals) (new : kept.Totals) (x : Step) (g : Option ElabFault)
        → g ≡ lowest (refusals_at ms t x) → (g ≡ None → AreTotals new (counted t x))
        → AreWalked ms t new (x ∷ []) g }
    ensures stopped { (ms : List Module) (t : Totals) (new : kept.Totals) (xs ys : List Step) (g : ElabFault)
        → AreWalked ms t new xs (Some g) → AreWalked ms t new (xs ++ ys) (Some g) }
    ensures passed { (ms : List Module) (t : Totals) (between new : kept.Totals) (xs ys : List Step)
        (g : Option ElabFault) → AreWalked ms t between xs None → AreWalked ms (all_counted t xs) new ys g
        → AreWalked ms t new (xs ++ ys) g }
{}
