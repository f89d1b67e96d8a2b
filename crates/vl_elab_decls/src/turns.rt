//! Turns of generate loops.
ghost use Rattle.std.specs.Prelude.{◌∷◌, [], true, ℕ, List, Bool};
ghost use Rattle.vl_mean.specs.declared.const_number.Const.{Const};
ghost use Rattle.vl_mean.specs.Walk.{Place, turn_place};
ghost use Rattle.vl_elab_spec.specs.Meanings as meanings;
ghost use Rattle.vl_elab_spec.specs.Meanings.{constant, meanings_at};
ghost use Rattle.vl_elab_decls.specs.Stands.{Stands};

/// In a turn the loop's variable is a constant, innermost in both.
pub fn turns_stand()
    ensures { (at : Place) (names numbers : List meanings.Names) (clocks : List ℕ → Bool)
        → Stands names numbers clocks (meanings_at at) at.scopes → (text : List ℕ) (c : Const)
        → Stands (((text, constant c true) ∷ []) ∷ names) (((text, constant c true) ∷ []) ∷ numbers) clocks
        (meanings_at (turn_place at text c)) (turn_place at text c).scopes }
{}
