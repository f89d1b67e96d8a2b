//! That what is drawn from a design which isn't refused may be driven so, and begin so.
ghost use Rattle.std.specs.Prelude.{◌≡◌, ℕ, List, map, All, true};
ghost use Rattle.vl_tree.specs.WellFormed.{IsModule};
ghost use Rattle.vl_tree.specs.declared.source.Module.{Module};
ghost use Rattle.vl_mean.specs.FlatLaw.{IsAssigned, IsDriver, is_variable};
ghost use Rattle.vl_mean.specs.Parts.{design};
ghost use Rattle.vl_mean.specs.declared.driver.Driver.{Driver};
ghost use Rattle.vl_mean_flat.specs.Flattened.{decls_of};
ghost use Rattle.vl_elab_accepted_laws.specs.Unrefused.{NoStepRefused};
ghost use Rattle.vl_elab_draft.specs.Drawn.{drivers_of, starts_of};

/// What is drawn from well formed modules no step of which is refused is driven as it may be: each expression has a
/// size, no divisor in it is 0 and the clock doesn't stand in it; each target is a net of a continuous assignment or a
/// variable of a block, with constant indices where they have to be.
#[tactic(auto, using(crate::proofs::LawfulWhole::design_driven))]
pub fn drawn_drivers_are_lawful()
    ensures { (ms : List Module) (top : List ℕ) (drivers : List Driver) → All IsModule ms → NoStepRefused ms top
        → map (λ x. x.what) drivers ≡ drivers_of (design ms top)
        → All (λ x. IsDriver (decls_of (design ms top)) x.what) drivers }
{}

/// What begins with a value is a variable, or a constant part of one.
pub fn drawn_starts_are_lawful()
    ensures { (ms : List Module) (top : List ℕ) → All IsModule ms → NoStepRefused ms top
        → All (λ x. IsAssigned (decls_of (design ms top)) is_variable true x.target) (starts_of (design ms top)) }
{}
