//! That what is drawn from a design which isn't refused is lawful.
ghost use Rattle.std.specs.Prelude.{◌≡◌, ℕ, List, map, All};
ghost use Rattle.vl_tree.specs.WellFormed.{IsModule};
ghost use Rattle.vl_tree.specs.declared.source.Module.{Module};
ghost use Rattle.vl_mean.specs.FlatLaw.{IsLawful};
ghost use Rattle.vl_mean.specs.Parts.{design};
ghost use Rattle.vl_mean.specs.declared.driver.Driver.{Driver};
ghost use Rattle.vl_mean_flat.specs.Flattened.{decls_of};
ghost use Rattle.vl_elab_accepted_laws.specs.Unrefused.{NoStepRefused};
ghost use Rattle.vl_elab_draft.specs.Drawn.{drivers_of, starts_of};

/// What is drawn from well formed modules no step of which is refused keeps the law of a design without hierarchy: its
/// names can be printed and its bounds have 32 signed bits, its drivers and values at first are what they may be, and
/// it has no more names and nodes than the limits say.
pub fn a_drawn_design_is_lawful()
    ensures { (ms : List Module) (top : List ℕ) (drivers : List Driver) → All IsModule ms → NoStepRefused ms top
        → map (λ x. x.what) drivers ≡ drivers_of (design ms top)
        → IsLawful (decls_of (design ms top)) drivers (starts_of (design ms top)) }
{}
