//! How many names and nodes a design without hierarchy has.
ghost use Rattle.std.specs.Prelude.{◌≡◌, ℕ, ◌≤◌, List, map};
ghost use Rattle.vl_tree.specs.declared.source.Module.{Module};
ghost use Rattle.vl_mean.specs.FlatLaw.{all_names_count, node_count};
ghost use Rattle.vl_mean.specs.Parts.{design};
ghost use Rattle.vl_mean.specs.declared.driver.Driver.{Driver};
ghost use Rattle.vl_mean_flat.specs.Flattened.{decls_of};
ghost use Rattle.vl_elab_accepted_laws.specs.Unrefused.{NoStepRefused};
ghost use Rattle.vl_elab_draft.specs.Drawn.{drivers_of, starts_of};

/// What is drawn from modules no step of which is refused has at most 200,000 names, a memory's words counting beside
/// it.
#[tactic(auto, using(crate::proofs::Counted::design_names))]
pub fn drawn_names_are_few()
    ensures { (ms : List Module) (top : List ℕ) → NoStepRefused ms top
        → all_names_count (decls_of (design ms top)) ≤ 200000 }
{}

/// It has at most 4,000,000 nodes.
#[tactic(auto, using(crate::proofs::Counted::design_nodes))]
pub fn drawn_nodes_are_few()
    ensures { (ms : List Module) (top : List ℕ) (drivers : List Driver) → NoStepRefused ms top
        → map (λ x. x.what) drivers ≡ drivers_of (design ms top)
        → node_count drivers (starts_of (design ms top)) ≤ 4000000 }
{}
