//! What is known of simple wrappers.
ghost use Rattle.std.specs.Prelude.{◌≡◌, ℕ, ◌≤◌, List, [], length, None, codes};
ghost use Rattle.fv_text.specs.declared.token.Token.{Token};
ghost use Rattle.vl_tree.specs.declared.source.Module.{Module};
ghost use Rattle.vl_tree.specs.declared.source.Source.{Source};
ghost use Rattle.vl_tree.specs.ItemSpelling.{spell_source};
ghost use Rattle.vl_tree.specs.Phrase.{Spells};
ghost use Rattle.vl_elab_spec.specs.Refused.{refusal};
ghost use Rattle.rvf_simple.specs.Examples.{small};
ghost use Rattle.rvf_simple.specs.SimpleTrees.{IsSimple, wrapper_nodes, wrapper_ports};

/// Elaboration refuses none with at most 200,000 ports and 4,000,000 nodes.
#[tactic(auto, using(crate::proofs::Unrefused::simple_unrefused))]
pub fn simple_wrappers_are_unrefused()
    ensures { (ms : List Module) → IsSimple ms → wrapper_ports ms ≤ 200000 → wrapper_nodes ms ≤ 4000000
        → refusal ms (codes "rvfi_wrapper") ≡ None }
{}

/// One has no more nodes than its text has tokens.
#[tactic(auto, using(crate::proofs::Tokens::simple_nodes))]
pub fn simple_wrappers_have_few_nodes()
    ensures { (tree : Source) (tokens : List Token) → Spells (spell_source tree) tokens [] → IsSimple tree.modules
        → wrapper_nodes tree.modules ≤ length tokens }
{}

/// There are some.
#[tactic(auto, using(crate::proofs::Small::small_is_simple))]
pub fn a_small_wrapper_is_simple()
    ensures { IsSimple small }
{}
