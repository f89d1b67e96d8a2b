//! What texts come to that are simple wrappers.
ghost use Rattle.std.specs.Prelude.{◌≡◌, ◌+◌, ◌*◌, ℕ, ◌≤◌, List, [], length, None, Ok, Err};
ghost use Rattle.fv_text.specs.declared.token.Token.{Token};
ghost use Rattle.vl_prep.specs.Macros.{Held};
ghost use Rattle.vl_prep.specs.Prep.{Outcome, preprocessed};
ghost use Rattle.vl_tree.specs.ItemSpelling.{spell_source};
ghost use Rattle.vl_tree.specs.Phrase.{Spells};
ghost use Rattle.vl_tree.specs.declared.source.Source.{Source};
ghost use Rattle.vl_elab_spec.specs.Refused.{refusal};
ghost use Rattle.vl_elab_spec.specs.declared.elab_fault.ElabFault.{ElabFault};
ghost use Rattle.rvf_simple.specs.SimpleTrees.{IsSimple, wrapper_ports};
ghost use Rattle.vl_text.specs.Assumptions.{with_assumptions};
ghost use Rattle.vl_text.specs.SourceText.{Reading};
ghost use Rattle.vl_text.specs.Texts.{Text};
ghost use Rattle.rvf_load.specs.Loads.{Answers, Asked, IsNoDesign, Reads, top};
ghost use Rattle.rvf_load.specs.declared.fault.LoadFault.TheVariants as fault;
ghost use Rattle.rvf_case.specs.Cases.{IsCause, Request, Seen, questions_in};
ghost use Rattle.rvf_case.specs.Texts.{asked_for};
ghost use Rattle.rvf_case.specs.declared.refusal.Refusal.TheVariants as why;
ghost use Rattle.rvf_simple.specs.SimpleTexts.{IsSimpleText};

/// The preprocessor puts out at most 2,000,000 tokens.
#[tactic(auto, using(crate::proofs::FewTokens::few_tokens))]
pub fn few_tokens_are_put_out()
    ensures { (macros : Held) (tokens : List Token) (r : Outcome) → preprocessed macros tokens ≡ Ok r
        → length r.output ≤ 2000000 }
{}

/// Each line of assumptions is seven tokens more where it is put in its place.
#[tactic(auto, using(crate::proofs::Placed::assumed_few))]
pub fn assumptions_in_place_are_few_more()
    ensures { (lines : List Text) (tokens : List Token)
        → length (with_assumptions lines tokens) ≤ length tokens + 7 * length lines }
{}

/// None is in a simple wrapper, so its tokens are no more than those that were put out.
#[tactic(auto, using(crate::proofs::Placed::simple_tokens))]
pub fn simple_wrappers_have_no_assumptions()
    ensures { (lines : List Text) (tokens : List Token) (tree : Source)
        → Spells (spell_source tree) (with_assumptions lines tokens) [] → IsSimple tree.modules
        → length (with_assumptions lines tokens) ≤ length tokens }
{}

/// Texts have one reading at most.
pub fn texts_have_one_reading()
    ensures { (a : Asked) (r s : Reading) → Reads a r → Reads a s → r ≡ s }
{}

/// The tree of texts that is a simple wrapper with at most 200,000 ports isn't refused by elaboration.
pub fn simple_texts_are_elaborated()
    ensures { (a : Asked) (r : Reading) → Reads a r → IsSimple r.tree.modules → wrapper_ports r.tree.modules ≤ 200000
        → refusal r.tree.modules top ≡ None }
{}

/// Of texts that come to a simple wrapper no refusal by elaboration is there.
pub fn elaboration_refuses_no_simple_text()
    ensures { (a : Asked) → IsSimpleText a → (f : ElabFault) → IsNoDesign a f → ⊥ }
{}

/// And none is answered.
pub fn no_refusal_by_elaboration_is_answered()
    ensures { (a : Asked) → IsSimpleText a → (f : ElabFault) → Answers a (Err (fault.Elab f)) → ⊥ }
{}

/// So it is no cause why a run judges no check: what the run asks of the refused text, by its configuration and its
/// files, isn't simple.
pub fn no_run_has_such_a_cause()
    ensures { (q : Request) (seen : Seen) (f : ElabFault) (names : List (List ℕ))
        → (it : IsCause q seen (why.Source (fault.Elab f) names))
        → IsSimpleText (asked_for it.config it.refused.files (questions_in q it.config) it.kind) → ⊥ }
{}
