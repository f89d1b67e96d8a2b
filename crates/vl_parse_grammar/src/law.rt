//! What the grammar has to do with trees.

ghost use Rattle.std.specs.Prelude.{◌≡◌, ℕ, List, [], ◌∷◌, true, Ok, Err};
ghost use Rattle.fv_text.specs.declared.kind.Kind.{Kind};
ghost use Rattle.fv_text.specs.declared.token.Token.{Token};
ghost use Rattle.vl_tree.specs.Phrase.{kinds, kinds_of, Spells};
ghost use Rattle.vl_tree.specs.declared.source.Source.{Source};
ghost use Rattle.vl_tree.specs.ItemSpelling.{spell_source};
ghost use Rattle.vl_tree.specs.WellFormed.{IsSource};
ghost use Rattle.vl_parse_grammar.specs.Machine.{syntax, deep};
ghost use Rattle.vl_parse_grammar.specs.Grammar.{accepts, modules, run};
ghost use Rattle.vl_parse_grammar.specs.Text.{IsText, IsFaulty};
ghost use Rattle.vl_parse_grammar.specs.Depth.{IsTooDeep, too_deep_at, unless_too_deep};

/// The grammar has exactly the texts that well formed trees are spelled by.
pub fn the_grammar_has_what_trees_spell()
    ensures spelled { (tokens : List Token) → accepts (modules ∷ []) (kinds_of tokens) ≡ true
        → IsText (kinds_of tokens) }
    ensures accepted { (kinds : List Kind) → IsText kinds → accepts (modules ∷ []) kinds ≡ true }
{}

/// Where a run stops for a wrong token that is the first one which no well formed tree's spelling has behind the tokens
/// before it, and some well formed tree's spelling begins with these. Where it stops for a construct too many the
/// token is right, and the first one at which 257 constructs are open. Both come wherever there is such a token, the
/// wrong one where no construct is too many before it. A run to the end is a text, and a text is refused for a
/// construct too many alone.
pub fn runs_stop_at_the_first_fault()
    ensures syntax { (tokens : List Token) (left : ℕ) → run (kinds_of tokens) ≡ Err (syntax left)
        → IsFaulty (kinds_of tokens) left }
    ensures deep { (tokens : List Token) (left : ℕ) → run (kinds_of tokens) ≡ Err (deep left)
        → IsTooDeep (kinds_of tokens) left }
    ensures only_syntax { (tokens : List Token) (left : ℕ) → IsFaulty (kinds_of tokens) left
        → ((other : ℕ) → IsTooDeep (kinds_of tokens) other → ⊥)
        → run (kinds_of tokens) ≡ Err (syntax left) }
    ensures only_deep { (kinds : List Kind) (left : ℕ) → IsTooDeep kinds left → run kinds ≡ Err (deep left) }
    ensures whole { (tokens : List Token) → run (kinds_of tokens) ≡ Ok tt → IsText (kinds_of tokens) }
    ensures text { (kinds : List Kind) (left : ℕ) → IsText kinds → run kinds ≡ Err (syntax left) → ⊥ }
{}

/// No two well formed trees are spelled by one list of tokens, places included.
pub fn a_text_has_one_tree()
    ensures { (tree other : Source) (tokens : List Token) → IsSource tree → IsSource other
        → Spells (spell_source tree) tokens [] → Spells (spell_source other) tokens [] → tree ≡ other }
{}

/// A text is read to its end, or up to the first token at which 257 of its tree's constructs are open.
pub fn texts_are_read_up_to_the_limit()
    ensures { (tree : Source) → IsSource tree
        → run (kinds (spell_source tree)) ≡ unless_too_deep (too_deep_at tree) }
{}
