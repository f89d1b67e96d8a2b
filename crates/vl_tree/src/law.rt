//! What the readings of a spelling have to do with one another.

ghost use Rattle.std.specs.Prelude.{◌≡◌, List, [], length};
ghost use Rattle.fv_text.specs.declared.token.Token.{Token};
ghost use Rattle.vl_tree.specs.declared.source.Source.{Source};
ghost use Rattle.vl_tree.specs.Phrase.{kinds, kinds_of, Spells, open_at};
ghost use Rattle.vl_tree.specs.ItemSpelling as spec;

/// Tokens that spell a tree, each at its place, are of the kinds that the tree spells.
pub fn spelled_tokens_have_the_kinds()
    ensures { (tree : Source) (tokens : List Token) → Spells (spec.spell_source tree) tokens []
        → kinds_of tokens ≡ kinds (spec.spell_source tree) }
{}

/// Each token that a tree spells has its number of open constructs.
pub fn each_token_has_its_open_constructs()
    ensures { (tree : Source) → length (open_at (spec.spell_source tree) 0)
        ≡ length (kinds (spec.spell_source tree)) }
{}
