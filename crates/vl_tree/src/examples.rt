//! Small trees, and the texts that they spell: what the definitions say of each alternative of the grammar.

ghost use Rattle.std.specs.Prelude.{◌≡◌, ◌∷◌, ◌++◌, [], None, Some, codes};
ghost use Rattle.fv_text.specs.declared.kind.Kind.TheVariants as k;
ghost use Rattle.fv_text.specs.declared.number.Number.{Number};
ghost use Rattle.vl_tree.specs.Examples.{written, here, binary_texts, unary_texts, primary, selects, target};
ghost use Rattle.vl_tree.specs.Examples.{statement, body, head, module_of, opens, closes};
ghost use Rattle.vl_tree.specs.Expr.{number};
ghost use Rattle.vl_tree.specs.Phrase.{kinds};
ghost use Rattle.vl_tree.specs.WellFormed.{AreBalanced};
ghost use Rattle.vl_tree.specs.Item.{items};
ghost use Rattle.vl_tree.specs.ExprSpelling as expr;
ghost use Rattle.vl_tree.specs.LvalSpelling as lval;
ghost use Rattle.vl_tree.specs.StmtSpelling as stmt;
ghost use Rattle.vl_tree.specs.ItemSpelling as item;

/// Operators, operands and targets.
#[tactic(auto, unfolding(fv_text::specs::Keyword::keyword_text, fv_text::specs::Symbol::symbol_text))]
pub fn expressions_have_their_texts()
    ensures binary { binary_texts ≡ codes "a * z" ∷ codes "a / z" ∷ codes "a % z" ∷ codes "a + z"
        ∷ codes "a - z" ∷ codes "a << z" ∷ codes "a >> z" ∷ codes "a <<< z" ∷ codes "a >>> z"
        ∷ codes "a < z" ∷ codes "a <= z" ∷ codes "a > z" ∷ codes "a >= z" ∷ codes "a == z"
        ∷ codes "a != z" ∷ codes "a === z" ∷ codes "a !== z" ∷ codes "a & z" ∷ codes "a ^ z"
        ∷ codes "a ~^ z" ∷ codes "a ^~ z" ∷ codes "a | z" ∷ codes "a && z" ∷ codes "a || z" ∷ [] }
    ensures unary { unary_texts ≡ codes "+ a" ∷ codes "- a" ∷ codes "! a" ∷ codes "~ a" ∷ codes "& a"
        ∷ codes "~& a" ∷ codes "| a" ∷ codes "~| a" ∷ codes "^ a" ∷ codes "~^ a" ∷ codes "^~ a" ∷ [] }
    ensures primary { written (expr.spell primary)
        ≡ codes "( a ) ? { z , { a { z , a } } } : a ? $signed ( a ) : $unsigned ( z )" }
    ensures selects { written (expr.spell selects) ≡ codes "a [ z ] [ a : z ] [ z +: a ]" }
    ensures numbers { (n : Number) → kinds (expr.spell (number here n)) ≡ k.Number n ∷ [] }
    ensures target { written (lval.spell target) ≡ codes "{ a , z [ a ] }" }
{}

#[tactic(auto, unfolding(fv_text::specs::Keyword::keyword_text, fv_text::specs::Symbol::symbol_text))]
pub fn statements_have_their_texts()
    ensures { written (stmt.spell statement)
        ≡ codes "(* x = a , y *) (* z *) begin : l if ( a ) a = z ; else if ( z ) a <= z ; assume ( a ) "
        ++ codes "; begin end ; case ( a ) a , z : ; default : ; endcase casez ( z ) default ; z : ; "
        ++ codes "endcase end" }
{}

#[tactic(auto, unfolding(fv_text::specs::Keyword::keyword_text, fv_text::specs::Symbol::symbol_text, crate::specs::ItemSpelling::spell_head))]
pub fn modules_have_their_texts()
    ensures head { written (item.spell_module head)
        ≡ codes "module m # ( parameter p = a , signed [ a : z ] q = a , parameter r = a ) ( (* x = a , "
        ++ codes "y *) (* z *) input wire signed [ a : z ] a , b = a , output reg c = z , d ) ; endmodule" }
    ensures empty_head { written (item.spell_source
        (record { pos = here; modules = module_of None (Some []) [] ∷ module_of None None [] ∷ [] }))
        ≡ codes "module m ( ) ; endmodule module m ; endmodule" }
    ensures body { written (item.spell_module (module_of None None body))
        ≡ codes "module m ; (* x = a , y *) (* z *) reg signed [ a : z ] a [ a : z ] , z = a ; integer i "
        ++ codes ", j = a ; genvar g , h ; parameter p = a ; localparam signed [ a : z ] q = a , r = a ; "
        ++ codes "assign a = z , { a , z [ a ] } = a ; always @ * ; always @ ( * ) ; always @ (* ) ; "
        ++ codes "always @ ( *) ; always @ ( posedge c ) ; initial a = z ; n u ( ) ; n # ( . x ( ) , . y "
        ++ codes "( a ) ) u ( . x ( ) ) ; (* x = a , y *) (* z *) generate wire a ; generate endgenerate "
        ++ codes "endgenerate for ( g = a ; z ; g = a ) begin : l wire a ; end if ( a ) wire a ; if ( z ) "
        ++ codes "generate wire a ; endgenerate if ( a ) begin end else wire a ; endmodule" }
{}

/// Each region ends in the list that it begins in, once.
pub fn regions_are_balanced()
    ensures none { AreBalanced (items []) }
    ensures inside { AreBalanced (items (opens ∷ opens ∷ closes ∷ closes ∷ opens ∷ closes ∷ [])) }
    ensures twice { AreBalanced (items (opens ∷ closes ∷ closes ∷ [])) → ⊥ }
    ensures never { AreBalanced (items (opens ∷ opens ∷ closes ∷ [])) → ⊥ }
    ensures before { AreBalanced (items (closes ∷ opens ∷ [])) → ⊥ }
{}
