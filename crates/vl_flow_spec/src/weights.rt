//! The weight of a design.
ghost use Rattle.std.specs.Prelude.{◌≡◌, ◌∷◌, [], ◌^◌, ◌<◌, All, List};
ghost use Rattle.vl_mean.specs.FlatLaw.{IsLawful};
ghost use Rattle.vl_mean.specs.Parts.{plain, plain_target};
ghost use Rattle.vl_mean.specs.declared.driver.Driver.{Driver};
ghost use Rattle.vl_mean.specs.declared.driver.Start.{Start};
ghost use Rattle.vl_flow_spec.specs.FlowExamples.{a, b, m, always, any_bit, assigns, bit_of, bit_of_word, both, copies};
ghost use Rattle.vl_flow_spec.specs.FlowExamples.{decimal, equal, part_of_word, to_bit_of_word};
ghost use Rattle.vl_flow_spec.specs.FlowExamples.{input, less, memory, net, now, plus, product, to_bit, two_labels};
ghost use Rattle.vl_flow_spec.specs.FlowExamples.{under};
ghost use Rattle.vl_flow_spec.specs.FlowExamples.{variable};
ghost use Rattle.vl_flow_spec.specs.Weight.{design_weight};
ghost use Rattle.vl_size.specs.Table.{IsShaped};
ghost use Rattle.vl_size.specs.declared.decl.Decl.{Decl};

/// A design that nothing in is refused has a weight of 64 bits.
pub fn a_weight_has_64_bits()
    ensures { (ds : List Decl) (drivers : List Driver) (starts : List Start) → All IsShaped ds
        → IsLawful ds drivers starts → design_weight ds drivers < 2 ^ 64 }
{}

/// Operators on two bits: a sum and an order eightfold, a product by the square, an equality as it is; what has no
/// names is free.
pub fn operators_are_weighed()
    ensures sum { design_weight (net a ∷ input b ∷ [])
        (assigns 1 (plain_target a) (plus (plain b) (plain b)) ∷ []) ≡ 16 }
    ensures product { design_weight (net a ∷ input b ∷ [])
        (assigns 1 (plain_target a) (product (plain b) (plain b)) ∷ []) ≡ 32 }
    ensures order { design_weight (net a ∷ input b ∷ [])
        (assigns 1 (plain_target a) (less (plain b) (plain b)) ∷ []) ≡ 16 }
    ensures equality { design_weight (net a ∷ input b ∷ [])
        (assigns 1 (plain_target a) (equal (plain b) (plain b)) ∷ []) ≡ 2 }
    ensures any_bit { design_weight (net a ∷ input b ∷ [])
        (assigns 1 (plain_target a) (any_bit (plain b)) ∷ []) ≡ 2 }
    ensures constant { design_weight (net a ∷ input b ∷ [])
        (assigns 1 (plain_target a) (plus (decimal 1) (decimal 2)) ∷ []) ≡ 0 }
    ensures concatenation { design_weight (net a ∷ input b ∷ [])
        (assigns 1 (plain_target a) (both (bit_of b (decimal 1)) (plain b)) ∷ []) ≡ 0 }
{}

/// A varying index counts the vector's width, a memory all its words, one behind a memory's index the word's width
/// beside these, an `if` and a `case` what they assign, and each label its size.
pub fn choices_are_weighed()
    ensures index { design_weight (net a ∷ input b ∷ [])
        (assigns 1 (plain_target a) (bit_of b (plain b)) ∷ []) ≡ 2 }
    ensures word { design_weight (net a ∷ memory m ∷ [])
        (assigns 1 (plain_target a) (bit_of m (decimal 1)) ∷ []) ≡ 4 }
    ensures written_word { design_weight (memory m ∷ input b ∷ [])
        (always 1 (under (plain b) (now (to_bit m (plain b)) (plain b))) ∷ []) ≡ 4 }
    ensures bit_of_a_word { design_weight (net a ∷ memory m ∷ input b ∷ [])
        (assigns 1 (plain_target a) (bit_of_word m (decimal 1) (plain b)) ∷ []) ≡ 6 }
    ensures part_of_a_word { design_weight (net a ∷ memory m ∷ input b ∷ [])
        (assigns 1 (plain_target a) (part_of_word m (plain b) (plain b)) ∷ []) ≡ 6 }
    ensures written_bit_of_a_word { design_weight (memory m ∷ input b ∷ [])
        (always 1 (now (to_bit_of_word m (decimal 0) (plain b)) (plain b)) ∷ []) ≡ 6 }
    ensures constant_bit_of_a_word { design_weight (net a ∷ memory m ∷ input b ∷ [])
        (assigns 1 (plain_target a) (bit_of_word m (plain b) (decimal 1)) ∷ []) ≡ 4 }
    ensures if_only { design_weight (variable a ∷ input b ∷ [])
        (always 1 (under (plain b) (now (plain_target a) (plain b))) ∷ []) ≡ 2 }
    ensures cases { design_weight (variable a ∷ input b ∷ []) (always 1 two_labels ∷ []) ≡ 66 }
    ensures copies { design_weight (net a ∷ input b ∷ []) (copies 1 a b ∷ []) ≡ 0 }
{}
