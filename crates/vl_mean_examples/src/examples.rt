//! Small designs with maps that hold and maps that don't: what the definitions say of them.
ghost use Rattle.std.specs.Prelude.{◌≡◌, ◌∷◌, [], codes};
ghost use Rattle.vl_mean.specs.Execution.{ended};
ghost use Rattle.vl_mean_examples.specs.Examples.{after_block, blocks_design, choice_design, chosen, counter_design, counts};
ghost use Rattle.vl_mean_examples.specs.Examples.{full_names, exchange_design, in_blocks, looped_design, pair, turns};
ghost use Rattle.vl_mean_examples.specs.FlatExamples as flat;
ghost use Rattle.vl_mean.specs.FlatLaw.{IsLawful};
ghost use Rattle.vl_mean.specs.Parts.{plain, plain_target};
ghost use Rattle.vl_mean.specs.Runs.{Holds, IsAssumed, IsRun, Next};

/// A register of two bits that begins at 2 and counts at the clock, over three cycles. That it isn't 0 is assumed.
pub fn a_counter_counts()
    ensures run { IsRun counter_design 2 (counts 1 2 ∷ counts 0 3 ∷ counts 0 0 ∷ []) }
    ensures no_other_step { IsRun counter_design 2 (counts 1 2 ∷ counts 0 3 ∷ counts 0 1 ∷ []) → ⊥ }
    ensures no_other_begin { IsRun counter_design 0 (counts 1 1 ∷ []) → ⊥ }
    ensures no_late_reset { IsRun counter_design 1 (counts 1 2 ∷ counts 1 3 ∷ []) → ⊥ }
    ensures assumed { IsAssumed counter_design (counts 1 2 ∷ counts 0 3 ∷ []) }
    ensures not_assumed { IsAssumed counter_design (counts 1 2 ∷ counts 0 3 ∷ counts 0 0 ∷ []) → ⊥ }
{}

/// A combinational block is met where running it changes nothing.
pub fn a_block_chooses()
    ensures first { Holds choice_design (chosen 1 3 3) }
    ensures second { Holds choice_design (chosen 0 3 1) }
    ensures neither { Holds choice_design (chosen 0 3 3) → ⊥ }
    ensures too_large { Holds choice_design (chosen 1 4 0) → ⊥ }
{}

/// Two blocks that assign each other's register at the clock exchange their values.
pub fn two_blocks_exchange()
    ensures exchanged { Next exchange_design (pair 0 1) (pair 1 0) }
    ensures not_copied { Next exchange_design (pair 0 1) (pair 1 1) → ⊥ }
{}

/// Each turn of a generate loop has an instance of its own, with the loop's variable as its parameter.
#[tactic(auto, using(crate::proofs::Maps::maps))]
pub fn a_loop_makes_instances()
    ensures names { full_names looped_design ≡ codes "o" ∷ codes "g[0].u.y" ∷ codes "g[0].u.w"
        ∷ codes "g[1].u.y"
        ∷ codes "g[1].u.w" ∷ [] }
    ensures holds { Holds looped_design (turns 2 0 1) }
    ensures not_turned { Holds looped_design (turns 1 1 0) → ⊥ }
    ensures not_apart { Holds looped_design (turns 1 0 1) → ⊥ }
{}

/// Blocks without labels are named by their construct's number, with a zero where that name is taken; an `if` alone
/// in an `if` makes no scope.
#[tactic(auto, using(crate::proofs::Maps::maps))]
pub fn blocks_without_labels_have_names()
    ensures names { full_names blocks_design ≡ codes "genblk1.a" ∷ codes "genblk2.genblk1.b" ∷ codes "genblk3"
        ∷ codes "genblk03.c" ∷ [] }
    ensures holds { Holds blocks_design (in_blocks 1) }
    ensures not_zero { Holds blocks_design (in_blocks 0) → ⊥ }
{}

/// A block with a joined target, nonblocking assignments, a `casez` with its default in the middle, a memory and an
/// assumption.
#[tactic(auto, using(crate::proofs::Maps::maps))]
pub fn a_block_runs()
    ensures joined { after_block.now (codes "a") ≡ 10 }
    ensures low { after_block.now (codes "b") ≡ 7 }
    ensures waits { after_block.now (codes "c") ≡ 0 }
    ensures last { ended after_block (codes "c") ≡ 7 }
    ensures matched { after_block.now (codes "d") ≡ 3 }
    ensures word { after_block.now (codes "m[1]") ≡ 5 }
    ensures other_word { after_block.now (codes "m[2]") ≡ 0 }
    ensures assumed { after_block.seen ≡ 10 ∷ [] }
{}

/// A design without hierarchy, in which nothing is refused. A continuous assignment goes to nets by constant indices,
/// and the clock is no number.
#[tactic(auto, using(crate::proofs::Maps::maps))]
pub fn a_flat_design_is_kept()
    ensures lawful { IsLawful flat.decls flat.drivers flat.starts }
    ensures run { IsRun flat.design 1 (flat.cycle 1 2 1 ∷ flat.cycle 0 3 1 ∷ []) }
    ensures no_other_run { IsRun flat.design 1 (flat.cycle 1 2 0 ∷ flat.cycle 0 3 1 ∷ []) → ⊥ }
    ensures not_a_variable { IsLawful flat.decls (flat.assigns (plain_target (codes "q")) flat.bit_of_q) [] → ⊥ }
    ensures not_the_clock { IsLawful flat.decls (flat.assigns flat.o (plain (codes "clock"))) [] → ⊥ }
    ensures not_varying { IsLawful flat.decls (flat.assigns flat.varying_bit_of_o flat.bit_of_q) [] → ⊥ }
    ensures not_undeclared { IsLawful flat.decls (flat.assigns flat.o (plain (codes "p"))) [] → ⊥ }
{}
