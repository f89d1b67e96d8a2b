//! Small designs, one for each place where a meaning is easily got wrong, with maps that hold and maps that don't.
ghost use Rattle.std.specs.Prelude.{◌≡◌, ◌∷◌, [], codes};
ghost use Rattle.vl_mean_examples.specs.DesignExamples.{begun, begun_design, choices, free_design, given, given_design};
ghost use Rattle.vl_mean_examples.specs.DesignExamples.{handed, handed_design, hidden, hidden_design, kept, kept_design};
ghost use Rattle.vl_mean_examples.specs.DesignExamples.{parted, parted_design, ports, ports_design, sized, sized_design, sure};
ghost use Rattle.vl_mean_examples.specs.DesignExamples.{sure_design, targets, targets_design, words, words_design};
ghost use Rattle.vl_mean.specs.Runs.{ChoosesAlike, Holds, Init, IsAssumed, IsRun, Next};

/// A bit of a variable that no block assigns keeps its value, beside one that a block drives.
pub fn a_bit_without_driver_is_kept()
    ensures holds { Holds kept_design (kept 1 3) }
    ensures driven { Holds kept_design (kept 1 2) → ⊥ }
    ensures kept { Next kept_design (kept 0 2) (kept 1 3) }
    ensures not_changed { Next kept_design (kept 0 2) (kept 1 1) → ⊥ }
    ensures chosen_alike { ChoosesAlike kept_design (kept 1 2) (kept 1 3) }
    ensures not_chosen_alike { ChoosesAlike kept_design (kept 1 1) (kept 1 3) → ⊥ }
{}

/// A block that assigns one word of a memory leaves the other ones, which begin and stay as registers do.
pub fn a_block_assigns_one_word()
    ensures holds { Holds words_design (words 3 3 5) }
    ensures driven { Holds words_design (words 3 4 5) → ⊥ }
    ensures begins { Init words_design (words 3 3 5) }
    ensures no_other_begin { Init words_design (words 3 3 4) → ⊥ }
    ensures kept { Next words_design (words 3 3 5) (words 4 4 5) }
    ensures not_changed { Next words_design (words 3 3 5) (words 4 4 6) → ⊥ }
{}

/// Of several initial values of a bit the last counts.
pub fn the_last_initial_value_counts()
    ensures last { Init begun_design (begun 2) }
    ensures not_the_first { Init begun_design (begun 3) → ⊥ }
{}

/// A name with `anyconst` has one value in a run, and one with `anyseq` any in each cycle.
pub fn a_name_is_chosen_once()
    ensures once { IsRun free_design 1 (choices 2 1 ∷ choices 2 3 ∷ []) }
    ensures not_twice { IsRun free_design 1 (choices 2 1 ∷ choices 1 1 ∷ []) → ⊥ }
{}

/// A connection is cut to a narrower input, and extended by its own sign for a wider one.
pub fn connections_have_sizes()
    ensures holds { Holds sized_design (sized 3 1 15 0) }
    ensures not_unsigned { Holds sized_design (sized 3 1 3 4) → ⊥ }
    ensures not_wide { Holds sized_design (sized 2 2 14 0) → ⊥ }
{}

/// An input that is joined to the clock is the clock: it has no number, and a block may act at its edge.
pub fn a_clock_is_handed_down()
    ensures no_number { Holds handed_design (handed 7 1 0) }
    ensures acts { Next handed_design (handed 0 1 0) (handed 0 0 1) }
    ensures not_kept { Next handed_design (handed 0 1 0) (handed 0 0 0) → ⊥ }
{}

/// An output that is joined to a concatenation gives its highest bits to the first part.
pub fn an_output_is_parted()
    ensures holds { Holds parted_design (parted 2 1) }
    ensures not_turned { Holds parted_design (parted 1 2) → ⊥ }
{}

/// In a vector that ascends the first index is the highest bit, of a part and of a width from an index on.
pub fn targets_ascend()
    ensures holds { Holds targets_design (targets 2 1 9) }
    ensures not_turned { Holds targets_design (targets 2 1 6) → ⊥ }
    ensures not_reversed { Holds targets_design (targets 2 1 5) → ⊥ }
{}

/// A port that is written short has the range of the one before it, and the next full one hasn't.
pub fn a_short_port_has_the_range()
    ensures holds { Holds ports_design (ports 3 2 1) }
    ensures not_cut { Holds ports_design (ports 3 2 0) → ⊥ }
    ensures in_range { Holds ports_design (ports 3 4 0) → ⊥ }
    ensures scalar { Holds ports_design (ports 3 2 3) → ⊥ }
{}

/// An override is assigned to a parameter with a range, and the parameter that isn't overridden keeps its value.
pub fn a_parameter_is_overridden()
    ensures holds { Holds given_design (given 17) }
    ensures not_whole { Holds given_design (given 1) → ⊥ }
    ensures not_the_default { Holds given_design (given 3) → ⊥ }
{}

/// A name means what the innermost scope declares.
pub fn a_name_is_hidden()
    ensures holds { Holds hidden_design (hidden 0 1 0) }
    ensures not_the_outer { Holds hidden_design (hidden 0 0 0) → ⊥ }
    ensures outside { Holds hidden_design (hidden 0 1 1) → ⊥ }
{}

/// What a clocked block assumes isn't 0 in any cycle.
pub fn a_clocked_block_assumes()
    ensures assumed { IsAssumed sure_design (sure 1 ∷ []) }
    ensures not_assumed { IsAssumed sure_design (sure 1 ∷ sure 0 ∷ []) → ⊥ }
{}
