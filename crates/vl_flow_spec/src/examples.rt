//! Small designs that are refused, one for each way in which drivers may stand wrong, and some that aren't.
ghost use Rattle.std.specs.Prelude.{◌≡◌, ◌∷◌, [], Some, None};
ghost use Rattle.vl_mean.specs.Parts.{plain, plain_target};
ghost use Rattle.vl_flow_spec.specs.FlowExamples.{a, b, c, m, always, assigns, at_clock, at_line, bit_of, both, copies};
ghost use Rattle.vl_flow_spec.specs.FlowExamples.{decimal, each, first_set, free, high, input, later, low, memory, net};
ghost use Rattle.vl_flow_spec.specs.FlowExamples.{now, to_bit, to_both, to_part, two_labels, variable, under, each};
ghost use Rattle.vl_flow_spec.specs.Refusals.{blocking_shared, latch, mixed, IsLoop, two_drivers, undriven};

/// A bit that a combinational block doesn't assign on each path: whole names, single bits, a varying index, one word
/// of a memory, and a case without default.
pub fn latches_are_found()
    ensures by_an_if { latch (variable a ∷ input b ∷ [])
        (always 3 (under (plain b) (now (plain_target a) (plain b))) ∷ []) ≡ Some (a, at_line 3) }
    ensures by_a_case { latch (variable a ∷ input b ∷ []) (always 3 two_labels ∷ []) ≡ Some (a, at_line 3) }
    ensures by_an_index { latch (variable a ∷ input b ∷ [])
        (always 4 (now (to_bit a (plain b)) (plain b)) ∷ []) ≡ Some (a, at_line 4) }
    ensures of_one_bit { latch (variable a ∷ input b ∷ [])
        (always 5 (each (now (to_bit a (decimal 1)) (plain b)
        ∷ under (plain b) (now (to_bit a (decimal 0)) (plain b)) ∷ [])) ∷ []) ≡ Some (a, at_line 5) }
    ensures of_a_memory { latch (memory m ∷ input b ∷ [])
        (always 6 (now (to_bit m (bit_of b (decimal 0))) (plain b)) ∷ []) ≡ Some (m, at_line 6) }
{}

/// What is surely assigned, on each path or beside bits that no path assigns, is no latch.
pub fn no_latches_are_found()
    ensures set_and_changed { latch (variable a ∷ input b ∷ []) (always 3 first_set ∷ []) ≡ None }
    ensures one_bit { latch (variable a ∷ input b ∷ [])
        (always 3 (now (to_bit a (decimal 0)) (plain b)) ∷ []) ≡ None }
    ensures one_word { latch (memory m ∷ input b ∷ [])
        (always 3 (now (to_bit m (decimal 1)) (plain b)) ∷ []) ≡ None }
    ensures at_the_end { latch (variable a ∷ input b ∷ [])
        (always 3 (later (plain_target a) (plain b)) ∷ []) ≡ None }
    ensures at_the_clock { latch (variable a ∷ input b ∷ [])
        (at_clock 3 (under (plain b) (later (plain_target a) (plain b))) ∷ []) ≡ None }
{}

/// A bit that two drivers assign, or that one target has twice, with both places in order; a memory counts as its
/// bit 0.
pub fn two_drivers_are_found()
    ensures of_a_name { two_drivers (net a ∷ input b ∷ []) (copies 4 a b ∷ copies 3 a b ∷ [])
        ≡ Some (a, 0, at_line 3, at_line 4) }
    ensures of_a_bit { two_drivers (net a ∷ input b ∷ [])
        (copies 3 a b ∷ assigns 5 (to_bit a (decimal 1)) (plain b) ∷ []) ≡ Some (a, 1, at_line 3, at_line 5) }
    ensures of_a_part { two_drivers (net a ∷ input b ∷ [])
        (assigns 3 (to_part a 1 0) (plain b) ∷ assigns 5 (to_bit a (decimal 1)) (plain b) ∷ [])
        ≡ Some (a, 1, at_line 3, at_line 5) }
    ensures in_one_target { two_drivers (net a ∷ input b ∷ [])
        (assigns 3 (to_both (plain_target a) (to_bit a (decimal 1))) (plain b) ∷ [])
        ≡ Some (a, 1, at_line 3, at_line 3) }
    ensures of_words { two_drivers (memory m ∷ input b ∷ [])
        (at_clock 3 (later (to_bit m (decimal 0)) (plain b))
        ∷ at_clock 6 (later (to_bit m (decimal 1)) (plain b)) ∷ [])
        ≡ Some (m, 0, at_line 3, at_line 6) }
    ensures by_an_index { two_drivers (variable a ∷ input b ∷ [])
        (at_clock 3 (later (to_bit a (plain b)) (plain b)) ∷ always 6 (now (to_bit a (decimal 1)) (plain b)) ∷ [])
        ≡ Some (a, 1, at_line 3, at_line 6) }
    ensures of_the_first_name { two_drivers (net a ∷ net b ∷ input c ∷ [])
        (copies 3 b c ∷ copies 4 b c ∷ copies 5 a c ∷ copies 6 a c ∷ []) ≡ Some (a, 0, at_line 5, at_line 6) }
{}

/// Drivers of different bits, and a block that assigns a bit twice, are no two drivers.
pub fn no_two_drivers_are_found()
    ensures other_bits { two_drivers (net a ∷ input b ∷ [])
        (assigns 3 (to_bit a (decimal 0)) (plain b) ∷ assigns 5 (to_bit a (decimal 1)) (plain b) ∷ []) ≡ None }
    ensures in_a_block { two_drivers (variable a ∷ input b ∷ []) (always 3 first_set ∷ []) ≡ None }
    ensures none { two_drivers (net a ∷ input b ∷ []) [] ≡ None }
{}

/// A bit of a net without a driver.
pub fn undriven_bits_are_found()
    ensures of_a_name { undriven (net a ∷ input b ∷ []) [] ≡ Some (a, 0) }
    ensures of_a_bit { undriven (net a ∷ input b ∷ [])
        (assigns 3 (to_bit a (decimal 0)) (plain b) ∷ []) ≡ Some (a, 1) }
    ensures beside_a_part { undriven (net a ∷ input b ∷ [])
        (assigns 3 (to_part a 1 1) (plain b) ∷ []) ≡ Some (a, 0) }
    ensures not_a_variable { undriven (variable a ∷ input b ∷ []) [] ≡ None }
    ensures not_a_free_name { undriven (free a ∷ input b ∷ []) [] ≡ None }
    ensures driven { undriven (net a ∷ input b ∷ []) (copies 3 a b ∷ []) ≡ None }
{}

/// A name with blocking assignments in a clocked block, whatever these reach, of which another driver reads a bit.
pub fn shared_names_are_found()
    ensures by_an_assign { blocking_shared (variable a ∷ net b ∷ input c ∷ [])
        (at_clock 3 (now (plain_target a) (plain c)) ∷ copies 4 b a ∷ []) ≡ Some (a, at_line 3) }
    ensures by_a_block { blocking_shared (variable a ∷ variable b ∷ input c ∷ [])
        (at_clock 3 (later (plain_target b) (bit_of a (plain c)))
        ∷ at_clock 4 (now (to_bit a (plain c)) (plain c)) ∷ []) ≡ Some (a, at_line 4) }
    ensures of_a_memory { blocking_shared (memory m ∷ net b ∷ input c ∷ [])
        (assigns 2 (plain_target b) (bit_of m (plain c))
        ∷ at_clock 3 (now (to_bit m (decimal 0)) (plain c)) ∷ []) ≡ Some (m, at_line 3) }
    ensures past_the_range { blocking_shared (variable a ∷ net b ∷ input c ∷ [])
        (at_clock 3 (now (to_bit a (decimal 9)) (plain c)) ∷ copies 4 b a ∷ []) ≡ Some (a, at_line 3) }
    ensures not_read { blocking_shared (variable a ∷ net b ∷ input c ∷ [])
        (at_clock 3 (now (plain_target a) (plain c))
        ∷ assigns 4 (plain_target b) (bit_of a (decimal 9)) ∷ []) ≡ None }
    ensures not_inside { blocking_shared (variable a ∷ variable b ∷ input c ∷ [])
        (at_clock 3 (each (now (plain_target a) (plain c) ∷ later (plain_target b) (plain a) ∷ [])) ∷ [])
        ≡ None }
    ensures not_when_it_waits { blocking_shared (variable a ∷ net b ∷ input c ∷ [])
        (at_clock 3 (later (plain_target a) (plain c)) ∷ copies 4 b a ∷ []) ≡ None }
{}

/// A name with blocking and nonblocking assignments, whatever these reach, or with a nonblocking one in a combinational
/// block.
pub fn mixed_names_are_found()
    ensures in_one_block { mixed (variable a ∷ input b ∷ [])
        (at_clock 3 (each (now (plain_target a) (plain b) ∷ later (plain_target a) (plain b) ∷ [])) ∷ [])
        ≡ Some (a, at_line 3) }
    ensures of_two_bits { mixed (variable a ∷ input b ∷ [])
        (at_clock 5 (now (to_bit a (decimal 0)) (plain b))
        ∷ at_clock 4 (later (to_bit a (decimal 1)) (plain b)) ∷ []) ≡ Some (a, at_line 4) }
    ensures of_two_words { mixed (memory m ∷ input b ∷ [])
        (at_clock 4 (each (now (to_bit m (decimal 0)) (plain b)
        ∷ later (to_bit m (decimal 1)) (plain b) ∷ [])) ∷ [])
        ≡ Some (m, at_line 4) }
    ensures past_the_range { mixed (variable a ∷ input b ∷ [])
        (always 3 (each (now (plain_target a) (plain b) ∷ later (to_bit a (decimal 9)) (plain b) ∷ [])) ∷ [])
        ≡ Some (a, at_line 3) }
    ensures of_no_bits { mixed (variable a ∷ input b ∷ [])
        (at_clock 4 (now (to_bit a (decimal 8)) (plain b))
        ∷ at_clock 5 (later (to_bit a (decimal 9)) (plain b)) ∷ []) ≡ Some (a, at_line 4) }
    ensures without_clock { mixed (variable a ∷ input b ∷ [])
        (always 6 (later (plain_target a) (plain b)) ∷ []) ≡ Some (a, at_line 6) }
    ensures one_kind { mixed (variable a ∷ input b ∷ [])
        (at_clock 3 (each (later (plain_target a) (plain b) ∷ later (plain_target a) (plain b) ∷ [])) ∷ [])
        ≡ None }
{}

/// Drivers that read in a circle: a block from itself, two assignments, and two that read one bit of each other, so
/// that no bit depends on itself; the first has the earliest place.
#[tactic(auto, using(crate::proofs::Loops::loops))]
pub fn loops_are_found()
    ensures of_itself { IsLoop (variable a ∷ []) (always 3 (now (plain_target a) (plain a)) ∷ [])
        (always 3 (now (plain_target a) (plain a))) [] }
    ensures of_two { IsLoop (net a ∷ net b ∷ []) (copies 31 b a ∷ copies 30 a b ∷ []) (copies 30 a b)
        (copies 31 b a ∷ []) }
    ensures of_whole_drivers { IsLoop (net a ∷ net b ∷ []) (high 1 a b ∷ low 2 b a ∷ []) (high 1 a b)
        (low 2 b a ∷ []) }
    ensures of_a_block { IsLoop (net a ∷ variable b ∷ [])
        (copies 4 a b ∷ always 3 (now (plain_target b) (plain a)) ∷ [])
        (always 3 (now (plain_target b) (plain a))) (copies 4 a b ∷ []) }
{}
