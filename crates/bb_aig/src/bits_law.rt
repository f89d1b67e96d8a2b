ghost use Rattle.bb_aig.specs.Laws as laws;

/// Each operator on lists of bits is that on their numbers.
#[tactic(auto, using(crate::proofs::All::bitwise, crate::proofs::All::sums, crate::proofs::All::ordered, crate::proofs::All::shifted, crate::proofs::All::placed))]
pub fn bits_are_numbers()
    ensures bitwise { laws.BitsAreBitwise }
    ensures sums { laws.BitsAreSums }
    ensures ordered { laws.BitsAreOrdered }
    ensures shifted { laws.BitsAreShifted }
    ensures placed { laws.BitsArePlaced }
{}
