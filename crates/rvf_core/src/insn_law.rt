//! What the checks of instructions mean together: a law, without code.
ghost use Rattle.rvf_core.specs.InsnLaw.{InstructionsAgree};

/// Where no run violates a check of an instruction at a channel, each word of the configuration's instruction set that
/// retires there in an assumed run, in the cycle of these checks, has the effect of its row.
#[tactic(auto, using(crate::proofs::Instructions::instructions_agree))]
pub fn instructions_agree()
    ensures { InstructionsAgree }
{}
