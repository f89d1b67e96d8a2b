//! What holds of all calls, as a clause of a function that does nothing.

ghost use Rattle.wn_opt.specs.Laws as laws;

/// A later call for a node answers what an earlier one did, however much was added between them.
#[tactic(auto, using(crate::proofs::Equal::equal_calls))]
pub fn equal_calls_answer_one_number()
    ensures { laws.EqualCallsAnswerOneNumber }
{}
