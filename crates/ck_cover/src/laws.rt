//! What holds of targets, each as a clause of a function that does nothing.

ghost use Rattle.ck_cover.specs.Laws as laws;

/// A kind that has a check has its target, whose cycle is at least that of each check of the kind.
#[tactic(auto, using(crate::proofs::Greatest::each_has_its_target))]
pub fn each_check_has_its_target()
    ensures { laws.EachCheckHasItsTarget }
{}

/// The targets of lawful checks are lawful.
#[tactic(auto, using(crate::proofs::Lawfulness::lawful))]
pub fn targets_are_lawful()
    ensures { laws.TargetsAreLawful }
{}
