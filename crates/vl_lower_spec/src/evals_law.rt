//! What it means that a net is that of a design: definitions, and the law that their runs are one, without code.
ghost use Rattle.vl_lower_spec.specs.Evaluations.{AssumptionsAreMet, RunsAreAllowed, RunsAreEvaluated};

/// Each run of a lowered net, with any choices, is a run that the design allows, map by map.
pub fn runs_are_allowed()
    ensures { RunsAreAllowed }
{}

/// Each run that the design allows is one of the net, for some choices: cycle by cycle its numbers are those of the
/// run's maps.
pub fn runs_are_evaluated()
    ensures { RunsAreEvaluated }
{}

/// A run's assumptions are met exactly where those of its evaluations are.
#[tactic(auto, using(crate::proofs::Allowed::assumed))]
pub fn assumptions_are_met()
    ensures { AssumptionsAreMet }
{}
