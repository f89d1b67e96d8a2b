//! What the two halves of an induction on a net say of its design: laws, each as a clause of a function that does
//! nothing.

ghost use Rattle.ck_induct.specs.Laws as laws;
ghost use Rattle.ck_induct.specs.OneCycle.{PropertiesAreOfMaps};
ghost use Rattle.ck_induct.specs.Steps as steps;

/// Where no run up to `k` fails a property of one map in a cycle from 1 on, and no step run of length `k` exists, no
/// run of any length fails it in a cycle from 1 on.
pub fn no_run_of_any_length_fails()
    ensures { steps.NoneFails }
{}

/// Where a check looks at one cycle, a run has its property exactly where the map of the check's cycle has it.
pub fn properties_are_of_maps()
    ensures { PropertiesAreOfMaps }
{}

/// The monitor of such a check is 1 exactly where the map of the cycle lacks the check's property.
pub fn monitors_tell_lack()
    ensures { laws.MonitorsTellLack }
{}

/// The maps of a step run of a lowered net are maps that the design allows, from any one on.
pub fn step_runs_are_allowed()
    ensures { laws.StepRunsAreAllowed }
{}

/// Maps that the design allows from any one on are those of a step run of the net.
pub fn step_runs_are_evaluated()
    ensures { laws.StepRunsAreEvaluated }
{}

/// The clauses of both halves are those of the design: of its runs up to `k`, and of its `k + 1` maps from any one on.
pub fn halves_have_their_clauses()
    ensures { laws.HalvesHaveTheirClauses }
{}

/// Where no choices are bad in the base, no run of the design up to a cycle from 1 to `k` fails in it; where none are
/// in the step, the design has no step run of length `k`.
pub fn refuted_halves_have_none()
    ensures { laws.RefutedHalvesHaveNone }
{}

/// Where no choices are bad in either half, no run of the design of any length fails in a cycle from 1 on.
pub fn none_of_the_design_fails()
    ensures { laws.NoneOfTheDesignFails }
{}

/// The traces that witnesses of both halves tell are those of a run of the design that fails, and of a step run of it.
pub fn traces_are_the_designs()
    ensures { laws.TracesAreTheDesigns }
{}

/// Both have a value-change dump.
pub fn traces_have_dumps()
    ensures { laws.TracesHaveDumps }
{}
