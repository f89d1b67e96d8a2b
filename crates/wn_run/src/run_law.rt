//! What holds of every net, each as a clause of a function that does nothing.

ghost use Rattle.wn_run.specs.Laws as laws;

/// Each node has the value and the width of its kind in its own net.
#[tactic(auto, using(crate::proofs::Own::each_value, crate::proofs::Own::each_width))]
pub fn nodes_have_their_meaning()
    ensures value { laws.EachNodeHasItsValue }
    ensures width { laws.EachNodeHasItsWidth }
{}

/// Values depend on the inputs, registers and words that the net has, and on nothing else.
#[tactic(auto, using(crate::proofs::Alike::values_alike))]
pub fn values_depend_on_what_a_net_has()
    ensures { laws.ValuesAreAlike }
{}

/// The numbers of each cycle of a run are numbers of a cycle of the net, and choices make a run.
pub fn cycles_are_of_the_net()
    ensures given { laws.CyclesAreGiven }
    ensures chosen { laws.ChoicesMakeRuns }
{}

/// After more nodes and registers the old part of a run is a run of the old net, and each run of the old net extends.
pub fn old_parts_of_runs_are_old_runs()
    ensures cycles { laws.OldPartsAreOldRuns }
    ensures begins { laws.OldPartsBeginAsOldRuns }
    ensures extends { laws.RunsExtend }
{}
