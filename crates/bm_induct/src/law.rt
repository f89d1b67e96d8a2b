//! What induction on the length of a run shows, each as a clause of a function that does nothing.

ghost use Rattle.bm_induct.specs.Lengths as lengths;
ghost use Rattle.bm_induct.specs.Laws as laws;

/// A property that holds in the first cycles from 1 on, and behind each row of so many cycles in which it holds, holds
/// in all cycles from 1 on.
pub fn a_property_of_each_length()
    ensures { lengths.EachLength }
{}

/// The cycles of a run from one of them on are a step run: its choices are those of the run, and what the registers and
/// memories have there.
pub fn parts_of_runs_are_step_runs()
    ensures { laws.PartsAreStepRuns }
{}

/// Where no run up to `k` has the bad node other than 0 in a cycle from 1 on, and no step run of length `k` exists, no
/// run of any length has it.
pub fn no_run_of_any_length_is_bad()
    ensures { laws.NoneOfAnyLength }
{}
