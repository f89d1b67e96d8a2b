//! Which refusal is answered.
ghost use Rattle.std.specs.Prelude.{◌≡◌, ◌++◌, List, Some};
ghost use Rattle.vl_mean.specs.Walk.{Step};
ghost use Rattle.vl_elab_spec.specs.Refused.{all_counted, first_refused, lower_of, lowest, or_later, IsLowest, Totals};
ghost use Rattle.vl_elab_spec.specs.declared.elab_fault.ElabFault.{ElabFault as SpecFault};
ghost use Rattle.vl_tree.specs.declared.source.Module.{Module};

/// Of the refusals of a step, one is answered that is there, and none of them has a lower number, or the same at an
/// earlier place.
pub fn the_lowest_refusal_is_answered()
    ensures { (gs : List SpecFault) (g : SpecFault) → lowest gs ≡ Some g → IsLowest gs g }
{}

/// The answered refusal of two parts is that of the one or the other.
#[tactic(auto, using(crate::proofs::LowestFirst::lowest_append))]
pub fn the_lowest_of_parts_is_answered()
    ensures { (gs hs : List SpecFault) → lowest (gs ++ hs) ≡ lower_of (lowest gs) (lowest hs) }
{}

/// Steps behind others are refused where those aren't, with the nodes and names of those counted.
#[tactic(auto, using(crate::proofs::LowestFirst::first_append))]
pub fn the_first_refused_step_counts()
    ensures { (ms : List Module) (t : Totals) (xs ys : List Step)
        → first_refused ms t (xs ++ ys) ≡ or_later (first_refused ms t xs)
        (first_refused ms (all_counted t xs) ys) }
{}
