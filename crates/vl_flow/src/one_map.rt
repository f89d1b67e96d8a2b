ghost use Rattle.vl_mean.specs.FlatParts.{flat_parts};
ghost use Rattle.vl_mean.specs.Runs.{Agrees, ChoosesAlike, Each, Holds, InRange};
ghost use Rattle.vl_size.specs.Size.{Values};

use crate::ordered::Ordered;
use vl_flow_spec::order_law::{a_choice_has_one_map, each_choice_has_a_map};

/// For each choice of numbers for inputs, free names and kept bits there is a map that holds, and any two maps that
/// hold with one choice agree on each declared name but the clock.
pub fn each_choice_has_one_map(ordered: &Ordered)
    ensures some { (v : Values) → Each (λ d. InRange v d d.class) ordered.now.flat.decls
        → (u : Values) × Holds (flat_parts ordered.now.flat) u × ChoosesAlike (flat_parts ordered.now.flat) u v }
    ensures one { (u v : Values) → Holds (flat_parts ordered.now.flat) u → Holds (flat_parts ordered.now.flat) v
        → ChoosesAlike (flat_parts ordered.now.flat) u v → Agrees (flat_parts ordered.now.flat) u v }
{
    let _count = ordered.flat.decls.len();
    each_choice_has_a_map();
    a_choice_has_one_map();
}
