//! That a step has as many places of nodes as it has nodes.
ghost use Rattle.std.specs.Prelude.{◌≡◌, length};
ghost use Rattle.vl_mean.specs.Walk.{Step};
ghost use Rattle.vl_elab_spec.specs.Counts.{step_nodes};
ghost use Rattle.vl_elab_spec.specs.NodePlaces.{node_places};

/// A step has as many places of nodes as it has nodes, so that one of them is one too many where they pass the limit.
#[tactic(auto, using(crate::proofs::Lengths::step_length))]
pub fn each_node_has_a_place()
    ensures { (x : Step) → length (node_places x) ≡ step_nodes x }
{}
