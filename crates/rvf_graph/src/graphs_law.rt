//! That what a graph says of a design without hierarchy it says of the design that the source writes: a law, without
//! code.
ghost use Rattle.rvf_graph.specs.Sources.{GraphsAreTheSources, GraphsDependOnMaps};

/// Parts with the same maps and the same declarations have the same graphs.
#[tactic(auto, using(crate::proofs::SourceGraphs::by_maps))]
pub fn graphs_depend_on_maps()
    ensures { GraphsDependOnMaps }
{}

/// What a graph says of a design without hierarchy it says of the design that this is drawn from.
#[tactic(auto, using(crate::proofs::SourceGraphs::of_the_source))]
pub fn graphs_are_the_sources()
    ensures { GraphsAreTheSources }
{}
