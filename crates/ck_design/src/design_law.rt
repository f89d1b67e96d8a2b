//! What is found in the runs of a net, of those of the design that it is made from: definitions and laws, without code.
ghost use Rattle.ck_design.specs.Findings.{FindingsOfChecksViolate, ReachedKindsHaveRuns};
ghost use Rattle.ck_design.specs.Loaded.{BoundNetsAreLoaded, FindingsAreTheDesigns, FindingsAreTheNets};

/// The net of a design, with the nodes of a port, shows in each evaluation what the design's map shows.
pub fn bound_nets_are_loaded()
    ensures { BoundNetsAreLoaded }
{}

/// A run of the net that gives what is sought is, by its choices, a run of the design that gives it.
pub fn findings_are_the_designs()
    ensures { FindingsAreTheDesigns }
{}

/// Where a run of the design gives what is sought, a run of the net gives it.
pub fn findings_are_the_nets()
    ensures { FindingsAreTheNets }
{}

/// What is found of a check is exactly what violates it.
pub fn findings_of_checks_violate()
    ensures { FindingsOfChecksViolate }
{}

/// Where a run reaches the target of a kind's assumptions, each check of the kind has an assumed run up to its cycle.
pub fn reached_kinds_have_runs()
    ensures { ReachedKindsHaveRuns }
{}
