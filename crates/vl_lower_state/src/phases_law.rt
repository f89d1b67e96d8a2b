//! What the phases of lowering promise one another, and what they make together: definitions, and a law, without code.
ghost use Rattle.vl_lower_state.specs.Phases.{PhasesLower};

/// A net that sources, settled drivers, clocked blocks and what closes it make, is that of the design.
pub fn phases_lower()
    ensures { PhasesLower }
{}
