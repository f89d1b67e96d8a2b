//! What the clocked blocks of a design store for the next cycle: a law, without code.
ghost use Rattle.vl_lower_cell_laws.specs.Ticked.{TickedMapsAreNext};

/// What the clocked blocks store, one after the other, makes of the kept bits of a cycle a map that may come next.
pub fn ticked_maps_are_next()
    ensures { TickedMapsAreNext }
{}
