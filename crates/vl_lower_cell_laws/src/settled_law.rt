//! What the drivers of a design leave for the next cycle and assume, settled in their order: laws, without code.
ghost use Rattle.vl_lower_cell_laws.specs.Left.{LeftBitsAreKept, SeenIsAssumed};

/// What drivers leave in a map for the next cycle has the kept bits of the map that they settle.
pub fn left_bits_are_kept()
    ensures { LeftBitsAreKept }
{}

/// What is assumed while drivers are settled, and at the clock's edge, is what the design assumes of the settled map.
pub fn seen_is_assumed()
    ensures { SeenIsAssumed }
{}
