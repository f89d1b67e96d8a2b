//! The inputs, registers and memories that the declared names of a design come to, and the numbers of its cells at the
//! beginning of a cycle: definitions and laws, without code.
ghost use Rattle.vl_lower_cell_laws.specs.Listing.{SourcesAreNamed};
ghost use Rattle.vl_lower_cell_laws.specs.Numbers.{NumbersBeginCycles};

/// They are bits of the free names, all of them, and begin as the design's do.
pub fn sources_are_named()
    ensures { SourcesAreNamed }
{}

/// A map whose cells have these numbers in a cycle is ranged, and what is free in it is what the cycle was given.
pub fn numbers_begin_cycles()
    ensures { NumbersBeginCycles }
{}
