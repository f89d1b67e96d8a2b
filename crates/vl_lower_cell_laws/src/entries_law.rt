//! The entries of a design's names over the nodes of its cells: definitions and laws, without code.
ghost use Rattle.vl_lower_cell_laws.specs.Entries.{EntriesAgree, EntriesAreListed};

/// They are one for each declared name but the clock, or for each word of a memory that isn't kept as one.
pub fn entries_are_listed()
    ensures { EntriesAreListed }
{}

/// The map of names that they give is the one that stands in the cells and the memories.
pub fn entries_agree()
    ensures { EntriesAgree }
{}
