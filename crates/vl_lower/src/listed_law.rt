//! The entries of a design's names in a net: its code, and the law that they are the listed ones.
ghost use Rattle.vl_lower.specs.Listed.{EntriesAreThose};

/// Where the first cells are those of the design's memories, the entries are those of the design.
pub fn entries_are_those()
    ensures { EntriesAreThose }
{}
