ghost use Rattle.vl_lower_assign.specs.Puts.{PutsAreAssignments};

/// The bits of a name after an assignment to some of them, and those of each other name, which stay.
pub fn puts_are_assignments()
    ensures { PutsAreAssignments }
{}
