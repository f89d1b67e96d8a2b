//! Cells in which drivers are settled one after the other, and then clocked blocks act: definitions and laws, without
//! code.
ghost use Rattle.vl_lower_cell_laws.specs.Cycles.{AllCyclesGrow};

/// No driver leaves all as it is, and one more acts behind the others.
pub fn cycles_grow()
    ensures { AllCyclesGrow }
{}
