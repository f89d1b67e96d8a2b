//! Names of a net over the inputs, registers and memories of a design, and entries for its cells: laws, without code.
ghost use Rattle.vl_lower_cell_laws.specs.Shown.{NamesAreShown, NamesAreWhole};

/// They are names of the net: texts differ, each place is there with its width, and each input, register and memory
/// has its entry.
pub fn names_are_whole()
    ensures { NamesAreWhole }
{}

/// In a cycle the bits of inputs and registers are those of the names.
pub fn names_are_shown()
    ensures { NamesAreShown }
{}
