//! Registers for the bits of a cell that are kept over the clock's edge: definitions and laws.
ghost use Rattle.vl_lower_cell_laws.specs.Keeps.{AllRegistersKeepBits, WritesLeaveLast};

/// Each register is kept bits that begin as it does, each kept bit is one of a register, and the number that the
/// registers' numbers make of the cell has these numbers at these bits.
pub fn registers_keep_bits()
    ensures { AllRegistersKeepBits }
{}

/// Writes of bits, one after the other, leave in a map the last value of each bit.
pub fn writes_leave_last()
    ensures { WritesLeaveLast }
{}
