//! That the value of a loop's variable is a bound.
ghost use Rattle.std.specs.Prelude.{◌≡◌, true};
ghost use Rattle.fv_bits.specs.Bits.{as_int};
ghost use Rattle.vl_size.specs.Size.{Operand, is_bound};
ghost use Rattle.vl_mean.specs.Walk.{genvar_value};

/// What is assigned to a genvar has 32 signed bits (IEEE 1364-2005, section 12.4.1).
pub fn a_genvar_has_32_signed_bits()
    ensures { (x : Operand) → is_bound (as_int (genvar_value x).width (genvar_value x).signed (genvar_value x).value)
        ≡ true }
{}
