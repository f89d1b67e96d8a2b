ghost use Rattle.std.specs.Prelude.{◌≡◌};
ghost use Rattle.lrat_check.specs.Sets.{IsLit};
ghost use Rattle.lrat_check.specs.Codes.{code_of, lit_of, flip};

/// The code of a literal: twice the variable, and one more for its complement.
pub fn code_of(lit: i64) -> u64
    requires { IsLit lit }
    ensures { result ≡ code_of lit }
{
    let var = lit.unsigned_abs();
    if lit > 0 { var * 2 } else { var * 2 + 1 }
}

/// The literal of a code.
pub fn lit_of(code: u64) -> i64
    requires { IsLit (lit_of code) }
    ensures { result ≡ lit_of code }
{
    let var = (code / 2) as i64;
    if code % 2 == 0 { var } else { -var }
}

/// The code of the complement.
pub fn flip(code: u64) -> u64
    requires { IsLit (lit_of code) }
    ensures { result ≡ flip code }
{
    if code % 2 == 0 { code + 1 } else { code - 1 }
}
