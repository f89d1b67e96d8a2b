//! What the definition says of the codes of some names.

ghost use Rattle.std.specs.Prelude.{◌≡◌, codes};
ghost use Rattle.vcd_dump.specs.Digits.{code};

/// Codes have one digit up to the 94th name, then two, and three from the 8,837th on.
#[tactic(auto, unfolding(crate::specs::Digits::code))]
pub(crate) fn names_have_their_codes()
    ensures first { code 0 ≡ codes "!" }
    ensures last_of_one { code 93 ≡ codes "~" }
    ensures first_of_two { code 94 ≡ codes "!\"" }
    ensures least_digit_first { code 188 ≡ codes "!#" }
    ensures last_of_two { code 8835 ≡ codes "~~" }
    ensures first_of_three { code 8836 ≡ codes "!!\"" }
{}
