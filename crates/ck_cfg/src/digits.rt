//! Numbers in decimal digits, of any length.

ghost use Rattle.std.specs.Prelude.{◌≡◌, nat_le, true};
ghost use Rattle.std.specs.List.{list_all};
ghost use Rattle.fv_lines.specs.Numbers.{is_digit};
ghost use Rattle.ck_cfg.specs.Digits.{value, significant};

/// Whether the first number is at most the second, however long they are.
pub(crate) fn is_at_most(first: &[u8], second: &[u8]) -> bool
    requires first { list_all is_digit first.now ≡ true }
    requires second { list_all is_digit second.now ≡ true }
    ensures { result ≡ nat_le (value first.now) (value second.now) }
{
    let first = significant(first);
    let second = significant(second);
    if first.len() != second.len() {
        return first.len() < second.len();
    }
    first <= second
}

/// The digits without leading zeros.
fn significant(digits: &[u8]) -> &[u8]
    ensures { result.now ≡ significant digits.now }
{
    let mut rest = digits;
    while let [b'0', behind @ ..] = rest {
        rest = behind;
    }
    rest
}
