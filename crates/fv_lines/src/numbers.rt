ghost use Rattle.std.specs.Prelude.{
  ◌≡◌,
  ◌<◌,
  ◌≤◌,
  ◌+◌,
  ◌-◌,
  ◌*◌,
  ◌^◌,
  ℕ,
  min,
  true,
  option_map,
  IfSome,
};
ghost use Rattle.fv_lines.specs.Numbers.{is_digit, natural_of, number_up_to};

/// No number is told beyond this one.
pub const MOST: u64 = 1000000000000000000;

/// The number of the digits, or `MOST` where it is more. None where a byte is no digit, or there is none.
pub fn natural(digits: &[u8]) -> Option<u64>
    ensures value { result ≡ option_map (min MOST) (natural_of digits.now) }
{
    if digits.is_empty() {
        return None;
    }
    let mut value = 0;
    for digit in digits {
        if !is_digit(*digit) {
            return None;
        }
        value = continued(value, *digit);
    }
    Some(value)
}

fn is_digit(byte: u8) -> bool
    ensures { result ≡ is_digit byte }
{
    byte >= b'0' && byte <= b'9'
}

/// The number with one digit more.
fn continued(value: u64, digit: u8) -> u64
    requires value { value ≤ MOST }
    requires digit { is_digit digit ≡ true }
    ensures { result ≡ min MOST (10 * value + (digit - 48)) }
{
    (10 * value + u64::from(digit - b'0')).min(MOST)
}

/// The number of the digits, if it is at most the limit.
pub fn number_up_to(digits: &[u8], limit: u64) -> Option<u64>
    requires { limit < MOST }
    ensures value { result ≡ number_up_to limit digits.now }
    ensures within { IfSome result (λ n. n ≤ limit) }
{
    let number = natural(digits)?;
    if number <= limit { Some(number) } else { None }
}
