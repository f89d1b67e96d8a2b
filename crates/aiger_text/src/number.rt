//! Numbers that may pass `2^64`.
ghost use Rattle.std.specs.Prelude.{◌≡◌, ◌≤◌, ◌<◌, ◌+◌, ◌-◌, ◌*◌, ◌^◌, min, true, option_map, IfSome};
ghost use Rattle.fv_lines.specs.Numbers.{is_digit, natural_of, number_up_to};
ghost use Rattle.aiger_text.specs.Lines.{short, literal_of};

/// No number is told beyond this one. A header's numbers are below `10^20`, so that literals are below `2^68`.
const MOST: u128 = 1 << 68;

/// A number of a header has no more digits.
const MOST_DIGITS: usize = 20;

fn is_digit(byte: u8) -> bool
    ensures { result ≡ is_digit byte }
{
    byte >= b'0' && byte <= b'9'
}

/// The number with one digit more.
fn continued(value: u128, digit: u8) -> u128
    requires value { value ≤ MOST }
    requires digit { is_digit digit ≡ true }
    ensures { result ≡ min MOST (10 * value + (digit - 48)) }
{
    (10 * value + u128::from(digit - b'0')).min(MOST)
}

/// The number of the digits, or `MOST` where it is more. None where a byte is no digit, or there is none.
fn natural(digits: &[u8]) -> Option<u128>
    ensures { result ≡ option_map (min MOST) (natural_of digits.now) }
{
    if digits.is_empty() {
        return None;
    }
    let mut value = 0;
    for digit in digits {
        if !is_digit(*digit) {
            return None;
        }
        value = continued(value, *digit);
    }
    Some(value)
}

/// A number of a header.
#[tactic(auto, using(crate::proofs::NumberLaws::short_value, crate::proofs::NumberLaws::short_within, crate::proofs::NumberLaws::long_value))]
pub(crate) fn short(word: &[u8]) -> Option<u128>
    ensures value { result ≡ short word.now }
    ensures within { IfSome result (λ n. n < 10 ^ 20) }
{
    if word.len() > MOST_DIGITS {
        return None;
    }
    natural(word)
}

/// The number of the digits, if it is at most the limit.
fn number_up_to(digits: &[u8], limit: u128) -> Option<u128>
    requires { limit < MOST }
    ensures value { result ≡ number_up_to limit digits.now }
    ensures within { IfSome result (λ n. n ≤ limit) }
{
    let number = natural(digits)?;
    if number <= limit { Some(number) } else { None }
}

/// A literal of one of so many variables, or 0 or 1.
pub(crate) fn literal(word: &[u8], most: u128) -> Option<u128>
    requires { most < 10 ^ 20 }
    ensures value { result ≡ literal_of most word.now }
    ensures within { IfSome result (λ l. l ≤ 2 * most + 1) }
{
    number_up_to(word, 2 * most + 1)
}
