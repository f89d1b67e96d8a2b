//! The parts of a line: numbers, codes, and what stands between blanks.

ghost use Rattle.std.specs.Prelude.{◌≡◌, ◌+◌, ◌^◌, ◌<◌, ◌≤◌, ℕ, not, ◌==◌, MatchOption};
ghost use Rattle.std.specs.List.{AllByRecursion};
ghost use Rattle.vcd_dump.specs.Digits.{Writes, WritesNone, Codes, CodesNone};
ghost use Rattle.vcd_text.specs.Reading.{FindsParts, FindsValue, IsValueFor, IsNoValueFor};
ghost use Rattle.vcd_dump.specs.Vcd.{IsWide};

use fv_lines::cut_at;
use fv_text::TraceName;

/// The number that these digits write in the base, without leading zeros, if it is at most `most`. Each level of the
/// recursion divides `most` by the base.
pub(crate) fn number_up_to(digits: &[u8], base: u128, most: u128) -> Option<u128>
    requires low { 2 ≤ base }
    requires high { base ≤ 10 }
    ensures { MatchOption result (WritesNone base most digits.now) (Writes base most digits.now) }
{
    let Some((digit, higher)) = digits.split_last() else {
        return None;
    };
    if higher.is_empty() {
        return digit_up_to(*digit, 48, base, most);
    }
    if most < base {
        return None;
    }
    let Some(high) = number_up_to(higher, base, most / base) else {
        return None;
    };
    if high == 0 {
        return None;
    }
    let Some(low) = digit_up_to(*digit, 48, base, most - high * base) else {
        return None;
    };
    Some(high * base + low)
}

/// The digit of a character, where `zero` is the character of 0, if it is below the base and at most `most`.
fn digit_up_to(character: u8, zero: u8, base: u128, most: u128) -> Option<u128>
    ensures { MatchOption result ((d : ℕ) → d < base → d ≤ most → character ≡ zero + d → ⊥)
        (λ d. (d < base) × (d ≤ most) × (character ≡ zero + d)) }
{
    if character < zero {
        return None;
    }
    let digit = (character - zero) as u128;
    if digit < base && digit <= most {
        Some(digit)
    } else {
        None
    }
}

/// The index at most `most` that has this code. Each level of the recursion divides `most` by 94.
pub(crate) fn index_up_to(characters: &[u8], most: u128) -> Option<u128>
    ensures { MatchOption result (CodesNone most characters.now) (Codes most characters.now) }
{
    let Some((digit, higher)) = characters.split_first() else {
        return None;
    };
    if higher.is_empty() {
        return digit_up_to(*digit, 33, 94, most);
    }
    if most < 94 {
        return None;
    }
    let Some(high) = index_up_to(higher, most / 94) else {
        return None;
    };
    if high == 0 {
        return None;
    }
    let Some(low) = digit_up_to(*digit, 33, 94, most - high * 94) else {
        return None;
    };
    Some(high * 94 + low)
}

/// The largest number of so many bits.
fn most_of(width: u32) -> u128
    requires low { 1 ≤ width }
    requires high { width ≤ 128 }
    ensures { result + 1 ≡ 2 ^ width }
{
    if width == 128 {
        return u128::MAX;
    }
    (1u128 << width) - 1
}

/// The index of a name and a value of its width that the line says.
pub(crate) fn value_at(line: &[u8], names: &[TraceName]) -> Option<(usize, u128)>
    requires { AllByRecursion IsWide names.now }
    ensures { FindsValue names.now line.now result }
{
    let Some((first, rest)) = line.split_first() else {
        return None;
    };
    if *first != b'b' {
        return value_of(false, &[*first], rest, names);
    }
    let Some((digits, characters)) = cut_at(rest, b' ') else {
        return None;
    };
    value_of(true, digits, characters, names)
}

fn value_of(
    wide: bool,
    digits: &[u8],
    characters: &[u8],
    names: &[TraceName],
) -> Option<(usize, u128)>
    requires { AllByRecursion IsWide names.now }
    ensures { FindsParts names.now wide digits.now characters.now result }
{
    if names.is_empty() {
        return None;
    }
    let Some(index) = index_up_to(characters, (names.len() - 1) as u128) else {
        return None;
    };
    let name = &names[index as usize];
    let Some(value) = value_for(wide, digits, name) else {
        return None;
    };
    Some((index as usize, value))
}

fn value_for(wide: bool, digits: &[u8], name: &TraceName) -> Option<u128>
    requires { IsWide name.now }
    ensures { MatchOption result (IsNoValueFor wide digits.now name.now) (IsValueFor wide digits.now name.now) }
{
    if wide == (name.width == 1) {
        return None;
    }
    number_up_to(digits, 2, most_of(name.width))
}
