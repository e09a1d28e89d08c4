//! Decimals, read exactly.
ghost use Rattle.std.specs.Prelude.{◌≡◌, ◌≤◌, ◌<◌, ◌+◌, ◌*◌, ◌^◌, length, true, option_map};
ghost use Rattle.std.specs.List.{list_all};
ghost use Rattle.std.specs.Str.Parse.{digits_value};
ghost use Rattle.base.specs.Spelling.{is_digit};
ghost use Rattle.yds_trace_words.specs.Decimal as spec;

use crate::setting::split_at_byte;
use yds_text::number_of;

/// The parts that a decimal spells, at most `most`, where a whole has 10 ^ `places` of them. `None` where it isn't a decimal,
/// is finer than a part or is above `most`.
#[tactic(auto, unfolding(crate::specs::Decimal::decimal_at))]
pub(crate) fn decimal(text: &[u8], places: usize, most: u64) -> Option<u64>
    requires { places ≤ 9 }
    ensures { result ≡ spec.decimal_at places most text.now }
{
    let (before, behind) = split_at_byte(text, b'.');
    let whole = number_of(before, 0, most).ok()?;
    let parts = fraction(behind, places)?;
    joined(whole, parts, places, most)
}

/// So many wholes and parts, at most `most` parts together.
fn joined(whole: u64, parts: u64, places: usize, most: u64) -> Option<u64>
    requires few { places ≤ 9 }
    ensures { result ≡ spec.at_most most (whole * 10 ^ places + parts) }
{
    let scale = 10_u64.pow(places as u32);
    let wholes = u128::from(whole) * u128::from(scale);
    let value = wholes + u128::from(parts);
    if value <= u128::from(most) {
        Some(value as u64)
    } else {
        None
    }
}

/// What stands behind a point, as parts; 0 without a point.
fn fraction(behind: Option<&[u8]>, places: usize) -> Option<u64>
    requires { places ≤ 9 }
    ensures { result ≡ spec.fraction_at places (option_map (λ text. text.now) behind.entry) }
{
    match behind {
        Some(text) if is_fraction(text, places) => Some(parts_of(text, places)),
        Some(_) => None,
        None => Some(0),
    }
}

/// Whether these are some digits, and not too many.
fn is_fraction(text: &[u8], places: usize) -> bool
    ensures { result ≡ spec.is_fraction places text.now }
{
    !text.is_empty() && text.len() <= places && are_digits(text)
}

/// The digits behind a point, as parts.
fn parts_of(text: &[u8], places: usize) -> u64
    requires few { places ≤ 9 }
    requires fraction { spec.is_fraction places text.now ≡ true }
    ensures { result ≡ spec.parts_of places text.now }
{
    value_of(text) * 10_u64.pow((places - text.len()) as u32)
}

fn are_digits(text: &[u8]) -> bool
    ensures { result ≡ list_all is_digit text.now }
{
    text.iter().all(|byte| byte.is_ascii_digit())
}

/// The number that at most nine digits spell.
fn value_of(digits: &[u8]) -> u64
    requires digits { list_all is_digit digits.now ≡ true }
    requires few { length digits.now ≤ 9 }
    ensures value { result ≡ digits_value 10 digits.now }
    ensures below { result < 10 ^ length digits.now }
{
    let mut value: u64 = 0;
    for &byte in digits {
        value = value * 10 + u64::from(byte - b'0');
    }
    value
}
