//! What fields spell: numbers and names.
ghost use Rattle.std.specs.Prelude.{◌≡◌, ◌+◌, ◌*◌, ◌^◌, ◌≤◌, ◌&&◌, nat_le, true, length, take, IfOk, IfSome, IfNone, IsTrue, IsFalse, MatchOption};
ghost use Rattle.std.specs.Char.{digit_value};
ghost use Rattle.std.specs.List.{list_all, prefix_len};
ghost use Rattle.std.specs.Str.Parse.{digits_value};
ghost use Rattle.base.specs.Spelling.{number_at, is_digit, is_number, is_visible, is_name};

use crate::field::Field;
use std::str;
use yds_model::NumberFault;
use yds_model::limits::MAX_NAME;

/// So many digits are a number of 64 bits, whatever they are.
pub(crate) const SHORT: usize = 19;

/// The number that the field spells, at most `most`: `0`, or a digit from 1 to 9 and any digits after
/// it. Another spelling is a `BadNumber`, and a number above `most`, however long, is `OutOfRange`.
pub fn number(field: Field<'_>, most: u64) -> Result<u64, NumberFault>
    ensures { result ≡ number_at 0 most field.entry.text.now }
{
    number_from(field, 0, most)
}

/// The same of a number that is to be at least `least` too.
pub fn number_from(field: Field<'_>, least: u64, most: u64) -> Result<u64, NumberFault>
    ensures { result ≡ number_at least most field.entry.text.now }
{
    number_of(field.text, least, most)
}

/// The same of bytes that stand by themselves, as a word of the command line.
pub fn number_of(text: &[u8], least: u64, most: u64) -> Result<u64, NumberFault>
    ensures value { result ≡ number_at least most text.now }
    ensures at_least { IfOk result (λ number. least ≤ number) }
    ensures at_most { IfOk result (λ number. number ≤ most) }
{
    let (value, len) = leading_number(text, most);
    if len < text.len() {
        return Err(NumberFault::BadNumber);
    }
    let value = value?;
    if least <= value {
        Ok(value)
    } else {
        Err(NumberFault::OutOfRange)
    }
}

/// The name that the field is: 1 to 64 bytes, each a visible ASCII character. `None` where it isn't
/// one.
pub fn name<'a>(field: Field<'a>) -> Option<&'a str>
    ensures none { IfNone result (IsFalse (is_name field.entry.text.now)) }
    ensures some { IfSome result (λ name. IsTrue (is_name field.entry.text.now)) }
    ensures same { IfSome result (λ name. name.now ≡ field.entry.text.now) }
{
    if is_name(field.text) {
        str::from_utf8(field.text).ok()
    } else {
        None
    }
}

/// The number, at most `most`, that the digits at the front of a text spell, and how many they are.
pub(crate) fn leading_number(text: &[u8], most: u64) -> (Result<u64, NumberFault>, usize)
    ensures value { result.0 ≡ number_at 0 most (take result.1 text.now) }
    ensures count { result.1 ≡ prefix_len is_digit text.now }
    ensures within { result.1 ≤ length text.now }
{
    let (value, len) = leading_digits(text);
    if !may_be_number(&text[..len]) {
        return (Err(NumberFault::BadNumber), len);
    }
    match value {
        Some(value) if value <= most => (Ok(value), len),
        Some(_) | None => (Err(NumberFault::OutOfRange), len),
    }
}

/// Whether these digits are some, without a zero before the others.
pub(crate) fn may_be_number(digits: &[u8]) -> bool
    requires { list_all is_digit digits.now ≡ true }
    ensures { result ≡ is_number digits.now }
{
    match digits {
        [] => false,
        [first, rest @ ..] => *first != b'0' || rest.is_empty(),
    }
}

/// What the digits at the front of a text write in base ten, or `None` where it takes more than 64 bits, and how
/// many they are.
fn leading_digits(text: &[u8]) -> (Option<u64>, usize)
    ensures value { MatchOption result.0 (2 ^ 64 ≤ digits_value 10 (take result.1 text.now)) (λ value. value ≡ digits_value 10 (take result.1 text.now)) }
    ensures count { result.1 ≡ prefix_len is_digit text.now }
    ensures within { result.1 ≤ length text.now }
{
    let (value, len) = few_digits(&text[..text.len().min(SHORT)]);
    if len < SHORT {
        (Some(value), len)
    } else {
        many_digits(text)
    }
}

/// The same of a text that is short enough for 64 bits.
pub(crate) fn few_digits(text: &[u8]) -> (u64, usize)
    requires { length text.now ≤ SHORT }
    ensures value { result.0 ≡ digits_value 10 (take result.1 text.now) }
    ensures count { result.1 ≡ prefix_len is_digit text.now }
    ensures within { result.1 ≤ length text.now }
{
    let mut value: u64 = 0;
    for (index, &byte) in text.iter().enumerate() {
        if !byte.is_ascii_digit() {
            return (value, index);
        }
        value = value * 10 + u64::from(byte - b'0');
    }
    (value, text.len())
}

/// The same of a text of any length.
fn many_digits(text: &[u8]) -> (Option<u64>, usize)
    ensures value { MatchOption result.0 (2 ^ 64 ≤ digits_value 10 (take result.1 text.now)) (λ value. value ≡ digits_value 10 (take result.1 text.now)) }
    ensures count { result.1 ≡ prefix_len is_digit text.now }
    ensures within { result.1 ≤ length text.now }
{
    let mut value: u64 = 0;
    for (index, &byte) in text.iter().enumerate() {
        if !byte.is_ascii_digit() {
            return (Some(value), index);
        }
        match with_digit(value, byte) {
            Some(next) => value = next,
            None => return (None, digit_len(text)),
        }
    }
    (Some(value), text.len())
}

/// The number with one more digit, or `None` where it takes more than 64 bits.
fn with_digit(value: u64, digit: u8) -> Option<u64>
    requires { is_digit digit ≡ true }
    ensures { MatchOption result (2 ^ 64 ≤ value * 10 + digit_value digit) (λ next. next ≡ value * 10 + digit_value digit) }
{
    value.checked_mul(10)?.checked_add(u64::from(digit - b'0'))
}

/// How many digits stand at the front.
fn digit_len(text: &[u8]) -> usize
    ensures value { result ≡ prefix_len is_digit text.now }
    ensures within { result ≤ length text.now }
{
    for (index, &byte) in text.iter().enumerate() {
        if !byte.is_ascii_digit() {
            return index;
        }
    }
    text.len()
}

/// Whether the bytes spell a name.
fn is_name(text: &[u8]) -> bool
    ensures { result ≡ is_name text.now }
{
    !text.is_empty() && text.len() <= MAX_NAME && are_visible(text)
}

/// Whether each byte is a printed one, as those of a name are.
fn are_visible(text: &[u8]) -> bool
    ensures { result ≡ list_all is_visible text.now }
{
    text.iter().all(|byte| byte.is_ascii_graphic())
}
