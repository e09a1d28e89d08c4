//! Fields of the plain spelling, with one space before each, read in one pass over their bytes.
ghost use Rattle.std.specs.Prelude.{◌≡◌, ◌<◌, ◌≤◌, ◌∷◌, length, Ok, IfSome, IsTrue};
ghost use Rattle.std.specs.List.{prefix_len};
ghost use Rattle.base.specs.declared.limits.TheConstants.{MAX_DENOMINATOR};
ghost use Rattle.base.specs.Spelling.{number_at, is_visible, is_name};
ghost use Rattle.yds_model.specs.Spelling.{fraction_at};
ghost use Rattle.yds_fraction.specs.Mixed.{fraction_of};
ghost use Rattle.yds_text.specs.Plain.{BeginsNumber, BeginsPlainly, ends_field};

use crate::field::is_blank;
use crate::spelling::{SHORT, few_digits, may_be_number};
use std::str;
use yds_model::limits::{MAX_DENOMINATOR, MAX_NAME};

/// The name that the first field is, and what is after the field.
pub(crate) fn first_name(bytes: &[u8]) -> Option<(&str, &[u8])>
    ensures says { IfSome result (λ read. BeginsPlainly (λ text. text ≡ read.0.now) bytes.now read.1.now) }
    ensures named { IfSome result (λ read. IsTrue (is_name read.0.now)) }
{
    let bytes = after_byte(b' ', bytes)?;
    let (text, rest) = bytes.split_at(visible_len(bytes));
    if text.is_empty() || text.len() > MAX_NAME || !ends_field(rest) {
        return None;
    }
    let name = as_text(text)?;
    Some((name, rest))
}

/// The bytes as text, where they are.
fn as_text(bytes: &[u8]) -> Option<&str>
    ensures { IfSome result (λ text. text.now ≡ bytes.now) }
{
    str::from_utf8(bytes).ok()
}

/// How many visible bytes stand at the front.
fn visible_len(bytes: &[u8]) -> usize
    ensures value { result ≡ prefix_len is_visible bytes.now }
    ensures within { result ≤ length bytes.now }
{
    for (index, &byte) in bytes.iter().enumerate() {
        if !byte.is_ascii_graphic() {
            return index;
        }
    }
    bytes.len()
}

/// The number, at most `most`, that the first field spells, and what is after the field.
pub(crate) fn first_number(bytes: &[u8], most: u64) -> Option<(u64, &[u8])>
    ensures says { IfSome result (λ read. BeginsPlainly (λ text. number_at 0 most text ≡ Ok read.0) bytes.now read.1.now) }
    ensures within { IfSome result (λ read. read.0 ≤ most) }
{
    let (number, rest) = number_front(after_byte(b' ', bytes)?, most)?;
    if ends_field(rest) {
        Some((number, rest))
    } else {
        None
    }
}

/// The whole part, at most `most`, the numerator and the denominator of the fraction that the first field spells, and what
/// is after the field. A whole number has the numerator 0 and the denominator 1.
pub(crate) fn first_fraction(bytes: &[u8], most: u64) -> Option<(u64, u64, u64, &[u8])>
    ensures says { IfSome result (λ read. BeginsPlainly (λ text. fraction_at most text ≡ Ok (fraction_of read.0 read.1 read.2)) bytes.now read.3.now) }
    ensures within { IfSome result (λ read. (read.0 ≤ most) × (read.1 < read.2) × (read.2 ≤ MAX_DENOMINATOR)) }
{
    let (whole, rest) = number_front(after_byte(b' ', bytes)?, most)?;
    if ends_field(rest) {
        return Some((whole, 0, 1, rest));
    }
    let (num, rest) = number_front(after_byte(b'+', rest)?, MAX_DENOMINATOR)?;
    let (den, rest) = number_front(after_byte(b'/', rest)?, MAX_DENOMINATOR)?;
    if den <= num {
        return None;
    }
    if ends_field(rest) {
        Some((whole, num, den, rest))
    } else {
        None
    }
}

/// The number, at most `most`, that the first digits spell, and what is after them.
fn number_front(bytes: &[u8], most: u64) -> Option<(u64, &[u8])>
    ensures says { IfSome result (λ read. BeginsNumber most read.0 bytes.now read.1.now) }
    ensures within { IfSome result (λ read. read.0 ≤ most) }
{
    let (number, len) = few_digits(&bytes[..bytes.len().min(SHORT)]);
    let (digits, rest) = bytes.split_at(len);
    if most < number || !may_be_number(digits) {
        return None;
    }
    Some((number, rest))
}

/// What is after this byte, where the bytes begin with it.
fn after_byte(byte: u8, bytes: &[u8]) -> Option<&[u8]>
    ensures { IfSome result (λ rest. bytes.now ≡ byte ∷ rest.now) }
{
    match bytes.split_first() {
        Some((first, rest)) if *first == byte => Some(rest),
        Some(_) | None => None,
    }
}

/// Whether a field ends before these bytes.
fn ends_field(rest: &[u8]) -> bool
    ensures { result ≡ ends_field rest.now }
{
    match rest {
        [] => true,
        [byte, ..] => is_blank(*byte),
    }
}
