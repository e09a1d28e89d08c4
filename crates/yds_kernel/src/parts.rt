//! What stands at the front of bytes, and the bytes after it.
ghost use Rattle.std.specs.Int.{bit_at};
ghost use Rattle.std.specs.Prelude.{◌≡◌, ◌↔◌, ℕ, ◌+◌, ◌*◌, ◌^◌, ◌<◌, ◌≤◌, ◌&&◌, length, nat_le, take, true, IfSome};
ghost use Rattle.std.specs.Char.{digit_value};
ghost use Rattle.std.specs.List.{position_or_len, prefix_len};
ghost use Rattle.std.specs.Str.{bytes_eq};
ghost use Rattle.std.specs.Str.Parse.{digits_value};
ghost use Rattle.memchr.specs.Find.{IsFirstByte, Passes, is_byte};
ghost use Rattle.base.specs.Lines.{is_blank};
ghost use Rattle.base.specs.Spelling.{is_digit};
ghost use Rattle.yds_kernel.specs.Form.{only_blanks};
ghost use Rattle.yds_kernel.specs.Parts as spec;
ghost use Rattle.yds_kernel.specs.Parts.{capped};
ghost use Rattle.yds_kernel.specs.Views.{Reads};

use crate::limits::{MAX_NUMBER, MAX_U64};
use memchr::memchr;
use std::simd::prelude::*;

/// Whether the bytes begin with this text.
#[inline(always)]
pub(crate) fn begins<const N: usize>(bytes: &[u8], text: &[u8; N]) -> bool
    ensures { result ≡ (nat_le (length text.now) (length bytes.now) && bytes_eq (take (length text.now) bytes.now) text.now) }
{
    match bytes.first_chunk::<N>() {
        Some(front) => are_same(front, text),
        None => false,
    }
}

/// Whether two texts of one length are the same. Up to sixteen bytes are eight at the front and eight at the end: `==` of
/// more than eight bytes takes a call.
#[inline(always)]
fn are_same<const N: usize>(one: &[u8; N], other: &[u8; N]) -> bool
    ensures { result ≡ bytes_eq one.now other.now }
{
    match (
        one.first_chunk::<8>(),
        other.first_chunk::<8>(),
        one.last_chunk::<8>(),
        other.last_chunk::<8>(),
    ) {
        (Some(front), Some(other_front), Some(end), Some(other_end)) if N <= 16 => {
            are_same_eight(front, other_front) && are_same_eight(end, other_end)
        }
        _ => *one == *other,
    }
}

/// The same of eight bytes: four at the front and four at the end.
#[inline(always)]
fn are_same_eight(one: &[u8; 8], other: &[u8; 8]) -> bool
    ensures { result ≡ bytes_eq one.now other.now }
{
    match (
        one.first_chunk::<4>(),
        other.first_chunk::<4>(),
        one.last_chunk::<4>(),
        other.last_chunk::<4>(),
    ) {
        (Some(front), Some(other_front), Some(end), Some(other_end)) => {
            *front == *other_front && *end == *other_end
        }
        _ => false,
    }
}

/// What comes after this text, where the bytes begin with it.
#[inline(always)]
pub(crate) fn after<'a, const N: usize>(bytes: &'a [u8], text: &[u8; N]) -> Option<&'a [u8]>
    ensures { Reads (λ rest. rest.now) result (spec.after text.now bytes.now) }
{
    if begins(bytes, text) {
        Some(&bytes[N..])
    } else {
        None
    }
}

/// The digits at the front, at least one, and the bytes after them.
#[inline(always)]
pub(crate) fn digits(bytes: &[u8]) -> Option<(&[u8], &[u8])>
    ensures { Reads (λ x. (x.0.now, x.1.now)) result (spec.digits bytes.now) }
{
    let len = digit_len(bytes);
    if len == 0 {
        return None;
    }
    let (digits, rest) = bytes.split_at(len);
    Some((digits, rest))
}

/// The same, and the number that the digits spell. One beyond 64 bits counts as the greatest of 64 bits.
#[inline(always)]
pub(crate) fn spelled(bytes: &[u8]) -> Option<(u64, &[u8], &[u8])>
    ensures digits { Reads (λ x. (x.1.now, x.2.now)) result (spec.digits bytes.now) }
    ensures value { IfSome result (λ x. x.0 ≡ capped (digits_value 10 x.1.now)) }
    ensures below { IfSome result (λ x. digits_value 10 x.1.now < 10 ^ length x.1.now) }
{
    let (value, len) = front_number(bytes);
    if len == 0 {
        return None;
    }
    let (digits, rest) = bytes.split_at(len);
    Some((value, digits, rest))
}

/// The bytes before the next blank, at least one, and the bytes after them.
#[inline(always)]
pub(crate) fn field(bytes: &[u8]) -> Option<(&[u8], &[u8])>
    ensures { Reads (λ x. (x.0.now, x.1.now)) result (spec.field bytes.now) }
{
    let len = field_len(bytes);
    if len == 0 {
        return None;
    }
    let (text, rest) = bytes.split_at(len);
    Some((text, rest))
}

/// What comes after the blanks at the front, if there are any.
#[inline(always)]
pub(crate) fn skip_blanks(bytes: &[u8]) -> &[u8]
    ensures { result.now ≡ spec.skip_blanks bytes.now }
{
    match bytes {
        [first, ..] if !is_blank(*first) => bytes,
        _ => &bytes[blank_len(bytes)..],
    }
}

/// What comes after the blanks at the front, at least one.
#[inline(always)]
pub(crate) fn after_blanks(bytes: &[u8]) -> Option<&[u8]>
    ensures { Reads (λ rest. rest.now) result (spec.after_blanks bytes.now) }
{
    match bytes {
        [first, rest @ ..] if is_blank(*first) => Some(skip_blanks(rest)),
        _ => None,
    }
}

/// The number that the digits at the front spell, leading zeros too, and the bytes after them. One beyond 64 bits counts
/// as the greatest of 64 bits.
#[inline(always)]
#[tactic(auto, unfolding(crate::specs::Parts::number))]
pub(crate) fn number(bytes: &[u8]) -> Option<(u64, &[u8])>
    ensures { Reads (λ x. (x.0, x.1.now)) result (spec.number bytes.now) }
{
    let (value, _, rest) = spelled(bytes)?;
    Some((value, rest))
}

/// The same of a number within the limit of processors, processes and speeds.
#[inline(always)]
#[tactic(auto, unfolding(crate::specs::Parts::small_number))]
pub(crate) fn small_number(bytes: &[u8]) -> Option<(u64, &[u8])>
    ensures { Reads (λ x. (x.0, x.1.now)) result (spec.small_number bytes.now) }
{
    let (value, rest) = number(bytes)?;
    if value <= MAX_NUMBER {
        Some((value, rest))
    } else {
        None
    }
}

/// What comes after a priority, which may have a minus.
#[inline(always)]
#[tactic(auto, unfolding(crate::specs::Parts::after_priority))]
pub(crate) fn after_priority(bytes: &[u8]) -> Option<&[u8]>
    ensures { Reads (λ rest. rest.now) result (spec.after_priority bytes.now) }
{
    let (_, rest) = digits(skip_minus(bytes))?;
    Some(rest)
}

#[inline(always)]
fn skip_minus(bytes: &[u8]) -> &[u8]
    ensures { result.now ≡ spec.skip_minus bytes.now }
{
    match bytes {
        [b'-', rest @ ..] => rest,
        [] | [_, ..] => bytes,
    }
}

/// The first place of this byte. It is likely among the first 32.
#[inline(always)]
pub(crate) fn first_place(byte: u8, bytes: &[u8]) -> Option<usize>
    ensures { IsFirstByte (is_byte byte) bytes.now result }
{
    if let Some(front) = bytes.first_chunk::<32>() {
        let marks = marks_of(byte, front);
        if marks != 0 {
            return Some(marks.trailing_zeros() as usize);
        }
    }
    memchr(byte, bytes)
}

/// Bit k is set where the byte stands at the place k.
#[inline(always)]
fn marks_of(byte: u8, bytes: &[u8; 32]) -> u64
    ensures { (k : ℕ) → (bit_at result k ≡ 1) ↔ ((k < 32) × Passes (is_byte byte) bytes.now k) }
{
    u8x32::from_array(*bytes)
        .simd_eq(u8x32::splat(byte))
        .to_bitmask()
}

/// Whether nothing but blanks is left.
#[inline(always)]
pub(crate) fn only_blanks(bytes: &[u8]) -> bool
    ensures { result ≡ only_blanks bytes.now }
{
    bytes.iter().all(|byte| is_blank(*byte))
}

/// Whether the byte is a space or a tab.
#[inline(always)]
fn is_blank(byte: u8) -> bool
    ensures { result ≡ is_blank byte }
{
    byte == b' ' || byte == b'\t'
}

/// The number that the digits at the front spell, the greatest of 64 bits where it is beyond, and how many digits they are.
/// It has two loops: the one of eight bytes at most is unrolled, and needs no look at the length or at 64 bits.
#[inline(never)]
fn front_number(bytes: &[u8]) -> (u64, usize)
    ensures value { result.0 ≡ capped (digits_value 10 (take result.1 bytes.now)) }
    ensures below { digits_value 10 (take result.1 bytes.now) < 10 ^ result.1 }
    ensures len { result.1 ≡ prefix_len is_digit bytes.now }
    ensures within { result.1 ≤ length bytes.now }
{
    if let Some(front) = bytes.first_chunk::<8>()
        && let Some(found) = short_number(front)
    {
        return found;
    }
    long_number(bytes)
}

/// The same of bytes that aren't all digits.
#[inline(always)]
fn short_number(bytes: &[u8; 8]) -> Option<(u64, usize)>
    ensures value { IfSome result (λ x. x.0 ≡ digits_value 10 (take x.1 bytes.now)) }
    ensures below { IfSome result (λ x. x.0 < 10 ^ x.1) }
    ensures len { IfSome result (λ x. x.1 ≡ prefix_len is_digit bytes.now) }
    ensures within { IfSome result (λ x. x.1 < 8) }
{
    let mut value: u64 = 0;
    for (index, &byte) in bytes.iter().enumerate() {
        if !byte.is_ascii_digit() {
            return Some((value, index));
        }
        value = value * 10 + u64::from(byte - b'0');
    }
    None
}

/// The same of any bytes.
#[inline(never)]
fn long_number(bytes: &[u8]) -> (u64, usize)
    ensures value { result.0 ≡ capped (digits_value 10 (take result.1 bytes.now)) }
    ensures below { digits_value 10 (take result.1 bytes.now) < 10 ^ result.1 }
    ensures len { result.1 ≡ prefix_len is_digit bytes.now }
    ensures within { result.1 ≤ length bytes.now }
{
    let mut value: u64 = 0;
    for (index, &byte) in bytes.iter().enumerate() {
        if !byte.is_ascii_digit() {
            return (value, index);
        }
        value = with_digit(value, byte);
    }
    (value, bytes.len())
}

/// The number with one more digit.
#[inline(always)]
fn with_digit(value: u64, digit: u8) -> u64
    requires { is_digit digit ≡ true }
    ensures { result ≡ capped (value * 10 + digit_value digit) }
{
    if value < 1_000_000_000_000_000_000 {
        value * 10 + u64::from(digit - b'0')
    } else {
        with_late_digit(value, digit)
    }
}

/// The same of a number that one more digit may put beyond 64 bits.
#[inline(never)]
fn with_late_digit(value: u64, digit: u8) -> u64
    requires { is_digit digit ≡ true }
    ensures { result ≡ capped (value * 10 + digit_value digit) }
{
    match value.checked_mul(10) {
        Some(tens) => tens.saturating_add(u64::from(digit - b'0')),
        None => MAX_U64,
    }
}

/// How many digits stand at the front.
#[inline(always)]
pub(crate) fn digit_len(bytes: &[u8]) -> usize
    ensures value { result ≡ prefix_len is_digit bytes.now }
    ensures within { result ≤ length bytes.now }
{
    for (index, &byte) in bytes.iter().enumerate() {
        if !byte.is_ascii_digit() {
            return index;
        }
    }
    bytes.len()
}

/// How many blanks stand at the front.
#[inline(always)]
fn blank_len(bytes: &[u8]) -> usize
    ensures value { result ≡ prefix_len is_blank bytes.now }
    ensures within { result ≤ length bytes.now }
{
    for (index, &byte) in bytes.iter().enumerate() {
        if !is_blank(byte) {
            return index;
        }
    }
    bytes.len()
}

/// Bit k is set where a blank stands at the place k.
#[inline(always)]
fn blank_marks(bytes: &[u8; 32]) -> u64
    ensures { (k : ℕ) → (bit_at result k ≡ 1) ↔ ((k < 32) × Passes is_blank bytes.now k) }
{
    marks_of(b' ', bytes) | marks_of(b'\t', bytes)
}

/// How many bytes stand before the first blank. It is likely among the first 32.
#[inline(always)]
fn field_len(bytes: &[u8]) -> usize
    ensures value { result ≡ position_or_len is_blank bytes.now }
    ensures within { result ≤ length bytes.now }
{
    if let Some(front) = bytes.first_chunk::<32>() {
        let marks = blank_marks(front);
        if marks != 0 {
            return marks.trailing_zeros() as usize;
        }
    }
    for (index, &byte) in bytes.iter().enumerate() {
        if is_blank(byte) {
            return index;
        }
    }
    bytes.len()
}
