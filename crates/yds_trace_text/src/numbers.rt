//! Numbers as they are told.
ghost use Rattle.std.specs.Prelude.{◌≡◌, ◌≤◌, ◌<◌, ◌+◌, ◌++◌, drop, decimal, OnOk, IfOk};
ghost use Rattle.yds_trace_text.specs.Text as spec;

use base::Memory;
use itoa::Buffer;
use std::alloc::Global;

/// Its digits.
pub(crate) fn decimal(alloc: Global, number: u64) -> Result<Vec<u8>, Memory>
    ensures { IfOk result (λ digits. digits.items ≡ decimal number) }
{
    let digits = Vec::from_slice(alloc, Buffer::new().format(number).as_bytes())?;
    Ok(digits)
}

/// Puts the digits of a number but for the first one behind a text.
fn put_behind_first(number: u64, text: &mut Vec<u8>) -> Result<(), Memory>
    ensures { OnOk result (text.new.items ≡ text.old.items ++ drop 1 (decimal number)) }
{
    let mut buffer = Buffer::new();
    if let [_, rest @ ..] = buffer.format(number).as_bytes() {
        text.extend_from_slice(rest)?;
    }
    Ok(())
}

/// Nanoseconds, told in seconds.
pub(crate) fn in_seconds(alloc: Global, time: u64) -> Result<Vec<u8>, Memory>
    ensures { IfOk result (λ text. text.items ≡ spec.in_seconds time) }
{
    let mut text = decimal(alloc, time / 1_000_000_000)?;
    text.extend_from_slice(b".")?;
    put_behind_first(1_000_000_000 + time % 1_000_000_000, &mut text)?;
    Ok(text)
}

/// Nanoseconds, told in milliseconds.
pub(crate) fn in_milliseconds(alloc: Global, time: u64) -> Result<Vec<u8>, Memory>
    ensures { IfOk result (λ text. text.items ≡ spec.in_milliseconds time) }
{
    let mut text = decimal(alloc, time / 1_000_000)?;
    text.extend_from_slice(b".")?;
    put_behind_first(1_000_000 + time % 1_000_000, &mut text)?;
    Ok(text)
}

/// Puts thousandths behind a text, without zeros at the end.
fn put_behind_point(thousandths: u64, text: &mut Vec<u8>) -> Result<(), Memory>
    requires { thousandths < 1000 }
    ensures { OnOk result (text.new.items ≡ text.old.items ++ spec.behind_point thousandths) }
{
    if thousandths == 0 {
        return Ok(());
    }
    text.extend_from_slice(b".")?;
    if thousandths % 100 == 0 {
        put_behind_first(10 + thousandths / 100, text)
    } else if thousandths % 10 == 0 {
        put_behind_first(100 + thousandths / 10, text)
    } else {
        put_behind_first(1000 + thousandths, text)
    }
}

/// Thousandths of cycles, told in cycles.
pub(crate) fn cycles(alloc: Global, thousandths: u64) -> Result<Vec<u8>, Memory>
    ensures { IfOk result (λ text. text.items ≡ spec.cycles thousandths) }
{
    let mut text = decimal(alloc, thousandths / 1000)?;
    put_behind_point(thousandths % 1000, &mut text)?;
    Ok(text)
}

/// A number that counts something: the first word where it is 1, and else the second.
pub(crate) fn counted(
    alloc: Global,
    number: u64,
    one: &[u8],
    several: &[u8],
) -> Result<Vec<u8>, Memory>
    ensures { IfOk result (λ text. text.items ≡ spec.counted number one.now several.now) }
{
    let mut text = decimal(alloc, number)?;
    text.extend_from_slice(b" ")?;
    text.extend_from_slice(if number == 1 { one } else { several })?;
    Ok(text)
}
