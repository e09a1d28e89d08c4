//! Comments on who else had the processor while a job waited.
ghost use Rattle.std.specs.Prelude.{◌≡◌, ◌++◌, OnOk, IfOk, map};
ghost use Rattle.std.specs.List.{flat_map};
ghost use Rattle.yds_trace_document.specs.Views.{units_read, other_read};
ghost use Rattle.yds_trace_text.specs.Text as spec;

use crate::bytes::put_comment;
use crate::numbers::decimal;
use base::Memory;
use std::alloc::Global;
use yds_trace_document::{Other, Units};

/// A byte as it is told of a name, which may have any.
fn shown_byte(byte: u8) -> u8
    ensures { result ≡ spec.shown_byte byte }
{
    if byte < b' ' || byte == 127 {
        b'?'
    } else {
        byte
    }
}

/// A thread's name as it is told.
fn shown_name(alloc: Global, name: &[u8]) -> Result<Vec<u8>, Memory>
    ensures { IfOk result (λ shown. shown.items ≡ map spec.shown_byte name.now) }
{
    let mut shown = Vec::with_capacity(alloc, name.len())?;
    for byte in name {
        shown.push(shown_byte(*byte))?;
    }
    Ok(shown)
}

/// The comment on a thread that had the processor, if it had it in several units of time.
fn put_other(
    alloc: Global,
    units: Units,
    other: &Other<'_>,
    text: &mut Vec<u8>,
) -> Result<(), Memory>
    ensures { OnOk result (text.new.items ≡ text.old.items ++ spec.other_comment (units_read units) (other_read other.now)) }
{
    let from = units.written_time(other.from);
    let to = units.written_time(other.to);
    if from >= to {
        return Ok(());
    }
    put_span(alloc, other, from, to, text)
}

/// The comment on a thread that had the processor from one unit of time to another.
fn put_span(
    alloc: Global,
    other: &Other<'_>,
    from: u64,
    to: u64,
    text: &mut Vec<u8>,
) -> Result<(), Memory>
    ensures { OnOk result (text.new.items ≡ text.old.items ++ spec.span_comment (other_read other.now) from to) }
{
    let name = shown_name(alloc, other.name)?;
    let pid = decimal(alloc, other.pid)?;
    let from = decimal(alloc, from)?;
    let to = decimal(alloc, to)?;
    put_comment(
        &[
            b"other ".as_slice(),
            name.as_slice(),
            b"-".as_slice(),
            pid.as_slice(),
            b" ".as_slice(),
            from.as_slice(),
            b" ".as_slice(),
            to.as_slice(),
        ],
        text,
    )
}

/// The comments on all of them.
pub(crate) fn put_all_others(
    alloc: Global,
    units: Units,
    others: &[Other<'_>],
    text: &mut Vec<u8>,
) -> Result<(), Memory>
    ensures { OnOk result (text.new.items ≡ text.old.items ++ flat_map (spec.other_comment (units_read units)) (map other_read others.now)) }
{
    for other in others {
        put_other(alloc, units, other, text)?;
    }
    Ok(())
}
