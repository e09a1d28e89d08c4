//! The text of a part.
ghost use Rattle.std.specs.Prelude.{◌≡◌, ◌≤◌, ◌<◌, ◌+◌, ◌++◌, List, OnOk, IfOk, IfErr, length};
ghost use Rattle.base.specs.declared.limits.TheConstants.{MAX_INPUT};
ghost use Rattle.yds_kernel.specs.Event.{Said};
ghost use Rattle.yds_kernel.specs.Parts.{capped};
ghost use Rattle.yds_trace.specs.Views.{asked_read};
ghost use Rattle.yds_trace_document.specs.PartKept.{IsPart};
ghost use Rattle.yds_trace_document.specs.Views.{settled_read, written_list};
ghost use Rattle.yds_trace_text.specs.declared.fault.TextFault.TheVariants as faults;
ghost use Rattle.yds_trace_text.specs.PartText as spec;
ghost use Rattle.yds_trace_text.specs.Writing.{GivesPart, WritesPart};

use crate::bytes::put_comment;
use crate::fault::{NoText, TextFault};
use crate::limit::no_text;
use crate::numbers::decimal;
use crate::writing::put_settled;
use base::Memory;
use base::limits::MAX_INPUT;
use std::alloc::Global;
use yds_trace::{Asked, Cut};
use yds_trace_document::{Part, Written, part_limit_fault};

/// The text of a part behind the parts of this cut, which ends at this time; or of the last one. With `strict` no job may be
/// missed.
///
/// Fails as `Limit` with the first limit that it is beyond, as `TooLong` where its text is longer than a document may be, or as
/// `Memory` for want of memory.
pub fn part_text(
    alloc: Global,
    asked: &Asked,
    strict: bool,
    cut: Cut,
    until: Option<u64>,
    part: &Part<'_>,
) -> Result<Vec<u8>, NoText>
    ensures { (past : List Said) → IsPart (asked_read asked.now) past cut until part.now → WritesPart strict (asked_read asked.now) past cut until result }
{
    limited_text(alloc, asked, strict, cut, until.is_none(), part)
}

/// The text, if it is within the limits.
fn limited_text(
    alloc: Global,
    asked: &Asked,
    strict: bool,
    cut: Cut,
    last: bool,
    part: &Part<'_>,
) -> Result<Vec<u8>, NoText>
    ensures { GivesPart strict (asked_read asked.now) cut last part.now.shift (settled_read part.now.settled) result }
{
    if let Some(fault) = part_limit_fault(asked, strict, cut, &part.settled) {
        return Err(no_text(alloc, &part.settled.judged, fault));
    }
    match short_text(alloc, asked, cut, last, part) {
        Ok(text) => Ok(text),
        Err(TextFault::TooLong) => Err(NoText::TooLong),
        Err(TextFault::Memory) => Err(NoText::Memory),
    }
}

/// The text, if it isn't longer than a document may be.
fn short_text(
    alloc: Global,
    asked: &Asked,
    cut: Cut,
    last: bool,
    part: &Part<'_>,
) -> Result<Vec<u8>, TextFault>
    ensures text { IfOk result (λ text. text.items ≡ spec.part_settled_text (asked_read asked.now) cut last part.now.shift (settled_read part.now.settled)) }
    ensures within { IfOk result (λ text. length text.items ≤ MAX_INPUT) }
    ensures too_long { IfErr result (λ fault. fault ≡ faults.TooLong → MAX_INPUT < length (spec.part_settled_text (asked_read asked.now) cut last part.now.shift (settled_read part.now.settled))) }
{
    let text = whole_text(alloc, asked, cut, last, part)?;
    if text.len() > MAX_INPUT {
        return Err(TextFault::TooLong);
    }
    Ok(text)
}

/// The text, however long it is.
fn whole_text(
    alloc: Global,
    asked: &Asked,
    cut: Cut,
    last: bool,
    part: &Part<'_>,
) -> Result<Vec<u8>, Memory>
    ensures { IfOk result (λ text. text.items ≡ spec.part_settled_text (asked_read asked.now) cut last part.now.shift (settled_read part.now.settled)) }
{
    let mut text = Vec::new(alloc);
    put_part_line(
        alloc,
        asked,
        cut,
        last,
        part.shift,
        &part.settled.jobs,
        &mut text,
    )?;
    put_settled(alloc, asked, &part.settled, &mut text)?;
    Ok(text)
}

/// Their sum, at most the greatest number of 64 bits.
fn capped_sum(number: u64, other: u64) -> u64
    ensures { result ≡ capped (number + other) }
{
    number.saturating_add(other)
}

/// The line that says which part it is, which jobs it has, and from when to when.
fn put_part_line(
    alloc: Global,
    asked: &Asked,
    cut: Cut,
    last: bool,
    shift: u64,
    jobs: &[Written<'_>],
    text: &mut Vec<u8>,
) -> Result<(), Memory>
    ensures { OnOk result (text.new.items ≡ text.old.items ++ spec.part_line (asked_read asked.now) cut last shift (written_list jobs.now)) }
{
    let part = decimal(alloc, capped_sum(cut.parts, 1))?;
    let first = decimal(alloc, capped_sum(cut.jobs, 1))?;
    let end = decimal(alloc, capped_sum(cut.jobs, jobs.len() as u64))?;
    let release = decimal(alloc, capped_sum(shift, first_release(jobs)))?;
    let deadline = decimal(alloc, capped_sum(shift, last_deadline(jobs)))?;
    let units = decimal(alloc, shift)?;
    let processor = processor_text(alloc, asked)?;
    put_comment(
        &[
            b"part ".as_slice(),
            part.as_slice(),
            b": jobs ".as_slice(),
            first.as_slice(),
            b" to ".as_slice(),
            end.as_slice(),
            b", from ".as_slice(),
            release.as_slice(),
            b" to ".as_slice(),
            deadline.as_slice(),
            b", shift ".as_slice(),
            units.as_slice(),
            processor.as_slice(),
            windows_text(cut),
            last_text(last),
        ],
        text,
    )
}

/// Of which processor it is, in words, where each has documents of its own.
fn processor_text(alloc: Global, asked: &Asked) -> Result<Vec<u8>, Memory>
    ensures { IfOk result (λ text. text.items ≡ spec.processor_text (asked_read asked.now)) }
{
    if !asked.everywhere {
        return Ok(Vec::new(alloc));
    }
    let number = decimal(alloc, asked.processor)?;
    let mut text = Vec::from_slice(alloc, b", cpu ")?;
    text.extend_from_slice(&number)?;
    Ok(text)
}

/// Whether windows of the parts before reach into this one, in words.
fn windows_text(cut: Cut) -> &'static [u8]
    ensures { result.now ≡ spec.windows_text cut }
{
    if cut.boundary < cut.due {
        b", windows open"
    } else {
        b""
    }
}

/// Whether it is the last part, in words.
fn last_text(last: bool) -> &'static [u8]
    ensures { result.now ≡ spec.last_text last }
{
    if last { b", the last" } else { b"" }
}

/// The first release; 0 where there is no job.
fn first_release(jobs: &[Written<'_>]) -> u64
    ensures { result ≡ spec.first_release (written_list jobs.now) }
{
    least_release(jobs).unwrap_or(0)
}

fn least_release(jobs: &[Written<'_>]) -> Option<u64>
    ensures { result ≡ spec.least_release (written_list jobs.now) }
{
    let mut least: Option<u64> = None;
    let mut left = jobs.len();
    while left > 0 {
        left -= 1;
        let release = jobs[left].release;
        least = match least {
            Some(other) => Some(release.min(other)),
            None => Some(release),
        };
    }
    least
}

/// The last deadline; 0 where there is no job.
fn last_deadline(jobs: &[Written<'_>]) -> u64
    ensures { result ≡ spec.last_deadline (written_list jobs.now) }
{
    let mut last: u64 = 0;
    let mut left = jobs.len();
    while left > 0 {
        left -= 1;
        last = last.max(jobs[left].deadline);
    }
    last
}
