//! The whole text.
ghost use Rattle.std.specs.Prelude.{◌≡◌, ◌≤◌, ◌<◌, ◌++◌, List, OnOk, IfOk, IfErr, length};
ghost use Rattle.std.specs.List.{flat_map};
ghost use Rattle.base.specs.declared.limits.TheConstants.{MAX_INPUT};
ghost use Rattle.yds_kernel.specs.Event.{Said};
ghost use Rattle.yds_trace.specs.Asked as words;
ghost use Rattle.yds_trace.specs.Ended.{IsEnded};
ghost use Rattle.yds_trace_document.specs.Kept.{IsPlain};
ghost use Rattle.yds_trace_text.specs.Writing.{Gives, Writes};
ghost use Rattle.yds_trace.specs.Views.{asked_read};
ghost use Rattle.yds_trace_document.specs.Views.{settled_read};
ghost use Rattle.yds_trace_text.specs.declared.fault.TextFault.TheVariants as faults;
ghost use Rattle.yds_trace_text.specs.Text as spec;

use crate::bytes::put;
use crate::ends::put_all_shown;
use crate::fault::{NoText, TextFault};
use crate::head::{put_head, put_units};
use crate::last::put_last;
use crate::late::put_all_late;
use crate::left_out::put_left_out;
use crate::limit::no_text;
use crate::others::put_all_others;
use crate::rows::{names_of, put_jobs, put_runs};
use crate::short::put_short_stretches;
use crate::tally::put_tally;
use crate::woken::put_wake_ups;
use crate::wrong_unit::put_all_wrong_units;
use base::Memory;
use base::limits::MAX_INPUT;
use std::alloc::Global;
use yds_trace::{Asked, Ended};
use yds_trace_document::{Settled, limit_fault, settle};

/// The text of a trace's document, by what is known at the trace's end. With `strict` no job may be missed.
///
/// Fails as `Limit` with the first limit that it is beyond, as `TooLong` where its text is longer than a document may be, or as
/// `Memory` for want of memory.
pub fn document_text(alloc: Global, ended: &Ended, strict: bool) -> Result<Vec<u8>, NoText>
    requires { IsPlain ended.now }
    ensures { (asked : words.Asked) (past : List Said) → IsEnded asked past ended.now → Writes strict asked past result }
{
    let settled = settle(alloc, ended)?;
    limited_text(alloc, &ended.asked, &settled, strict)
}

/// The text of what is settled, if it is within the limits.
fn limited_text(
    alloc: Global,
    asked: &Asked,
    settled: &Settled<'_>,
    strict: bool,
) -> Result<Vec<u8>, NoText>
    ensures { Gives strict (asked_read asked.now) (settled_read settled.now) result }
{
    if let Some(fault) = limit_fault(strict, settled) {
        return Err(no_text(alloc, &settled.judged, fault));
    }
    match text(alloc, asked, settled) {
        Ok(text) => Ok(text),
        Err(TextFault::TooLong) => Err(NoText::TooLong),
        Err(TextFault::Memory) => Err(NoText::Memory),
    }
}

/// The text of what is settled: the document's lines, and comments that tell what it hasn't. It has at most `MAX_INPUT` bytes.
pub fn text(alloc: Global, asked: &Asked, settled: &Settled<'_>) -> Result<Vec<u8>, TextFault>
    ensures text { IfOk result (λ text. text.items ≡ spec.settled_text (asked_read asked.now) (settled_read settled.now)) }
    ensures within { IfOk result (λ text. length text.items ≤ MAX_INPUT) }
    ensures too_long { IfErr result (λ fault. fault ≡ faults.TooLong → MAX_INPUT < length (spec.settled_text (asked_read asked.now) (settled_read settled.now))) }
{
    let text = whole_text(alloc, asked, settled)?;
    if text.len() > MAX_INPUT {
        return Err(TextFault::TooLong);
    }
    Ok(text)
}

/// The text, however long it is.
fn whole_text(alloc: Global, asked: &Asked, settled: &Settled<'_>) -> Result<Vec<u8>, Memory>
    ensures { IfOk result (λ text. text.items ≡ spec.settled_text (asked_read asked.now) (settled_read settled.now)) }
{
    let mut text = Vec::new(alloc);
    put_settled(alloc, asked, settled, &mut text)?;
    Ok(text)
}

/// Puts the text of what is settled behind the others.
pub(crate) fn put_settled(
    alloc: Global,
    asked: &Asked,
    settled: &Settled<'_>,
    text: &mut Vec<u8>,
) -> Result<(), Memory>
    ensures { OnOk result (text.new.items ≡ text.old.items ++ spec.settled_text (asked_read asked.now) (settled_read settled.now)) }
{
    put_head(alloc, asked.processor, settled.units, text)?;
    put_units(alloc, settled.units, text)?;
    put_document(alloc, settled, text)?;
    put_comments(alloc, asked, settled, text)
}

/// The lines of the jobs and of the runs.
fn put_document(alloc: Global, settled: &Settled<'_>, text: &mut Vec<u8>) -> Result<(), Memory>
    ensures { OnOk result (text.new.items ≡ text.old.items ++ spec.document_text (settled_read settled.now)) }
{
    let names = names_of(alloc, &settled.jobs)?;
    put_jobs(alloc, &settled.jobs, text)?;
    put(&[b"ticks 1\n".as_slice()], text)?;
    put_runs(&names, &settled.runs, text)
}

/// The comments.
fn put_comments(
    alloc: Global,
    asked: &Asked,
    settled: &Settled<'_>,
    text: &mut Vec<u8>,
) -> Result<(), Memory>
    ensures { OnOk result (text.new.items ≡ text.old.items ++ spec.comments_text (asked_read asked.now) (settled_read settled.now)) }
{
    put_job_comments(alloc, asked, settled, text)?;
    put_more_comments(alloc, asked, settled, text)
}

/// The first ones, on jobs: on late ones, on begins and ends that no run shows, and on those that are left out.
fn put_job_comments(
    alloc: Global,
    asked: &Asked,
    settled: &Settled<'_>,
    text: &mut Vec<u8>,
) -> Result<(), Memory>
    ensures { OnOk result (text.new.items ≡ text.old.items
        ++ flat_map (spec.late_comment (settled_read settled.now).units) (settled_read settled.now).judged
        ++ flat_map (spec.shown_comments (settled_read settled.now).units) (settled_read settled.now).judged
        ++ spec.left_out_comments (asked_read asked.now).tasks (settled_read settled.now).by_task (settled_read settled.now).judged) }
{
    put_all_late(alloc, settled.units, &settled.judged, text)?;
    put_all_shown(alloc, settled.units, &settled.judged, text)?;
    put_left_out(alloc, &asked.tasks, &settled.by_task, &settled.judged, text)
}

/// The others, on all jobs together, on units that may be wrong, on who else had the processor and on what the trace lacks; and
/// the line that counts.
fn put_more_comments(
    alloc: Global,
    asked: &Asked,
    settled: &Settled<'_>,
    text: &mut Vec<u8>,
) -> Result<(), Memory>
    ensures { OnOk result (text.new.items ≡ text.old.items
        ++ spec.short_comment (spec.short_stretches (settled_read settled.now).units (settled_read settled.now).judged)
        ++ spec.wake_up_comment (settled_read settled.now).judged
        ++ spec.all_unit_comments (asked_read asked.now).tasks (settled_read settled.now).by_task
        ++ flat_map (spec.other_comment (settled_read settled.now).units) (settled_read settled.now).others
        ++ spec.tally_comments asked.now.in_parts settled.now.tally
        ++ spec.last_line (settled_read settled.now)) }
{
    put_short_stretches(alloc, settled.units, &settled.judged, text)?;
    put_wake_ups(alloc, &settled.judged, text)?;
    put_last_comments(alloc, asked, settled, text)
}

/// The last ones: on units that may be wrong, on who else had the processor, on what the trace lacks, and how many jobs there are.
fn put_last_comments(
    alloc: Global,
    asked: &Asked,
    settled: &Settled<'_>,
    text: &mut Vec<u8>,
) -> Result<(), Memory>
    ensures { OnOk result (text.new.items ≡ text.old.items
        ++ spec.all_unit_comments (asked_read asked.now).tasks (settled_read settled.now).by_task
        ++ flat_map (spec.other_comment (settled_read settled.now).units) (settled_read settled.now).others
        ++ spec.tally_comments asked.now.in_parts settled.now.tally
        ++ spec.last_line (settled_read settled.now)) }
{
    put_all_wrong_units(alloc, &asked.tasks, &settled.by_task, text)?;
    put_all_others(alloc, settled.units, &settled.others, text)?;
    put_tally(alloc, asked.in_parts, settled.tally, text)?;
    put_last(alloc, settled, text)
}
