//! The last line, which counts the jobs.
ghost use Rattle.std.specs.Prelude.{◌≡◌, ◌++◌, OnOk, IfOk, count_by};
ghost use Rattle.yds_trace.specs.Document as document;
ghost use Rattle.yds_trace_document.specs.Views.{judged_read, judged_list, settled_read};
ghost use Rattle.yds_trace_text.specs.Text as spec;

use crate::bytes::{put, put_comment};
use crate::numbers::{counted, decimal};
use base::Memory;
use std::alloc::Global;
use yds_trace_document::{Judged, Settled};

/// Whether a job is left out.
fn is_left_out(judged: &Judged<'_>) -> bool
    ensures { result ≡ document.is_left_out (judged_read judged.now) }
{
    judged.reason.is_some() && judged.late.is_none()
}

/// Whether a job is late and written without its runs.
fn is_without_runs(judged: &Judged<'_>) -> bool
    ensures { result ≡ spec.is_without_runs (judged_read judged.now) }
{
    judged.reason.is_some() && judged.late.is_some()
}

/// How many jobs are left out.
fn left_out(judged: &[Judged<'_>]) -> usize
    ensures { result ≡ count_by (λ one. document.is_left_out (judged_read one)) judged.now }
{
    judged.iter().filter(|one| is_left_out(one)).count()
}

/// How many jobs are written without their runs.
fn without_runs(judged: &[Judged<'_>]) -> usize
    ensures { result ≡ count_by (λ one. spec.is_without_runs (judged_read one)) judged.now }
{
    judged.iter().filter(|one| is_without_runs(one)).count()
}

/// How many jobs are left out, in words.
fn left_out_text(alloc: Global, number: u64) -> Result<Vec<u8>, Memory>
    ensures { IfOk result (λ text. text.items ≡ spec.left_out_text number) }
{
    if number == 0 {
        let text = Vec::from_slice(alloc, b"none left out")?;
        return Ok(text);
    }
    let mut text = decimal(alloc, number)?;
    text.extend_from_slice(b" left out")?;
    Ok(text)
}

/// How many late jobs are written without their runs, in words, if there are any.
fn without_runs_text(alloc: Global, number: u64) -> Result<Vec<u8>, Memory>
    ensures { IfOk result (λ text. text.items ≡ spec.without_runs_text number) }
{
    if number == 0 {
        Ok(Vec::new(alloc))
    } else {
        late_without(alloc, number)
    }
}

fn late_without(alloc: Global, number: u64) -> Result<Vec<u8>, Memory>
    ensures { IfOk result (λ text. text.items ≡ spec.late_without number) }
{
    let digits = decimal(alloc, number)?;
    let mut text = Vec::new(alloc);
    put(
        &[
            b", ".as_slice(),
            digits.as_slice(),
            b" late without ".as_slice(),
            its_or_their(number),
            b" runs".as_slice(),
        ],
        &mut text,
    )?;
    Ok(text)
}

fn its_or_their(number: u64) -> &'static [u8]
    ensures { result.now ≡ spec.its_or_their number }
{
    if number == 1 { b"its" } else { b"their" }
}

/// How many jobs are written, how many are left out, and how many are without their runs.
#[tactic(auto, using(yds_trace_document::proofs::Lists::count_by_map))]
pub(crate) fn put_last(
    alloc: Global,
    settled: &Settled<'_>,
    text: &mut Vec<u8>,
) -> Result<(), Memory>
    ensures { OnOk result (text.new.items ≡ text.old.items ++ spec.last_line (settled_read settled.now)) }
{
    let written = counted(alloc, settled.jobs.len() as u64, b"job", b"jobs")?;
    let missing = left_out_text(alloc, left_out(&settled.judged) as u64)?;
    let late = without_runs_text(alloc, without_runs(&settled.judged) as u64)?;
    put_comment(
        &[
            written.as_slice(),
            b" written, ".as_slice(),
            missing.as_slice(),
            late.as_slice(),
        ],
        text,
    )
}
