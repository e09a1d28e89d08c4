//! The lines of the jobs and of their runs.
ghost use Rattle.std.specs.Prelude.{◌≡◌, ◌++◌, OnOk, IfOk, [], map};
ghost use Rattle.std.specs.List.{flat_map, slice_index_or};
ghost use Rattle.yds_trace_document.specs.Views.{written_read, written_list, run_read, placed_list};
ghost use Rattle.yds_trace_text.specs.Text as spec;
ghost use Rattle.yds_trace_text.specs.Views.{names_read};

use crate::bytes::put;
use base::Memory;
use itoa::Buffer;
use std::alloc::Global;
use yds_trace_document::{Placed, Run, Written};

/// The names of these jobs.
pub(crate) fn names_of(alloc: Global, jobs: &[Written<'_>]) -> Result<Vec<Vec<u8>>, Memory>
    ensures { IfOk result (λ names. names_read names.items ≡ map spec.name_of (written_list jobs.now)) }
{
    let mut names = Vec::with_capacity(alloc, jobs.len())?;
    for job in jobs {
        names.push(job.name.text(alloc)?)?;
    }
    Ok(names)
}

/// The line of a job.
fn put_job(alloc: Global, job: &Written<'_>, text: &mut Vec<u8>) -> Result<(), Memory>
    ensures { OnOk result (text.new.items ≡ text.old.items ++ spec.job_text (written_read job.now)) }
{
    let name = job.name.text(alloc)?;
    put(
        &[
            b"job ".as_slice(),
            name.as_slice(),
            b" ".as_slice(),
            Buffer::new().format(job.release).as_bytes(),
            b" ".as_slice(),
            Buffer::new().format(job.deadline).as_bytes(),
            b" ".as_slice(),
            Buffer::new().format(job.work).as_bytes(),
            b"\n".as_slice(),
        ],
        text,
    )
}

/// The lines of the jobs.
pub(crate) fn put_jobs(
    alloc: Global,
    jobs: &[Written<'_>],
    text: &mut Vec<u8>,
) -> Result<(), Memory>
    ensures { OnOk result (text.new.items ≡ text.old.items ++ flat_map spec.job_text (written_list jobs.now)) }
{
    for job in jobs {
        put_job(alloc, job, text)?;
    }
    Ok(())
}

/// The line of a run of the job with this name.
fn put_run(name: &[u8], run: Run, text: &mut Vec<u8>) -> Result<(), Memory>
    ensures { OnOk result (text.new.items ≡ text.old.items ++ spec.run_line name.now (run_read run)) }
{
    put(
        &[
            b"run ".as_slice(),
            name,
            b" ".as_slice(),
            Buffer::new().format(run.from).as_bytes(),
            b" ".as_slice(),
            Buffer::new().format(run.to).as_bytes(),
            b" ".as_slice(),
            Buffer::new().format(run.speed).as_bytes(),
            b"\n".as_slice(),
        ],
        text,
    )
}

/// The name at a place; none beyond the last one.
fn name_at(names: &[Vec<u8>], place: usize) -> &[u8]
    ensures { result.now ≡ slice_index_or (names_read names.entry.now) place [] }
{
    match names.get(place) {
        Some(name) => name.as_slice(),
        None => b"".as_slice(),
    }
}

/// The lines of the runs of jobs with these names.
pub(crate) fn put_runs(names: &[Vec<u8>], runs: &[Placed], text: &mut Vec<u8>) -> Result<(), Memory>
    ensures { OnOk result (text.new.items ≡ text.old.items ++ flat_map (spec.run_text (names_read names.now)) (placed_list runs.now)) }
{
    for placed in runs {
        put_run(name_at(names, placed.job), placed.run, text)?;
    }
    Ok(())
}
