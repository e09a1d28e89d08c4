//! What is written of a job.
ghost use Rattle.std.specs.Prelude.{◌≡◌, ◌≤◌, ◌++◌, IfOk, OnOk, option_to_list};
ghost use Rattle.yds_kernel.specs.Parts.{capped};
ghost use Rattle.yds_trace.specs.Late as late;
ghost use Rattle.yds_trace.specs.Views.{job_read};
ghost use Rattle.yds_trace.specs.WrittenTime as spec;
ghost use Rattle.yds_trace.specs.Document as document;
ghost use Rattle.yds_trace_document.specs.Kept as kept;
ghost use Rattle.yds_trace_document.specs.Settled.{with_capped_work};
ghost use Rattle.yds_trace_document.specs.Views.{units_read, run_read, runs_read, judged_read, judged_list, written_read, written_list, written_option};

use crate::judged::Judged;
use crate::name::Name;
use crate::run::{Run, runs_of};
use crate::units::Units;
use base::Memory;
use std::alloc::Global;
use yds_trace::{End, Job};

/// What is written of a job, in units of the document.
#[derive(Debug, Drop)]
pub struct Written<'a> {
    pub name: Name<'a>,
    pub release: u64,
    pub deadline: u64,
    /// In units of work. Above 64 bits it is the greatest number of 64 bits.
    pub work: u64,
    /// In order of time.
    pub runs: Vec<Run>,
}

/// The unit of time in which a job ended; 0 where it hasn't.
pub fn written_end(units: Units, end: End) -> u64
    ensures { result ≡ document.written_end (units_read units) end }
{
    match end {
        End::Ended(time) => units.written_time(time),
        End::Open | End::Lost(_) => 0,
    }
}

/// Whether a job was still open when it was seen last.
pub fn is_open(end: End) -> bool
    ensures { result ≡ late.is_open end }
{
    match end {
        End::Ended(_) => false,
        End::Open | End::Lost(_) => true,
    }
}

/// The end of the last run; 0 where there is none.
#[tactic(auto, using(crate::proofs::Steps::last_end))]
pub fn runs_end(runs: &[Run]) -> u64
    ensures { result ≡ spec.runs_end (runs_read runs.now) }
{
    if runs.is_empty() {
        0
    } else {
        runs[runs.len() - 1].to
    }
}

/// The work of runs, at most the greatest number of 64 bits.
fn work_of(runs: &[Run]) -> u64
    ensures { result ≡ capped (spec.work_of_runs (runs_read runs.now)) }
{
    let mut work: u64 = 0;
    for run in runs {
        work = work.saturating_add(work_of_run(run));
    }
    work
}

fn work_of_run(run: &Run) -> u64
    ensures { result ≡ capped (spec.work_of_run (run_read run.now)) }
{
    run.speed.saturating_mul(run.to.saturating_sub(run.from))
}

/// Whether a late job's runs don't show that it is late.
fn is_hidden(units: Units, judged: &Judged<'_>, runs: &[Run]) -> bool
    requires { runs_read runs.now ≡ document.written_runs (units_read units) (judged_read judged.now).job }
    ensures { result ≡ document.is_hidden (units_read units) (judged_read judged.now) }
{
    let due = units.written_time(judged.due);
    let end = judged.job.end;
    is_open(end) || (due < written_end(units, end) && runs_end(runs) <= due)
}

/// A unit of work above what its runs give, where they don't show that the job is late.
fn owed(units: Units, judged: &Judged<'_>, runs: &[Run]) -> u64
    requires { runs_read runs.now ≡ document.written_runs (units_read units) (judged_read judged.now).job }
    ensures value { result ≡ document.owed (units_read units) (judged_read judged.now) }
{
    if judged.late.is_some() && is_hidden(units, judged, runs) {
        1
    } else {
        0
    }
}

/// The runs of a job as they are written.
#[tactic(auto, using(crate::proofs::Steps::read_back))]
pub fn written_runs(alloc: Global, units: Units, job: &Job) -> Result<Vec<Run>, Memory>
    ensures { IfOk result (λ runs. runs_read runs.items ≡ document.written_runs (units_read units) (job_read job.now)) }
{
    runs_of(alloc, units, &job.stretches)
}

/// A job as it stands.
fn with_runs<'a>(alloc: Global, units: Units, judged: &Judged<'a>) -> Result<Written<'a>, Memory>
    ensures { IfOk result (λ job. written_read job ≡ with_capped_work (document.with_runs (units_read units) (judged_read judged.now))) }
{
    let runs = written_runs(alloc, units, judged.job)?;
    let work = work_of(&runs).saturating_add(owed(units, judged, &runs));
    Ok(Written {
        name: judged.name,
        release: units.written_time(judged.job.begin),
        deadline: units.written_time(judged.due),
        work,
        runs,
    })
}

/// When a late job is released that is written without its runs.
fn release_without_runs(units: Units, job: &Job) -> u64
    ensures value { result ≡ document.release_without_runs (units_read units) (job_read job.now) }
    ensures small { result ≤ job.now.begin }
{
    if job.begin_known {
        units.written_time(job.begin)
    } else {
        0
    }
}

/// A late job that can't stand as it is.
fn without_runs<'a>(alloc: Global, units: Units, judged: &Judged<'a>) -> Written<'a>
    ensures { written_read result ≡ with_capped_work (document.without_runs (units_read units) (judged_read judged.now)) }
{
    let release = release_without_runs(units, judged.job);
    Written {
        name: judged.name,
        release,
        deadline: units.written_time(judged.due).max(release + 1),
        work: 1,
        runs: Vec::new(alloc),
    }
}

/// What is written of a job, if anything is: a late job always is.
fn written_of<'a>(
    alloc: Global,
    units: Units,
    judged: &Judged<'a>,
) -> Result<Option<Written<'a>>, Memory>
    ensures { IfOk result (λ job. written_option job ≡ kept.capped_of (units_read units) (judged_read judged.now)) }
{
    if judged.reason.is_none() {
        Ok(Some(with_runs(alloc, units, judged)?))
    } else if judged.late.is_some() {
        Ok(Some(without_runs(alloc, units, judged)))
    } else {
        Ok(None)
    }
}

/// The jobs that are written, in order of begin.
pub(crate) fn written_jobs<'a>(
    alloc: Global,
    units: Units,
    judged: &[Judged<'a>],
) -> Result<Vec<Written<'a>>, Memory>
    ensures { IfOk result (λ jobs. written_list jobs.items ≡ kept.capped_jobs (units_read units) (judged_list judged.now)) }
{
    let mut jobs = Vec::new(alloc);
    for one in judged {
        put_job(written_of(alloc, units, one)?, &mut jobs)?;
    }
    Ok(jobs)
}

/// Puts what is written of a job behind the others, if anything is.
fn put_job<'a>(job: Option<Written<'a>>, jobs: &mut Vec<Written<'a>>) -> Result<(), Memory>
    ensures { OnOk result (jobs.new.items ≡ jobs.old.items ++ option_to_list job.entry) }
{
    if let Some(job) = job {
        jobs.push(job)?;
    }
    Ok(())
}
