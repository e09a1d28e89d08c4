//! Which document has a job.
ghost use Rattle.std.specs.Prelude.{◌≡◌, ◌==◌, length};
ghost use Rattle.yds_trace.specs.Parts as spec;
ghost use Rattle.yds_trace.specs.Views.{asked_read, job_read};
ghost use Rattle.yds_trace_document.specs.Views.{judged_read};

use crate::judged::Judged;
use yds_trace::{Asked, Job, has_run_on};

/// Whether a document of the processor that is asked for has this job. Where each processor has documents of its own, they have
/// the jobs that ran on it, and those of processor 0 also the jobs that ran on none.
pub fn belongs(asked: &Asked, judged: &Judged<'_>) -> bool
    ensures { result ≡ spec.belongs (asked_read asked.now) (judged_read judged.now) }
{
    !asked.everywhere
        || has_run_on(asked.processor, judged.job)
        || (asked.processor == 0 && has_run_nowhere(judged.job))
}

/// Whether the job has run on no processor.
fn has_run_nowhere(job: &Job) -> bool
    ensures { result ≡ (length (job_read job.now).stretches == 0) }
{
    job.stretches.is_empty()
}
