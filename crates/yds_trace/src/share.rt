//! Of a job that moved, what it ran on one processor.
ghost use Rattle.std.specs.Prelude.{◌≡◌, ◌==◌, map, filter};
ghost use Rattle.std.specs.List.{list_any};
ghost use Rattle.yds_trace.specs.Document as spec;
ghost use Rattle.yds_trace.specs.Ended.{in_order_of_begin};
ghost use Rattle.yds_trace.specs.Views.{asked_read, job_read};

use crate::asked::Asked;
use crate::job::{Job, Stretch};

/// Whether the job has run on this processor.
#[tactic(auto, using(crate::proofs::Shares::list_any_reverse))]
pub fn has_run_on(processor: u64, job: &Job) -> bool
    ensures { result ≡ spec.has_run_on processor (job_read job.now) }
{
    any_on(processor, &job.stretches)
}

fn any_on(processor: u64, stretches: &[Stretch]) -> bool
    ensures { result ≡ list_any (λ stretch. stretch.processor == processor) stretches.now }
{
    stretches
        .iter()
        .any(|stretch| stretch.processor == processor)
}

fn any_elsewhere(processor: u64, stretches: &[Stretch]) -> bool
    ensures { result ≡ list_any (spec.is_elsewhere processor) stretches.now }
{
    stretches
        .iter()
        .any(|stretch| stretch.processor != processor)
}

/// Whether the job has run on this processor, and on another one.
#[tactic(auto, using(crate::proofs::Shares::list_any_reverse))]
fn is_shared_by(processor: u64, job: &Job) -> bool
    ensures { result ≡ spec.is_shared_by processor (job_read job.now) }
{
    has_run_on(processor, job) && any_elsewhere(processor, &job.stretches)
}

/// Keeps what ran on this processor.
fn keep_on(processor: u64, stretches: &mut Vec<Stretch>)
    ensures { stretches.new.items ≡ filter (λ stretch. stretch.processor == processor) stretches.old.items }
{
    stretches.retain(|stretch| stretch.processor == processor);
}

/// Keeps of a job what the documents of the processor that is asked for have of it.
fn share(asked: &Asked, job: &mut Job)
    ensures { job_read job.new ≡ spec.share_of (asked_read asked.now) (job_read job.old) }
{
    if asked.moved_parts && is_shared_by(asked.processor, job) {
        keep_on(asked.processor, &mut job.stretches);
        job.shared = true;
    }
}

/// The same of each of these jobs.
pub(crate) fn share_each(asked: &Asked, jobs: &mut Vec<Job>)
    ensures { map job_read jobs.new.items ≡ map (spec.share_of (asked_read asked.now)) (map job_read jobs.old.items) }
{
    for number in 0..jobs.len() {
        let job = &mut jobs[number];
        share(asked, job);
    }
}

/// The same of the jobs of each task.
pub(crate) fn share_all(asked: &Asked, tasks: &mut Vec<Vec<Job>>)
    ensures { map in_order_of_begin tasks.new.items
        ≡ map (map (spec.share_of (asked_read asked.now))) (map in_order_of_begin tasks.old.items) }
{
    if !asked.moved_parts {
        return;
    }
    for number in 0..tasks.len() {
        let jobs = &mut tasks[number];
        share_each(asked, jobs);
    }
}
