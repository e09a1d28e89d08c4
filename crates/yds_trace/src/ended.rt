//! What is known when a trace has ended.

ghost use Rattle.std.specs.Prelude.{◌≡◌, ℕ, List, map, IfOk, OnOk};
ghost use Rattle.yds_kernel.specs.Event.{Said};
ghost use Rattle.yds_trace.specs.Asked.{Start};
ghost use Rattle.yds_trace.specs.declared.followed.Followed.{Followed};
ghost use Rattle.yds_trace.specs.Kept.{IsPast};
ghost use Rattle.yds_trace.specs.Passing.{closed_at, standing_on};
ghost use Rattle.yds_trace.specs.Views.{jobs_listed, known_read};

use crate::asked::Asked;
use crate::followed::Followed;
use crate::job::{Job, Standing, Stretch};
use crate::jobs::run_last;
use crate::known::Known;
use crate::others::Span;
use crate::past::Past;
use crate::tally::Tally;
use base::Memory;
use std::alloc::Global;

/// What is known of the tasks at the end of what is asked for.
#[derive(Debug, Drop)]
pub struct Ended {
    /// What was asked for.
    pub asked: Asked,
    /// The jobs of each task in the order of the tasks, each task's in order of their begins. What still has its processor
    /// at the end of what is asked for has had it until then.
    /// Of a job that moved, where that is asked for, what it ran on the processor that is asked for.
    pub jobs: Vec<Vec<Job>>,
    /// Who else had a processor while a job waited, in order of time, where that is asked for.
    pub others: Vec<Span>,
    /// The time of the trace's first line with a stamp, in nanoseconds; 0 where there is none.
    pub first: u64,
    /// The time of its last line with a stamp, in nanoseconds; 0 where there is none.
    pub last: u64,
    /// What its lines lack.
    pub tally: Tally,
}

/// What still has its processor, standing there, has had it until this time.
pub(crate) fn close(
    jobs: &mut Vec<Job>,
    on: Option<Standing>,
    past: &Past,
    until: u64,
) -> Result<(), Memory>
    ensures { (start : Start) (counting : List Said) → IsPast start counting past.now
        → OnOk result (jobs_listed jobs.new.items ≡ closed_at until start counting (standing_on on (jobs_listed jobs.old.items))) }
{
    if let Some(standing) = on {
        let stretch = Stretch {
            processor: standing.processor,
            from: standing.since,
            to: until,
            khz: past.speed(standing.processor),
        };
        run_last(stretch, jobs)?;
    }
    Ok(())
}

/// The jobs of a task: what still has its processor has had it until this time.
fn closed(known: Known, past: &Past, until: u64) -> Result<Vec<Job>, Memory>
    ensures { (start : Start) (counting : List Said) → IsPast start counting past.now
        → IfOk result (λ jobs. jobs_listed jobs.items ≡ closed_at until start counting (known_read known)) }
{
    let mut jobs = known.jobs;
    close(&mut jobs, known.on, past, until)?;
    Ok(jobs)
}

/// The jobs of each task.
pub(crate) fn close_each(
    alloc: Global,
    tasks: Vec<Followed>,
    past: &Past,
    until: u64,
) -> Result<Vec<Vec<Job>>, Memory>
    ensures { (start : Start) (counting : List Said) → IsPast start counting past.now
        → IfOk result (λ all. map (λ jobs. jobs_listed jobs.items) all.items
        ≡ map (λ followed. closed_at until start counting (known_read followed.known)) tasks.items) }
{
    let mut all = Vec::with_capacity(alloc, tasks.len())?;
    for followed in tasks {
        all.push(closed(followed.known, past, until)?)?;
    }
    Ok(all)
}
