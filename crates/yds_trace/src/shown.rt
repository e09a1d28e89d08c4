//! What is known of the tasks behind some lines, of the jobs that aren't forgotten.
ghost use Rattle.std.specs.Prelude.{◌≡◌, ℕ, ◌<◌, List, unwrap_or, length, slice_index_or, vec_len, IfOk};
ghost use Rattle.yds_kernel.specs.Event.{Said};
ghost use Rattle.yds_trace.specs.Asked.{Start};
ghost use Rattle.yds_trace.specs.declared.followed.Followed.{Followed};
ghost use Rattle.yds_trace.specs.declared.shown.ShownTask.{ShownTask};
ghost use Rattle.yds_trace.specs.Following.{Shares, Shows};
ghost use Rattle.yds_trace.specs.Kept.{IsPast};
ghost use Rattle.yds_trace.specs.Shown.{IsShared, IsShown};
ghost use Rattle.yds_trace.specs.Views.{asked_read};

use crate::asked::Asked;
use crate::ended::close;
use crate::followed::Followed;
use crate::job::Job;
use crate::jobs::copied;
use crate::others::{Span, copied as copied_spans};
use crate::past::Past;
use crate::share::share_each;
use crate::tally::Tally;
use base::Memory;
use std::alloc::Global;

/// What is known of a task's jobs.
#[derive(Debug, Drop)]
pub struct ShownTask {
    /// How many jobs were forgotten: the first ones.
    pub forgotten: u64,
    /// Whether the first job of all began before the trace.
    pub before: bool,
    /// The jobs behind the forgotten ones, in order of begin. What still has its processor has had it until now.
    pub jobs: Vec<Job>,
}

/// What is known of all tasks, in their order.
#[derive(Debug, Drop)]
pub struct Shown {
    pub tasks: Vec<ShownTask>,
    /// Who else had a processor while a job waited, in order of time, where that is asked for. The first may be forgotten.
    pub others: Vec<Span>,
    /// The time of the trace's first line with a stamp, in nanoseconds; 0 where there is none.
    pub first: u64,
    /// The time of its last line with a stamp, in nanoseconds; 0 where there is none.
    pub last: u64,
    /// What its lines lack.
    pub tally: Tally,
}

impl ShownTask {
    /// The same with the jobs as the documents of the processor that is asked for have them.
    fn shared(&self, alloc: Global, asked: &Asked) -> Result<ShownTask, Memory>
        ensures { IfOk result (Shares (asked_read asked.now) self.now) }
    {
        let mut jobs = copied(alloc, &self.jobs)?;
        share_each(asked, &mut jobs);
        Ok(ShownTask {
            forgotten: self.forgotten,
            before: self.before,
            jobs,
        })
    }
}

impl Shown {
    /// The same for the documents of the processor that is asked for: of a job that moved what it ran there, where that is
    /// asked for; else nothing is to be changed.
    pub fn shared(&self, alloc: Global, asked: &Asked) -> Result<Option<Shown>, Memory>
        ensures { (past : List Said) (boundary : ℕ) → IsShown (asked_read asked.now) past boundary self.now
            → IfOk result (λ own. IsShared (asked_read asked.now) past boundary (unwrap_or own self.now)) }
    {
        if !asked.moved_parts {
            return Ok(None);
        }
        let tasks = share_tasks(alloc, asked, &self.tasks)?;
        let others = copied_spans(alloc, &self.others)?;
        Ok(Some(Shown {
            tasks,
            others,
            first: self.first,
            last: self.last,
            tally: self.tally,
        }))
    }
}

/// Each task with its jobs as the documents of the processor that is asked for have them.
fn share_tasks(alloc: Global, asked: &Asked, tasks: &[ShownTask]) -> Result<Vec<ShownTask>, Memory>
    ensures many { IfOk result (λ shared. vec_len shared ≡ length tasks.now) }
    ensures each { IfOk result (λ shared. (number : ℕ) (default was : ShownTask) → number < length tasks.now
        → Shares (asked_read asked.now) (slice_index_or tasks.now number was) (slice_index_or shared.items number default)) }
{
    let mut all = Vec::with_capacity(alloc, tasks.len())?;
    for task in tasks {
        all.push(task.shared(alloc, asked)?)?;
    }
    Ok(all)
}

/// What is known of a task: what still has its processor has had it until this time.
fn show(alloc: Global, followed: &Followed, past: &Past, until: u64) -> Result<ShownTask, Memory>
    ensures { (start : Start) (counting : List Said) → IsPast start counting past.now → IfOk result (Shows until start counting followed.now) }
{
    let mut jobs = copied(alloc, &followed.known.jobs)?;
    close(&mut jobs, followed.known.on, past, until)?;
    Ok(ShownTask {
        forgotten: followed.forgotten,
        before: followed.first_before(),
        jobs,
    })
}

/// What is known of each task.
pub(crate) fn show_each(
    alloc: Global,
    tasks: &[Followed],
    past: &Past,
    until: u64,
) -> Result<Vec<ShownTask>, Memory>
    ensures many { IfOk result (λ shown. vec_len shown ≡ length tasks.now) }
    ensures each { (start : Start) (counting : List Said) → IsPast start counting past.now
        → IfOk result (λ shown. (number : ℕ) (default : ShownTask) (kept : Followed) → number < length tasks.now
        → Shows until start counting (slice_index_or tasks.now number kept) (slice_index_or shown.items number default)) }
{
    let mut shown = Vec::with_capacity(alloc, tasks.len())?;
    for followed in tasks {
        shown.push(show(alloc, followed, past, until)?)?;
    }
    Ok(shown)
}
