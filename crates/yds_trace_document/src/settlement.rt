//! What is settled of all jobs at a trace's end.
ghost use Rattle.std.specs.Prelude.{◌≡◌, ◌≤◌, ℕ, List, IfOk, map, length};
ghost use Rattle.std.specs.List.{All};
ghost use Rattle.yds_kernel.specs.Event.{Said};
ghost use Rattle.yds_trace.specs.declared.limits.TheConstants.{MAX_TIME, MAX_DEADLINE};
ghost use Rattle.yds_trace.specs.Asked as words;
ghost use Rattle.yds_trace.specs.Ended.{IsEnded, in_order_of_begin};
ghost use Rattle.yds_trace.specs.Views.{task_read, asked_read};
ghost use Rattle.yds_trace.specs.Document.{in_order, least_begin};
ghost use Rattle.yds_trace_document.specs.Kept as kept;
ghost use Rattle.yds_trace_document.specs.Settled.{settled_of, with_capped_works};
ghost use Rattle.yds_trace_document.specs.Views.{units_read, judged_read, judged_list, judged_lists, other_read, settled_read, within_read};

use crate::judge::{Within, judge_task};
use crate::judged::Judged;
use crate::other::{Other, all_lent, all_within};
use crate::placed::{Placed, placed_in_order};
use crate::units::Units;
use crate::written::{Written, written_jobs};
use base::Memory;
use std::alloc::Global;
use yds_trace::{Asked, Ended, Job, Tally, Task};

/// What is settled of the jobs at a trace's end: what becomes of each, and the document of those that are written.
#[derive(Debug, Drop)]
pub struct Settled<'a> {
    pub units: Units,
    /// The jobs of each task.
    pub by_task: Vec<Vec<Judged<'a>>>,
    /// The jobs of all tasks, in order of begin; those of one time in order of tasks.
    pub judged: Vec<Judged<'a>>,
    /// The jobs that are written, in order of begin.
    pub jobs: Vec<Written<'a>>,
    /// The runs of these, in order of time; those of one time in order of jobs.
    pub runs: Vec<Placed>,
    /// Who else had the processor while a job waited, from time 0 on, in order of time.
    pub others: Vec<Other<'a>>,
    /// What the trace lacks.
    pub tally: Tally,
}

/// What is settled of the jobs at a trace's end. The only error is want of memory.
pub fn settle<'a>(alloc: Global, ended: &'a Ended) -> Result<Settled<'a>, Memory>
    requires { kept.IsPlain ended.now }
    ensures { (asked : words.Asked) (past : List Said) → IsEnded asked past ended.entry.now
        → IfOk result (λ settled. settled_read settled ≡ with_capped_works (settled_of asked past)) }
{
    let within = Within {
        processor: ended.asked.processor,
        from: ended.asked.from,
        to: ended.asked.to,
        unit: ended.asked.unit,
        begin_at_run: ended.asked.begin_at_run,
        cut_losses: ended.asked.cut_losses,
        first: ended.first,
        last: ended.last,
    };
    let by_task = judge_tasks(alloc, within, &ended.asked.tasks, &ended.jobs)?;
    let others = all_lent(alloc, &ended.others)?;
    settled_from(
        alloc,
        &ended.asked,
        ended.first,
        by_task,
        &others,
        ended.tally,
    )
}

/// The document of these jobs, and who else had the processor from time 0 on.
fn settled_from<'a>(
    alloc: Global,
    asked: &Asked,
    first: u64,
    by_task: Vec<Vec<Judged<'a>>>,
    others: &[Other<'a>],
    tally: Tally,
) -> Result<Settled<'a>, Memory>
    requires has_unit { 1 ≤ asked.now.unit }
    requires has_speed_unit { 1 ≤ asked.now.khz }
    ensures { IfOk result (λ settled. settled_read settled ≡ kept.settled_at (asked_read asked.now) first (judged_lists by_task.entry.items) (map other_read others.now) tally) }
{
    let judged = in_order_of_begins(alloc, &by_task)?;
    let units = units_of(asked, first, &judged);
    let others = all_within(alloc, units.zero, None, others)?;
    settled_in(alloc, units, by_task, judged, others, tally)
}

/// What is written of these jobs in these units.
pub(crate) fn settled_in<'a>(
    alloc: Global,
    units: Units,
    by_task: Vec<Vec<Judged<'a>>>,
    judged: Vec<Judged<'a>>,
    others: Vec<Other<'a>>,
    tally: Tally,
) -> Result<Settled<'a>, Memory>
    ensures { IfOk result (λ settled. settled_read settled ≡ kept.capped_in (units_read units) (judged_lists by_task.entry.items) (judged_list judged.entry.items) (map other_read others.entry.items) tally) }
{
    let jobs = written_jobs(alloc, units, &judged)?;
    let runs = placed_in_order(alloc, &jobs)?;
    Ok(Settled {
        units,
        by_task,
        judged,
        jobs,
        runs,
        others,
        tally,
    })
}

/// What becomes of the jobs of each task.
fn judge_tasks<'a>(
    alloc: Global,
    within: Within,
    tasks: &'a [Task],
    jobs: &'a [Vec<Job>],
) -> Result<Vec<Vec<Judged<'a>>>, Memory>
    requires of_each_task { length jobs.now ≡ length tasks.now }
    requires begins { kept.HaveBegins jobs.now }
    requires deadlines { All (λ task. task.deadline ≤ MAX_DEADLINE) tasks.now }
    ensures { IfOk result (λ judged. judged_lists judged.items ≡ kept.judged_tasks (within_read within) 0 (map task_read tasks.entry.now) (map in_order_of_begin jobs.entry.now)) }
{
    let mut judged = Vec::with_capacity(alloc, jobs.len())?;
    for (number, task) in tasks.iter().enumerate() {
        judged.push(judge_task(alloc, within, number, task, &jobs[number])?)?;
    }
    Ok(judged)
}

/// The jobs of all tasks.
fn all_tasks<'a>(alloc: Global, by_task: &[Vec<Judged<'a>>]) -> Result<Vec<Judged<'a>>, Memory>
    ensures { IfOk result (λ judged. judged_list judged.items ≡ kept.together (judged_lists by_task.now)) }
{
    let mut all = Vec::new(alloc);
    for judged in by_task {
        all.extend_from_slice(judged)?;
    }
    Ok(all)
}

/// The jobs of all tasks in order of begin.
pub(crate) fn in_order_of_begins<'a>(
    alloc: Global,
    by_task: &[Vec<Judged<'a>>],
) -> Result<Vec<Judged<'a>>, Memory>
    ensures { IfOk result (λ judged. judged_list judged.items ≡ in_order kept.begin_of (kept.together (judged_lists by_task.now))) }
{
    let mut all = all_tasks(alloc, by_task)?;
    all.sort_by_key(|judged| judged.job.begin)?;
    Ok(all)
}

/// The least begin of the jobs that stand as they are.
fn first_begin(judged: &[Judged<'_>]) -> Option<u64>
    ensures { result ≡ least_begin (judged_list judged.now) }
{
    let mut least: Option<u64> = None;
    let mut left = judged.len();
    while left > 0 {
        left -= 1;
        least = least_with(&judged[left], least);
    }
    least
}

/// The lesser one of a job's begin and the least of those behind it, if it stands.
fn least_with(judged: &Judged<'_>, least: Option<u64>) -> Option<u64>
    ensures { result ≡ kept.least_with (judged_read judged.now) least }
{
    if judged.reason.is_some() {
        return least;
    }
    let begin = judged.job.begin;
    match least {
        Some(other) => Some(begin.min(other)),
        None => Some(begin),
    }
}

/// The units of the document.
fn units_of(asked: &Asked, first: u64, judged: &[Judged<'_>]) -> Units
    requires has_unit { 1 ≤ asked.now.unit }
    requires has_speed_unit { 1 ≤ asked.now.khz }
    ensures { units_read result ≡ kept.units_at (asked_read asked.now) first (judged_list judged.now) }
{
    let zero = match asked.from {
        Some(from) => from,
        None => first_begin(judged).unwrap_or(first),
    };
    Units {
        zero,
        time: asked.unit,
        speed: asked.khz,
    }
}
