//! The jobs of a part, and what is settled of them.
ghost use Rattle.std.specs.Prelude.{◌≡◌, ◌≤◌, ◌+◌, ◌*◌, List, IfOk, map, filter, length};
ghost use Rattle.std.specs.List.{All};
ghost use Rattle.yds_kernel.specs.declared.limits.TheConstants.{MAX_U64};
ghost use Rattle.yds_kernel.specs.Event.{Said};
ghost use Rattle.yds_trace.specs.declared.cut.Cut.{Cut};
ghost use Rattle.yds_trace.specs.declared.limits.TheConstants.{MAX_DEADLINE};
ghost use Rattle.yds_trace.specs.Asked as words;
ghost use Rattle.yds_trace.specs.Past.{first_time};
ghost use Rattle.yds_trace.specs.Parts as parts;
ghost use Rattle.yds_trace.specs.Shown.{IsShared};
ghost use Rattle.yds_trace.specs.Views.{task_read, asked_read};
ghost use Rattle.yds_trace_document.specs.Kept as kept;
ghost use Rattle.yds_trace_document.specs.Part as spec;
ghost use Rattle.yds_trace_document.specs.PartKept as made;
ghost use Rattle.yds_trace_document.specs.Views.{units_read, judged_list, judged_lists, within_read};

use crate::judge::{Within, judge_jobs};
use crate::judged::Judged;
use crate::membership::belongs;
use crate::other::{Other, all_lent, all_within, behind};
use crate::settlement::{Settled, in_order_of_begins, settled_in};
use crate::units::Units;
use base::Memory;
use std::alloc::Global;
use yds_trace::{Asked, Shown, ShownTask, Tally, Task};

/// What is settled of a part.
#[derive(Debug, Drop)]
pub struct Part<'a> {
    pub settled: Settled<'a>,
    /// So many units were taken off each of its times.
    pub shift: u64,
}

/// The jobs that wait, and what becomes of each.
#[derive(Debug, Drop)]
pub struct Waiting<'a> {
    /// Those of each task.
    pub by_task: Vec<Vec<Judged<'a>>>,
    /// Those of all tasks, in order of begin; those of one time in order of tasks.
    pub judged: Vec<Judged<'a>>,
    /// The end of the parts before, in nanoseconds.
    pub boundary: u64,
    /// Who else had the processor behind it while a job waited, in order of time. The first may have had it since before.
    pub others: Vec<Other<'a>>,
    /// What the trace lacks up to here.
    pub tally: Tally,
}

/// What becomes of the jobs that wait: they begin at the boundary or later. The only error is want of memory.
pub fn judge_waiting<'a>(
    alloc: Global,
    asked: &'a Asked,
    shown: &'a Shown,
    boundary: u64,
) -> Result<Waiting<'a>, Memory>
    requires { kept.IsPlainShown asked.now shown.now }
    ensures { (past : List Said) (cut : Cut) → cut.boundary ≡ boundary → IsShared (asked_read asked.entry.now) past boundary shown.entry.now
        → IfOk result (made.IsWaiting (asked_read asked.entry.now) past cut) }
{
    let by_task = judge_by_task(alloc, asked, shown, boundary)?;
    let judged = waiting_jobs(alloc, &by_task)?;
    let others = behind(boundary, all_lent(alloc, &shown.others)?);
    Ok(Waiting {
        by_task,
        judged,
        boundary,
        others,
        tally: shown.tally,
    })
}

/// The same for each task.
fn judge_by_task<'a>(
    alloc: Global,
    asked: &'a Asked,
    shown: &'a Shown,
    boundary: u64,
) -> Result<Vec<Vec<Judged<'a>>>, Memory>
    requires { kept.IsPlainShown asked.now shown.now }
    ensures { (past : List Said) (cut : Cut) → cut.boundary ≡ boundary → IsShared (asked_read asked.entry.now) past boundary shown.entry.now
        → IfOk result (λ by_task. judged_lists by_task.items
        ≡ spec.waiting_by_task (asked_read asked.entry.now) past cut 0 (map task_read asked.entry.now.tasks.items)) }
{
    let within = Within {
        processor: asked.processor,
        from: asked.from,
        to: asked.to,
        unit: asked.unit,
        begin_at_run: asked.begin_at_run,
        cut_losses: asked.cut_losses,
        first: shown.first,
        last: shown.last,
    };
    judge_each(alloc, within, boundary, &asked.tasks, &shown.tasks)
}

/// What becomes of the waiting jobs of each task.
fn judge_each<'a>(
    alloc: Global,
    within: Within,
    boundary: u64,
    tasks: &'a [Task],
    shown: &'a [ShownTask],
) -> Result<Vec<Vec<Judged<'a>>>, Memory>
    requires of_each_task { length shown.now ≡ length tasks.now }
    requires plain { All kept.IsPlainTask shown.now }
    requires deadlines { All (λ task. task.deadline ≤ MAX_DEADLINE) tasks.now }
    ensures { IfOk result (λ judged. judged_lists judged.items ≡ kept.shown_tasks (within_read within) boundary 0 (map task_read tasks.entry.now) shown.entry.now) }
{
    let mut judged = Vec::with_capacity(alloc, shown.len())?;
    for (number, task) in tasks.iter().enumerate() {
        judged.push(judge_shown(alloc, within, boundary, number, task, &shown[number])?)?;
    }
    Ok(judged)
}

/// What becomes of the waiting jobs of a task.
fn judge_shown<'a>(
    alloc: Global,
    within: Within,
    boundary: u64,
    number: usize,
    task: &'a Task,
    shown: &'a ShownTask,
) -> Result<Vec<Judged<'a>>, Memory>
    requires plain { kept.IsPlainTask shown.now }
    requires deadline { task.now.deadline ≤ MAX_DEADLINE }
    ensures { IfOk result (λ judged. judged_list judged.items ≡ kept.shown_task (within_read within) boundary number (task_read task.entry.now) shown.entry.now) }
{
    let jobs = judge_jobs(
        alloc,
        within,
        number,
        task,
        shown.before,
        shown.forgotten,
        &shown.jobs,
    )?;
    Ok(begun_from(boundary, jobs))
}

/// Those that begin at this time or later.
fn begun_from<'a>(boundary: u64, mut jobs: Vec<Judged<'a>>) -> Vec<Judged<'a>>
    ensures { judged_list result.items ≡ filter (parts.begins_from boundary) (judged_list jobs.entry.items) }
{
    jobs.retain(|judged| judged.job.begin >= boundary);
    jobs
}

/// The jobs that wait, in order of begin; those of one time in order of tasks.
fn waiting_jobs<'a>(alloc: Global, by_task: &[Vec<Judged<'a>>]) -> Result<Vec<Judged<'a>>, Memory>
    ensures { (asked : words.Asked) (past : List Said) (cut : Cut) → judged_lists by_task.now ≡ spec.waiting_by_task asked past cut 0 asked.tasks
        → IfOk result (λ jobs. judged_list jobs.items ≡ parts.waiting asked past cut) }
{
    in_order_of_begins(alloc, by_task)
}

/// Whether a time is before the end of a part; the last part has no end.
fn is_before(until: Option<u64>, time: u64) -> bool
    ensures { result ≡ made.is_before until time }
{
    match until {
        Some(until) => time < until,
        None => true,
    }
}

/// Those that begin before a part's end.
fn begun_before<'a>(until: Option<u64>, mut jobs: Vec<Judged<'a>>) -> Vec<Judged<'a>>
    ensures { judged_list result.items ≡ filter (parts.is_before_end until) (judged_list jobs.entry.items) }
{
    jobs.retain(|judged| is_before(until, judged.job.begin));
    jobs
}

/// Those that belong to the documents of the processor that is asked for.
fn belonging<'a>(asked: &Asked, mut jobs: Vec<Judged<'a>>) -> Vec<Judged<'a>>
    ensures { judged_list result.items ≡ filter (parts.belongs (asked_read asked.now)) (judged_list jobs.entry.items) }
{
    jobs.retain(|judged| belongs(asked, judged));
    jobs
}

/// Those that the part which ends at this time has, or the last one.
fn of_part<'a>(asked: &Asked, until: Option<u64>, jobs: Vec<Judged<'a>>) -> Vec<Judged<'a>>
    ensures { judged_list result.items ≡ parts.of_part (asked_read asked.now) until (judged_list jobs.entry.items) }
{
    belonging(asked, begun_before(until, jobs))
}

/// Those of each task that the part has.
fn part_by_task<'a>(
    alloc: Global,
    asked: &Asked,
    until: Option<u64>,
    by_task: Vec<Vec<Judged<'a>>>,
) -> Result<Vec<Vec<Judged<'a>>>, Memory>
    ensures { IfOk result (λ some. judged_lists some.items ≡ map (made.items_of_part (asked_read asked.now) until) by_task.entry.items) }
{
    let mut some = Vec::with_capacity(alloc, by_task.len())?;
    for jobs in by_task {
        some.push(of_part(asked, until, jobs))?;
    }
    Ok(some)
}

/// How many units are before the first job of a part.
fn shift_from(zero: u64, unit: u64, judged: &[Judged<'_>]) -> u64
    requires { 1 ≤ unit }
    ensures value { result ≡ spec.shift_from zero unit (judged_list judged.now) }
    ensures fits { zero + result * unit ≤ MAX_U64 }
{
    match judged.first() {
        Some(first) => first.job.begin.saturating_sub(zero) / unit,
        None => 0,
    }
}

/// What is settled of the part that ends at this time, or of the last one, by the jobs that wait. `first` is the time of the
/// trace's first line with a stamp. The only error is want of memory.
pub fn settle_part<'a>(
    alloc: Global,
    asked: &Asked,
    first: u64,
    waiting: Waiting<'a>,
    until: Option<u64>,
) -> Result<Part<'a>, Memory>
    requires has_unit { 1 ≤ asked.now.unit }
    requires has_speed_unit { 1 ≤ asked.now.khz }
    ensures { (past : List Said) (cut : Cut) → first ≡ first_time 0 past
        → made.IsWaiting (asked_read asked.now) past cut waiting.entry
        → IfOk result (made.IsPart (asked_read asked.now) past cut until) }
{
    let by_task = part_by_task(alloc, asked, until, waiting.by_task)?;
    let judged = in_order_of_begins(alloc, &by_task)?;
    let zero = asked.from.unwrap_or(first);
    let shift = shift_from(zero, asked.unit, &judged);
    let units = Units {
        zero: zero + shift * asked.unit,
        time: asked.unit,
        speed: asked.khz,
    };
    let start = waiting.boundary.max(units.zero);
    let others = all_within(alloc, start, until, &waiting.others)?;
    let settled = settled_in(alloc, units, by_task, judged, others, waiting.tally)?;
    Ok(Part { settled, shift })
}
