//! What becomes of a job.
ghost use Rattle.std.specs.Prelude.{◌≡◌, ◌≤◌, ◌+◌, IfOk, map, length, nat_le, nat_lt};
ghost use Rattle.std.specs.List.{All, list_any};
ghost use Rattle.yds_kernel.specs.declared.limits.TheConstants.{MAX_U64};
ghost use Rattle.yds_trace.specs.declared.limits.TheConstants.{MAX_DEADLINE};
ghost use Rattle.yds_trace.specs.Asked as words;
ghost use Rattle.yds_trace.specs.Late as spec;
ghost use Rattle.yds_trace.specs.Document as document;
ghost use Rattle.yds_trace.specs.Views.{job_read, task_read};
ghost use Rattle.yds_trace_document.specs.Kept as kept;
ghost use Rattle.yds_trace_document.specs.Views.{judged_read, judged_list, within_read};

use crate::judged::Judged;
use crate::name::Name;
use base::Memory;
use std::alloc::Global;
use yds_trace::{End, Job, Reason, Stretch, Task};

/// What is asked for beside the tasks, and the trace's first and last time. Times are nanoseconds.
#[derive(Clone, Copy, Debug, PartialEq, Eq)]
pub(crate) struct Within {
    pub(crate) processor: u64,
    pub(crate) from: Option<u64>,
    pub(crate) to: Option<u64>,
    pub(crate) unit: u64,
    pub(crate) begin_at_run: bool,
    pub(crate) cut_losses: bool,
    pub(crate) first: u64,
    pub(crate) last: u64,
}

/// The end of what is asked for and shown.
fn last_of(to: Option<u64>, last: u64) -> u64
    ensures { result ≡ kept.last_of to last }
{
    match to {
        Some(to) => to.min(last),
        None => last,
    }
}

/// Up to when it is known of a job whether it has ended.
fn shown_until(last: u64, end: End) -> u64
    ensures { result ≡ spec.shown_until last end }
{
    match end {
        End::Open => last,
        End::Ended(time) => time,
        End::Lost(since) => last.min(since),
    }
}

/// Whether it was still open then.
fn is_open(end: End) -> bool
    ensures { result ≡ spec.is_open end }
{
    match end {
        End::Ended(_) => false,
        End::Open | End::Lost(_) => true,
    }
}

/// Whether a job that was open until this time was so behind `from`, and its deadline isn't after the end.
fn is_judged(from: Option<u64>, last: u64, deadline: u64, shown: u64) -> bool
    ensures { result ≡ spec.is_judged from last deadline shown }
{
    match from {
        Some(from) => from < shown && deadline <= last,
        None => deadline <= last,
    }
}

/// By how much a job is known to be late.
fn late_by(from: Option<u64>, last: u64, deadline: u64, end: End) -> Option<u64>
    ensures { result ≡ spec.late_by from last deadline end }
{
    let until = shown_until(last, end);
    if is_judged(from, last, deadline, until)
        && (deadline < until || (deadline == until && is_open(end)))
    {
        Some(until.saturating_sub(deadline))
    } else {
        None
    }
}

/// Whether a time isn't before `from`.
fn is_after_from(from: Option<u64>, time: u64) -> bool
    ensures { result ≡ words.is_after_from from time }
{
    match from {
        Some(from) => from <= time,
        None => true,
    }
}

/// Whether events were lost before it is known to have ended.
fn is_lost(last: u64, end: End) -> bool
    ensures { result ≡ document.is_lost last end }
{
    match end {
        End::Lost(since) => since < last,
        End::Open | End::Ended(_) => false,
    }
}

/// Why an open job that isn't known to be late can't stand.
fn open_reason(to: Option<u64>, last: u64) -> Reason
    ensures { result ≡ kept.open_reason to last }
{
    if is_to_reached(to, last) {
        Reason::AfterTo
    } else {
        Reason::NotEnded
    }
}

/// Whether `to` is given, and the trace goes on to it.
fn is_to_reached(to: Option<u64>, last: u64) -> bool
    ensures { result ≡ kept.is_to_reached to last }
{
    match to {
        Some(to) => to <= last,
        None => false,
    }
}

/// Whether a stretch took time, at a speed that isn't known.
fn is_of_unknown_speed(stretch: &Stretch) -> bool
    ensures { result ≡ document.is_of_unknown_speed stretch.now }
{
    stretch.from < stretch.to && stretch.khz.is_none()
}

/// Whether a job is due before it begins, or less than a unit of time behind.
fn is_due_before(unit: u64, begin: u64, due: u64) -> bool
    ensures { result ≡ nat_lt due (begin + unit) }
{
    due < begin || due - begin < unit
}

/// Why a job's runs, or its window, can't stand.
#[tactic(auto, using(yds_trace::proofs::Shares::list_any_reverse))]
fn run_reason(within: Within, due: u64, job: &Job) -> Option<Reason>
    ensures { result ≡ kept.run_reason (within_read within) due (job_read job.now) }
{
    let stretches = job.stretches.as_slice();
    if !job.begin_known {
        Some(Reason::BeginUnseen)
    } else if is_due_before(within.unit, job.begin, due) {
        Some(Reason::DueBefore)
    } else if has_moved(within.processor, stretches) {
        Some(Reason::Moved)
    } else if has_unknown_speed(stretches) {
        Some(Reason::SpeedUnknown)
    } else {
        None
    }
}

/// Whether one of the stretches is on another processor.
fn has_moved(processor: u64, stretches: &[Stretch]) -> bool
    ensures { result ≡ list_any (document.is_elsewhere processor) stretches.now }
{
    stretches
        .iter()
        .any(|stretch| stretch.processor != processor)
}

/// Whether one of the stretches is at a speed that isn't known.
fn has_unknown_speed(stretches: &[Stretch]) -> bool
    ensures { result ≡ list_any document.is_of_unknown_speed stretches.now }
{
    stretches.iter().any(|stretch| is_of_unknown_speed(stretch))
}

/// Why a job can't stand as it is, if it can't.
fn reason_of(within: Within, due: u64, late: Option<u64>, job: &Job) -> Option<Reason>
    ensures { result ≡ kept.reason_at (within_read within) due late (job_read job.now) }
{
    if !is_after_from(within.from, job.begin) {
        Some(Reason::BeforeFrom)
    } else if is_lost(last_of(within.to, within.last), job.end) {
        Some(Reason::EventsLost)
    } else if job.switch_missing {
        Some(Reason::SwitchMissing)
    } else if is_open(job.end) && late.is_none() {
        Some(open_reason(within.to, within.last))
    } else {
        run_reason(within, due, job)
    }
}

/// The earliest that a job's deadline may count from.
fn earliest(within: Within, job: &Job) -> u64
    ensures { result ≡ kept.earliest_at (within_read within) (job_read job.now) }
{
    if job.begin_known || within.begin_at_run {
        job.due_from
    } else {
        within.first.max(within.from.unwrap_or(0))
    }
}

/// Whether a job is known to be over by this time.
fn is_over_by(time: u64, end: End) -> bool
    ensures { result ≡ spec.over_by time end }
{
    match end {
        End::Ended(end) => end <= time,
        End::Open | End::Lost(_) => false,
    }
}

/// Whether a deadline that counts from this time comes in what is shown, and a job isn't known to be over by then.
fn may_be_late(last: u64, earliest: u64, deadline: u64, end: End) -> bool
    ensures { result ≡ kept.may_be_late_by last (earliest + deadline) end }
{
    deadline <= last && earliest <= last - deadline && !is_over_by(earliest + deadline, end)
}

/// Whether it isn't known of a job if it is late.
fn is_unsure(within: Within, task: &Task, late: Option<u64>, job: &Job) -> bool
    ensures { result ≡ kept.unsure_at (within_read within) (task_read task.now) late (job_read job.now) }
{
    !within.cut_losses
        && is_after_from(within.from, job.begin)
        && late.is_none()
        && may_be_late(
            last_of(within.to, within.last),
            earliest(within, job),
            task.deadline,
            job.end,
        )
}

/// What becomes of a job of a task.
fn judge<'a>(
    within: Within,
    number: usize,
    task: &'a Task,
    before: bool,
    place: u64,
    job: &'a Job,
) -> Judged<'a>
    requires plain { kept.IsPlainJob job.now }
    requires deadline { task.now.deadline ≤ MAX_DEADLINE }
    ensures { judged_read result ≡ kept.judged_at (within_read within) number (task_read task.entry.now) before (place, job_read job.entry.now) }
{
    let due = job.due_from + task.deadline;
    let late = late_by(within.from, last_of(within.to, within.last), due, job.end);
    Judged {
        task: number,
        name: Name {
            label: task.label.as_slice(),
            before,
            number: place,
            part: job.shared.then_some(within.processor),
        },
        job,
        due,
        late,
        unsure: is_unsure(within, task, late, job),
        reason: reason_of(within, due, late, job),
    }
}

/// Whether the first of these jobs began before the trace.
fn began_before(jobs: &[Job]) -> bool
    ensures { result ≡ document.began_before (map job_read jobs.now) }
{
    match jobs.first() {
        Some(job) => !job.begin_known,
        None => false,
    }
}

/// What becomes of all jobs of a task.
pub(crate) fn judge_task<'a>(
    alloc: Global,
    within: Within,
    number: usize,
    task: &'a Task,
    jobs: &'a [Job],
) -> Result<Vec<Judged<'a>>, Memory>
    requires begins { All kept.IsPlainJob jobs.now }
    requires deadline { task.now.deadline ≤ MAX_DEADLINE }
    ensures { IfOk result (λ judged. judged_list judged.items ≡ kept.judged_task (within_read within) number (task_read task.entry.now) (map job_read jobs.entry.now)) }
{
    judge_jobs(alloc, within, number, task, began_before(jobs), 0, jobs)
}

/// What becomes of a task's jobs behind so many first ones. `before` says whether the first of all began before the trace.
pub(crate) fn judge_jobs<'a>(
    alloc: Global,
    within: Within,
    number: usize,
    task: &'a Task,
    before: bool,
    first: u64,
    jobs: &'a [Job],
) -> Result<Vec<Judged<'a>>, Memory>
    requires begins { All kept.IsPlainJob jobs.now }
    requires numbers { first + length jobs.now ≤ MAX_U64 }
    requires deadline { task.now.deadline ≤ MAX_DEADLINE }
    ensures { IfOk result (λ judged. judged_list judged.items ≡ kept.judged_jobs (within_read within) number (task_read task.entry.now) before first (map job_read jobs.entry.now)) }
{
    let mut judged = Vec::with_capacity(alloc, jobs.len())?;
    for (place, job) in jobs.iter().enumerate() {
        judged.push(judge(within, number, task, before, first + place as u64, job))?;
    }
    Ok(judged)
}
