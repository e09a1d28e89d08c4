//! What a call needs to know of what is known at a trace's end, or behind some of its lines.
ghost use Rattle.std.specs.Prelude.{◌≤◌, ◌↔◌, IsTrue};
ghost use Rattle.std.specs.List.{All};
ghost use Rattle.yds_trace.specs.declared.limits.TheConstants.{MAX_TIME, MAX_DEADLINE};
ghost use Rattle.yds_trace_document.specs.Kept.{IsPlain, IsPlainJob, HaveBegins, IsPlainTask, IsPlainShown};

use yds_trace::{Asked, Ended, Job, MAX_DEADLINE, MAX_TIME, Shown, ShownTask, Task};

/// Whether the units are at least 1, no deadline, no begin and no time from which a deadline counts is above its limit, and each
/// task has its list of jobs.
pub fn is_plain(ended: &Ended) -> bool
    ensures { IsTrue result ↔ IsPlain ended.now }
{
    ended.asked.unit >= 1
        && ended.asked.khz >= 1
        && ended.jobs.len() == ended.asked.tasks.len()
        && have_deadlines(&ended.asked.tasks)
        && have_begins(&ended.jobs)
}

fn have_deadlines(tasks: &[Task]) -> bool
    ensures { IsTrue result ↔ All (λ task. task.deadline ≤ MAX_DEADLINE) tasks.now }
{
    tasks.iter().all(|task| task.deadline <= MAX_DEADLINE)
}

fn have_begins(by_task: &[Vec<Job>]) -> bool
    ensures { IsTrue result ↔ HaveBegins by_task.now }
{
    by_task.iter().all(|jobs| begin_in_time(jobs))
}

fn begin_in_time(jobs: &[Job]) -> bool
    ensures { IsTrue result ↔ All IsPlainJob jobs.now }
{
    jobs.iter().all(|job| is_plain_job(job))
}

fn is_plain_job(job: &Job) -> bool
    ensures { IsTrue result ↔ IsPlainJob job.now }
{
    job.begin <= MAX_TIME && job.due_from <= MAX_TIME
}

/// The same of what is shown; and the numbers of the jobs fit 64 bits.
pub fn is_plain_shown(asked: &Asked, shown: &Shown) -> bool
    ensures { IsTrue result ↔ IsPlainShown asked.now shown.now }
{
    asked.unit >= 1
        && asked.khz >= 1
        && shown.tasks.len() == asked.tasks.len()
        && have_deadlines(&asked.tasks)
        && are_plain(&shown.tasks)
}

fn are_plain(tasks: &[ShownTask]) -> bool
    ensures { IsTrue result ↔ All IsPlainTask tasks.now }
{
    tasks.iter().all(|task| is_plain_task(task))
}

fn is_plain_task(task: &ShownTask) -> bool
    ensures { IsTrue result ↔ IsPlainTask task.now }
{
    begin_in_time(&task.jobs) && task.jobs.len() as u64 <= u64::MAX - task.forgotten
}
