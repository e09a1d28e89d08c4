//! The jobs of a task, in order of their begins: the last one changes.
ghost use Rattle.std.specs.Prelude.{◌≡◌, ◌+◌, ◌<◌, ◌≤◌, ◌∷◌, Option, map, take, drop, length, sum_by, vec_len, nat_lt, IfOk, OnOk};
ghost use Rattle.yds_trace.specs.declared.job.Standing.{Standing};
ghost use Rattle.std.specs.List.{All};
ghost use Rattle.yds_kernel.specs.Parts.{capped};
ghost use Rattle.yds_trace.specs.Document.{began_before};
ghost use Rattle.yds_trace.specs.Following.{stretches_in};
ghost use Rattle.yds_trace.specs.Jobs as spec;
ghost use Rattle.yds_trace.specs.Faults.{has_exited, slept_before};
ghost use Rattle.yds_trace.specs.Parts.{has_ended, last_begin};
ghost use Rattle.yds_trace.specs.Views.{job_read, jobs_listed};

use crate::job::{End, Job, Pace, Stretch, Woken};
use base::Memory;
use std::alloc::Global;

/// A job begins.
#[tactic(auto, using(crate::proofs::Listed::jobs_listed_push))]
pub(crate) fn begin(
    alloc: Global,
    time: u64,
    known: bool,
    jobs: &mut Vec<Job>,
) -> Result<(), Memory>
    ensures { OnOk result (jobs_listed jobs.new.items ≡ spec.began time known (jobs_listed jobs.old.items)) }
{
    jobs.push(Job::new(alloc, time, time, known))?;
    Ok(())
}

/// A job begins behind one that has ended.
#[tactic(auto, using(crate::proofs::Listed::jobs_listed_push))]
fn begin_behind(
    alloc: Global,
    period: u64,
    time: u64,
    before: Job,
    jobs: &mut Vec<Job>,
) -> Result<(), Memory>
    ensures { OnOk result (jobs_listed jobs.new.items ≡ spec.began_behind period time (job_read before) (jobs_listed jobs.old.items)) }
{
    let due_from = before.due_behind(period, time);
    put(before, jobs)?;
    jobs.push(Job::new(alloc, time, due_from, true))?;
    Ok(())
}

/// Puts a job behind the others.
#[tactic(auto, using(crate::proofs::Listed::jobs_listed_push))]
fn put(job: Job, jobs: &mut Vec<Job>) -> Result<(), Memory>
    ensures { OnOk result (jobs_listed jobs.new.items ≡ job_read job ∷ jobs_listed jobs.old.items) }
{
    jobs.push(job)?;
    Ok(())
}

/// A wake-up begins a job where none is open, and is counted where one is.
#[tactic(auto, using(crate::proofs::Listed::jobs_listed_push))]
pub(crate) fn wake(
    alloc: Global,
    pace: Pace,
    time: u64,
    again: bool,
    jobs: &mut Vec<Job>,
) -> Result<(), Memory>
    ensures { OnOk result (jobs_listed jobs.new.items ≡ spec.woken_jobs pace time again (jobs_listed jobs.old.items)) }
{
    match jobs.pop() {
        Some(job) => wake_after(alloc, pace, time, again, job, jobs),
        None => begin(alloc, time, true, jobs),
    }
}

fn wake_after(
    alloc: Global,
    pace: Pace,
    time: u64,
    again: bool,
    job: Job,
    jobs: &mut Vec<Job>,
) -> Result<(), Memory>
    ensures { OnOk result (jobs_listed jobs.new.items ≡ spec.woken_jobs pace time again (job_read job ∷ jobs_listed jobs.old.items)) }
{
    match job.end {
        End::Open => put(job.counted(again), jobs),
        End::Ended(_) => wake_again(alloc, pace, time, job, jobs),
        End::Lost(_) => {
            put(job, jobs)?;
            begin(alloc, time, true, jobs)
        }
    }
}

/// After the last job has ended: it goes on, or another one begins.
fn wake_again(
    alloc: Global,
    pace: Pace,
    time: u64,
    job: Job,
    jobs: &mut Vec<Job>,
) -> Result<(), Memory>
    ensures { OnOk result (jobs_listed jobs.new.items ≡ spec.woken_after pace time (job_read job) (jobs_listed jobs.old.items)) }
{
    if !is_within(time, job.begin, pace.apart) {
        begin_behind(alloc, pace.period, time, job, jobs)
    } else if job.begin_known {
        put(job.reopened(), jobs)
    } else {
        put(job, jobs)?;
        begin(alloc, time, false, jobs)
    }
}

/// Whether a time is less than `apart` after the begin.
fn is_within(time: u64, begin: u64, apart: u64) -> bool
    ensures { result ≡ nat_lt time (begin + apart) }
{
    match begin.checked_add(apart) {
        Some(end) => time < end,
        None => true,
    }
}

/// The thread is found to run, and wasn't seen to come.
#[tactic(auto, using(crate::proofs::Listed::jobs_listed_push))]
pub(crate) fn find(alloc: Global, time: u64, known: bool, jobs: &mut Vec<Job>) -> Result<(), Memory>
    ensures { OnOk result (jobs_listed jobs.new.items ≡ spec.found_jobs time known (jobs_listed jobs.old.items)) }
{
    match jobs.pop() {
        Some(job) => find_after(alloc, time, known, job, jobs),
        None => begin(alloc, time, known, jobs),
    }
}

fn find_after(
    alloc: Global,
    time: u64,
    known: bool,
    job: Job,
    jobs: &mut Vec<Job>,
) -> Result<(), Memory>
    ensures { OnOk result (jobs_listed jobs.new.items ≡ spec.found_jobs time known (job_read job ∷ jobs_listed jobs.old.items)) }
{
    match job.end {
        End::Open => put(job, jobs),
        End::Ended(_) | End::Lost(_) => {
            put(job, jobs)?;
            begin(alloc, time, known, jobs)
        }
    }
}

/// The thread comes, where jobs begin at wake-ups.
#[tactic(auto, using(crate::proofs::Listed::jobs_listed_push))]
pub(crate) fn come(
    alloc: Global,
    pace: Pace,
    time: u64,
    woken: Woken,
    jobs: &mut Vec<Job>,
) -> Result<(), Memory>
    ensures { OnOk result (jobs_listed jobs.new.items ≡ spec.come_jobs pace time woken (jobs_listed jobs.old.items)) }
{
    match jobs.pop() {
        Some(job) => come_after(alloc, pace, time, woken, job, jobs),
        None => begin(alloc, time, false, jobs),
    }
}

fn come_after(
    alloc: Global,
    pace: Pace,
    time: u64,
    woken: Woken,
    job: Job,
    jobs: &mut Vec<Job>,
) -> Result<(), Memory>
    ensures { OnOk result (jobs_listed jobs.new.items ≡ spec.come_jobs pace time woken (job_read job ∷ jobs_listed jobs.old.items)) }
{
    match job.end {
        End::Ended(end) if woken.seen => { come_back(alloc, pace, time, end, woken, job, jobs) }
        End::Open => put(job, jobs),
        End::Ended(_) | End::Lost(_) => {
            put(job, jobs)?;
            begin(alloc, time, false, jobs)
        }
    }
}

/// Its thread left to sleep at the end, and comes back; perhaps a wake-up was started before it left.
fn come_back(
    alloc: Global,
    pace: Pace,
    time: u64,
    end: u64,
    woken: Woken,
    job: Job,
    jobs: &mut Vec<Job>,
) -> Result<(), Memory>
    ensures { OnOk result (jobs_listed jobs.new.items ≡ spec.back_jobs pace time end woken.ever woken.started (job_read job) (jobs_listed jobs.old.items)) }
{
    match woken.started {
        Some(before) => wake_again(alloc, pace, before, job, jobs),
        None if woken.ever && job.slept.is_none() => put(job.went_on(end), jobs),
        None => {
            put(job.unended(end), jobs)?;
            begin(alloc, time, false, jobs)
        }
    }
}

/// The thread runs, where jobs begin at their first run.
#[tactic(auto, using(crate::proofs::Listed::jobs_listed_push))]
pub(crate) fn start_running(
    alloc: Global,
    pace: Pace,
    time: u64,
    jobs: &mut Vec<Job>,
) -> Result<(), Memory>
    ensures { OnOk result (jobs_listed jobs.new.items ≡ spec.running_jobs pace time (jobs_listed jobs.old.items)) }
{
    match jobs.pop() {
        Some(job) => running_after(alloc, pace, time, job, jobs),
        None => begin(alloc, time, false, jobs),
    }
}

fn running_after(
    alloc: Global,
    pace: Pace,
    time: u64,
    job: Job,
    jobs: &mut Vec<Job>,
) -> Result<(), Memory>
    ensures { OnOk result (jobs_listed jobs.new.items ≡ spec.running_jobs pace time (job_read job ∷ jobs_listed jobs.old.items)) }
{
    match job.end {
        End::Open => put(job, jobs),
        End::Ended(_) => wake_again(alloc, pace, time, job, jobs),
        End::Lost(_) => {
            put(job, jobs)?;
            begin(alloc, time, false, jobs)
        }
    }
}

/// The last job ends.
pub(crate) fn end_last(time: u64, jobs: &mut Vec<Job>)
    ensures { jobs_listed jobs.new.items ≡ spec.changed_last (spec.ended time) (jobs_listed jobs.old.items) }
{
    if let Some(job) = jobs.last_mut() {
        job.end = End::Ended(time);
    }
}

/// The last job ends, and its thread is over.
pub(crate) fn exit_last(time: u64, jobs: &mut Vec<Job>)
    ensures { jobs_listed jobs.new.items ≡ spec.changed_last (spec.exits time) (jobs_listed jobs.old.items) }
{
    if let Some(job) = jobs.last_mut() {
        job.end = End::Ended(time);
        job.exited = true;
    }
}

/// A coming of the last job's thread is missing.
pub(crate) fn mark_last(jobs: &mut Vec<Job>)
    ensures { jobs_listed jobs.new.items ≡ spec.changed_last spec.missing (jobs_listed jobs.old.items) }
{
    if let Some(job) = jobs.last_mut() {
        job.switch_missing = true;
    }
}

/// The last job has no known end from this time on.
pub(crate) fn lose_last(time: u64, jobs: &mut Vec<Job>)
    ensures { jobs_listed jobs.new.items ≡ spec.changed_last (spec.lost_job time) (jobs_listed jobs.old.items) }
{
    if let Some(job) = jobs.last_mut() {
        job.end = job.end.lost(time, job.slept);
    }
}

/// The last job ran.
#[tactic(auto, using(crate::proofs::Listed::jobs_listed_push))]
pub(crate) fn run_last(stretch: Stretch, jobs: &mut Vec<Job>) -> Result<(), Memory>
    ensures { OnOk result (jobs_listed jobs.new.items ≡ spec.changed_last (spec.ran stretch) (jobs_listed jobs.old.items)) }
{
    match jobs.pop() {
        Some(job) => put(job.ran(stretch)?, jobs),
        None => Ok(()),
    }
}

/// The open job began by this time, or one did.
#[tactic(auto, using(crate::proofs::Listed::jobs_listed_push))]
pub(crate) fn begin_by(alloc: Global, time: u64, jobs: &mut Vec<Job>) -> Result<(), Memory>
    ensures { OnOk result (jobs_listed jobs.new.items ≡ spec.begun_by time (jobs_listed jobs.old.items)) }
{
    match jobs.pop() {
        Some(job) => begin_by_after(alloc, time, job, jobs),
        None => begin(alloc, time, false, jobs),
    }
}

fn begin_by_after(alloc: Global, time: u64, job: Job, jobs: &mut Vec<Job>) -> Result<(), Memory>
    ensures { OnOk result (jobs_listed jobs.new.items ≡ spec.begun_by time (job_read job ∷ jobs_listed jobs.old.items)) }
{
    match job.end {
        End::Open => put(job.begun_by(time), jobs),
        End::Ended(_) | End::Lost(_) => {
            put(job, jobs)?;
            begin(alloc, time, false, jobs)
        }
    }
}

/// Whether the last job is open, or has ended with a wake-up that was started before.
pub(crate) fn is_awake(woken: Woken, jobs: &Vec<Job>) -> bool
    ensures { (on : Option Standing) → result ≡ spec.is_awake (record { jobs = jobs_listed jobs.now.items; on = on; woken = woken }) }
{
    match jobs.last() {
        Some(job) => match job.end {
            End::Open => true,
            End::Ended(_) => woken.seen && woken.started.is_some(),
            End::Lost(_) => false,
        },
        None => false,
    }
}

/// Whether a job of them is open.
pub(crate) fn has_open_job(jobs: &Vec<Job>) -> bool
    ensures { result ≡ spec.has_open_job (jobs_listed jobs.now.items) }
{
    match jobs.last() {
        Some(job) => match job.end {
            End::Open => true,
            End::Ended(_) | End::Lost(_) => false,
        },
        None => false,
    }
}

/// Whether the last job has ended.
pub(crate) fn has_ended(jobs: &Vec<Job>) -> bool
    ensures { result ≡ has_ended (jobs_listed jobs.now.items) }
{
    match jobs.last() {
        Some(job) => match job.end {
            End::Ended(_) => true,
            End::Open | End::Lost(_) => false,
        },
        None => false,
    }
}

/// Whether the last job has ended, and went on behind a sleep before, or no wake-up was ever seen.
pub(crate) fn slept_before(ever: bool, jobs: &Vec<Job>) -> bool
    ensures { result ≡ slept_before ever (jobs_listed jobs.now.items) }
{
    match jobs.last() {
        Some(job) => match job.end {
            End::Ended(_) => !ever || job.slept.is_some(),
            End::Open | End::Lost(_) => false,
        },
        None => false,
    }
}

/// Whether the thread was over with the last job.
pub(crate) fn has_exited(jobs: &Vec<Job>) -> bool
    ensures { result ≡ has_exited (jobs_listed jobs.now.items) }
{
    match jobs.last() {
        Some(job) => job.exited,
        None => false,
    }
}

/// Events were lost after this time.
pub(crate) fn lose_all(time: u64, jobs: &mut Vec<Job>)
    ensures { jobs_listed jobs.new.items ≡ map (spec.lost_job time) (jobs_listed jobs.old.items) }
{
    for job in jobs.iter_mut() {
        job.end = job.end.lost(time, job.slept);
    }
}

/// The same jobs once more.
pub(crate) fn copied(alloc: Global, jobs: &[Job]) -> Result<Vec<Job>, Memory>
    ensures { IfOk result (λ all. map job_read all.items ≡ map job_read jobs.now) }
{
    let mut all = Vec::with_capacity(alloc, jobs.len())?;
    for job in jobs {
        all.push(job.copied(alloc)?)?;
    }
    Ok(all)
}

/// The begin of the last job; 0 where there is none.
pub(crate) fn last_begin(jobs: &Vec<Job>) -> u64
    ensures { result ≡ last_begin (jobs_listed jobs.now.items) }
{
    match jobs.last() {
        Some(job) => job.begin,
        None => 0,
    }
}

/// Whether the first of these jobs began before the trace.
pub(crate) fn began_before(jobs: &[Job]) -> bool
    ensures { result ≡ began_before (map job_read jobs.now) }
{
    match jobs.first() {
        Some(job) => !job.begin_known,
        None => false,
    }
}

/// How many jobs from the first on begin before this time, the last job aside.
pub(crate) fn early(jobs: &[Job], boundary: u64) -> usize
    ensures earlier { All (λ job. job.begin < boundary) (take result jobs.now) }
    ensures last { 1 ≤ result → result < length jobs.now }
{
    for (index, job) in jobs.iter().enumerate() {
        if job.begin >= boundary || index + 1 >= jobs.len() {
            return index;
        }
    }
    0
}

/// Drops so many of the first items.
pub(crate) fn drop_first<T: Drop>(items: &mut Vec<T>, count: usize)
    requires { count ≤ vec_len items.old }
    ensures { items.new.items ≡ drop count items.old.items }
{
    drop(items.drain(..count));
}

/// How many stretches these jobs have, at most the greatest number of 64 bits.
pub(crate) fn count_stretches(jobs: &[Job]) -> u64
    ensures { result ≡ capped (sum_by stretches_in jobs.now) }
{
    let mut count: u64 = 0;
    for job in jobs {
        count = count.saturating_add(job.stretches.len() as u64);
    }
    count
}
