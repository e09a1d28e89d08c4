//! What is known of each task.
ghost use Rattle.std.specs.Prelude.{◌≡◌, ℕ, ◌+◌, ◌<◌, ◌≤◌, ◌^◌, ◌==◌, if◌then◌else◌, length, take, slice_index_or, sum_by, vec_len, is_some, IfOk, OnOk};
ghost use Rattle.std.specs.List.{list_any, All};
ghost use Rattle.yds_kernel.specs.Parts.{or_else, capped};
ghost use Rattle.yds_trace.specs.declared.followed.Followed.{Followed};
ghost use Rattle.yds_trace.specs.Asked.{is_number};
ghost use Rattle.yds_trace.specs.Following.{IsUnknown, IsTaken, IsLost, Forgets, pace_at, missing_among, place_of, first_before, jobs_in, stretches_of, some_waits};
ghost use Rattle.yds_trace.specs.Jobs.{earlier, stands_on};
ghost use Rattle.yds_trace.specs.Others.{is_waiting};
ghost use Rattle.yds_trace.specs.Steps.{stepped, pid_of};
ghost use Rattle.yds_trace.specs.Views.{known_read};

use crate::asked::Task;
use crate::job::{Leaving, Pace};
use crate::jobs::{began_before, count_stretches, drop_first, early, has_open_job};
use crate::known::{Known, stands_on};
use crate::step::{Place, Step, Whose};
use base::Memory;
use std::alloc::Global;

/// What is known of a task.
#[derive(Debug, Drop)]
pub(crate) struct Followed {
    /// Its jobs, and where its thread runs.
    pub known: Known,
    /// The number of its thread, where a line told it.
    pub pid: Option<u64>,
    /// How many of its first jobs are forgotten.
    pub forgotten: u64,
    /// Whether the first of these began before the trace.
    pub before: bool,
}

impl Followed {
    /// Takes an event: who leaves or is woken, and who comes, where that is the task of this number.
    fn take(
        &mut self,
        alloc: Global,
        asked: &[Task],
        number: usize,
        wakes: bool,
        event: &Telling,
    ) -> Result<(), Memory>
        requires { event.now.place ≡ place_of event.now.step }
        ensures { OnOk result (IsTaken (pace_at asked.now number) wakes (pid_of number event.now.first) (pid_of number event.now.second)
            event.now.step self.old self.new) }
    {
        let first = event.first.pid_of(number);
        let second = event.second.pid_of(number);
        if first.is_none() && second.is_none() && !event.place.is_at(self.known.on) {
            return Ok(());
        }
        let pace = pace_at(asked, number);
        self.known.step(
            alloc,
            pace,
            wakes,
            first.is_some(),
            second.is_some(),
            event.step,
        )?;
        self.pid = second.or(first).or(self.pid);
        Ok(())
    }

    /// Whether the first job of all began before the trace.
    pub(crate) fn first_before(&self) -> bool
        ensures { result ≡ first_before self.now }
    {
        if self.forgotten == 0 {
            began_before(&self.known.jobs)
        } else {
            self.before
        }
    }

    /// How many of the first jobs may be forgotten: they begin before this time, and the last one isn't among them. None is where
    /// the number of all that are forgotten didn't fit 64 bits.
    fn forgettable(&self, boundary: u64) -> usize
        ensures earlier { All (λ job. job.begin < boundary) (take result self.now.known.jobs.items) }
        ensures last { 1 ≤ result → result < length self.now.known.jobs.items }
        ensures fits { self.now.forgotten + result < 2 ^ 64 }
    {
        let count = early(&self.known.jobs, boundary);
        match self.forgotten.checked_add(count as u64) {
            Some(_) => count,
            None => 0,
        }
    }

    /// Whether the first job that is forgotten began before the trace, when so many more are.
    fn before_by(&self, count: usize) -> bool
        ensures { result ≡ (if count == 0 then self.now.before else first_before self.now) }
    {
        if count == 0 {
            self.before
        } else {
            self.first_before()
        }
    }

    /// Forgets the first jobs, which begin before this time.
    fn forget(&mut self, boundary: u64)
        ensures { Forgets boundary self.old self.new }
    {
        let count = self.forgettable(boundary);
        self.before = self.before_by(count);
        self.forgotten += count as u64;
        drop_first(&mut self.known.jobs, count);
    }

    /// Whether a job of it waits: it is open, and its thread has no processor.
    fn waits(&self) -> bool
        ensures { result ≡ is_waiting (known_read self.now.known) }
    {
        self.known.on.is_none() && has_open_job(&self.known.jobs)
    }

    /// How many stretches it has when it is closed, at most the greatest number of 64 bits.
    fn stretches(&self) -> u64
        ensures { result ≡ capped (stretches_of self.now) }
    {
        let count = count_stretches(&self.known.jobs);
        if self.known.on.is_some() {
            count.saturating_add(1)
        } else {
            count
        }
    }
}

/// What an event tells of the tasks.
#[derive(Clone, Copy, Debug, PartialEq, Eq)]
struct Telling {
    /// Who leaves or is woken.
    first: Whose,
    /// Who comes.
    second: Whose,
    step: Step,
    /// Of which other threads it tells something.
    place: Place,
}

impl Whose {
    /// Whether it is the task of this number.
    fn is(self, number: usize) -> bool
        ensures { result ≡ is_number number self.number }
    {
        match self.number {
            Some(other) => other == number,
            None => false,
        }
    }

    /// The number of the thread, where it is the task of this number.
    fn pid_of(self, number: usize) -> Option<u64>
        ensures { result ≡ pid_of number self }
    {
        match self.number {
            Some(other) if other == number => Some(self.pid),
            Some(_) | None => None,
        }
    }
}

/// What is known of so many tasks before the first line.
pub(crate) fn follow(alloc: Global, count: usize) -> Result<Vec<Followed>, Memory>
    ensures many { IfOk result (λ tasks. vec_len tasks ≡ count) }
    ensures each { IfOk result (λ tasks. (number : ℕ) (default : Followed) → number < count
        → IsUnknown (slice_index_or tasks.items number default)) }
{
    let mut tasks = Vec::with_capacity(alloc, count)?;
    for _ in 0..count {
        tasks.push(Followed {
            known: Known::new(alloc),
            pid: None,
            forgotten: 0,
            before: false,
        })?;
    }
    Ok(tasks)
}

/// Which wake-ups begin a job of this task, and when that is due.
fn pace_at(asked: &[Task], number: usize) -> Pace
    ensures { result ≡ pace_at asked.now number }
{
    match asked.get(number) {
        Some(task) => Pace {
            apart: task.apart,
            period: task.period,
        },
        None => Pace {
            apart: 0,
            period: 0,
        },
    }
}

/// Since when switches of these tasks are missing, before one by which these threads leave and come, if some are.
pub(crate) fn missing_among(
    tasks: &[Followed],
    wakes: bool,
    first: Whose,
    second: Whose,
    leaving: Leaving,
) -> Option<u64>
    ensures { result ≡ missing_among wakes first second leaving 0 tasks.now }
{
    let mut missing = None;
    for number in (0..tasks.len()).rev() {
        let (left, came) = (first.is(number), second.is(number));
        let since = tasks[number]
            .known
            .missing_since(wakes, left, came, leaving);
        missing = earlier(since, missing);
    }
    missing
}

/// The earlier one.
fn earlier(time: Option<u64>, other: Option<u64>) -> Option<u64>
    ensures { result ≡ earlier time other }
{
    match (time, other) {
        (Some(time), Some(other)) => Some(time.min(other)),
        (Some(time), None) => Some(time),
        (None, other) => other,
    }
}

/// Each task takes an event.
pub(crate) fn take_each(
    tasks: &mut Vec<Followed>,
    alloc: Global,
    asked: &[Task],
    wakes: bool,
    first: Whose,
    second: Whose,
    step: Step,
) -> Result<(), Memory>
    ensures many { OnOk result (vec_len tasks.new ≡ vec_len tasks.old) }
    ensures each { OnOk result ((number : ℕ) (default : Followed) → number < vec_len tasks.old
        → IsTaken (pace_at asked.now number) wakes (pid_of number first) (pid_of number second) step
        (slice_index_or tasks.old.items number default) (slice_index_or tasks.new.items number default)) }
{
    let event = Telling {
        first,
        second,
        step,
        place: step.place(),
    };
    if first.number.is_none() && second.number.is_none() && event.place == Place::Nowhere {
        return Ok(());
    }
    for number in 0..tasks.len() {
        let followed = &mut tasks[number];
        followed.take(alloc, asked, number, wakes, &event)?;
    }
    Ok(())
}

/// Events were lost after this time.
pub(crate) fn lose_each(tasks: &mut Vec<Followed>, time: u64)
    ensures many { vec_len tasks.new ≡ vec_len tasks.old }
    ensures each { (number : ℕ) (default : Followed) → number < vec_len tasks.old
        → IsLost time (slice_index_or tasks.old.items number default) (slice_index_or tasks.new.items number default) }
{
    for number in 0..tasks.len() {
        let followed = &mut tasks[number];
        followed.known.lose(time);
    }
}

/// Of each task the first jobs are forgotten that begin before this time.
pub(crate) fn forget_each(tasks: &mut Vec<Followed>, boundary: u64)
    ensures many { vec_len tasks.new ≡ vec_len tasks.old }
    ensures each { (number : ℕ) (default : Followed) → number < vec_len tasks.old
        → Forgets boundary (slice_index_or tasks.old.items number default) (slice_index_or tasks.new.items number default) }
{
    for number in 0..tasks.len() {
        let followed = &mut tasks[number];
        followed.forget(boundary);
    }
}

/// How many jobs are kept, at most the greatest number of 64 bits.
pub(crate) fn count_jobs(tasks: &[Followed]) -> u64
    ensures { result ≡ capped (sum_by jobs_in tasks.now) }
{
    let mut count: u64 = 0;
    for followed in tasks {
        count = count.saturating_add(followed.known.jobs.len() as u64);
    }
    count
}

/// How many stretches are kept, at most the greatest number of 64 bits.
pub(crate) fn count_all_stretches(tasks: &[Followed]) -> u64
    ensures { result ≡ capped (sum_by stretches_of tasks.now) }
{
    let mut count: u64 = 0;
    for followed in tasks {
        count = count.saturating_add(followed.stretches());
    }
    count
}

/// Whether a task runs on this processor.
pub(crate) fn runs_on(tasks: &[Followed], processor: u64) -> bool
    ensures { result ≡ list_any (λ followed. stands_on processor followed.known.on) tasks.now }
{
    tasks
        .iter()
        .any(|followed| stands_on(processor, followed.known.on))
}

/// Whether a task was the thread of this number.
pub(crate) fn has_number(tasks: &[Followed], pid: u64) -> bool
    ensures { result ≡ list_any (λ followed. is_number pid followed.pid) tasks.now }
{
    tasks.iter().any(|followed| followed.pid == Some(pid))
}

/// Whether a job of a task waits.
pub(crate) fn any_waits(tasks: &[Followed]) -> bool
    ensures { result ≡ some_waits tasks.now }
{
    tasks.iter().any(|followed| followed.waits())
}
