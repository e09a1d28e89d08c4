ghost use Rattle.std.specs.Prelude.{◌≡◌, ◌≤◌, ◌<◌, ◌+◌, ◌*◌, ◌∷◌, [], List, length, map, is_some, Some, None, OnOk, IsTrue, nat_le, sum_by};
ghost use Rattle.std.specs.List.{list_all, list_any};
ghost use Rattle.base.specs.declared.limits.TheConstants.{MAX_TASKS, MAX_TIME, MAX_JOBS};
ghost use Rattle.yds_model.specs.Tasks.{nth_job, jobs_of_tasks, horizon_of, fills_horizon, has_work, one_level};
ghost use Rattle.yds_model.specs.TaskReading.{count_of_all};
ghost use Rattle.yds_tasks.specs.KeptTasks.{IsTaskSet, with_task, task_at};
ghost use Rattle.yds_tasks.specs.Read.{task_read};

use crate::task::Task;
use std::alloc::{AllocFailed, Global};
use std::marker::Model;
use yds_model::JobRow;
use yds_model::limits::MAX_JOBS;

/// Tasks under a horizon, in the order of their lines, with as many jobs together as a document may have at
/// most, `MAX_JOBS`. A contract sees the horizon, if there is one, and the list of the tasks.
#[derive(Drop)]
pub struct TaskSet<'a> {
    horizon: Option<u32>,
    tasks: Vec<Task<'a>>,
    // How many jobs the tasks have together.
    jobs: u32,
    // The work of these jobs, in units of work.
    work: u64,
}

impl<'a> Model for TaskSet<'a> {
    ghost use Rattle.std.specs.Prelude.{map};
    ghost use Rattle.yds_model.specs.Tasks.{TaskSet as TasksUntil};
    ghost use Rattle.yds_tasks.specs.KeptTasks.{KeepsTasks};
    ghost use Rattle.yds_tasks.specs.Read.{task_read};

    ghost Value = { TasksUntil };

    ghost view = { λ s. record { horizon = s.horizon; tasks = map task_read s.tasks.items } };

    ghost invariant = { λ s. KeepsTasks (record { horizon = s.horizon; tasks = map task_read s.tasks.items }) s.jobs s.work };
}

impl<'a> TaskSet<'a> {
    /// No horizon and no tasks. Takes no memory.
    pub(crate) fn new(alloc: Global) -> TaskSet<'a>
        ensures { result ≡ record { horizon = None; tasks = [] } }
    {
        TaskSet {
            horizon: None,
            tasks: Vec::new(alloc),
            jobs: 0,
            work: 0,
        }
    }

    /// The tasks, in the order of their lines. Takes no memory.
    pub fn tasks(&self) -> &[Task<'a>]
        ensures tasks { map task_read result.now ≡ self.now.tasks }
        ensures kept { IsTaskSet self.now }
    {
        self.tasks.as_slice()
    }

    /// The time by which the jobs are due, in time units, or 0 where no line says it. Takes no memory.
    pub fn horizon(&self) -> u32
        ensures value { result ≡ horizon_of self.now }
        ensures within { result ≤ MAX_TIME }
    {
        self.horizon.unwrap_or(0)
    }

    /// Whether a line says the horizon.
    pub(crate) fn has_horizon(&self) -> bool
        ensures { result ≡ is_some self.now.horizon }
    {
        self.horizon.is_some()
    }

    /// How many jobs the tasks have together, at most `MAX_JOBS`. Takes no memory.
    pub fn jobs(&self) -> u32
        ensures count { result ≡ length (jobs_of_tasks self.now) }
        ensures few { result ≤ MAX_JOBS }
    {
        self.jobs
    }

    /// The job that comes `k` periods after the first of the task with this number, from 0, where it is due by
    /// the horizon. Takes no memory.
    pub fn row(&self, task: u32, k: u32) -> JobRow
        requires task { task < length self.now.tasks }
        requires due { (nth_job (task_at self.now.tasks task) k).deadline ≤ horizon_of self.now }
        ensures { result ≡ nth_job (task_at self.now.tasks task) k }
    {
        self.tasks[task as usize].row(k)
    }

    /// The one level of each plan of the jobs, its work and its length, or `None`. It is `Some` exactly where
    /// the jobs of every task follow one another without a gap from 0 to the horizon, and some task has work.
    /// Takes no memory.
    pub fn one_level(&self) -> Option<(u64, u64)>
        ensures { result ≡ one_level self.now }
    {
        let horizon = self.horizon?;
        let filled = all_fill(&self.tasks, horizon);
        if filled && have_work(&self.tasks) {
            Some((self.work, u64::from(horizon)))
        } else {
            None
        }
    }

    /// The horizon is said.
    pub(crate) fn begin(&mut self, horizon: u32)
        requires first { self.old.horizon ≡ None }
        requires within { (1 ≤ horizon) × (horizon ≤ MAX_TIME) }
        ensures { self.new ≡ record { horizon = Some horizon; tasks = self.old.tasks } }
    {
        self.horizon = Some(horizon);
    }

    /// Whether the jobs of one more task have room beside those of the others.
    pub(crate) fn has_room_for(&self, task: &Task<'_>) -> bool
        ensures { result ≡ nat_le (count_of_all (with_task self.now (task_read task.now))) MAX_JOBS }
    {
        self.jobs + task.jobs_until(self.horizon()) <= MAX_JOBS as u32
    }

    /// Adds a task after the others.
    pub(crate) fn add(&mut self, task: Task<'a>) -> Result<(), AllocFailed<Task<'a>>>
        requires horizon { IsTrue (is_some self.old.horizon) }
        requires few { length self.old.tasks < MAX_TASKS }
        requires room { count_of_all (with_task self.old (task_read task)) ≤ MAX_JOBS }
        ensures { OnOk result (self.new ≡ with_task self.old (task_read task.entry)) }
    {
        let count = task.jobs_until(self.horizon());
        self.tasks.push(task)?;
        self.jobs += count;
        self.work += u64::from(count) * u64::from(task.work);
        Ok(())
    }
}

/// Whether the jobs of each of these tasks follow one another without a gap from 0 to the horizon.
fn all_fill(tasks: &[Task<'_>], horizon: u32) -> bool
    ensures { result ≡ list_all (λ task. fills_horizon horizon (task_read task)) tasks.now }
{
    tasks.iter().all(|task| task.fills(horizon))
}

/// Whether one of these tasks has work.
fn have_work(tasks: &[Task<'_>]) -> bool
    ensures { result ≡ list_any (λ task. has_work (task_read task)) tasks.now }
{
    tasks.iter().any(|task| task.work >= 1)
}
