//! The jobs of one task.
ghost use Rattle.std.specs.Prelude.{◌≡◌, ◌≤◌};
ghost use Rattle.base.specs.declared.limits.TheConstants.{MAX_TIME};
ghost use Rattle.yds_model.specs.Job.{IsJob};
ghost use Rattle.yds_model.specs.Tasks.{nth_job, count_of_jobs, fills_horizon};
ghost use Rattle.yds_tasks.specs.Read.{task_read};

use crate::task::Task;
use yds_model::JobRow;

impl Task<'_> {
    /// How many jobs of the task are due by the horizon, without going through them.
    pub(crate) fn jobs_until(&self, horizon: u32) -> u32
        requires { horizon ≤ MAX_TIME }
        ensures { result ≡ count_of_jobs horizon (task_read self.now) }
    {
        let first = self.offset + self.deadline;
        if horizon < first {
            0
        } else {
            (horizon - first) / self.period + 1
        }
    }

    /// The job that comes `k` periods after the task's first.
    pub(crate) fn row(&self, k: u32) -> JobRow
        requires { IsJob (nth_job (task_read self.now) k) }
        ensures { result ≡ nth_job (task_read self.now) k }
    {
        let release = self.offset + k * self.period;
        JobRow::new(release, release + self.deadline, self.work)
    }

    /// Whether the task's jobs follow one another without a gap from 0 to the horizon.
    pub(crate) fn fills(&self, horizon: u32) -> bool
        ensures { result ≡ fills_horizon horizon (task_read self.now) }
    {
        self.offset == 0 && self.deadline == self.period && horizon % self.period == 0
    }
}
