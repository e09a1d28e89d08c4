ghost use Rattle.yds_tasks.specs.KeptTasks.{IsTask};

/// A periodic task: it asks for a job at its offset and again after each period, each due so long after its
/// release. Times are in time units of the document.
#[derive(Clone, Copy, Debug, PartialEq, Eq)]
pub struct Task<'a> {
    /// Its name, at most `MAX_TASK_NAME` bytes: the job that comes k periods after the first is named after
    /// it, with a dot and k.
    pub name: &'a str,
    /// The release of its first job.
    pub offset: u32,
    /// The time from one release to the next, at least 1.
    pub period: u32,
    /// The time from a job's release to its deadline, at least 1.
    pub deadline: u32,
    /// The units of work that each job wants.
    pub work: u32,
    pub ghost kept: { IsTask (record { name = name.now; offset = offset; period = period; deadline = deadline; work = work }) },
}
