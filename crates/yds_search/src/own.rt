ghost use Rattle.std.specs.Prelude.{◌≡◌, ◌*◌, ◌≤◌, length, sum_by};
ghost use Rattle.base.specs.declared.limits.TheConstants.{MAX_JOBS};

use crate::found::Group;

/// A job of a group, with its window as a range of places among the group's own stretches.
#[derive(Clone, Copy, Debug, PartialEq, Eq)]
pub(crate) struct OwnJob {
    /// The job's number.
    pub job: u32,
    /// Its work, in units of work.
    pub work: u32,
    /// The place of the first stretch of its window.
    pub first: u32,
    /// The place after the last one.
    pub end: u32,
}

/// A stretch of a group.
#[derive(Clone, Copy, Debug, PartialEq, Eq)]
pub(crate) struct OwnStretch {
    /// The stretch's number among all stretches, in order of time.
    pub stretch: u32,
    /// Its length, in time units.
    pub length: u32,
}

/// A group's own jobs and stretches.
#[derive(Clone, Copy, Debug)]
pub(crate) struct Own<'a> {
    /// Its jobs, in order of deadline and number.
    pub jobs: &'a [OwnJob],
    /// Its stretches, in order of time.
    pub stretches: &'a [OwnStretch],
}

impl Own<'_> {
    /// The work of the jobs in the length of the stretches.
    pub(crate) fn total(&self) -> Group
        requires few_jobs { length self.now.jobs.now ≤ MAX_JOBS }
        requires few_stretches { length self.now.stretches.now ≤ 2 * MAX_JOBS }
        ensures work { result.work ≡ sum_by (λ own. own.work) self.now.jobs.now }
        ensures length { result.length ≡ sum_by (λ own. own.length) self.now.stretches.now }
    {
        Group {
            work: work_of(self.jobs),
            length: length_of(self.stretches),
        }
    }
}

/// The work of these jobs, in units of work.
fn work_of(jobs: &[OwnJob]) -> u64
    requires { length jobs.now ≤ MAX_JOBS }
    ensures { result ≡ sum_by (λ own. own.work) jobs.now }
{
    let mut work: u64 = 0;
    for own in jobs {
        work += u64::from(own.work);
    }
    work
}

/// The length of these stretches, in time units.
fn length_of(stretches: &[OwnStretch]) -> u64
    requires { length stretches.now ≤ 2 * MAX_JOBS }
    ensures { result ≡ sum_by (λ own. own.length) stretches.now }
{
    let mut length: u64 = 0;
    for own in stretches {
        length += u64::from(own.length);
    }
    length
}
