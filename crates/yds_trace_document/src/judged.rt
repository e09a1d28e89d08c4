//! A job that was asked for, and what becomes of it.
ghost use Rattle.std.specs.Prelude.{◌≤◌};
ghost use Rattle.yds_trace.specs.declared.limits.TheConstants.{MAX_TIME};

use crate::name::Name;
use yds_trace::{Job, Reason};

/// A job that was asked for, with what is known of it. Times are nanoseconds of the trace's clock.
#[derive(Clone, Copy, Debug)]
pub struct Judged<'a> {
    /// The number of its task, counted from 0.
    pub task: usize,
    pub name: Name<'a>,
    pub job: &'a Job,
    /// Its deadline; where its begin isn't known, the latest that it can be.
    pub due: u64,
    /// By how much it is known to be late, from its deadline to its end or to where it was last seen open.
    pub late: Option<u64>,
    /// Whether the lines don't tell if it is late.
    pub unsure: bool,
    /// Why it isn't written with its window and its runs, if it isn't.
    pub reason: Option<Reason>,
    pub ghost has_begin: { job.now.begin ≤ MAX_TIME },
}
