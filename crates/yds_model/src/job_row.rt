ghost use Rattle.std.specs.Prelude.{◌≡◌, ◌<◌, ◌≤◌, ◌↔◌, IsTrue};
ghost use Rattle.yds_model.specs.Job.{Job, IsJob};

use crate::limits::{MAX_TIME, MAX_WORK};
use std::marker::Model;

/// A job: it may run from its release to its deadline, and wants so much work in that window.
///
/// After the model of Yao, Demers and Shenker (FOCS 1995). A job of work 0 wants nothing.
#[derive(Clone, Copy, Debug, PartialEq, Eq)]
pub struct JobRow {
    /// The first time unit in which the job may run.
    pub release: u32,
    /// The time by which it has to be done, in time units.
    pub deadline: u32,
    /// The units of work that it wants.
    pub work: u32,
}

impl Model for JobRow {
    ghost use Rattle.yds_model.specs.Job.{Job, IsJob};

    ghost Value = { Job };

    ghost view = { λ r. record { release = r.release; deadline = r.deadline; work = r.work } };

    ghost invariant = { λ r. IsJob (record { release = r.release; deadline = r.deadline; work = r.work }) };

    ghost inverse = { λ j. record { release = j.release; deadline = j.deadline; work = j.work } };
}

impl JobRow {
    /// The job with this window, in time units, and this work.
    pub fn new(release: u32, deadline: u32, work: u32) -> JobRow
        requires { IsJob (record { release = release; deadline = deadline; work = work }) }
        ensures { result ≡ record { release = release; deadline = deadline; work = work } }
    {
        JobRow {
            release,
            deadline,
            work,
        }
    }

    /// Whether a job may have this window and this work: the window isn't empty, and both are within
    /// their limits.
    pub fn fits(release: u32, deadline: u32, work: u32) -> bool
        ensures { IsTrue result ↔ IsJob (record { release = release; deadline = deadline; work = work }) }
    {
        release < deadline && deadline <= MAX_TIME && work <= MAX_WORK
    }
}
