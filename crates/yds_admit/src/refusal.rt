use std::marker::Model;

/// A job that isn't admitted, and the interval that forces it.
///
/// The competing jobs are the jobs admitted before it, and itself. Those of them whose windows lie in the interval want
/// more work than the top speed can do there. Of all such intervals, from a release to a deadline of competing jobs, this
/// one begins first, and of those that begin there it ends first.
#[derive(Clone, Copy, Debug, PartialEq, Eq)]
pub struct Refusal {
    /// The job's number, from 0.
    pub job: u32,
    /// Where the interval begins, in time units.
    pub from: u32,
    /// Where it ends, in time units.
    pub to: u32,
    /// The work of the competing jobs whose windows lie in it, in units of work.
    pub work: u64,
}

impl Model for Refusal {
    ghost use Rattle.yds_model.specs.Admission.{Refusal as RefusalOfJob};

    ghost Value = { RefusalOfJob };

    ghost view = { λ r. record { job = r.job; from = r.from; to = r.to; work = r.work } };

    ghost inverse = { λ r. record { job = r.job; from = r.from; to = r.to; work = r.work } };
}
