//! The laws of admission, each as the contract of a call that does nothing.
ghost use Rattle.yds_laws.specs.AdmissionLaws.{ServedWhereRoom, AdmittedRunsAreWithinTop, RefusalsAreForced};

/// There is a feasible schedule at or below a top speed exactly where no interval, from a release to a deadline of the
/// jobs, has more work confined to it than the top speed times its length.
pub fn served_exactly_where_no_interval_is_overfull()
    ensures { ServedWhereRoom }
{}

/// No slot of the schedule of admitted jobs is faster than the top speed.
pub fn admitted_runs_are_within_the_top()
    ensures { AdmittedRunsAreWithinTop }
{}

/// Each job that isn't admitted has its interval: in it lie the windows of jobs, this one and admitted ones, whose work is more
/// than the top speed does there, so that no schedule at or below the top speed serves them.
#[tactic(auto, using(crate::proofs::Forced::refusals_are_forced))]
pub fn refusals_are_forced()
    ensures { RefusalsAreForced }
{}
