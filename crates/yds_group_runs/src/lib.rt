//! The laws of Average Rate where jobs are put into groups whose windows may overlap, each with a run of its own. Each is
//! the contract of a call of no parameters that does nothing.
//!
//! It stands on `yds_cuts`, whose groups and energies it speaks of; on `yds_ratios` for how fast a run of Average Rate is
//! at each time; and on what both of these stand on. It carries the promise that what the groups' runs spend, together,
//! is a lower bound of what the run of all jobs spends, where no run rounded. No limit of a document stands in it.
#![tactic(auto)]

ghost use Rattle.yds_group_runs.specs.GroupRuns.{GroupRunsAboveASpeed, GroupRunsSpend};

/// Where no run rounded, the runs of Average Rate of groups of jobs do together no more above any speed than the run of all jobs.
pub fn group_runs_above_a_speed()
    ensures { GroupRunsAboveASpeed }
{}

/// So they spend together on the points, over the horizon of all jobs, at most what the run of all jobs spends, where each job is in a group
/// or no point has less power than the first.
pub fn group_runs_spend()
    ensures { GroupRunsSpend }
{}
