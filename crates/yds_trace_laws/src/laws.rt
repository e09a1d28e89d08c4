ghost use Rattle.yds_trace_laws.specs.Laws.{BeginsAreInTime, DocumentsAreFaithful, EndsAreKept, FeasibleMeansInTime, FrontsAreInfeasible, LatenessIsKept, NoneBeginsBefore, OrderIsKept, RunsHaveOwnUnits, SomeAreFaithful, SomeAreInTime, TasksHaveOwnTime, UnitsAreOwn, WorkNeedsASlot};
ghost use Rattle.yds_trace_laws.specs.Processors.{EachJobBelongs, EachRanWhereTold, JobsAreTheSame, NoneHasMoved, OnlyItsOwn, SharesAreTheWhole, UnseenAreTheSame};

/// A written time keeps order.
pub fn order_is_kept()
    ensures { OrderIsKept }
{}

/// Runs of stretches that end by a time are written to end by it.
pub fn ends_are_kept()
    ensures { EndsAreKept }
{}

/// An end that is a unit of time or more after a deadline is written after it.
pub fn lateness_is_kept()
    ensures { LatenessIsKept }
{}

/// Each job of a trace without a fault begins by the greatest time that a trace may have, and its deadline counts from no later one.
pub fn begins_are_in_time()
    ensures { BeginsAreInTime }
{}

/// No job of a trace without a fault that stands as it is begins before the trace's first line.
pub fn none_begins_before()
    ensures { NoneBeginsBefore }
{}

/// Where the document of some of a trace's jobs is feasible, each of them that is known to be late is late by less than a unit of time.
pub fn some_are_in_time()
    ensures { SomeAreInTime }
{}

/// Where a trace's document is feasible, each job that is known to be late is late by less than a unit of time.
pub fn feasible_means_in_time()
    ensures { FeasibleMeansInTime }
{}

/// A job with work and without a run, as a late one that can't stand as it is, makes a document infeasible.
pub fn work_needs_a_slot()
    ensures { WorkNeedsASlot }
{}

/// A front of a document that misses a run isn't feasible.
pub fn fronts_are_infeasible()
    ensures { FrontsAreInfeasible }
{}

/// No job and no run of the document of some of a trace's jobs is invented, and none is missing.
pub fn some_are_faithful()
    ensures { SomeAreFaithful }
{}

/// No job and no run of a trace's document is invented, and none is missing.
pub fn documents_are_faithful()
    ensures { DocumentsAreFaithful }
{}

/// No two tasks have a processor at the same time.
pub fn tasks_have_own_time()
    ensures { TasksHaveOwnTime }
{}

/// No unit of time is in runs of two tasks, in any units.
pub fn units_are_own()
    ensures { UnitsAreOwn }
{}

/// No unit of time of a trace's document is in runs of two tasks.
pub fn runs_have_own_units()
    ensures { RunsHaveOwnUnits }
{}

/// The same jobs are judged on each processor, and the same is said of them but for why one isn't written as it stands, and for
/// what a job that moved ran there, where each processor has that.
pub fn jobs_are_the_same()
    ensures { JobsAreTheSame }
{}

/// Of a job that moved, each processor has what it ran there, where that is asked for.
pub fn shares_are_the_whole()
    ensures { SharesAreTheWhole }
{}

/// Where that is asked for, a job that ran on the processor has there no stretch of another one.
pub fn only_its_own()
    ensures { OnlyItsOwn }
{}

/// Where that is asked for, no job is left out for having moved that ran on the processor.
pub fn none_has_moved()
    ensures { NoneHasMoved }
{}

/// Each stretch of a job is on a processor of which a line tells.
pub fn each_ran_where_told()
    ensures { EachRanWhereTold }
{}

/// Each job belongs to a processor that has documents.
pub fn each_job_belongs()
    ensures { EachJobBelongs }
{}

/// Processors of which no line tells are alike: no job belongs to them, and nothing is written of them.
pub fn unseen_are_the_same()
    ensures { UnseenAreTheSame }
{}
