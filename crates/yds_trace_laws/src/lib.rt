//! What follows from the definitions of a trace's document. Each law is the contract of a call of no parameters that does nothing.
//!
//! It stands on `yds_trace`, whose definitions the laws speak of, and on `yds_model` for what a feasible schedule is.
//! It carries the promise that a feasible document means what its reader takes it to mean: no job that is known to be late
//! by a unit of time or more is hidden in it.
#![tactic(auto)]

mod laws;

pub use laws::{
    begins_are_in_time, documents_are_faithful, each_job_belongs, each_ran_where_told,
    ends_are_kept, feasible_means_in_time, fronts_are_infeasible, jobs_are_the_same,
    lateness_is_kept, none_begins_before, none_has_moved, only_its_own, order_is_kept,
    runs_have_own_units, shares_are_the_whole, some_are_faithful, some_are_in_time,
    tasks_have_own_time, units_are_own, unseen_are_the_same, work_needs_a_slot,
};
