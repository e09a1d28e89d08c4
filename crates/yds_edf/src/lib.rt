//! Earliest deadline first: the queue of pending jobs, the filling of stretches of given capacities, the laying of what a
//! stretch serves, and the timetables of policies.
//!
//! It stands on `yds_model`, `yds_slots`, `yds_events` and `yds_timetable`. It carries the promise that where
//! the units confined between any release and any deadline are at most the capacity between them, every job gets all
//! its units inside its window, that laid slots fill their stretch at one speed, and that a policy's timetable serves in each
//! stretch what the policy sets. The policies stand on it, and admission does; the planner fills its groups by a search of
//! its own.
#![tactic(auto)]

mod blocks;
mod due_order;
mod engine;
mod filling;
mod laying;
pub mod limits;
mod pending;
mod policy;
mod policy_run;
mod queue;

pub use blocks::{PlacedUnits, block_end, group_end};
pub use due_order::Due;
pub use filling::fill;
pub use laying::lay;
pub use pending::PendingJobs;
pub use policy::{Policy, Setting};
pub use policy_run::{PolicyRun, PolicyTimetable, run_policy, serve_policy};
pub use queue::Queue;
pub use yds_timetable::Share;
